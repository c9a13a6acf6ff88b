//! Commits that are refused, and a fault.

mod commits;
mod faults;

use crate::fixtures::{object, plain_settings, put};
use disk_memory::{MemoryDisk, MemoryYard, Meter, Plan, blank_logs};
use doc_engine::{CommitRefusal, Engine};
use doc_model::{Node, Ops};
use std::alloc::{AllocError, Global};
use std::test::Fail;

type MemoryEngine = Engine<MemoryDisk, MemoryYard>;

// An engine over a directory that was made.
fn created(alloc: Global, meter: &Meter) -> Result<MemoryEngine, Fail> {
    let disk = MemoryDisk::new(alloc, blank_logs(alloc)?, meter.share()?)?;
    let yard = MemoryYard::new(alloc, meter.share()?);
    match Engine::create(alloc, disk, yard, plain_settings(alloc)) {
        Ok(engine) => Ok(engine),
        Err(_) => Err("it isn't made")?,
    }
}

// One of which no call fails.
fn empty(alloc: Global) -> Result<MemoryEngine, Fail> {
    created(alloc, &Meter::new(alloc, Plan::none(alloc))?)
}

// So many bytes of the first journal's last change.
fn of_the_first(alloc: Global, landed: u64) -> Result<Vec<Vec<u64>>, AllocError> {
    let first = [landed].to_vec(alloc)?;
    let mut logs = Vec::new(alloc);
    logs.push(first)?;
    Ok(logs)
}

// The disk that a crash leaves, where so many bytes of the first journal's last change have landed.
fn crashed(alloc: Global, disk: &MemoryDisk, landed: u64) -> Result<MemoryDisk, AllocError> {
    let logs = of_the_first(alloc, landed)?;
    let meter = Meter::new(alloc, Plan::none(alloc))?;
    disk.after_crash(alloc, &logs, meter)
}

// An engine over that disk.
fn reopened(alloc: Global, disk: &MemoryDisk, landed: u64) -> Result<MemoryEngine, Fail> {
    opened(alloc, crashed(alloc, disk, landed)?)
}

fn opened(alloc: Global, disk: MemoryDisk) -> Result<MemoryEngine, Fail> {
    let yard = MemoryYard::new(alloc, Meter::new(alloc, Plan::none(alloc))?);
    match Engine::open(alloc, disk, yard) {
        Ok(engine) => Ok(engine),
        Err(_) => Err("it isn't opened")?,
    }
}

// A commit that puts one document.
fn single(alloc: Global, uri: &str, root: Node, expect: Option<u64>) -> Result<Ops, Fail> {
    let op = put(alloc, uri, root, expect)?;
    let mut list = Vec::new(alloc);
    list.push(op)?;
    Ok(Ops::new(list)?)
}

// A commit that puts `{"t":TEXT}`.
fn one(alloc: Global, uri: &str, text: &str, expect: Option<u64>) -> Result<Ops, Fail> {
    single(alloc, uri, object(alloc, text)?, expect)
}

// What an engine answers to that commit.
fn commit(
    alloc: Global,
    engine: &mut MemoryEngine,
    (uri, text): (&str, &str),
    expect: Option<u64>,
) -> Result<Result<u64, CommitRefusal>, Fail> {
    Ok(engine.commit(one(alloc, uri, text, expect)?))
}
