//! Runs of the program over a directory.

ghost use Rattle.std.specs.Prelude.{IfOk};
ghost use Rattle.db_top.specs.Lending.{IsIdle};

use crate::directory::{Logs, blank, disk_of, left, plan};
use crate::script::{Faults, Script, no_faults};
use db_top::run;
use disk_memory::{
    MemoryDisk, MemoryPort, MemorySink, MemorySource, MemoryWorld, MemoryYard, Meter,
};
use disk_model::{Client, Disk, Store, World, Yard};
use std::alloc::{AllocError, Global};
use std::collections::VecDeque;

/// How a run ended, and its world.
#[derive(Drop)]
pub struct Ended {
    pub code: u8,
    pub world: MemoryWorld,
    /// How many device calls were made.
    pub calls: u64,
}

/// The words of a cell, each between two strokes.
fn words_of(alloc: Global, cell: &str) -> Result<Vec<String>, AllocError> {
    let mut words = Vec::new(alloc);
    for word in cell.strip_suffix('/').unwrap_or(cell).split('/').skip(1) {
        words.push(String::from_str(alloc, word)?)?;
    }
    Ok(words)
}

/// A world without directories, with one client that reads this.
fn world(
    alloc: Global,
    input: &[u8],
    piece: usize,
    faults: Faults,
) -> Result<MemoryWorld, AllocError>
    ensures { IfOk result (λ world.
        IsIdle ⟦<MemoryDisk as Disk>⟧ ⟦<MemoryYard as Yard>⟧ ⟦<MemoryWorld as World>⟧ world) }
{
    let source = plan(alloc, faults.read, None)?;
    let sink = plan(alloc, faults.write, None)?;
    let client = Client {
        source: MemorySource::new(input.to_vec(alloc)?, piece.max(1), source),
        sink: MemorySink::new(alloc, sink),
        port: MemoryPort::new(plan(alloc, None, None)?),
    };
    let mut waiting = VecDeque::new(alloc);
    let Ok(()) = waiting.push_back(client) else {
        return Err(AllocError);
    };
    Ok(MemoryWorld::new(alloc, waiting, plan(alloc, faults.world, None)?))
}

/// Runs with these words where the directory `d` has these logs, beside no sealed file.
pub fn ran(
    alloc: Global,
    logs: &Logs,
    words: &str,
    input: &[u8],
    piece: usize,
    faults: Faults,
) -> Result<Ended, AllocError> {
    let meter = Meter::new(alloc, plan(alloc, faults.device, faults.stop)?)?;
    let store = Store {
        disk: disk_of(alloc, logs, meter.share()?)?,
        yard: MemoryYard::new(alloc, meter.share()?),
    };
    let mut world = world(alloc, input, piece, faults)?;
    world.store_at("d", store)?;
    let words = words_of(alloc, words)?;
    let code = run(&(), alloc, &words, &mut world).code();
    Ok(Ended {
        code,
        world,
        calls: meter.made(),
    })
}

/// What a run leaves where so many bytes of each change that isn't sure are there.
pub fn logs_behind(alloc: Global, ended: &Ended, landed: u64) -> Result<Logs, AllocError> {
    match ended.world.store("d") {
        Some(store) => left(alloc, &store.disk, landed),
        None => blank(alloc),
    }
}

/// The logs of a database that was just made.
pub fn fresh(alloc: Global) -> Result<Logs, AllocError> {
    let ended = ran(alloc, &blank(alloc)?, "/init/d/", b"", 1, no_faults())?;
    logs_behind(alloc, &ended, 0)
}

/// A number that is counted from the end of the device calls of the opening.
fn behind(opening: u64, call: Option<u64>) -> Option<u64> {
    Some(opening.saturating_add(call?))
}

/// How many device calls a run makes that is asked nothing.
pub fn opening(alloc: Global, logs: &Logs) -> Result<u64, AllocError> {
    Ok(ran(alloc, logs, "/run/d/", b"", 1, no_faults())?.calls)
}

/// How many device calls go before those at which a fault of a script is to come: those of the opening.
pub fn calls_before(alloc: Global, logs: &Logs, script: &Script) -> Result<u64, AllocError> {
    let is_counted = script.faults.device.is_some() || script.faults.stop.is_some();
    if is_counted && script.words.is_none() {
        opening(alloc, logs)
    } else {
        Ok(0)
    }
}

/// What the script asks, over these logs. The device calls of its faults are counted after so many others.
pub fn ran_script(
    alloc: Global,
    logs: &Logs,
    script: &Script,
    faults: Faults,
    calls_before: u64,
) -> Result<Ended, AllocError> {
    let words = match &script.words {
        Some(words) => words.as_str(),
        None => "/run/d/",
    };
    let counted = Faults {
        device: behind(calls_before, faults.device),
        stop: behind(calls_before, faults.stop),
        ..faults
    };
    ran(alloc, logs, words, &script.input, script.piece, counted)
}

/// What the client was told. One that isn't back was told nothing.
pub fn told(ended: &Ended) -> &[u8] {
    match ended.world.client_back(0) {
        Some(client) => client.sink.bytes(),
        None => b"",
    }
}
