//! A fault at the last device call of a put.

use super::{MemoryEngine, commit, empty, opened, reopened};
use disk_memory::{MemoryDisk, Meter, Plan};
use doc_engine::{CommitRefusal, Pending};
use std::alloc::Global;
use std::process::Abort;
use std::test::Fail;

/// No write of a put has so many bytes.
const MORE: u64 = 80;

// An engine over what a crash leaves of this disk.
fn over(alloc: Global, disk: &MemoryDisk, meter: &Meter) -> Result<MemoryEngine, Fail> {
    opened(alloc, disk.after_crash(alloc, &[], meter.share()?)?)
}

// How many device calls it takes to open this directory.
fn opening(alloc: Global, disk: &MemoryDisk) -> Result<u64, Fail> {
    let meter = Meter::new(alloc, Plan::none(alloc))?;
    let _ = over(alloc, disk, &meter)?;
    Ok(meter.made())
}

// An engine whose first put fails at its last sync, and how many calls it took to open it.
#[derive(Drop)]
struct Failing {
    engine: MemoryEngine,
    meter: Meter,
    opening: u64,
}

fn with_failing_put(alloc: Global) -> Result<Failing, Fail> {
    let disk = empty(alloc)?.close().disk;
    let opening = opening(alloc, &disk)?;
    let meter = Meter::new(alloc, Plan::of(alloc, &[opening.saturating_add(3)], None)?)?;
    Ok(Failing {
        engine: over(alloc, &disk, &meter)?,
        meter,
        opening,
    })
}

// The first put meets a fault, and the next one is refused by it.
fn check_refusals(rt: &impl Abort, alloc: Global, engine: &mut MemoryEngine) -> Result<(), Fail> {
    let refused = commit(alloc, engine, ("/a", "a"), None)?;
    assert!(rt; matches!(&refused, Err(CommitRefusal::Fault)));
    let refused = commit(alloc, engine, ("/b", "b"), None)?;
    assert!(rt; matches!(&refused, Err(CommitRefusal::Down { faults: 1 })));
    Ok(())
}

// The front that is found where so many bytes have landed.
fn front(alloc: Global, disk: &MemoryDisk, landed: u64) -> Result<u64, Fail> {
    Ok(reopened(alloc, disk, landed)?.front())
}

// Whether some crash leaves no entry, and whether some crash leaves one.
fn fronts(alloc: Global, disk: &MemoryDisk) -> Result<(bool, bool), Fail> {
    let mut found = (false, false);
    for landed in 0..MORE {
        match front(alloc, disk, landed)? {
            0 => found.0 = true,
            1 => found.1 = true,
            _ => return Err("there is one entry at most".into()),
        }
    }
    Ok(found)
}

// The log is down, the put is pending, and the front is as before.
fn check_pending(rt: &impl Abort, engine: &MemoryEngine) {
    assert!(rt; engine.is_down());
    assert_eq!(rt;
        (engine.front(), engine.pending()),
        (0, Some(Pending::Entry(1)))
    );
}

#[test]
fn a_put_whose_last_sync_fails_stays_pending(rt: HostRuntime) -> Result<(), Fail> {
    let alloc = rt.alloc();
    let Failing {
        mut engine,
        meter,
        opening,
    } = with_failing_put(alloc)?;
    check_refusals(&rt, alloc, &mut engine)?;
    assert_eq!(rt; meter.made(), opening.saturating_add(4));
    check_pending(&rt, &engine);
    assert_eq!(rt; fronts(alloc, &engine.close().disk)?, (true, true));
    Ok(())
}
