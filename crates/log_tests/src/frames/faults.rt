//! Faults at each device call.

ghost use Rattle.frame_log.specs.LogStates.{IsWithin};

use super::{blank, left};
use crate::fixtures::{Fail, metered};
use disk_memory::{MemoryDisk, Meter, Plan};
use disk_model::Disk;
use frame_log::{Frame, Log, LogRefusal, scan};
use std::alloc::Global;
use std::process::Abort;

// A failed append takes the log down, and then each call is refused. Whether the gate was touched.
fn check_down<D: Disk>(rt: &impl Abort, log: &mut Log, disk: &mut D, frame: &Frame) -> bool
    requires { IsWithin log.old (D.seen disk.old) }
    ensures { IsWithin log.new (D.seen disk.new) }
{
    assert_eq!(rt; log.append(disk, frame), Err(LogRefusal::Fault));
    let touched = log.is_gate_unknown();
    assert!(rt; log.is_down());
    assert_eq!(rt; log.append(disk, frame), Err(LogRefusal::Down));
    assert_eq!(rt; log.reset(disk), Err(LogRefusal::Down));
    touched
}

// No frame is left, and nothing is unsure.
fn check_clean(rt: &impl Abort, alloc: Global, disk: &MemoryDisk) -> Result<(), Fail> {
    assert_eq!(rt; (left(alloc, disk, &[14])?, disk.unsure(0)), (0, 0));
    Ok(())
}

// Whether a failed append touched the gate, and how many calls were made before the revive and behind it.
type Revival = (bool, u64, u64);

// The frame is added once the log is revived.
fn added_at_last(
    rt: &impl Abort,
    alloc: Global,
    disk: &mut MemoryDisk,
    calls: &Meter,
    frame: &Frame,
) -> Result<Revival, Fail> {
    let (mut log, _) = scan(alloc, disk, 0)?;
    let touched = check_down(rt, &mut log, disk, frame);
    let before = calls.made();
    log.revive(disk)?;
    let revival = (touched, before, calls.made());
    check_clean(rt, alloc, disk)?;
    log.append(disk, frame)?;
    Ok(revival)
}

fn check_fault(
    rt: &impl Abort,
    alloc: Global,
    frame: &Frame,
    (failing, wanted): (u64, Revival),
) -> Result<(), Fail> {
    let calls = Meter::new(alloc, Plan::of(alloc, &[failing], None)?)?;
    let mut disk = metered(alloc, &calls)?;
    let revival = added_at_last(rt, alloc, &mut disk, &calls, frame)?;
    assert_eq!(rt; (revival, left(alloc, &disk, &[14])?), (wanted, 1));
    Ok(())
}

// The last two of an append's calls touch the gate, which a revive then closes by two calls more.
#[test]
fn each_fault_is_revived(rt: HostRuntime) -> Result<(), Fail> {
    let alloc = rt.alloc();
    let frame = Frame::of(alloc, b"hi")?;
    for row in [
        (2u64, (false, 3u64, 5u64)),
        (3, (false, 4, 6)),
        (4, (true, 5, 9)),
        (5, (true, 6, 10)),
    ] {
        check_fault(&rt, alloc, &frame, row)?;
    }
    Ok(())
}

// What a reset of one frame returns, and whether the log is empty after a revive.
fn reset_at_last(
    alloc: Global,
    disk: &mut MemoryDisk,
    frame: &Frame,
) -> Result<(Result<(), LogRefusal>, bool), Fail> {
    let (mut log, _) = scan(alloc, disk, 0)?;
    log.append(disk, frame)?;
    let answer = log.reset(disk);
    log.revive(disk)?;
    Ok((answer, log.is_empty()))
}

fn check_broken_reset(
    rt: &impl Abort,
    alloc: Global,
    frame: &Frame,
    failing: u64,
) -> Result<(), Fail> {
    let mut disk = blank(alloc, &[failing], None)?;
    let found = reset_at_last(alloc, &mut disk, frame)?;
    assert_eq!(rt; found, (Err(LogRefusal::Fault), true));
    assert_eq!(rt; (disk.len(0)?, disk.unsure(0)), (1, 0));
    Ok(())
}

#[test]
fn a_broken_reset_is_done_to_its_end(rt: HostRuntime) -> Result<(), Fail> {
    let alloc = rt.alloc();
    let frame = Frame::of(alloc, b"hi")?;
    for failing in 6..10u64 {
        check_broken_reset(&rt, alloc, &frame, failing)?;
    }
    Ok(())
}
