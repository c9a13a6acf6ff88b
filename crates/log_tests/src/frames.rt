//! Crashes and faults at each device call, and the bytes of a log.

mod bytes;
mod faults;

use crate::fixtures::{Fail, landed, metered};
use disk_memory::{MemoryDisk, Meter, Plan};
use frame_log::{Frame, LogRefusal, scan};
use std::alloc::{AllocError, Global};
use std::process::Abort;

// A blank disk on which these calls fail, and all from the stop on.
fn blank(alloc: Global, failing: &[u64], stop: Option<u64>) -> Result<MemoryDisk, AllocError> {
    metered(alloc, &Meter::new(alloc, Plan::of(alloc, failing, stop)?)?)
}

// How many frames are in log 0.
fn frames(alloc: Global, disk: &mut MemoryDisk) -> Result<usize, Fail> {
    let (_, bodies) = scan(alloc, disk, 0)?;
    Ok(bodies.len())
}

// How many frames a crash leaves where so many bytes of each change since the last sync have landed.
fn left(alloc: Global, disk: &MemoryDisk, counts: &[u64]) -> Result<usize, Fail> {
    let landed = landed(alloc, counts)?;
    let mut crashed = disk.after_crash(alloc, &landed, Meter::new(alloc, Plan::none(alloc))?)?;
    frames(alloc, &mut crashed)
}

// What an append leaves that stops at this call, and whether it is done.
fn appended(
    rt: &impl Abort,
    alloc: Global,
    frame: &Frame,
    stop: u64,
) -> Result<(MemoryDisk, bool), Fail> {
    let mut disk = blank(alloc, &[], Some(stop))?;
    let (mut log, bodies) = scan(alloc, &mut disk, 0)?;
    assert_eq!(rt; bodies.len(), 0);
    let is_done = log.append(&mut disk, frame).is_ok();
    Ok((disk, is_done))
}

// The frame is there once the append is done, and where its gate has landed.
fn check_appended(
    rt: &impl Abort,
    alloc: Global,
    disk: &MemoryDisk,
    stop: u64,
) -> Result<(), Fail> {
    for count in 0..14u64 {
        let added = stop == 4 || (stop == 3 && count > 0);
        let frames = left(alloc, disk, &[count])?;
        assert_eq!(rt; frames, usize::from(added), "{stop} {count}");
    }
    Ok(())
}

// A scan of a blank log makes two calls, an append four and a reset four.
#[test]
fn a_crash_in_an_append_leaves_the_old_frames_or_the_new(rt: HostRuntime) -> Result<(), Fail> {
    let alloc = rt.alloc();
    let frame = Frame::of(alloc, b"hi")?;
    for stop in 0..5u64 {
        let (disk, is_done) = appended(&rt, alloc, &frame, 2 + stop)?;
        assert_eq!(rt; is_done, stop == 4);
        check_appended(&rt, alloc, &disk, stop)?;
    }
    Ok(())
}

// What a reset of one frame leaves that stops at this call, and whether it is done.
fn reset(alloc: Global, frame: &Frame, stop: u64) -> Result<(MemoryDisk, bool), Fail> {
    let mut disk = blank(alloc, &[], Some(stop))?;
    let (mut log, _) = scan(alloc, &mut disk, 0)?;
    log.append(&mut disk, frame)?;
    let is_done = log.reset(&mut disk).is_ok();
    Ok((disk, is_done))
}

// The frame is there until the closed gate has landed.
fn check_reset(rt: &impl Abort, alloc: Global, disk: &MemoryDisk, stop: u64) -> Result<(), Fail> {
    for count in 0..3u64 {
        let kept = stop == 0 || (stop == 1 && count == 0);
        let frames = left(alloc, disk, &[count])?;
        assert_eq!(rt; frames, usize::from(kept), "{stop} {count}");
    }
    Ok(())
}

#[test]
fn a_crash_in_a_reset_leaves_the_old_frames_or_none(rt: HostRuntime) -> Result<(), Fail> {
    let alloc = rt.alloc();
    let frame = Frame::of(alloc, b"hi")?;
    for stop in 0..5u64 {
        let (disk, is_done) = reset(alloc, &frame, 6 + stop)?;
        assert_eq!(rt; is_done, stop == 4);
        check_reset(&rt, alloc, &disk, stop)?;
    }
    Ok(())
}

// What a revive leaves that stops at this call, and whether it is done. The append has failed at its third call.
fn revived(
    rt: &impl Abort,
    alloc: Global,
    frame: &Frame,
    stop: u64,
) -> Result<(MemoryDisk, bool), Fail> {
    let mut disk = blank(alloc, &[4], Some(stop))?;
    let (mut log, _) = scan(alloc, &mut disk, 0)?;
    assert_eq!(rt; log.append(&mut disk, frame), Err(LogRefusal::Fault));
    let is_done = log.revive(&mut disk).is_ok();
    Ok((disk, is_done))
}

// The frame is there where the open gate has landed and the closed one hasn't.
fn check_revived(rt: &impl Abort, alloc: Global, disk: &MemoryDisk, stop: u64) -> Result<(), Fail> {
    for [opened, closed] in [[0u64, 0], [0, 1], [1, 0], [1, 1]] {
        let added = opened > 0 && (stop == 0 || (stop == 1 && closed == 0));
        let frames = left(alloc, disk, &[opened, closed])?;
        assert_eq!(rt; frames, usize::from(added), "{stop} {opened} {closed}");
    }
    Ok(())
}

// The append has failed at its third call, so its gate may be open. A revive makes four calls.
#[test]
fn a_crash_in_a_revive_leaves_the_old_frames_in_the_end(rt: HostRuntime) -> Result<(), Fail> {
    let alloc = rt.alloc();
    let frame = Frame::of(alloc, b"hi")?;
    for stop in 0..5u64 {
        let (disk, is_done) = revived(&rt, alloc, &frame, 5 + stop)?;
        assert_eq!(rt; is_done, stop == 4);
        check_revived(&rt, alloc, &disk, stop)?;
    }
    Ok(())
}
