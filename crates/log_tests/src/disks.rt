//! The disk model in memory, tried by crashes at each length of a write and stops at each call.

mod files;
mod worlds;

use crate::fixtures::{Fail, landed, metered};
use disk_memory::{MemoryDisk, Meter, Plan, blank_logs, blank_store};
use disk_model::{Disk, Failed, Store};
use std::alloc::{AllocError, Global};
use std::process::Abort;

fn append(disk: &mut MemoryDisk, bytes: &[u8; 3]) -> Result<(), Failed> {
    let end = disk.len(0)?;
    if end > 1_000_000 {
        return Err(Failed);
    }
    disk.write_at(0, end, bytes)
}

fn content(alloc: Global, disk: &mut MemoryDisk) -> Result<Vec<u8>, Fail> {
    let mut bytes = [0u8; 16];
    let count = disk.read_at(0, 0, &mut bytes)?;
    Ok(bytes[..count].to_vec(alloc)?)
}

// The disk that a crash leaves.
fn crashed(
    alloc: Global,
    disk: &MemoryDisk,
    landed: &[Vec<u64>],
) -> Result<MemoryDisk, AllocError> {
    disk.after_crash(alloc, landed, Meter::new(alloc, Plan::none(alloc))?)
}

// What a crash leaves of log 0.
fn left(alloc: Global, disk: &MemoryDisk, landed: &[Vec<u64>]) -> Result<Vec<u8>, Fail> {
    let mut disk = crashed(alloc, disk, landed)?;
    content(alloc, &mut disk)
}

// What a crash leaves of log 0 where so many bytes of its one change have landed.
fn check_torn(
    rt: &impl Abort,
    alloc: Global,
    disk: &MemoryDisk,
    (count, want): (u64, &[u8]),
) -> Result<(), Fail> {
    let counts = landed(alloc, &[count])?;
    let bytes = left(alloc, disk, &counts)?;
    assert_eq!(rt; bytes.as_slice(), want, "at {count}");
    Ok(())
}

// Once the write is synced, a crash leaves all of it.
fn check_synced(rt: &impl Abort, alloc: Global, disk: &mut MemoryDisk) -> Result<(), Fail> {
    disk.sync(0)?;
    let bytes = left(alloc, disk, &[])?;
    assert_eq!(rt; bytes.as_slice(), b"\0abc".as_slice());
    Ok(())
}

// A crash may undo a cut, which is read at once.
fn check_cut(rt: &impl Abort, alloc: Global, disk: &mut MemoryDisk) -> Result<(), Fail> {
    disk.cut(0, 0)?;
    let bytes = left(alloc, disk, &[])?;
    assert_eq!(rt; bytes.as_slice(), b"\0abc".as_slice());
    assert_eq!(rt; content(alloc, disk)?.len(), 0);
    Ok(())
}

// A disk whose log 0 has an unsure write.
fn appended(alloc: Global) -> Result<MemoryDisk, Fail> {
    let Store { mut disk, .. } = blank_store(alloc)?;
    append(&mut disk, b"abc")?;
    Ok(disk)
}

#[test]
fn a_torn_write_leaves_each_beginning(rt: HostRuntime) -> Result<(), Fail> {
    let alloc = rt.alloc();
    let mut disk = appended(alloc)?;
    assert_eq!(rt; disk.unsure(0), 1);
    for row in [
        (0u64, b"\0".as_slice()),
        (1, b"\0a".as_slice()),
        (2, b"\0ab".as_slice()),
        (3, b"\0abc".as_slice()),
        (9, b"\0abc".as_slice()),
    ] {
        check_torn(&rt, alloc, &disk, row)?;
    }
    check_synced(&rt, alloc, &mut disk)?;
    check_cut(&rt, alloc, &mut disk)
}

fn write_over(disk: &mut MemoryDisk, place: u64, bytes: &[u8; 6]) -> Result<(), Failed> {
    let end = disk.len(0)?;
    if place > end || end > 1_000_000 {
        return Err(Failed);
    }
    disk.write_at(0, place, bytes)
}

// A disk whose log 0 has these bytes.
fn holding(alloc: Global, bytes: &[u8]) -> Result<MemoryDisk, AllocError> {
    let mut contents = blank_logs(alloc)?;
    contents[0] = bytes.to_vec(alloc)?;
    MemoryDisk::new(alloc, contents, Meter::new(alloc, Plan::none(alloc))?)
}

#[test]
fn a_torn_write_over_bytes_leaves_the_rest(rt: HostRuntime) -> Result<(), Fail> {
    let alloc = rt.alloc();
    let mut disk = holding(alloc, b"abcdef")?;
    write_over(&mut disk, 3, b"uvwxyz")?;
    for (count, want) in [
        (0u64, "abcdef"),
        (1, "abcuef"),
        (2, "abcuvf"),
        (3, "abcuvw"),
        (4, "abcuvwx"),
        (5, "abcuvwxy"),
        (6, "abcuvwxyz"),
    ] {
        check_torn(&rt, alloc, &disk, (count, want.as_bytes()))?;
    }
    Ok(())
}

// A write that succeeds, and one that fails.
fn check_fault(rt: &impl Abort, disk: &mut MemoryDisk, calls: &Meter) -> Result<(), Fail> {
    append(disk, b"abc")?;
    assert_eq!(rt; calls.made(), 2);
    assert!(rt; append(disk, b"def").is_err());
    assert_eq!(rt; (disk.faults(), disk.unsure(0)), (1, 2));
    Ok(())
}

// The last write before the stop, and calls behind it.
fn check_stop(rt: &impl Abort, disk: &mut MemoryDisk) -> Result<(), Fail> {
    append(disk, b"ghi")?;
    assert!(rt; disk.sync(0).is_err());
    assert!(rt; disk.len(0).is_err());
    assert_eq!(rt; (disk.faults(), disk.unsure(0)), (3, 3));
    Ok(())
}

// All of the first write has landed, a byte of the second one, and nothing of the third one.
fn check_left(rt: &impl Abort, alloc: Global, disk: &MemoryDisk) -> Result<(), Fail> {
    let counts = landed(alloc, &[3, 1])?;
    let bytes = left(alloc, disk, &counts)?;
    assert_eq!(rt; bytes.as_slice(), b"\0abcd".as_slice());
    Ok(())
}

#[test]
fn nothing_changes_after_the_stop(rt: HostRuntime) -> Result<(), Fail> {
    let alloc = rt.alloc();
    let calls = Meter::new(alloc, Plan::of(alloc, &[3], Some(6))?)?;
    let mut disk = metered(alloc, &calls)?;
    check_fault(&rt, &mut disk, &calls)?;
    check_stop(&rt, &mut disk)?;
    check_left(&rt, alloc, &disk)
}
