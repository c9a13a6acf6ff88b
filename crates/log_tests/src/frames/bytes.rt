//! The bytes of a log.

ghost use Rattle.std.specs.Prelude.{◌<◌, length};

use super::{blank, left};
use crate::fixtures::{Fail, metered};
use disk_memory::{MemoryDisk, Meter, Plan};
use disk_model::Disk;
use frame_log::{Frame, Log, ScanRefusal, scan};
use std::alloc::Global;
use std::process::Abort;

// A disk whose log 0 has these bytes, by two calls.
fn holding(alloc: Global, calls: &Meter, bytes: &[u8]) -> Result<MemoryDisk, Fail>
    requires { length bytes.now < 100 }
{
    let mut disk = metered(alloc, calls)?;
    disk.cut(0, 0)?;
    disk.write_at(0, 0, bytes)?;
    Ok(disk)
}

// What is left of these bytes where a blank log is made of them: the device calls, the first two of which write the
// bytes, the length, and how many frames.
fn blanked(alloc: Global, bytes: &[u8]) -> Result<(u64, u64, usize), Fail>
    requires { length bytes.now < 100 }
{
    let calls = Meter::new(alloc, Plan::none(alloc))?;
    let mut disk = holding(alloc, &calls, bytes)?;
    let _ = Log::blank(&mut disk, 0)?;
    Ok((calls.made(), disk.len(0)?, left(alloc, &disk, &[])?))
}

#[test]
fn a_blank_log_takes_the_place_of_any_bytes(rt: HostRuntime) -> Result<(), Fail> {
    let alloc = rt.alloc();
    let nothing = blanked(alloc, b"")?;
    let gate = blanked(alloc, b"\x4F")?;
    let frame = blanked(alloc, b"\x4F\0\0\0\0\0\0\0\x02hi\0rest")?;
    assert_eq!(rt; (nothing, gate, frame), ((6, 1, 0), (6, 1, 0), (6, 1, 0)));
    Ok(())
}

// Where the log ends with the first frame, and whether it is empty behind both.
fn append_both(
    alloc: Global,
    disk: &mut MemoryDisk,
    first: &Frame,
    second: &Frame,
) -> Result<(u64, bool), Fail> {
    let (mut log, _) = scan(alloc, disk, 0)?;
    let end = log.end_with(first);
    log.append(disk, first)?;
    log.append(disk, second)?;
    Ok((end, log.is_empty()))
}

// A frame of two bytes, and an empty one.
fn append_two(alloc: Global, disk: &mut MemoryDisk) -> Result<(u64, bool), Fail> {
    let first = Frame::of(alloc, b"hi")?;
    let second = Frame::of(alloc, b"")?;
    append_both(alloc, disk, &first, &second)
}

fn check_bytes(rt: &impl Abort, disk: &mut MemoryDisk, wanted: &[u8]) -> Result<(), Fail> {
    let mut bytes = [9; 32];
    let count = disk.read_at(0, 0, &mut bytes)?;
    assert_eq!(rt; &bytes[..count], wanted);
    Ok(())
}

fn check_bodies(rt: &impl Abort, alloc: Global, disk: &mut MemoryDisk) -> Result<(), Fail> {
    let (_, bodies) = scan(alloc, disk, 0)?;
    assert_eq!(rt; bodies.len(), 2);
    assert_eq!(rt; bodies[0].as_slice(), b"hi".as_slice());
    assert_eq!(rt; bodies[1].len(), 0);
    Ok(())
}

#[test]
fn the_bytes_of_a_log(rt: HostRuntime) -> Result<(), Fail> {
    let alloc = rt.alloc();
    let mut disk = blank(alloc, &[], None)?;
    assert_eq!(rt; append_two(alloc, &mut disk)?, (11, false));
    let wanted = b"\x4F\0\0\0\0\0\0\0\x02hi\x4F\0\0\0\0\0\0\0\0\0";
    check_bytes(&rt, &mut disk, wanted)?;
    check_bodies(&rt, alloc, &mut disk)
}

// What a scan of these bytes returns: how many frames, or the place of the damage.
fn found(alloc: Global, bytes: &[u8]) -> Result<Result<usize, u64>, Fail>
    requires { length bytes.now < 100 }
{
    let calls = Meter::new(alloc, Plan::none(alloc))?;
    let mut disk = holding(alloc, &calls, bytes)?;
    match scan(alloc, &mut disk, 0) {
        Ok((_, bodies)) => Ok(Ok(bodies.len())),
        Err(ScanRefusal::Damaged { place }) => Ok(Err(place)),
        Err(refusal) => Err(Fail::Scan(refusal)),
    }
}

// A log that ends before the gate behind its first frame is damaged at its beginning.
fn check_ends(rt: &impl Abort, alloc: Global) -> Result<(), Fail> {
    let nothing = found(alloc, b"")?;
    let gate = found(alloc, b"\x4F")?;
    let empty = found(alloc, b"\x4F\0\0\0\0\0\0\0\0")?;
    let full = found(alloc, b"\x4F\0\0\0\0\0\0\0\x02hi")?;
    assert_eq!(rt;
        (nothing, gate, empty, full),
        (Err(0), Err(0), Err(0), Err(0))
    );
    Ok(())
}

// A gate that isn't open ends the frames, whatever is behind it.
fn check_gates(rt: &impl Abort, alloc: Global) -> Result<(), Fail> {
    let one = found(alloc, b"\x4F\0\0\0\0\0\0\0\x02hi\x07\x4Frest")?;
    let none = found(alloc, b"\x4E\x4F")?;
    assert_eq!(rt; (one, none), (Ok(1), Ok(0)));
    Ok(())
}

#[test]
fn damaged_logs(rt: HostRuntime) -> Result<(), Fail> {
    let alloc = rt.alloc();
    check_ends(&rt, alloc)?;
    check_gates(&rt, alloc)?;
    let second = found(alloc, b"\x4F\0\0\0\0\0\0\0\0\x4F\0")?;
    let long = found(alloc, b"\x4F\x80\0\0\0\0\0\0\x02hi\0")?;
    assert_eq!(rt; (second, long), (Err(9), Err(0)));
    Ok(())
}
