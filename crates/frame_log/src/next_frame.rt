//! The frame behind a gate.

ghost use Rattle.std.specs.Prelude.{◌≡◌, ◌<◌, ◌≤◌, ◌+◌, ◌^◌, true, length, drop, IfSome, IfOk, IfErr};
ghost use Rattle.std.specs.Int.{w64, to_be_bytes, from_be_bytes};
ghost use Rattle.disk_model.specs.declared.disk.TheConstants.{LOG_COUNT};
ghost use Rattle.disk_model.specs.Stretches.{OnlyRead};
ghost use Rattle.frame_log.specs.Calls.{Blames};
ghost use Rattle.frame_log.specs.Scanned.{IsGate, IsNext, NotNext, HasSize};
ghost use Rattle.frame_log.specs.declared.refusal.ScanRefusal.TheVariants.{Fault};

use crate::frame::OPEN;
use crate::reading::fill;
use crate::refusal::ScanRefusal;
use disk_model::Disk;
use std::alloc::Global;

// The body of the frame behind the gate at this place of a log of `len` bytes, or none where the gate is closed.
pub(crate) fn next_body<D: Disk>(
    alloc: Global,
    disk: &mut D,
    file: u8,
    len: u64,
    gate: u64,
) -> Result<Option<Vec<u8>>, ScanRefusal>
    requires file { file < LOG_COUNT }
    requires len { len ≤ 2 ^ 62 }
    requires gate { gate < len }
    requires told { IfSome (D.seen disk.old) (λ image. len ≡ length (image file)) }
    ensures found { IfOk result (λ found. IfSome (D.seen disk.old) (λ image.
        IsNext (drop gate (image file)) found)) }
    ensures inside { IfOk result (λ found. IfSome found (λ body. gate + 9 + length body.items < len)) }
    ensures refused { IfErr result (λ refusal. IfSome (D.seen disk.old) (λ image.
        NotNext gate (drop gate (image file)) refusal)) }
    ensures read { OnlyRead D.Disk disk.old disk.new }
    ensures cause { Blames Fault (D.faults disk.old) (D.faults disk.new) result }
{
    if !is_open(disk, file, len, gate)? {
        return Ok(None);
    }
    let size = size_at(disk, file, len, gate)?;
    let mut body = vec![in alloc; 0; size as usize]?;
    fill(disk, file, gate, gate + 9, &mut body)?;
    Ok(Some(body))
}

// Whether the gate at this place is open.
fn is_open<D: Disk>(disk: &mut D, file: u8, len: u64, gate: u64) -> Result<bool, ScanRefusal>
    requires file { file < LOG_COUNT }
    requires len { len ≤ 2 ^ 62 }
    requires gate { gate < len }
    requires told { IfSome (D.seen disk.old) (λ image. len ≡ length (image file)) }
    ensures found { IfOk result (λ is_open. IfSome (D.seen disk.old) (λ image.
        IsGate (drop gate (image file)) is_open)) }
    ensures refused { IfErr result (λ refusal. IfSome (D.seen disk.old) (λ image.
        NotNext gate (drop gate (image file)) refusal)) }
    ensures read { OnlyRead D.Disk disk.old disk.new }
    ensures cause { Blames Fault (D.faults disk.old) (D.faults disk.new) result }
{
    let mut byte = [0];
    fill(disk, file, gate, gate, &mut byte)?;
    Ok(byte[0] == OPEN)
}

// The length of the body of the frame whose open gate is at this place.
fn size_at<D: Disk>(disk: &mut D, file: u8, len: u64, gate: u64) -> Result<u64, ScanRefusal>
    requires file { file < LOG_COUNT }
    requires len { len ≤ 2 ^ 62 }
    requires gate { gate < len }
    requires told { IfSome (D.seen disk.old) (λ image. len ≡ length (image file)) }
    requires gate_open { IfSome (D.seen disk.old) (λ image. IsGate (drop gate (image file)) true) }
    ensures size { IfOk result (λ size. IfSome (D.seen disk.old) (λ image.
        HasSize (drop gate (image file)) size)) }
    ensures inside { IfOk result (λ size. gate + 9 + size < len) }
    ensures refused { IfErr result (λ refusal. IfSome (D.seen disk.old) (λ image.
        NotNext gate (drop gate (image file)) refusal)) }
    ensures read { OnlyRead D.Disk disk.old disk.new }
    ensures cause { Blames Fault (D.faults disk.old) (D.faults disk.new) result }
{
    if len - gate < 10 {
        return Err(ScanRefusal::Damaged { place: gate });
    }
    let mut bytes = [0; 8];
    fill(disk, file, gate, gate + 1, &mut bytes)?;
    let size = number_of(bytes);
    if size > len - gate - 10 {
        return Err(ScanRefusal::Damaged { place: gate });
    }
    Ok(size)
}

// The number that eight bytes spell, the highest first.
fn number_of(bytes: [u8; 8]) -> u64
    ensures number { result ≡ from_be_bytes w64 bytes }
    ensures spelled { to_be_bytes w64 result ≡ bytes }
{
    u64::from_be_bytes(bytes)
}
