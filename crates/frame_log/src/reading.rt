//! Reading from a log until a buffer is full.

ghost use Rattle.std.specs.Prelude.{◌≡◌, ◌<◌, ◌≤◌, ◌+◌, ◌^◌, ℕ, length, take, drop, IfSome, IfOk, IfErr, OnOk};
ghost use Rattle.disk_model.specs.declared.disk.TheConstants.{LOG_COUNT};
ghost use Rattle.disk_model.specs.Causes.{HasCause};
ghost use Rattle.disk_model.specs.Stretches.{OnlyRead};
ghost use Rattle.frame_log.specs.Calls.{Blames};
ghost use Rattle.frame_log.specs.Scanned.{IsRead};
ghost use Rattle.frame_log.specs.declared.refusal.ScanRefusal.TheVariants.{Fault};

use crate::refusal::ScanRefusal;
use disk_model::{Disk, Failed};

// Fills `out` with the bytes from this place on. A read that returns 0 before the buffer is full is a damage at the
// gate; only a disk that doesn't tell its bytes can do so.
pub(crate) fn fill<D: Disk>(
    disk: &mut D,
    file: u8,
    gate: u64,
    place: u64,
    out: &mut [u8],
) -> Result<(), ScanRefusal>
    requires file { file < LOG_COUNT }
    requires end { place + length out.old ≤ 2 ^ 62 }
    requires within { IfSome (D.seen disk.old) (λ image. place + length out.old ≤ length (image file)) }
    ensures bytes { OnOk result (IfSome (D.seen disk.old) (λ image.
        out.new ≡ take (length out.old) (drop place (image file)))) }
    ensures refused { IfErr result (λ refusal. IfSome (D.seen disk.old) (λ _. refusal ≡ Fault)) }
    ensures read { OnlyRead D.Disk disk.old disk.new }
    ensures len { length out.new ≡ length out.old }
    ensures cause { Blames Fault (D.faults disk.old) (D.faults disk.new) result }
{
    let mut done = 0;
    while done < out.len() {
        let next = read_more(disk, file, place, out, done)?;
        if next == done {
            return Err(ScanRefusal::Damaged { place: gate });
        }
        done = next;
    }
    Ok(())
}

// Reads on behind the bytes that were read. Returns how many were read in all.
fn read_more<D: Disk>(
    disk: &mut D,
    file: u8,
    place: u64,
    out: &mut [u8],
    done: usize,
) -> Result<usize, Failed>
    requires file { file < LOG_COUNT }
    requires end { place + length out.old ≤ 2 ^ 62 }
    requires within { IfSome (D.seen disk.old) (λ image. place + length out.old ≤ length (image file)) }
    requires more { done < length out.old }
    ensures fits { IfOk result (λ n. (done ≤ n) × (n ≤ length out.old)) }
    ensures on { IfOk result (λ n. IfSome (D.seen disk.old) (λ _. done < n)) }
    ensures bytes { IfOk result (λ n. IfSome (D.seen disk.old) (λ image.
        IsRead (image file) place done out.old → IsRead (image file) place n out.new)) }
    ensures read { OnlyRead D.Disk disk.old disk.new }
    ensures len { length out.new ≡ length out.old }
    ensures cause { HasCause (D.faults disk.old) (D.faults disk.new) result }
{
    let count = disk.read_at(file, place + done as u64, &mut out[done..])?;
    Ok(done + count)
}
