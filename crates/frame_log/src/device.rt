//! A write or a cut that is synced.

ghost use Rattle.std.specs.Prelude.{◌≡◌, ◌<◌, ◌≤◌, ◌+◌, ◌^◌, ℕ, length, IsSome, IfSome, OnOk, OnErr};
ghost use Rattle.disk_model.specs.declared.disk.TheConstants.{LOG_COUNT};
ghost use Rattle.disk_model.specs.Causes.{HasCause};
ghost use Rattle.disk_model.specs.Changes.{OnlyAt, Becomes};
ghost use Rattle.disk_model.specs.Logs.{Image, Writes, Cuts, Torn, MayCut, Settled};
ghost use Rattle.disk_model.specs.Stretches.{SparesOthers, Changed, Since};

use disk_model::{Disk, Failed};

/// Writes these bytes at this place, and syncs.
pub(crate) fn write_synced<D: Disk>(
    disk: &mut D,
    file: u8,
    place: u64,
    bytes: &[u8],
) -> Result<(), Failed>
    requires file { file < LOG_COUNT }
    requires place { IfSome (D.seen disk.old) (λ image. place ≤ length (image file)) }
    requires end { place + length bytes.now ≤ 2 ^ 62 }
    ensures written { OnOk result (Becomes (OnlyAt file (Writes place bytes.now)) (D.seen disk.old) (D.seen disk.new)) }
    ensures settled { OnOk result (Settled file (D.seen disk.new) (D.may_leave disk.new)) }
    ensures reaches { OnOk result (IfSome (D.seen disk.new) (λ image. place + length bytes.now ≤ length (image file))) }
    ensures longer { (n : ℕ) → IfSome (D.seen disk.old) (λ image. n ≤ length (image file))
        → IfSome (D.seen disk.new) (λ image. n ≤ length (image file)) }
    ensures others { SparesOthers D.Disk file disk.old disk.new }
    ensures torn { IsSome (D.seen disk.old) → Since D.Disk disk.old disk.new
        (Changed (D.may_leave disk.old) file (Torn place (length bytes.now))) }
    ensures cause { HasCause (D.faults disk.old) (D.faults disk.new) result }
{
    disk.write_at(file, place, bytes)?;
    disk.sync(file)?;
    Ok(())
}

/// Cuts the log to so many bytes, and syncs.
pub(crate) fn truncate_synced<D: Disk>(disk: &mut D, file: u8, len: u64) -> Result<(), Failed>
    requires file { file < LOG_COUNT }
    requires len { IfSome (D.seen disk.old) (λ image. len ≤ length (image file)) }
    requires end { len ≤ 2 ^ 62 }
    ensures longer { IfSome (D.seen disk.new) (λ image. len ≤ length (image file)) }
    ensures trimmed { OnOk result (IfSome (D.seen disk.new) (λ _.
        (c : Image) → D.may_leave disk.new c → length (c file) ≡ len)) }
    ensures others { SparesOthers D.Disk file disk.old disk.new }
    ensures cut { IsSome (D.seen disk.old) → Since D.Disk disk.old disk.new
        (Changed (D.may_leave disk.old) file (MayCut len)) }
    ensures cause { HasCause (D.faults disk.old) (D.faults disk.new) result }
{
    disk.cut(file, len)?;
    disk.sync(file)?;
    Ok(())
}
