//! The two root logs.

ghost use Rattle.std.specs.Prelude.{◌≡◌, IfSome, IfOk, IfErr};
ghost use Rattle.disk_model.specs.Stretches.{OnlyRead};
ghost use Rattle.directory_reading.specs.declared.unread.LogBad.TheVariants.{Fault};
ghost use Rattle.frame_log.specs.Calls.{Blames};
ghost use Rattle.journal.specs.Reading.{AreRootLogs};
ghost use Rattle.journal.specs.Refusing.{AreUnreadRoots};

use crate::reading::read_roots;
use directory_reading::{LogBad, Newest, newest_root};
use disk_model::Disk;
use frame_log::Log;
use std::alloc::Global;

// The root logs, and their newest root, if they have roots.
#[derive(Drop)]
pub(crate) struct RootLogs {
    pub first: Log,
    pub second: Log,
    pub newest: Option<Newest>,
}

// Reads the root logs.
pub(crate) fn read_root_logs<D: Disk>(alloc: Global, disk: &mut D) -> Result<RootLogs, LogBad>
    ensures found { IfOk result (AreRootLogs D.Disk disk.old disk.new) }
    ensures refused { IfErr result (λ why. IfSome (D.seen disk.old) (λ image. AreUnreadRoots image why)) }
    ensures read { OnlyRead D.Disk disk.old disk.new }
    ensures cause { Blames Fault (D.faults disk.old) (D.faults disk.new) result }
{
    let (first, roots_0) = read_roots(alloc, disk, 2)?;
    let (second, roots_1) = read_roots(alloc, disk, 3)?;
    Ok(RootLogs {
        first,
        second,
        newest: newest_root(roots_0, roots_1),
    })
}
