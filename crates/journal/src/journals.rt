//! The two journals.

ghost use Rattle.std.specs.Prelude.{◌≡◌, IfSome, IfOk, IfErr};
ghost use Rattle.disk_model.specs.Stretches.{OnlyRead};
ghost use Rattle.directory_reading.specs.declared.unread.LogBad.TheVariants.{Fault};
ghost use Rattle.frame_log.specs.Calls.{Blames};
ghost use Rattle.journal.specs.Reading.{AreJournals};
ghost use Rattle.journal.specs.Refusing.{AreUnreadJournals};

use crate::reading::read_entries;
use directory_reading::{EntriesRead, LogBad};
use disk_model::Disk;
use frame_log::Log;
use std::alloc::Global;

// The journals, and the entries of each.
#[derive(Drop)]
pub(crate) struct Journals {
    pub first: Log,
    pub second: Log,
    pub entries_0: EntriesRead,
    pub entries_1: EntriesRead,
}

// Reads the journals.
pub(crate) fn read_journals<D: Disk>(alloc: Global, disk: &mut D) -> Result<Journals, LogBad>
    ensures found { IfOk result (AreJournals D.Disk disk.old disk.new) }
    ensures refused { IfErr result (λ why. IfSome (D.seen disk.old) (λ image. AreUnreadJournals image why)) }
    ensures read { OnlyRead D.Disk disk.old disk.new }
    ensures cause { Blames Fault (D.faults disk.old) (D.faults disk.new) result }
{
    let (first, entries_0) = read_entries(alloc, disk, 0)?;
    let (second, entries_1) = read_entries(alloc, disk, 1)?;
    Ok(Journals {
        first,
        second,
        entries_0,
        entries_1,
    })
}
