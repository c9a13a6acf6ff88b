//! Making the logs of an empty database.

ghost use Rattle.std.specs.Prelude.{◌≡◌, ◌⊎◌, IsSome, IfSome, IfOk, IfErr};
ghost use Rattle.directory_meaning.specs.Directories.{HasNoRoot, IsUsed, MakesShown};
ghost use Rattle.directory_meaning.specs.Laws.{no_bodies};
ghost use Rattle.directory_meaning.specs.Shown.{first_root};
ghost use Rattle.disk_model.specs.Causes.{HasCause};
ghost use Rattle.disk_model.specs.Stretches.{OnlyRead, Since};
ghost use Rattle.doc_meaning.specs.History.{settings_of};
ghost use Rattle.doc_model.specs.Settings.{HasShortNames};
ghost use Rattle.frame_log.specs.Calls.{Blames};
ghost use Rattle.frame_log.specs.LogStates.{IsEmpty, IsUp, IsWithin, file_of};
ghost use Rattle.journal.specs.JournalStates.{AreWithin, LogsRepresent};
ghost use Rattle.journal.specs.Making.{IsEmptyJournal};
ghost use Rattle.journal.specs.Opening.{MakesLogs, RefusesNewLogs};
ghost use Rattle.journal.specs.declared.refusal.MakeRefusal.TheVariants.{Fault};
ghost use Rattle.journal_bodies.specs.Roots.{SpellsRoot};

use crate::journal::Journal;
use crate::refusal::MakeRefusal;
use crate::root_logs::read_root_logs;
use crate::syncing::settle;
use disk_model::{Disk, Failed};
use doc_model::Settings;
use frame_log::{Frame, Log};
use journal_bodies::{Root, root_body};
use log_pair::{Current, LogPair};
use sqlite_items::Items;
use std::alloc::{AllocError, Global};

/// Makes the logs of an empty database with these settings, if no root log has a root.
///
/// Reads the root logs first, and syncs both. Then empties both journals, whatever they hold, and appends the first
/// root to log 2.
pub fn make<D: Disk>(
    alloc: Global,
    disk: &mut D,
    settings: &Settings,
) -> Result<Journal, MakeRefusal>
    requires { HasShortNames settings.now }
    ensures made { IfOk result (MakesLogs D.Disk settings.now disk.old disk.new) }
    ensures refused { IfErr result (RefusesNewLogs D.Disk disk.old disk.new) }
    ensures images { IsSome (D.seen disk.old) → MakesShown D.Disk (settings_of settings.now) disk.old disk.new }
    ensures used { IfSome (D.seen disk.old) (λ image. IsUsed image → OnlyRead D.Disk disk.old disk.new) }
    ensures cause { Blames Fault (D.faults disk.old) (D.faults disk.new) result }
{
    let roots = read_root_logs(alloc, disk)?;
    if roots.newest.is_some() {
        return Err(MakeRefusal::AlreadyThere);
    }
    let frame = first_frame(alloc, settings)?;
    let mut journal = empty_journal(disk, roots.first, roots.second)?;
    journal.append_root(disk, &frame, 0)?;
    Ok(journal)
}

// The frame of the first root.
fn first_frame(alloc: Global, settings: &Settings) -> Result<Frame, AllocError>
    requires { HasShortNames settings.now }
    ensures { IfOk result (λ frame. SpellsRoot frame (first_root settings.now)) }
{
    let root = Root {
        number: 1,
        checkpoint: 0,
        merge: 0,
        horizon: 0,
        next: 1,
        settings: settings.copy(alloc)?,
        parts: Items::new(alloc),
        removed: Items::new(alloc),
    };
    let body = root_body(alloc, &root)?;
    Frame::of(alloc, &body)
}

// Syncs the empty root logs, and empties both journals.
fn empty_journal<D: Disk>(disk: &mut D, root_0: Log, root_1: Log) -> Result<Journal, Failed>
    requires files { (file_of root_0 ≡ 2) × (file_of root_1 ≡ 3) }
    requires up { IsUp root_0 × IsUp root_1 }
    requires empty { IsEmpty root_0 × IsEmpty root_1 }
    requires within { IsWithin root_0 (D.seen disk.old) × IsWithin root_1 (D.seen disk.old) }
    ensures journal { IfOk result IsEmptyJournal }
    ensures represents { IfOk result (λ journal. IfSome (D.seen disk.old) (λ image. HasNoRoot image →
        LogsRepresent D.Disk journal disk.new no_bodies no_bodies)) }
    ensures images { IfSome (D.seen disk.old) (λ image. HasNoRoot image →
        Since D.Disk disk.old disk.new (λ c. D.may_leave disk.old c ⊎ HasNoRoot c)) }
    ensures within { IfOk result (λ journal. AreWithin journal (D.seen disk.new)) }
    ensures cause { HasCause (D.faults disk.old) (D.faults disk.new) result }
{
    settle(disk, 2)?;
    settle(disk, 3)?;
    let journal_0 = Log::blank(disk, 0)?;
    let journal_1 = Log::blank(disk, 1)?;
    Ok(Journal {
        entries: LogPair::new(journal_0, journal_1, Current::First),
        roots: LogPair::new(root_0, root_1, Current::First),
        frozen: None,
        broken_off: None,
    })
}
