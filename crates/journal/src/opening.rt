//! Opening the logs of a directory.

ghost use Rattle.std.specs.Prelude.{◌≡◌, ◌≢◌, ◌≤◌, ◌+◌, ◌<◌, None, option_map, IsSome, IfSome, IfOk, IfErr, MatchOption, OnOk};
ghost use Rattle.directory_meaning.specs.Bodies.{RiseFrom};
ghost use Rattle.directory_meaning.specs.Directories.{KeepsShown};
ghost use Rattle.disk_model.specs.Stretches.{OnlyRead};
ghost use Rattle.frame_log.specs.Calls.{Blames};
ghost use Rattle.frame_log.specs.LogStates.{file_of};
ghost use Rattle.journal.specs.Assembling.{Assembles, IsDamagedAt, IsEntryPair, IsRootPair, ReadsAll};
ghost use Rattle.journal.specs.JournalStates.{AreWithin};
ghost use Rattle.journal.specs.Opening.{OpensLogs, RefusesLogs};
ghost use Rattle.journal.specs.Refusing.{NotScanned};
ghost use Rattle.journal.specs.declared.refusal.JournalRefusal.TheVariants.{Fault};
ghost use Rattle.log_pair.specs.PairStates as pair;
ghost use Rattle.log_pair.specs.PairStates.{first_of};

use crate::journal::Journal;
use crate::journals::read_journals;
use crate::refusal::JournalRefusal;
use crate::root_logs::{RootLogs, read_root_logs};
use crate::syncing::sync_all;
use directory_reading::{Frozen, Newest, Replay, replay_journals};
use disk_model::{Disk, FileName};
use doc_model::Entry;
use frame_log::Log;
use journal_bodies::Root;
use log_pair::{Current, LogPair};
use std::alloc::Global;

/// The content of a directory's logs.
#[derive(Debug, Drop)]
pub struct Scanned {
    pub root: Root,
    /// The entries past the root's checkpoint, each under its number.
    pub entries: Vec<(u64, Entry)>,
    /// The last entry of the journal that isn't current, if it has one past the checkpoint, and the merge timestamp
    /// after it.
    pub frozen: Option<Frozen>,
}

/// Reads the logs of a directory, and makes them ready for appending.
///
/// Syncs the four logs, and reads the root logs before the journals. So far it refuses a newest root that names files,
/// as damaged where it names them. Then it truncates each log after its last gate and syncs it, and resets the first
/// journal if no entry is past the checkpoint and neither journal is empty.
///
/// Takes time n log n in the bytes of the logs, and memory for the entries and for one body.
pub fn scan_all<D: Disk>(alloc: Global, disk: &mut D) -> Result<(Journal, Scanned), JournalRefusal>
    ensures opened { IfOk result (λ found. OpensLogs D.Disk disk.old disk.new found.0 found.1) }
    ensures refused { IfErr result (RefusesLogs D.Disk disk.old disk.new) }
    ensures images { IsSome (D.seen disk.old) → KeepsShown D.Disk disk.old disk.new }
    ensures cause { Blames Fault (D.faults disk.old) (D.faults disk.new) result }
{
    sync_all(disk)?;
    let read = read_all(alloc, disk)?;
    let mut journal = read.journal;
    journal.revive(disk)?;
    if read.resets_first {
        journal.restart(disk)?;
    }
    Ok((journal, read.scanned))
}

// The logs as they were read, and whether the first journal must be reset: the second one is current then.
#[derive(Drop)]
pub(crate) struct ReadAll {
    pub journal: Journal,
    pub scanned: Scanned,
    pub resets_first: bool,
}

// Reads the logs of a directory.
fn read_all<D: Disk>(alloc: Global, disk: &mut D) -> Result<ReadAll, JournalRefusal>
    ensures found { IfOk result (λ found. IfSome (D.seen disk.old) (λ image.
        ReadsAll D.Disk image disk.old disk.new found)) }
    ensures refused { IfErr result (λ why. IfSome (D.seen disk.old) (λ image. NotScanned image why)) }
    ensures rises { IfOk result (λ found. RiseFrom (found.scanned.root.checkpoint + 1) found.scanned.entries.items) }
    ensures within { IfOk result (λ found. AreWithin found.journal (D.seen disk.new)) }
    ensures read { OnlyRead D.Disk disk.old disk.new }
    ensures cause { Blames Fault (D.faults disk.old) (D.faults disk.new) result }
{
    let RootLogs {
        first,
        second,
        newest,
    } = read_root_logs(alloc, disk)?;
    let newest = newest.ok_or(JournalRefusal::NotThere)?;
    check_files(&newest)?;
    let logs = read_journals(alloc, disk)?;
    let replay = replay_journals(alloc, &newest.root, logs.entries_0, logs.entries_1)?;
    check_horizon(&newest, replay.merge)?;
    let entries = entry_pair(logs.first, logs.second, &replay);
    let roots = root_pair(first, second, newest.file);
    Ok(assemble(entries, roots, newest.root, replay))
}

// Refuses a root that names files, for as long as none are written.
fn check_files(newest: &Newest) -> Result<(), JournalRefusal>
    ensures none { OnOk result (newest.now.files ≡ None) }
    ensures some { IfErr result (λ why. MatchOption newest.now.files ⊥ (IsDamagedAt newest.now.file why)) }
{
    match newest.files {
        Some(place) => Err(damaged(newest.file, place)),
        None => Ok(()),
    }
}

// Refuses a root whose horizon is above the merge timestamp after all entries.
fn check_horizon(newest: &Newest, merge: u64) -> Result<(), JournalRefusal>
    ensures fits { OnOk result (newest.now.root.horizon ≤ merge) }
    ensures below { IfErr result (λ why. (merge < newest.now.root.horizon)
        × IsDamagedAt newest.now.file why newest.now.gate) }
{
    if merge < newest.root.horizon {
        return Err(damaged(newest.file, newest.gate));
    }
    Ok(())
}

// This log breaks a rule at this place.
fn damaged(file: u8, place: u64) -> JournalRefusal
    ensures { IsDamagedAt file result place }
{
    JournalRefusal::Damaged {
        file: FileName::Log(file),
        place,
    }
}

// The journals, of which one takes the next entry; the second one until the first one was reset.
fn entry_pair(first: Log, second: Log, replay: &Replay) -> LogPair
    requires { (file_of first ≡ 0) × (file_of second ≡ 1) }
    ensures { IsEntryPair first second replay.now.current replay.now.resets_first result }
{
    let current = if replay.current == 0 && !replay.resets_first {
        Current::First
    } else {
        Current::Second
    };
    LogPair::new(first, second, current)
}

// The root logs, of which the one with the newest root is current.
fn root_pair(first: Log, second: Log, newest: u8) -> LogPair
    requires { (file_of first ≡ 2) × (file_of second ≡ 3) }
    ensures { IsRootPair first second newest result }
{
    let current = if newest == 2 {
        Current::First
    } else {
        Current::Second
    };
    LogPair::new(first, second, current)
}

// Puts together what was read.
fn assemble(entries: LogPair, roots: LogPair, root: Root, replay: Replay) -> ReadAll
    requires journals { first_of entries ≡ 0 }
    requires root_logs { first_of roots ≡ 2 }
    requires up { pair.AreUp entries × pair.AreUp roots }
    ensures { Assembles entries roots root replay result }
{
    ReadAll {
        journal: Journal {
            entries,
            roots,
            frozen: last_of(replay.frozen),
            broken_off: None,
        },
        scanned: Scanned {
            root,
            entries: replay.entries,
            frozen: replay.frozen,
        },
        resets_first: replay.resets_first,
    }
}

// The last entry of a frozen journal.
fn last_of(frozen: Option<Frozen>) -> Option<u64>
    ensures { result ≡ option_map (λ f. f.entry) frozen }
{
    match frozen {
        Some(frozen) => Some(frozen.entry),
        None => None,
    }
}
