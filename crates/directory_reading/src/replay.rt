//! Replaying two journals.

ghost use Rattle.std.specs.Prelude.{ℕ, List, ◌≡◌, ◌≤◌, ◌++◌, [], ◌&&◌, ◌||◌, not, IfOk, MatchOption, MatchResult};
ghost use Rattle.std.specs.Prelude.{option_map, slice_get, if◌then◌else◌};
ghost use Rattle.directory_meaning.specs.Bodies.{Bodies, last_of, past};
ghost use Rattle.directory_meaning.specs.Damages.{BreaksTurn};
ghost use Rattle.directory_reading.specs.Reading.{HasEntries, Replays};
ghost use Rattle.directory_reading.specs.Unread.{IsUnread};
ghost use Rattle.directory_reading.specs.Walking.{CanWalk, ComesLast, IsStop, Reads, ReplaysBoth, StopsIn};

use crate::entries::EntriesRead;
use crate::unread::LogBad;
use crate::walk::{ReplayPoint, walk};
use doc_model::Entry;
use journal_bodies::Root;
use std::alloc::{AllocError, Global};

/// The last entry of a frozen journal, and the merge timestamp after it.
#[derive(Clone, Copy, Debug, PartialEq, Eq)]
pub struct Frozen {
    pub entry: u64,
    pub merge: u64,
}

/// What two journals have past a root's checkpoint.
#[derive(Debug, Drop)]
pub struct Replay {
    /// The entries past the checkpoint, in order.
    pub entries: Vec<(u64, Entry)>,
    /// The merge timestamp after them.
    pub merge: u64,
    /// The journal that takes the next entry.
    pub current: u8,
    /// Whether the first journal must be reset before: no entry is past the checkpoint, and neither journal is empty.
    pub resets_first: bool,
    /// The end of the other journal, if it has entries past the checkpoint: it is frozen then.
    pub frozen: Option<Frozen>,
}

/// Replays the entries of two journals past a root's checkpoint, one journal after the other. Their numbers must rise
/// by one from the checkpoint on, and no forget may be to below the merge timestamp before it. Otherwise the place is
/// the gate of the first entry that breaks this. Entries up to the checkpoint are skipped wherever they are.
///
/// Takes time in the number of entries, and memory for at most one list of them. Never returns `Fault`.
pub fn replay_journals(
    alloc: Global,
    root: &Root,
    first: EntriesRead,
    second: EntriesRead,
) -> Result<Replay, LogBad>
    requires first { (bodies : List (List ℕ)) × HasEntries bodies first }
    requires second { (bodies : List (List ℕ)) × HasEntries bodies second }
    ensures { (bodies : Bodies) → HasEntries (bodies 0) first → HasEntries (bodies 1) second
        → MatchResult result (Replays root.now first.entries.items second.entries.items)
        (IsUnread (BreaksTurn bodies root.now)) }
{
    match current_of(root.checkpoint, &first.entries, &second.entries) {
        Some(0) => replay_both(root, 0, second, first),
        Some(_) => replay_both(root, 1, first, second),
        None => Ok(start_anew(
            alloc,
            root.merge,
            first.entries.is_empty(),
            second.entries.is_empty(),
        )),
    }
}

/// The journal that has the newest entries past a checkpoint.
fn current_of(checkpoint: u64, entries_0: &[(u64, Entry)], entries_1: &[(u64, Entry)]) -> Option<u8>
    ensures { MatchOption result ((past checkpoint entries_0.now ≡ []) × (past checkpoint entries_1.now ≡ []))
        (ComesLast checkpoint entries_0.now entries_1.now) }
{
    match (
        first_past(checkpoint, entries_0),
        first_past(checkpoint, entries_1),
    ) {
        (None, None) => None,
        (Some(_), None) => Some(0),
        (None, Some(_)) => Some(1),
        (Some(first), Some(second)) => Some(if first <= second { 1 } else { 0 }),
    }
}

/// The number of the first entry past a checkpoint.
fn first_past(checkpoint: u64, entries: &[(u64, Entry)]) -> Option<u64>
    ensures { result ≡ option_map (λ e. e.0) (slice_get (past checkpoint entries.now) 0) }
{
    for entry in entries {
        if entry.0 > checkpoint {
            return Some(entry.0);
        }
    }
    None
}

/// The number of the last entry past a checkpoint.
fn last_past(checkpoint: u64, entries: &[(u64, Entry)]) -> Option<u64>
    ensures { result ≡ last_of (past checkpoint entries.now) }
{
    let mut last = None;
    for entry in entries {
        if entry.0 > checkpoint {
            last = Some(entry.0);
        }
    }
    last
}

/// The end of a frozen journal whose last entry has this number, with the merge timestamp after it.
fn frozen_at(last: Option<u64>, merge: u64) -> Option<Frozen>
    ensures { result ≡ option_map (λ entry. record { entry = entry; merge = merge }) last }
{
    match last {
        Some(entry) => Some(Frozen { entry, merge }),
        None => None,
    }
}

/// Replays an earlier and a later journal. The later one has the newest entries.
fn replay_both(
    root: &Root,
    current: u8,
    earlier: EntriesRead,
    later: EntriesRead,
) -> Result<Replay, LogBad>
    requires journal { current ≤ 1 }
    requires earlier { CanWalk earlier }
    requires later { CanWalk later }
    ensures { MatchResult result (ReplaysBoth root.now current earlier.entries.items later.entries.items)
        (IsUnread (StopsIn root.now current earlier later)) }
{
    let checkpoint = root.checkpoint;
    let start = ReplayPoint {
        number: checkpoint,
        merge: root.merge,
    };
    let between = walk_in(1 - current, checkpoint, start, &earlier)?;
    let front = walk_in(current, checkpoint, between, &later)?;
    let frozen = frozen_at(last_past(checkpoint, &earlier.entries), between.merge);
    Ok(Replay {
        entries: joined(checkpoint, earlier.entries, later.entries)?,
        merge: front.merge,
        current,
        resets_first: false,
        frozen,
    })
}

/// The point after the entries of a journal past a checkpoint.
fn walk_in(
    file: u8,
    checkpoint: u64,
    from: ReplayPoint,
    read: &EntriesRead,
) -> Result<ReplayPoint, LogBad>
    requires { CanWalk read.now }
    ensures { MatchResult result (Reads from (past checkpoint read.now.entries.items))
        (IsUnread (IsStop file checkpoint from read.now)) }
{
    match walk(checkpoint, from, &read.entries) {
        Ok(front) => Ok(front),
        Err(frame) => Err(LogBad::at(file, read.gates[frame])),
    }
}

/// The entries past a checkpoint: those of the earlier journal, then those of the later one.
fn joined(
    checkpoint: u64,
    mut earlier: Vec<(u64, Entry)>,
    mut later: Vec<(u64, Entry)>,
) -> Result<Vec<(u64, Entry)>, AllocError>
    ensures { IfOk result (λ all. all.items ≡ past checkpoint earlier.items ++ past checkpoint later.items) }
{
    earlier.retain(|e| e.0 > checkpoint);
    later.retain(|e| e.0 > checkpoint);
    earlier.append(&mut later)?;
    Ok(earlier)
}

/// Replays two journals without entries past the checkpoint.
fn start_anew(alloc: Global, merge: u64, empty_0: bool, empty_1: bool) -> Replay
    ensures entries { result.entries.items ≡ [] }
    ensures merge { result.merge ≡ merge }
    ensures frozen { result.frozen ≡ None }
    ensures current { result.current ≡ (if empty_0 || not empty_1 then 0 else 1) }
    ensures resets { result.resets_first ≡ (not empty_0 && not empty_1) }
{
    Replay {
        entries: Vec::new(alloc),
        merge,
        current: if empty_0 || !empty_1 { 0 } else { 1 },
        resets_first: !empty_0 && !empty_1,
        frozen: None,
    }
}
