//! Entries followed one after the other.

ghost use Rattle.std.specs.Prelude.{◌≡◌, ◌≢◌, ◌⊎◌, ◌+◌, ◌≤◌, ◌∷◌, [], All, IsTrue, ◌↔◌, MatchOption, MatchResult};
ghost use Rattle.directory_meaning.specs.Bodies.{past};
ghost use Rattle.directory_meaning.specs.Damages.{IsBelow};
ghost use Rattle.doc_meaning.specs.History.{merge_after};
ghost use Rattle.directory_reading.specs.Walking.{Breaks, IsKept, Reads, StopsAt};

use doc_model::Entry;

/// How far entries were replayed: the number of the last one, and the merge timestamp after it.
#[derive(Clone, Copy)]
pub struct ReplayPoint {
    pub number: u64,
    pub merge: u64,
}

/// The point after the entries past a checkpoint, or the index of the first misplaced one.
pub fn walk(
    checkpoint: u64,
    from: ReplayPoint,
    entries: &[(u64, Entry)],
) -> Result<ReplayPoint, usize>
    requires { All IsKept entries.now }
    ensures { MatchResult result (Reads from (past checkpoint entries.now)) (StopsAt checkpoint from entries.now) }
{
    let mut front = from;
    for (k, entry) in entries.iter().enumerate() {
        if entry.0 > checkpoint {
            front = follow(front, entry).ok_or(k)?;
        }
    }
    Ok(front)
}

/// The point after an entry, unless the entry is misplaced.
fn follow(front: ReplayPoint, entry: &(u64, Entry)) -> Option<ReplayPoint>
    requires { IsKept entry.now }
    ensures { MatchOption result (Breaks front entry.now) (Reads front (entry.now ∷ [])) }
{
    if !is_next(front.number, entry.0) {
        return None;
    }
    let merge = merge_behind(front.merge, &entry.1)?;
    Some(ReplayPoint {
        number: entry.0,
        merge,
    })
}

/// The merge timestamp after an entry, unless the entry forgets to below the one before it.
fn merge_behind(merge: u64, entry: &Entry) -> Option<u64>
    ensures { MatchOption result (IsBelow merge entry.now)
        (λ m. (m ≡ merge_after merge (entry.now ∷ [])) × (IsBelow merge entry.now → ⊥)) }
{
    match entry {
        Entry::Commit(_) => Some(merge),
        Entry::Forget(to) if *to < merge => None,
        Entry::Forget(to) => Some(*to),
    }
}

/// Whether a number is its predecessor plus one.
fn is_next(before: u64, number: u64) -> bool
    ensures { IsTrue result ↔ (number ≡ before + 1) }
{
    number > 0 && number - 1 == before
}
