//! The newest root.

ghost use Rattle.std.specs.Prelude.{◌≡◌, ◌<◌, ◌≤◌, ◌⊎◌, [], MatchOption};
ghost use Rattle.directory_meaning.specs.Bodies.{Bodies};
ghost use Rattle.directory_reading.specs.Reading.{HasNewest, IsNewestRoot};

use crate::roots::RootsRead;
use journal_bodies::Root;

/// The newest root so far, and where it is.
#[derive(Debug, Drop)]
pub struct Newest {
    /// The root log.
    pub file: u8,
    /// The place of the gate of its frame.
    pub gate: u64,
    /// If it names parts or files to be removed: the place of their count, of that of the parts if it names both.
    pub files: Option<u64>,
    pub root: Root,
}

/// The root of logs 2 and 3 with the greatest number, the first of equal ones.
pub fn newest_root(first: RootsRead, second: RootsRead) -> Option<Newest>
    ensures { (bodies : Bodies) → HasNewest 2 (bodies 2) first.newest → HasNewest 3 (bodies 3) second.newest
        → MatchOption result ((bodies 2 ≡ []) × (bodies 3 ≡ [])) (IsNewestRoot bodies) }
{
    match second.newest {
        Some(next) => Some(newer(first.newest, next)),
        None => first.newest,
    }
}

/// The later root, if its number is greater than that of the earlier one, which is there only if one was read.
pub fn newer(earlier: Option<Newest>, later: Newest) -> Newest
    ensures { MatchOption earlier (result ≡ later) (λ best.
        ((best.root.number < later.root.number) × (result ≡ later))
        ⊎ ((later.root.number ≤ best.root.number) × (result ≡ best))) }
{
    match earlier {
        Some(best) if later.root.number <= best.root.number => best,
        _ => later,
    }
}
