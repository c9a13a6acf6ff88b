//! The numbers of files, each used once.

ghost use Rattle.std.specs.Prelude.{◌≡◌, ◌∷◌, [], ◌++◌, not, List, ℕ, IfOk, OnOk};
ghost use Rattle.byte_formats.specs.Answers.{Gives};
ghost use Rattle.journal_bodies.specs.Answers.{HasFiles};
ghost use Rattle.journal_bodies.specs.RootReading.{file_at};
ghost use Rattle.journal_bodies.specs.Roots.{has};

use docs_format::{DecodeError, FieldError, Reader};
use std::alloc::AllocError;
use std::collections::BTreeMap;

/// The numbers of the files that were read so far.
pub type Seen = BTreeMap<u64, ()>;

/// Reads the number of a file and adds it to `seen`. A number that `seen` has, or that isn't below `next`, is invalid.
#[tactic(auto, unfolding(crate::specs::RootReading::file_at, crate::specs::RootReading::long_at))]
pub fn file_at(next: u64, seen: &mut Seen, reader: &mut Reader) -> Result<u64, DecodeError>
    ensures file { (before : List ℕ) → HasFiles seen.old before
        → Gives (λ x. (x, reader.new)) result (file_at next before reader.old) }
    ensures noted { (before : List ℕ) → HasFiles seen.old before
        → IfOk result (λ x. HasFiles seen.new (before ++ x ∷ [])) }
{
    let left = reader.left();
    let number = reader.long()?;
    if number < next && is_fresh(seen, number)? {
        Ok(number)
    } else {
        Err(DecodeError::Bad(FieldError::Invalid(left)))
    }
}

/// Adds a number, and returns whether it is new.
fn is_fresh(seen: &mut Seen, number: u64) -> Result<bool, AllocError>
    ensures fresh { (before : List ℕ) → HasFiles seen.old before
        → IfOk result (λ fresh. fresh ≡ not (has before number)) }
    ensures noted { (before : List ℕ) → HasFiles seen.old before
        → OnOk result (HasFiles seen.new (before ++ number ∷ [])) }
{
    Ok(seen.insert(number, ())?.is_none())
}
