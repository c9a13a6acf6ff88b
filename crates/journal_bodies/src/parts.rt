ghost use Rattle.std.specs.Prelude.{◌≡◌, ◌∷◌, [], ◌++◌, List, ℕ, IfOk};
ghost use Rattle.std.specs.List.{flat_map};
ghost use Rattle.byte_formats.specs.Answers.{Gives};
ghost use Rattle.journal_bodies.specs.Answers.{HasFiles};
ghost use Rattle.journal_bodies.specs.RootReading.{part_at, parts_at, removed_at};
ghost use Rattle.journal_bodies.specs.Roots.{files_of};
ghost use Rattle.journal_bodies.specs.declared.root.PartFiles.{PartFiles};

use crate::files::{Seen, file_at};
use crate::root::PartFiles;
use docs_format::{DecodeError, Reader};
use sqlite_items::Items;
use std::alloc::Global;

/// Reads the parts of a root, and adds their files to `seen`.
#[tactic(auto, unfolding(crate::specs::RootReading::parts_at))]
pub fn parts_at(
    alloc: Global,
    next: u64,
    seen: &mut Seen,
    reader: &mut Reader,
) -> Result<Items<PartFiles>, DecodeError>
    requires { HasFiles seen.old [] }
    ensures parts { Gives (λ x. (x, reader.new)) result (parts_at next reader.old) }
    ensures noted { IfOk result (λ x. HasFiles seen.new (flat_map files_of x)) }
{
    let mut parts = Items::new(alloc);
    let count = reader.count()?;
    for _ in 0..count {
        parts.push(part_at(next, seen, reader)?)?;
    }
    Ok(parts)
}

#[tactic(auto, unfolding(crate::specs::RootReading::part_at))]
fn part_at(next: u64, seen: &mut Seen, reader: &mut Reader) -> Result<PartFiles, DecodeError>
    ensures part { (before : List PartFiles) → HasFiles seen.old (flat_map files_of before)
        → Gives (λ x. (x, reader.new)) result (part_at next before reader.old) }
    ensures noted { (before : List PartFiles) → HasFiles seen.old (flat_map files_of before)
        → IfOk result (λ x. HasFiles seen.new (flat_map files_of (before ++ x ∷ []))) }
{
    let index = file_at(next, seen, reader)?;
    let documents = file_at(next, seen, reader)?;
    let stamps = file_at(next, seen, reader)?;
    let fragments = reader.count()?;
    Ok(PartFiles {
        index,
        documents,
        stamps,
        fragments,
    })
}

/// Reads the files to be removed. A file that `seen` has is invalid.
#[tactic(auto, unfolding(crate::specs::RootReading::removed_at))]
pub fn removed_at(
    alloc: Global,
    next: u64,
    seen: &mut Seen,
    reader: &mut Reader,
) -> Result<Items<u64>, DecodeError>
    ensures { (others : List ℕ) → HasFiles seen.old others
        → Gives (λ x. (x, reader.new)) result (removed_at next others reader.old) }
{
    let mut removed = Items::new(alloc);
    let count = reader.count()?;
    for _ in 0..count {
        removed.push(file_at(next, seen, reader)?)?;
    }
    Ok(removed)
}
