ghost use Rattle.std.specs.Prelude.{◌≡◌, ◌≤◌, nat_le, length, IfErr, IfOk, Ok};
ghost use Rattle.byte_formats.specs.Answers.{Gives};
ghost use Rattle.docs_format.specs.Answers.{Decodes, IsPlaced};
ghost use Rattle.docs_format.specs.Reading.{keeping};
ghost use Rattle.journal_bodies.specs.Answers.{alone, root_of};
ghost use Rattle.journal_bodies.specs.RootReading.{long_at, numbers_at, root_at};
ghost use Rattle.journal_bodies.specs.Roots.{PlainRoot, SpellsRoot};

use crate::fault::{BodyBad, body_bad};
use crate::files::Seen;
use crate::indexes::settings_at;
use crate::kinds::ROOT;
use crate::parts::{parts_at, removed_at};
use crate::root::Root;
use docs_format::{DecodeError, FieldError, Reader};
use std::alloc::Global;

/// Decodes a root that takes all of the bytes.
///
/// Takes time n log n, and allocates in proportion to the bytes that are there, not to the counts that they claim.
pub fn read_root(alloc: Global, bytes: &[u8]) -> Result<Root, BodyBad>
    ensures found { IfOk result (λ root. SpellsRoot bytes.now root) }
    ensures only { (root : PlainRoot) → SpellsRoot bytes.now root → Decodes result (Ok root) }
    ensures exact { Decodes result (root_of bytes.now) }
    ensures within { IfErr result (IsPlaced (length bytes.now)) }
{
    placed(alloc, bytes)
}

/// Decodes a root, or returns the place of the first invalid field.
fn placed(alloc: Global, bytes: &[u8]) -> Result<Root, BodyBad>
    ensures { Decodes result (root_of bytes.now) }
{
    match whole(alloc, bytes) {
        Ok(root) => Ok(root),
        Err(stop) => Err(body_bad(bytes.len(), stop)),
    }
}

fn whole(alloc: Global, bytes: &[u8]) -> Result<Root, DecodeError>
    ensures { Gives (λ root. root) result (alone (root_at bytes.now)) }
{
    let mut reader = Reader::new(bytes);
    let root = root_at(alloc, &mut reader)?;
    if reader.left() > 0 {
        return Err(DecodeError::Bad(FieldError::Invalid(reader.left())));
    }
    Ok(root)
}

#[tactic(auto, unfolding(crate::specs::RootReading::root_at))]
fn root_at(alloc: Global, reader: &mut Reader) -> Result<Root, DecodeError>
    ensures { Gives (λ root. (root, reader.new)) result (root_at reader.old) }
{
    let left = reader.left();
    if reader.kind()? != ROOT {
        return Err(DecodeError::Bad(FieldError::Invalid(left)));
    }
    let numbers = numbers_at(reader)?;
    let settings = settings_at(alloc, reader)?;
    let mut seen = Seen::new(alloc);
    let parts = parts_at(alloc, numbers.next, &mut seen, reader)?;
    let removed = removed_at(alloc, numbers.next, &mut seen, reader)?;
    Ok(Root {
        number: numbers.number,
        checkpoint: numbers.checkpoint,
        merge: numbers.merge,
        horizon: numbers.horizon,
        next: numbers.next,
        settings,
        parts,
        removed,
    })
}

/// The numbers that a root begins with.
#[derive(Clone, Copy)]
struct RootNumbers {
    number: u64,
    checkpoint: u64,
    merge: u64,
    horizon: u64,
    next: u64,
}

#[tactic(auto, unfolding(crate::specs::RootReading::numbers_at, crate::specs::RootReading::long_at))]
fn numbers_at(reader: &mut Reader) -> Result<RootNumbers, DecodeError>
    ensures { Gives (λ n. (n, reader.new)) result (numbers_at reader.old) }
{
    let number = at_least_one(reader)?;
    let checkpoint = reader.long()?;
    let merge = reader.long()?;
    let horizon = at_most(checkpoint, reader)?;
    let next = at_least_one(reader)?;
    Ok(RootNumbers {
        number,
        checkpoint,
        merge,
        horizon,
        next,
    })
}

#[tactic(auto, unfolding(crate::specs::RootReading::long_at))]
fn at_least_one(reader: &mut Reader) -> Result<u64, DecodeError>
    ensures { Gives (λ n. (n, reader.new)) result (keeping (λ n. nat_le 1 n) long_at reader.old) }
{
    let left = reader.left();
    let number = reader.long()?;
    if number >= 1 {
        Ok(number)
    } else {
        Err(DecodeError::Bad(FieldError::Invalid(left)))
    }
}

#[tactic(auto, unfolding(crate::specs::RootReading::long_at))]
fn at_most(most: u64, reader: &mut Reader) -> Result<u64, DecodeError>
    ensures { Gives (λ n. (n, reader.new)) result (keeping (λ n. nat_le n most) long_at reader.old) }
{
    let left = reader.left();
    let number = reader.long()?;
    if number <= most {
        Ok(number)
    } else {
        Err(DecodeError::Bad(FieldError::Invalid(left)))
    }
}
