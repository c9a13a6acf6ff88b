ghost use Rattle.std.specs.Prelude.{◌≡◌, length, ℕ, IfErr, IfOk, IsTrue, Ok};
ghost use Rattle.doc_model.specs.declared.entry.Entry as model;
ghost use Rattle.byte_formats.specs.Answers.{Gives};
ghost use Rattle.docs_format.specs.Answers.{Decodes, IsPlaced};
ghost use Rattle.docs_format.specs.Reading.{keeping};
ghost use Rattle.journal_bodies.specs.Answers.{alone, entry_of};
ghost use Rattle.journal_bodies.specs.Entries.{SpellsEntry};
ghost use Rattle.journal_bodies.specs.EntryReading.{entry_at, is_expected, said_at};
ghost use Rattle.journal_bodies.specs.RootReading.{long_at};

use crate::fault::{BodyBad, body_bad};
use crate::kinds::COMMIT;
use crate::ops::{below, one_or_two, ops_at};
use doc_model::Entry;
use docs_format::{DecodeError, FieldError, Reader};
use std::alloc::Global;

/// Decodes an entry and its number, which take all of the bytes. If a number is expected, another one is invalid.
///
/// Takes time n log n. Copies each text once, and allocates in proportion to the bytes that are there, not to the
/// counts that they claim.
pub fn read_entry(
    alloc: Global,
    bytes: &[u8],
    expected: Option<u64>,
) -> Result<(u64, Entry), BodyBad>
    ensures found { IfOk result (λ x. SpellsEntry bytes.now x.0 x.1 × IsTrue (is_expected expected x.0)) }
    ensures only { (number : ℕ) (e : model.Entry)
        → SpellsEntry bytes.now number e → IsTrue (is_expected expected number) → Decodes result (Ok (number, e)) }
    ensures exact { Decodes result (entry_of expected bytes.now) }
    ensures within { IfErr result (IsPlaced (length bytes.now)) }
{
    placed(alloc, bytes, expected)
}

/// Decodes an entry, or returns the place of the first invalid field.
fn placed(alloc: Global, bytes: &[u8], expected: Option<u64>) -> Result<(u64, Entry), BodyBad>
    ensures { Decodes result (entry_of expected bytes.now) }
{
    match whole(alloc, bytes, expected) {
        Ok(entry) => Ok(entry),
        Err(stop) => Err(body_bad(bytes.len(), stop)),
    }
}

fn whole(alloc: Global, bytes: &[u8], expected: Option<u64>) -> Result<(u64, Entry), DecodeError>
    ensures { Gives (λ x. x) result (alone (entry_at expected bytes.now)) }
{
    let mut reader = Reader::new(bytes);
    let entry = entry_at(alloc, expected, &mut reader)?;
    if reader.left() > 0 {
        return Err(DecodeError::Bad(FieldError::Invalid(reader.left())));
    }
    Ok(entry)
}

#[tactic(auto, unfolding(crate::specs::EntryReading::entry_at))]
fn entry_at(
    alloc: Global,
    expected: Option<u64>,
    reader: &mut Reader,
) -> Result<(u64, Entry), DecodeError>
    ensures { Gives (λ x. (x, reader.new)) result (entry_at expected reader.old) }
{
    let kind = one_or_two(reader)?;
    let number = number_at(expected, reader)?;
    let said = said_at(alloc, kind, number, reader)?;
    Ok((number, said))
}

/// Reads the number of an entry. If one is expected, another one is invalid.
#[tactic(auto, unfolding(crate::specs::RootReading::long_at))]
fn number_at(expected: Option<u64>, reader: &mut Reader) -> Result<u64, DecodeError>
    ensures { Gives (λ x. (x, reader.new)) result (keeping (is_expected expected) long_at reader.old) }
{
    let left = reader.left();
    let number = reader.long()?;
    match expected {
        Some(next) if number != next => Err(DecodeError::Bad(FieldError::Invalid(left))),
        _ => Ok(number),
    }
}

/// Reads what follows the number of a commit or a forget.
#[tactic(auto, unfolding(crate::specs::EntryReading::said_at))]
fn said_at(alloc: Global, kind: u8, number: u64, reader: &mut Reader) -> Result<Entry, DecodeError>
    ensures { Gives (λ x. (x, reader.new)) result (said_at kind number reader.old) }
{
    if kind == COMMIT {
        Ok(Entry::Commit(ops_at(alloc, reader)?))
    } else {
        Ok(Entry::Forget(below(number, reader)?))
    }
}
