ghost use Rattle.std.specs.Prelude.{◌≡◌, ◌∷◌, [], ◌++◌, ◌||◌, ◌==◌, nat_lt, List, ℕ, Option, IfOk};
ghost use Rattle.doc_model.specs.declared.op.Op as model_op;
ghost use Rattle.doc_model.specs.declared.op.Op.TheVariants as op_kind;
ghost use Rattle.byte_formats.specs.Answers.{Gives};
ghost use Rattle.docs_format.specs.Reading.{keeping, kind_at};
ghost use Rattle.journal_bodies.specs.Answers.{HasOps};
ghost use Rattle.journal_bodies.specs.EntryReading.{expect_at, op_at, ops_at, put_at};
ghost use Rattle.journal_bodies.specs.RootReading.{long_at};

use crate::kinds::PUT;
use crate::uris::{Met, fresh_at};
use doc_model::{Document, MAX_SIZE, Op, Ops, Text};
use docs_format::{DecodeError, FieldError, Reader, document};
use std::alloc::Global;

const MAX_OPERATIONS: u32 = doc_model::MAX_OPERATIONS as u32;

/// Reads the operations of a commit.
#[tactic(auto, unfolding(crate::specs::EntryReading::ops_at))]
pub fn ops_at(alloc: Global, reader: &mut Reader) -> Result<Ops, DecodeError>
    ensures { Gives (λ x. (x, reader.new)) result (ops_at reader.old) }
{
    let left = reader.left();
    let count = reader.count()?;
    if count == 0 || count > MAX_OPERATIONS {
        return Err(DecodeError::Bad(FieldError::Invalid(left)));
    }
    let mut met = Met::new(alloc);
    let mut room = MAX_SIZE;
    let mut list = Vec::new(alloc);
    for _ in 0..count {
        list.push(op_at(alloc, &mut met, &mut room, reader)?)?;
    }
    match Ops::new(list) {
        Ok(ops) => Ok(ops),
        Err(_) => unreachable!(),
    }
}

/// Reads an operation, adds its URI to `met`, and takes its size from `room`, the size that is left for documents.
#[tactic(auto, unfolding(crate::specs::EntryReading::op_at))]
fn op_at<'a>(
    alloc: Global,
    met: &mut Met<'a>,
    room: &mut u64,
    reader: &mut Reader<'a>,
) -> Result<Op, DecodeError>
    ensures op { (before : List model_op.Op) → HasOps met.old room.old before
        → Gives (λ x. (x, reader.new)) result (op_at before reader.old) }
    ensures noted { (before : List model_op.Op) → HasOps met.old room.old before
        → IfOk result (λ x. HasOps met.new room.new (before ++ x ∷ [])) }
{
    let kind = one_or_two(reader)?;
    let expect = expect_at(reader)?;
    if kind == PUT {
        let document = put_at(alloc, met, room, reader)?;
        Ok(Op::Put { document, expect })
    } else {
        let uri = fresh_at(met, reader)?;
        Ok(Op::Remove {
            uri: Text::from_str(alloc, uri)?,
            expect,
        })
    }
}

/// Reads a document, adds its URI to `met`, and takes its size from `room`.
#[tactic(auto, unfolding(crate::specs::EntryReading::put_at))]
fn put_at<'a>(
    alloc: Global,
    met: &mut Met<'a>,
    room: &mut u64,
    reader: &mut Reader<'a>,
) -> Result<Document, DecodeError>
    ensures document { (before : List model_op.Op) → HasOps met.old room.old before
        → Gives (λ x. (x, reader.new)) result (put_at before reader.old) }
    ensures noted { (before : List model_op.Op) → HasOps met.old room.old before
        → IfOk result (λ x. (e : Option ℕ) → HasOps met.new room.new (before ++ op_kind.Put x e ∷ [])) }
{
    let left = reader.left();
    let _uri = fresh_at(met, &mut reader.ahead())?;
    let document = document(alloc, reader)?;
    match room.checked_sub(document.size()) {
        Some(rest) => {
            *room = rest;
            Ok(document)
        }
        None => Err(DecodeError::Bad(FieldError::Invalid(left))),
    }
}

/// Reads the timestamp that an operation expects, if any.
#[tactic(auto, unfolding(crate::specs::EntryReading::expect_at, crate::specs::RootReading::long_at))]
fn expect_at(reader: &mut Reader) -> Result<Option<u64>, DecodeError>
    ensures { Gives (λ x. (x, reader.new)) result (expect_at reader.old) }
{
    let left = reader.left();
    match reader.kind()? {
        0 => Ok(None),
        1 => Ok(Some(below(1 << 48, reader)?)),
        2.. => Err(DecodeError::Bad(FieldError::Invalid(left))),
    }
}

/// Reads a number below `end`.
#[tactic(auto, unfolding(crate::specs::RootReading::long_at))]
pub fn below(end: u64, reader: &mut Reader) -> Result<u64, DecodeError>
    ensures { Gives (λ x. (x, reader.new)) result (keeping (λ n. nat_lt n end) long_at reader.old) }
{
    let left = reader.left();
    let number = reader.long()?;
    if number < end {
        Ok(number)
    } else {
        Err(DecodeError::Bad(FieldError::Invalid(left)))
    }
}

/// Reads a kind that is 1 or 2.
pub fn one_or_two(reader: &mut Reader) -> Result<u8, DecodeError>
    ensures { Gives (λ x. (x, reader.new)) result (keeping (λ byte. (byte == 1) || (byte == 2)) kind_at reader.old) }
{
    let left = reader.left();
    let kind = reader.kind()?;
    if kind == 1 || kind == 2 {
        Ok(kind)
    } else {
        Err(DecodeError::Bad(FieldError::Invalid(left)))
    }
}
