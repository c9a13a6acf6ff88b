ghost use Rattle.std.specs.Prelude.{◌≡◌, ◌<◌, ◌^◌, ◌++◌, length, IfOk, OnOk, IsTrue};
ghost use Rattle.std.specs.List.{list_all};
ghost use Rattle.doc_model.specs.declared.entry.Entry.TheVariants as entry_kind;
ghost use Rattle.doc_model.specs.Operations.{AreOps, removes_uri};
ghost use Rattle.journal_bodies.specs.Entries.{HasValues, IsEntry, SpellsEntry, entry, expect, has_values, op};
ghost use Rattle.journal_bodies.specs.Roots.{listed, long};

use crate::kinds::{COMMIT, FORGET, PUT, REMOVE};
use doc_model::{Entry, Op, Ops};
use docs_format::{put_count, put_document, put_kind, put_long, put_text};
use std::alloc::{AllocError, Global};

/// Encodes an entry under its number. Each entry has one spelling.
pub fn entry_body(alloc: Global, number: u64, entry: &Entry) -> Result<Vec<u8>, AllocError>
    requires { IsEntry number entry.now }
    ensures { IfOk result (λ bytes. SpellsEntry bytes.items number entry.now) }
{
    let mut out = Vec::new(alloc);
    put_entry(&mut out, number, entry)?;
    Ok(out)
}

/// Encodes a commit under its number. A commit that names a URI twice, or expects a timestamp of 2^48 or more, isn't
/// decoded again.
pub fn commit_body(alloc: Global, number: u64, ops: &Ops) -> Result<Vec<u8>, AllocError>
    ensures written { IfOk result (λ bytes. bytes.items ≡ entry number (entry_kind.Commit ops.now)) }
    ensures values { IfOk result (λ _. HasValues (entry_kind.Commit ops.now)) }
    ensures spelled { IsEntry number (entry_kind.Commit ops.now)
        → IfOk result (λ bytes. SpellsEntry bytes.items number (entry_kind.Commit ops.now)) }
{
    let mut out = Vec::with_capacity(alloc, room_of(ops.as_slice()))?;
    put_commit(&mut out, number, ops.as_slice())?;
    Ok(out)
}

// About how many bytes operations take. A node of a document takes one byte, and a text or a count five more.
fn room_of(list: &[Op]) -> usize {
    let mut room: usize = 64;
    for op in list {
        let size = match op {
            Op::Put { document, .. } => document.size() as usize,
            Op::Remove { .. } => 0,
        };
        room = room
            .saturating_add(size.saturating_mul(2))
            .saturating_add(64);
    }
    room
}

fn put_entry(out: &mut Vec<u8>, number: u64, value: &Entry) -> Result<(), AllocError>
    ensures written { OnOk result (out.new.items ≡ out.old.items ++ entry number value.now) }
    ensures values { OnOk result (HasValues value.now) }
{
    match value {
        Entry::Commit(ops) => put_commit(out, number, ops.as_slice()),
        Entry::Forget(stamp) => put_forget(out, number, *stamp),
    }
}

#[tactic(auto, unfolding(crate::specs::Roots::long))]
fn put_forget(out: &mut Vec<u8>, number: u64, stamp: u64) -> Result<(), AllocError>
    ensures { OnOk result (out.new.items ≡ out.old.items ++ entry number (entry_kind.Forget stamp)) }
{
    put_kind(out, FORGET)?;
    put_long(out, number)?;
    put_long(out, stamp)
}

#[tactic(auto, unfolding(crate::specs::Roots::long))]
fn put_commit(out: &mut Vec<u8>, number: u64, list: &[Op]) -> Result<(), AllocError>
    requires { AreOps list.now }
    ensures written { OnOk result (out.new.items ≡ out.old.items ++ entry number (entry_kind.Commit list.now)) }
    ensures values { OnOk result (IsTrue (list_all has_values list.now)) }
{
    put_kind(out, COMMIT)?;
    put_long(out, number)?;
    put_ops(out, list)
}

fn put_ops(out: &mut Vec<u8>, list: &[Op]) -> Result<(), AllocError>
    requires few { length list.now < 2 ^ 32 }
    requires uris { IsTrue (list_all removes_uri list.now) }
    ensures written { OnOk result (out.new.items ≡ out.old.items ++ listed op list.now) }
    ensures values { OnOk result (IsTrue (list_all has_values list.now)) }
{
    put_count(out, list.len())?;
    for value in list {
        put_op(out, value)?;
    }
    Ok(())
}

fn put_op(out: &mut Vec<u8>, value: &Op) -> Result<(), AllocError>
    requires { IsTrue (removes_uri value.now) }
    ensures written { OnOk result (out.new.items ≡ out.old.items ++ op value.now) }
    ensures values { OnOk result (IsTrue (has_values value.now)) }
{
    match value {
        Op::Put { document, expect } => {
            put_kind(out, PUT)?;
            put_expect(out, *expect)?;
            put_document(out, document)
        }
        Op::Remove { uri, expect } => {
            put_kind(out, REMOVE)?;
            put_expect(out, *expect)?;
            put_text(out, uri)
        }
    }
}

#[tactic(auto, unfolding(crate::specs::Roots::long))]
fn put_expect(out: &mut Vec<u8>, value: Option<u64>) -> Result<(), AllocError>
    ensures { OnOk result (out.new.items ≡ out.old.items ++ expect value) }
{
    match value {
        None => put_kind(out, 0),
        Some(stamp) => {
            put_kind(out, 1)?;
            put_long(out, stamp)
        }
    }
}
