ghost use Rattle.std.specs.Prelude.{◌≡◌, ◌<◌, ◌^◌, ◌++◌, length, nat_lt, IfOk, OnOk, IsTrue};
ghost use Rattle.std.specs.List.{list_all};
ghost use Rattle.std.specs.Str.{is_utf8};
ghost use Rattle.doc_model.specs.Queries.{is_index_list};
ghost use Rattle.journal_bodies.specs.Roots.{AreInRange, IsRoot, SpellsRoot, index, kind_byte, listed, long, numbers};
ghost use Rattle.journal_bodies.specs.Roots.{part, settings};

use crate::kinds::ROOT;
use crate::root::{PartFiles, Root};
use doc_model::{Kind, Settings, Text};
use docs_format::{put_count, put_kind, put_long, put_text};
use std::alloc::{AllocError, Global};

/// Encodes a root. Each root has one spelling.
pub fn root_body(alloc: Global, root: &Root) -> Result<Vec<u8>, AllocError>
    requires { IsRoot root.now }
    ensures { IfOk result (λ bytes. SpellsRoot bytes.items root.now) }
{
    let mut out = Vec::new(alloc);
    put_kind(&mut out, ROOT)?;
    put_numbers(&mut out, root)?;
    put_settings(&mut out, &root.settings)?;
    put_parts(&mut out, root.parts.as_slice())?;
    put_removed(&mut out, root.removed.as_slice())?;
    Ok(out)
}

#[tactic(auto, unfolding(crate::specs::Roots::long))]
fn put_numbers(out: &mut Vec<u8>, root: &Root) -> Result<(), AllocError>
    ensures written { OnOk result (out.new.items ≡ out.old.items ++ numbers root.now) }
    ensures ranges { OnOk result (AreInRange root.now) }
{
    put_long(out, root.number)?;
    put_long(out, root.checkpoint)?;
    put_long(out, root.merge)?;
    put_long(out, root.horizon)?;
    put_long(out, root.next)
}

fn put_settings(out: &mut Vec<u8>, value: &Settings) -> Result<(), AllocError>
    requires { IsTrue (list_all (λ i. nat_lt (length i.0) (2 ^ 32)) value.now.indexes) }
    ensures written { OnOk result (out.new.items ≡ out.old.items ++ settings value.now) }
    ensures limits { OnOk result ((value.now.save_at < 2 ^ 32) × (value.now.merge_at < 2 ^ 32)) }
    ensures utf8 { OnOk result (IsTrue (list_all (λ i. is_utf8 i.0) value.now.indexes)) }
    ensures pairs { OnOk result (IsTrue (is_index_list value.now.indexes)) }
{
    put_count(out, value.save_at as usize)?;
    put_count(out, value.merge_at as usize)?;
    put_indexes(out, value.indexes.as_slice())
}

fn put_indexes(out: &mut Vec<u8>, list: &[(Text, Kind)]) -> Result<(), AllocError>
    requires few { length list.now < 2 ^ 32 }
    requires short { IsTrue (list_all (λ i. nat_lt (length i.0) (2 ^ 32)) list.now) }
    ensures written { OnOk result (out.new.items ≡ out.old.items ++ listed index list.now) }
    ensures utf8 { OnOk result (IsTrue (list_all (λ i. is_utf8 i.0) list.now)) }
{
    put_count(out, list.len())?;
    for value in list {
        put_text(out, &value.0)?;
        put_kind(out, kind_byte(value.1))?;
    }
    Ok(())
}

fn kind_byte(kind: Kind) -> u8
    ensures { result ≡ kind_byte kind }
{
    match kind {
        Kind::Decimal => 0,
        Kind::Text => 1,
    }
}

fn put_parts(out: &mut Vec<u8>, list: &[PartFiles]) -> Result<(), AllocError>
    requires { length list.now < 2 ^ 32 }
    ensures written { OnOk result (out.new.items ≡ out.old.items ++ listed part list.now) }
    ensures ranges { OnOk result (IsTrue (list_all (λ p. nat_lt p.fragments (2 ^ 32)) list.now)) }
{
    put_count(out, list.len())?;
    for value in list {
        put_part(out, *value)?;
    }
    Ok(())
}

#[tactic(auto, unfolding(crate::specs::Roots::long))]
fn put_part(out: &mut Vec<u8>, value: PartFiles) -> Result<(), AllocError>
    ensures written { OnOk result (out.new.items ≡ out.old.items ++ part value) }
    ensures ranges { value.fragments < 2 ^ 32 }
{
    put_long(out, value.index)?;
    put_long(out, value.documents)?;
    put_long(out, value.stamps)?;
    put_count(out, value.fragments as usize)
}

#[tactic(auto, unfolding(crate::specs::Roots::long))]
fn put_removed(out: &mut Vec<u8>, list: &[u64]) -> Result<(), AllocError>
    requires { length list.now < 2 ^ 32 }
    ensures { OnOk result (out.new.items ≡ out.old.items ++ listed long list.now) }
{
    put_count(out, list.len())?;
    for value in list {
        put_long(out, *value)?;
    }
    Ok(())
}
