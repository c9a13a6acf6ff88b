ghost use Rattle.std.specs.Prelude.{◌≡◌, ◌<◌, ◌^◌, [], ◌∷◌, ◌++◌, ◌+◌, ◌&&◌, length, sum_by, IfOk, OnOk, IsTrue};
ghost use Rattle.std.specs.List.{list_all, flat_map};
ghost use Rattle.std.specs.Str.{is_utf8};
ghost use Rattle.doc_model.specs.Tree.{size};
ghost use Rattle.docs_format.specs.Spelling.{Spells, count, has_values, is_decimal, items, members, node, number, text};
ghost use Rattle.docs_format.specs.Spelling.{document, texts};
ghost use Rattle.byteorder.specs.Endian.{big_bytes};

use byteorder::{BigEndian, ByteOrder};
use doc_model::{Dec, Document, Members, Node, Nodes, Text};
use std::alloc::{AllocError, Global};

/// Encodes a document. Each document has one spelling.
pub fn encode(alloc: Global, document: &Document) -> Result<Vec<u8>, AllocError>
    ensures { IfOk result (λ bytes. Spells bytes.items document.now) }
{
    let mut out = Vec::new(alloc);
    put_document(&mut out, document)?;
    Ok(out)
}

/// Appends the spelling of a document.
pub fn put_document(out: &mut Vec<u8>, value: &Document) -> Result<(), AllocError>
    ensures written { OnOk result (out.new.items ≡ out.old.items ++ document value.now) }
    ensures spells { OnOk result (Spells (document value.now) value.now) }
{
    let root = value.root();
    put_text(out, value.uri())?;
    put_texts(out, value.collections().as_slice())?;
    put_node(out, root)
}

/// Appends a number of one byte.
pub fn put_kind(out: &mut Vec<u8>, kind: u8) -> Result<(), AllocError>
    ensures { OnOk result (out.new.items ≡ out.old.items ++ kind ∷ []) }
{
    out.push(kind)?;
    Ok(())
}

/// Appends a count or a length, in four bytes.
#[tactic(auto, unfolding(crate::specs::Spelling::count))]
pub fn put_count(out: &mut Vec<u8>, n: usize) -> Result<(), AllocError>
    requires { n < 2 ^ 32 }
    ensures { OnOk result (out.new.items ≡ out.old.items ++ count n) }
{
    let mut bytes = [0; 4];
    BigEndian::write_u32(&mut bytes, n as u32);
    out.extend_from_slice(&bytes)
}

/// Appends a number in eight bytes, the highest first.
pub fn put_long(out: &mut Vec<u8>, n: u64) -> Result<(), AllocError>
    ensures { OnOk result (out.new.items ≡ out.old.items ++ big_bytes 8 n) }
{
    let mut bytes = [0; 8];
    BigEndian::write_u64(&mut bytes, n);
    out.extend_from_slice(&bytes)
}

#[tactic(auto, unfolding(crate::specs::Spelling::number))]
fn put_number(out: &mut Vec<u8>, value: &Dec) -> Result<(), AllocError>
    ensures written { OnOk result (out.new.items ≡ out.old.items ++ number value.now) }
    ensures decimal { IsTrue (is_decimal value.now) }
{
    let mut bytes = [0; 16];
    BigEndian::write_i128(&mut bytes, value.units());
    out.extend_from_slice(&bytes)
}

/// Appends the length of a text, and the text.
pub fn put_text(out: &mut Vec<u8>, value: &Text) -> Result<(), AllocError>
    requires { length value.now < 2 ^ 32 }
    ensures written { OnOk result (out.new.items ≡ out.old.items ++ text value.now) }
    ensures utf8 { IsTrue (is_utf8 value.now) }
{
    let bytes = value.as_str().as_bytes();
    put_count(out, bytes.len())?;
    out.extend_from_slice(bytes)
}

fn put_texts(out: &mut Vec<u8>, values: &[Text]) -> Result<(), AllocError>
    requires few { length values.now < 2 ^ 32 }
    requires short { sum_by length values.now < 2 ^ 32 }
    ensures written { OnOk result (out.new.items ≡ out.old.items ++ texts values.now) }
    ensures utf8 { OnOk result (IsTrue (list_all is_utf8 values.now)) }
{
    put_count(out, values.len())?;
    for value in values {
        put_text(out, value)?;
    }
    Ok(())
}

#[cycle(writing)]
fn put_node(out: &mut Vec<u8>, value: &Node) -> Result<(), AllocError>
    requires { size value.now < 2 ^ 32 }
    ensures written { OnOk result (out.new.items ≡ out.old.items ++ node value.now) }
    ensures values { OnOk result (IsTrue (has_values value.now)) }
{
    match value {
        Node::Null => put_kind(out, 0),
        Node::Bool(truth) => put_kind(out, if *truth { 2 } else { 1 }),
        Node::Num(amount) => {
            put_kind(out, 3)?;
            put_number(out, amount)
        }
        Node::Text(content) => {
            put_kind(out, 4)?;
            put_text(out, content)
        }
        Node::Items(list) => {
            put_kind(out, 5)?;
            put_items(out, list)
        }
        Node::Members(list) => {
            put_kind(out, 6)?;
            put_members(out, list)
        }
    }
}

#[cycle(writing)]
fn put_items(out: &mut Vec<u8>, list: &Nodes) -> Result<(), AllocError>
    requires { sum_by size list.now < 2 ^ 32 }
    ensures written { OnOk result (out.new.items ≡ out.old.items ++ items list.now) }
    ensures values { OnOk result (IsTrue (list_all has_values list.now)) }
{
    put_count(out, list.len())?;
    for item in list.as_slice() {
        put_node(out, item)?;
    }
    Ok(())
}

#[cycle(writing)]
#[tactic(auto, using(crate::proofs::Trees::member_fits))]
fn put_members(out: &mut Vec<u8>, list: &Members) -> Result<(), AllocError>
    requires { sum_by (λ m. length m.0 + size m.1) list.now < 2 ^ 32 }
    ensures written { OnOk result (out.new.items ≡ out.old.items ++ members list.now) }
    ensures values { OnOk result (IsTrue (list_all (λ m. is_utf8 m.0 && has_values m.1) list.now)) }
{
    put_count(out, list.len())?;
    for member in list.as_slice() {
        put_text(out, &member.0)?;
        put_node(out, &member.1)?;
    }
    Ok(())
}
