ghost use Rattle.std.specs.Prelude.{◌≡◌, ◌+◌, ◌∷◌, [], ◌++◌, List, ℕ, IfErr, IfOk};
ghost use Rattle.byte_formats.specs.Answers.{Gives};
ghost use Rattle.docs_format.specs.Answers.{HasNames};
ghost use Rattle.byte_formats.specs.declared.error.FieldError.TheVariants.{Invalid};
ghost use Rattle.byte_formats.specs.declared.error.DecodeError.TheVariants.{Bad};
ghost use Rattle.docs_format.specs.Reading.{items_at, member_at, members_at, names, node_at};

use crate::names::name_at;
use crate::reader::Reader;
use byte_formats::{DecodeError, FieldError};
use doc_model::{Members, Node, Nodes, Text};
use std::alloc::Global;
use std::collections::BTreeMap;

/// Reads a node in which arrays and objects nest at most `depth` deep.
#[cycle(reading)]
#[tactic(auto, unfolding(crate::specs::Reading::node_of))]
pub fn node_at(alloc: Global, depth: u32, reader: &mut Reader) -> Result<Node, DecodeError>
    ensures { Gives (λ x. (x, reader.new)) result (node_at depth reader.old) }
{
    let left = reader.left();
    match reader.kind()? {
        0 => Ok(Node::Null),
        1 => Ok(Node::Bool(false)),
        2 => Ok(Node::Bool(true)),
        3 => Ok(Node::Num(reader.number()?)),
        4 => Ok(Node::Text(Text::from_str(alloc, reader.text()?)?)),
        5 => items_at(alloc, inside(depth, left)?, reader),
        6 => members_at(alloc, inside(depth, left)?, reader),
        7.. => Err(DecodeError::Bad(FieldError::Invalid(left))),
    }
}

/// How deep the values in an array or object may nest. An array or object at depth 0 is invalid.
fn inside(depth: u32, left: usize) -> Result<u32, DecodeError>
    ensures deep { IfErr result (λ why. (depth ≡ 0) × (why ≡ Bad (Invalid left))) }
    ensures inner { IfOk result (λ inner. inner + 1 ≡ depth) }
{
    depth
        .checked_sub(1)
        .ok_or(DecodeError::Bad(FieldError::Invalid(left)))
}

#[cycle(reading)]
#[tactic(auto, unfolding(crate::specs::Reading::items_at))]
fn items_at(alloc: Global, depth: u32, reader: &mut Reader) -> Result<Node, DecodeError>
    ensures { Gives (λ x. (x, reader.new)) result (items_at (node_at depth) reader.old) }
{
    let mut items = Nodes::new(alloc);
    let count = reader.count()?;
    for _ in 0..count {
        items.push(node_at(alloc, depth, reader)?)?;
    }
    Ok(Node::Items(items))
}

#[cycle(reading)]
#[tactic(auto, unfolding(crate::specs::Reading::members_at))]
fn members_at(alloc: Global, depth: u32, reader: &mut Reader) -> Result<Node, DecodeError>
    ensures { Gives (λ x. (x, reader.new)) result (members_at (node_at depth) reader.old) }
{
    let mut members = Members::new(alloc);
    let mut seen: BTreeMap<&str, ()> = BTreeMap::new(alloc);
    let count = reader.count()?;
    for _ in 0..count {
        members.push(member_at(alloc, depth, &mut seen, reader)?)?;
    }
    Ok(Node::Members(members))
}

/// Reads a member and adds its name to `seen`. A name that `seen` has is invalid.
#[cycle(reading)]
#[tactic(auto, unfolding(crate::specs::Reading::member_at))]
fn member_at<'a>(
    alloc: Global,
    depth: u32,
    seen: &mut BTreeMap<&'a str, ()>,
    reader: &mut Reader<'a>,
) -> Result<(Text, Node), DecodeError>
    ensures member { (before : List (List ℕ × Node)) → HasNames seen.old (names before)
        → Gives (λ x. (x, reader.new)) result (member_at (node_at depth) before reader.old) }
    ensures noted { (before : List (List ℕ × Node)) → HasNames seen.old (names before)
        → IfOk result (λ x. HasNames seen.new (names (before ++ x ∷ []))) }
{
    let name = name_at(seen, reader)?;
    let value = node_at(alloc, depth, reader)?;
    Ok((Text::from_str(alloc, name)?, value))
}
