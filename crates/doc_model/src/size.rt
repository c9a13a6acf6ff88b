ghost use Rattle.std.specs.Prelude.{◌+◌, sum_by, length};
ghost use Rattle.doc_model.specs.Tree.{size, Leaves};

use crate::{Members, Node, Nodes, Text};

/// What is left of a budget once the size of a tree is taken off. `None` says that the tree is larger.
///
/// It stops as soon as the budget is spent.
#[cycle(charge)]
pub fn charge(node: &Node, left: u64) -> Option<u64>
    ensures { Leaves left (size node.now) result }
{
    let left = left.checked_sub(1)?;
    match node {
        Node::Null | Node::Bool(_) | Node::Num(_) => Some(left),
        Node::Text(t) => left.checked_sub(t.as_str().len() as u64),
        Node::Items(items) => charge_items(items, left),
        Node::Members(members) => charge_members(members, left),
    }
}

#[cycle(charge)]
fn charge_items(items: &Nodes, left: u64) -> Option<u64>
    ensures { Leaves left (sum_by size items.now) result }
{
    let mut rest = left;
    for item in items.as_slice() {
        rest = charge(item, rest)?;
    }
    Some(rest)
}

#[cycle(charge)]
fn charge_members(members: &Members, left: u64) -> Option<u64>
    ensures { Leaves left (sum_by (λ m. length m.0 + size m.1) members.now) result }
{
    let mut rest = left;
    for member in members.as_slice() {
        rest = rest.checked_sub(member.0.as_str().len() as u64)?;
        rest = charge(&member.1, rest)?;
    }
    Some(rest)
}

/// The same for the bytes of texts.
pub fn charge_texts(texts: &[Text], left: u64) -> Option<u64>
    ensures { Leaves left (sum_by length texts.now) result }
{
    let mut rest = left;
    for text in texts {
        rest = rest.checked_sub(text.as_str().len() as u64)?;
    }
    Some(rest)
}
