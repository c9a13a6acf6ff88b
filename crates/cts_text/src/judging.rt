//! The first faulty node of a tree, by one walk in the order of the text: a node's own test comes first, then its
//! parts.

ghost use Rattle.std.specs.Prelude.{◌+◌, ◌<◌, ◌^◌, sum_by};
ghost use Rattle.cts_meaning.specs.Faults.{node_count};
ghost use Rattle.cts_meaning.specs.Shapes.{array_parts, item_parts, member_parts, no_parts, object_parts, rule_of};
ghost use Rattle.cts_text.specs.Judging.{Judges, JudgesBy, JudgesParts};

use crate::fitting::{fits_object, flat_fits, item_shape, member_shape, number_fits, text_fits};
use cts_meaning::Shape;
use doc_model::{Members, Node, Nodes};

/// The number of the node behind the last one in a node that has this number, or that of its first faulty one. It
/// takes no memory, goes as deep as the tree, and looks at each node once.
#[cycle(judging)]
pub(crate) fn judge(shape: Shape, node: &Node, number: u64) -> Result<u64, u64>
    requires { number + node_count node.now < 2 ^ 64 }
    ensures { Judges shape node.now number result }
{
    match node {
        Node::Null => judge_scalar(flat_fits(shape), number),
        Node::Bool(_) => judge_scalar(flat_fits(shape), number),
        Node::Num(units) => judge_scalar(number_fits(shape, units), number),
        Node::Text(text) => judge_scalar(text_fits(shape, text.as_str()), number),
        Node::Items(items) => judge_array(shape, items, number),
        Node::Members(members) => judge_object(shape, members, number),
    }
}

fn judge_scalar(fits: bool, number: u64) -> Result<u64, u64>
    requires { number + 1 < 2 ^ 64 }
    ensures { JudgesBy (no_parts fits) number result }
{
    if fits { Ok(number + 1) } else { Err(number) }
}

#[cycle(judging)]
fn judge_array(shape: Shape, items: &Nodes, number: u64) -> Result<u64, u64>
    requires { number + 1 + sum_by node_count items.now < 2 ^ 64 }
    ensures { JudgesBy (array_parts (rule_of shape) items.now) number result }
{
    match item_shape(shape, items) {
        Some(item) => judge_items(item, items, number + 1),
        None => Err(number),
    }
}

#[cycle(judging)]
fn judge_items(shape: Shape, items: &Nodes, number: u64) -> Result<u64, u64>
    requires { number + sum_by node_count items.now < 2 ^ 64 }
    ensures { JudgesParts (item_parts shape items.now) number result }
{
    let mut next = number;
    for item in items.as_slice() {
        next = judge(shape, item, next)?;
    }
    Ok(next)
}

#[cycle(judging)]
fn judge_object(shape: Shape, members: &Members, number: u64) -> Result<u64, u64>
    requires { number + 1 + sum_by (λ m. node_count m.1) members.now < 2 ^ 64 }
    ensures { JudgesBy (object_parts (rule_of shape) members.now) number result }
{
    if fits_object(shape, members) {
        judge_members(shape, members, number + 1)
    } else {
        Err(number)
    }
}

/// Values whose members have no place there are passed over.
#[cycle(judging)]
fn judge_members(shape: Shape, members: &Members, number: u64) -> Result<u64, u64>
    requires { number + sum_by (λ m. node_count m.1) members.now < 2 ^ 64 }
    ensures { JudgesParts (member_parts (rule_of shape).member members.now) number result }
{
    let mut next = number;
    for member in members.as_slice() {
        let Some(part) = member_shape(shape, member.0.as_str()) else {
            continue;
        };
        next = judge(part, &member.1, next)?;
    }
    Ok(next)
}
