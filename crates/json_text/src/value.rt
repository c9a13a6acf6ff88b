ghost use Rattle.std.specs.Prelude.{◌≡◌, ◌∷◌, [], drop, length};
ghost use Rattle.json_text.specs.Grammar.{null_text, true_text, false_text};
ghost use Rattle.json_text.specs.Reading.{Gives, Tells, behind_white, separator_at, name_at, scalar_at, flat_by, value_by, value_at, item_at, member_at, items_at, members_at, repeated};
ghost use Rattle.json_text.specs.declared.lead.Lead.TheVariants as lead;

use crate::fault::{Fault, Stop};
use crate::kept::last_values;
use crate::lead::{Lead, lead_of};
use crate::literal::number;
use crate::scan::{behind_white, byte, strip, unexpected, word};
use crate::string::text;
use doc_model::{Node, Text};
use sqlite_items::Items;
use std::alloc::Global;

/// A comma, or the bracket that closes: whether another one follows.
#[tactic(auto, unfolding(crate::specs::Reading::separator_at))]
fn separator(closing: u8, bytes: &[u8]) -> Result<(bool, &[u8]), Fault>
    ensures { Tells (λ x. (x.0, x.1.now)) result (separator_at closing bytes.now) }
{
    match bytes {
        [b',', rest @ ..] => Ok((true, rest)),
        [first, rest @ ..] if *first == closing => Ok((false, rest)),
        _ => Err(unexpected(bytes)),
    }
}

/// The name of a member, and what is behind its colon.
#[tactic(auto, unfolding(crate::specs::Reading::name_at))]
fn name(alloc: Global, bytes: &[u8]) -> Result<(Text, &[u8]), Stop>
    ensures { Gives (λ x. (x.0, x.1.now)) result (name_at bytes.now) }
{
    let rest = byte(b'"', bytes)?;
    let (name, rest) = text(alloc, rest)?;
    let rest = byte(b':', behind_white(rest))?;
    Ok((name, rest))
}

#[tactic(auto, unfolding(crate::specs::Reading::scalar_at))]
fn string_value(alloc: Global, bytes: &[u8]) -> Result<(Node, &[u8]), Stop>
    ensures { Gives (λ x. (x.0, x.1.now)) result (scalar_at lead.Quote bytes.now) }
{
    let (text, rest) = text(alloc, behind_first(bytes))?;
    Ok((Node::Text(text), rest))
}

#[tactic(auto, unfolding(crate::specs::Reading::scalar_at))]
fn null_value(bytes: &[u8]) -> Result<(Node, &[u8]), Stop>
    ensures { Gives (λ x. (x.0, x.1.now)) result (scalar_at lead.Null bytes.now) }
{
    let rest = word(b"null", bytes)?;
    Ok((Node::Null, rest))
}

#[tactic(auto, unfolding(crate::specs::Reading::scalar_at))]
fn true_value(bytes: &[u8]) -> Result<(Node, &[u8]), Stop>
    ensures { Gives (λ x. (x.0, x.1.now)) result (scalar_at lead.True bytes.now) }
{
    let rest = word(b"true", bytes)?;
    Ok((Node::Bool(true), rest))
}

#[tactic(auto, unfolding(crate::specs::Reading::scalar_at))]
fn false_value(bytes: &[u8]) -> Result<(Node, &[u8]), Stop>
    ensures { Gives (λ x. (x.0, x.1.now)) result (scalar_at lead.False bytes.now) }
{
    let rest = word(b"false", bytes)?;
    Ok((Node::Bool(false), rest))
}

/// A value that is no array and no object, by what it begins with.
#[tactic(auto, unfolding(crate::specs::Reading::scalar_at))]
fn scalar(alloc: Global, lead: Lead, bytes: &[u8]) -> Result<(Node, &[u8]), Stop>
    ensures { Gives (λ x. (x.0, x.1.now)) result (scalar_at lead bytes.now) }
{
    match lead {
        Lead::Quote => string_value(alloc, bytes),
        Lead::True => true_value(bytes),
        Lead::False => false_value(bytes),
        Lead::Null => null_value(bytes),
        Lead::Number => Ok(number(bytes)?),
        Lead::Brace | Lead::Bracket | Lead::Other => Err(Stop::Fault(unexpected(bytes))),
    }
}

fn behind_first(bytes: &[u8]) -> &[u8]
    ensures { result.now ≡ drop 1 bytes.now }
{
    match bytes {
        [_, rest @ ..] => rest,
        [] => bytes,
    }
}

/// A value where no array and no object may begin.
#[tactic(auto, unfolding(crate::specs::Reading::flat_by))]
fn flat(alloc: Global, lead: Lead, bytes: &[u8]) -> Result<(Node, &[u8]), Stop>
    ensures { Gives (λ x. (x.0, x.1.now)) result (flat_by lead bytes.now) }
{
    match lead {
        Lead::Bracket | Lead::Brace => Err(Stop::Fault(Fault::Depth(bytes.len()))),
        _ => scalar(alloc, lead, bytes),
    }
}

/// A value in which at most so many arrays and objects enclose each other.
#[cycle(value)]
pub(crate) fn value(alloc: Global, room: u32, bytes: &[u8]) -> Result<(Node, &[u8]), Stop>
    ensures { Gives (λ x. (x.0, x.1.now)) result (value_at room bytes.now) }
{
    let lead = lead_of(bytes);
    if room == 0 {
        flat(alloc, lead, bytes)
    } else {
        nested(alloc, room - 1, lead, bytes)
    }
}

/// A value with so much room inside its brackets.
#[cycle(value)]
#[tactic(auto, unfolding(crate::specs::Reading::value_by))]
fn nested(alloc: Global, room: u32, lead: Lead, bytes: &[u8]) -> Result<(Node, &[u8]), Stop>
    ensures { Gives (λ x. (x.0, x.1.now)) result (value_by (value_at room) lead bytes.now) }
{
    match lead {
        Lead::Bracket => {
            let (items, rest) = items(alloc, room, behind_first(bytes))?;
            Ok((Node::Items(Items::from_vec(items)), rest))
        }
        Lead::Brace => {
            let (written, rest) = members(alloc, room, behind_first(bytes))?;
            Ok((Node::Members(last_values(alloc, written)?), rest))
        }
        _ => scalar(alloc, lead, bytes),
    }
}

#[cycle(value)]
#[tactic(auto, unfolding(crate::specs::Reading::item_at))]
fn item(alloc: Global, room: u32, bytes: &[u8]) -> Result<(Node, bool, &[u8]), Stop>
    ensures { Gives (λ x. ((x.0 ∷ [], x.1), x.2.now)) result (item_at (value_at room) bytes.now) }
{
    let (item, rest) = value(alloc, room, behind_white(bytes))?;
    let (more, rest) = separator(b']', behind_white(rest))?;
    Ok((item, more, rest))
}

#[cycle(value)]
#[tactic(auto, unfolding(crate::specs::Reading::member_at))]
fn member(alloc: Global, room: u32, bytes: &[u8]) -> Result<((Text, Node), bool, &[u8]), Stop>
    ensures { Gives (λ x. ((x.0 ∷ [], x.1), x.2.now)) result (member_at (value_at room) bytes.now) }
{
    let (name, rest) = name(alloc, behind_white(bytes))?;
    let (inner, rest) = value(alloc, room, behind_white(rest))?;
    let (more, rest) = separator(b'}', behind_white(rest))?;
    Ok(((name, inner), more, rest))
}

/// The items of an array, behind its bracket.
#[cycle(value)]
#[tactic(auto, unfolding(crate::specs::Reading::items_at))]
fn items(alloc: Global, room: u32, bytes: &[u8]) -> Result<(Vec<Node>, &[u8]), Stop>
    ensures { Gives (λ x. (x.0.items, x.1.now)) result (items_at (value_at room) bytes.now) }
{
    match strip(b']', behind_white(bytes)) {
        Some(rest) => Ok((Vec::new(alloc), rest)),
        None => some_items(alloc, room, bytes),
    }
}

#[cycle(value)]
fn some_items(alloc: Global, room: u32, bytes: &[u8]) -> Result<(Vec<Node>, &[u8]), Stop>
    ensures { Gives (λ x. (x.0.items, x.1.now)) result (repeated (item_at (value_at room)) (length bytes.now) bytes.now) }
{
    let mut items = Vec::new(alloc);
    let mut rest = bytes;
    for _ in 0..bytes.len() {
        let (item, more, behind) = item(alloc, room, rest)?;
        items.push(item)?;
        rest = behind;
        if !more {
            return Ok((items, rest));
        }
    }
    Err(Stop::Fault(unexpected(rest)))
}

/// The members of an object as they are written, behind its bracket.
#[cycle(value)]
#[tactic(auto, unfolding(crate::specs::Reading::members_at))]
fn members(alloc: Global, room: u32, bytes: &[u8]) -> Result<(Vec<(Text, Node)>, &[u8]), Stop>
    ensures { Gives (λ x. (x.0.items, x.1.now)) result (members_at (value_at room) bytes.now) }
{
    match strip(b'}', behind_white(bytes)) {
        Some(rest) => Ok((Vec::new(alloc), rest)),
        None => some_members(alloc, room, bytes),
    }
}

#[cycle(value)]
fn some_members(alloc: Global, room: u32, bytes: &[u8]) -> Result<(Vec<(Text, Node)>, &[u8]), Stop>
    ensures { Gives (λ x. (x.0.items, x.1.now)) result (repeated (member_at (value_at room)) (length bytes.now) bytes.now) }
{
    let mut members = Vec::new(alloc);
    let mut rest = bytes;
    for _ in 0..bytes.len() {
        let (member, more, behind) = member(alloc, room, rest)?;
        members.push(member)?;
        rest = behind;
        if !more {
            return Ok((members, rest));
        }
    }
    Err(Stop::Fault(unexpected(rest)))
}
