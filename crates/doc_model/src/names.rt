ghost use Rattle.std.specs.Prelude.{◌≡◌, IfOk, map};
ghost use Rattle.std.specs.List.{list_all};
ghost use Rattle.doc_model.specs.Tree.{has_distinct_names, is_among, is_distinct};

use crate::{Members, Node, Nodes, Text};
use std::alloc::{AllocError, Global};
use std::collections::BTreeMap;

/// Whether no object of a tree has two members of one name, in time n log n.
#[cycle(names)]
pub fn has_distinct_names(alloc: Global, node: &Node) -> Result<bool, AllocError>
    ensures { IfOk result (λ b. b ≡ has_distinct_names node.now) }
{
    match node {
        Node::Items(items) => items_distinct(alloc, items),
        Node::Members(members) => {
            if !is_distinct(alloc, members.as_slice())? {
                return Ok(false);
            }
            members_distinct(alloc, members)
        }
        _ => Ok(true),
    }
}

#[cycle(names)]
fn items_distinct(alloc: Global, items: &Nodes) -> Result<bool, AllocError>
    ensures { IfOk result (λ b. b ≡ list_all has_distinct_names items.now) }
{
    for item in items.as_slice() {
        if !has_distinct_names(alloc, item)? {
            return Ok(false);
        }
    }
    Ok(true)
}

#[cycle(names)]
fn members_distinct(alloc: Global, members: &Members) -> Result<bool, AllocError>
    ensures { IfOk result (λ b. b ≡ list_all (λ m. has_distinct_names m.1) members.now) }
{
    for member in members.as_slice() {
        if !has_distinct_names(alloc, &member.1)? {
            return Ok(false);
        }
    }
    Ok(true)
}

/// So many names are compared in pairs, which takes no memory.
const FEW: usize = 8;

fn is_distinct(alloc: Global, members: &[(Text, Node)]) -> Result<bool, AllocError>
    ensures { IfOk result (λ b. b ≡ is_distinct (map (λ m. m.0) members.now)) }
{
    if members.len() <= FEW {
        return Ok(are_few_distinct(members));
    }
    are_many_distinct(alloc, members)
}

fn are_few_distinct(members: &[(Text, Node)]) -> bool
    ensures { result ≡ is_distinct (map (λ m. m.0) members.now) }
{
    for (i, member) in members.iter().enumerate() {
        if is_named(&members[i + 1..], member.0.as_str()) {
            return false;
        }
    }
    true
}

fn is_named(members: &[(Text, Node)], name: &str) -> bool
    ensures { result ≡ is_among (map (λ m. m.0) members.now) name.now }
{
    for member in members {
        if name == member.0.as_str() {
            return true;
        }
    }
    false
}

fn are_many_distinct(alloc: Global, members: &[(Text, Node)]) -> Result<bool, AllocError>
    ensures { IfOk result (λ b. b ≡ is_distinct (map (λ m. m.0) members.now)) }
{
    let mut seen: BTreeMap<&str, ()> = BTreeMap::new(alloc);
    for member in members {
        if seen.insert(member.0.as_str(), ())?.is_some() {
            return Ok(false);
        }
    }
    Ok(true)
}
