//! What the members of an argument object hold, of a tree without faults.

ghost use Rattle.std.specs.Prelude.{◌≡◌, ◌++◌, codes, map, IfOk, OnOk};
ghost use Rattle.std.specs.List.{flat_map};
ghost use Rattle.std.specs.Option.{option_copied};
ghost use Rattle.doc_model.specs.Tree.{is_among};
ghost use Rattle.cts_meaning.specs.Saying.{value_of};
ghost use Rattle.cts_text.specs.Values.{case_in, compare_in, distance_in, has_option, is_infinite, own_scalar};
ghost use Rattle.cts_text.specs.Values.{own_text, scalars_in, scalars_of, texts_in, texts_of};

use crate::compare::compare_named;
use crate::distance::{DEFAULT_DISTANCE, whole_distance};
use crate::kinds::{items_of, number_of, text_of};
use crate::options::{has_text, is_text};
use doc_model::{Case, Compare, Members, Node, Nodes, Scalar, Scalars, Texts};
use std::alloc::{AllocError, Global};

/// The value of the member of this name.
fn value_of<'a>(members: &'a Members, name: &str) -> Option<&'a Node>
    ensures { option_copied result ≡ value_of name.now members.now }
{
    for member in members.as_slice() {
        if member.0.as_str() == name {
            return Some(&member.1);
        }
    }
    None
}

/// Whether there is a member of this name.
pub(crate) fn has_member(members: &Members, name: &str) -> bool
    ensures { result ≡ is_among (map (λ m. m.0) members.now) name.now }
{
    for member in members.as_slice() {
        if name == member.0.as_str() {
            return true;
        }
    }
    false
}

/// The texts of a member: those of an array, or one alone.
pub(crate) fn texts_in(alloc: Global, members: &Members, name: &str) -> Result<Texts, AllocError>
    ensures { IfOk result (λ texts. texts ≡ texts_in members.now name.now) }
{
    match value_of(members, name) {
        Some(node) => texts_of(alloc, node),
        None => Ok(Texts::new(alloc)),
    }
}

fn texts_of(alloc: Global, node: &Node) -> Result<Texts, AllocError>
    ensures { IfOk result (λ texts. texts ≡ texts_of node.now) }
{
    let mut texts = Texts::new(alloc);
    match items_of(node) {
        Some(items) => put_texts(alloc, items, &mut texts)?,
        None => put_text(alloc, node, &mut texts)?,
    }
    Ok(texts)
}

fn put_texts(alloc: Global, items: &Nodes, out: &mut Texts) -> Result<(), AllocError>
    ensures { OnOk result (out.new ≡ out.old ++ flat_map own_text items.now) }
{
    for item in items.as_slice() {
        put_text(alloc, item, out)?;
    }
    Ok(())
}

fn put_text(alloc: Global, node: &Node, out: &mut Texts) -> Result<(), AllocError>
    ensures { OnOk result (out.new ≡ out.old ++ own_text node.now) }
{
    match text_of(node) {
        Some(text) => out.push(text.copy(alloc)?),
        None => Ok(()),
    }
}

/// The scalars of a member: those of an array, or one alone.
pub(crate) fn scalars_in(
    alloc: Global,
    members: &Members,
    name: &str,
) -> Result<Scalars, AllocError>
    ensures { IfOk result (λ scalars. scalars ≡ scalars_in members.now name.now) }
{
    match value_of(members, name) {
        Some(node) => scalars_of(alloc, node),
        None => Ok(Scalars::new(alloc)),
    }
}

fn scalars_of(alloc: Global, node: &Node) -> Result<Scalars, AllocError>
    ensures { IfOk result (λ scalars. scalars ≡ scalars_of node.now) }
{
    let mut scalars = Scalars::new(alloc);
    match items_of(node) {
        Some(items) => put_scalars(alloc, items, &mut scalars)?,
        None => put_scalar(alloc, node, &mut scalars)?,
    }
    Ok(scalars)
}

fn put_scalars(alloc: Global, items: &Nodes, out: &mut Scalars) -> Result<(), AllocError>
    ensures { OnOk result (out.new ≡ out.old ++ flat_map own_scalar items.now) }
{
    for item in items.as_slice() {
        put_scalar(alloc, item, out)?;
    }
    Ok(())
}

fn put_scalar(alloc: Global, node: &Node, out: &mut Scalars) -> Result<(), AllocError>
    ensures { OnOk result (out.new ≡ out.old ++ own_scalar node.now) }
{
    match node {
        Node::Null => out.push(Scalar::Null),
        Node::Bool(b) => out.push(Scalar::Bool(*b)),
        Node::Num(number) => out.push(Scalar::Num(*number)),
        Node::Text(text) => out.push(Scalar::Text(text.copy(alloc)?)),
        Node::Items(_) => Ok(()),
        Node::Members(_) => Ok(()),
    }
}

/// Whether this is among the options.
pub(crate) fn has_option(members: &Members, option: &str) -> bool
    ensures { result ≡ has_option members.now option.now }
{
    match value_of(members, "options").and_then(items_of) {
        Some(items) => has_text(items, option),
        None => false,
    }
}

pub(crate) fn case_in(members: &Members) -> Case
    ensures { result ≡ case_in members.now }
{
    if has_option(members, "case-sensitive") {
        Case::Sensitive
    } else if has_option(members, "case-insensitive") {
        Case::Insensitive
    } else {
        Case::Auto
    }
}

pub(crate) fn compare_in(members: &Members) -> Compare
    ensures { result ≡ compare_in members.now }
{
    match value_of(members, "operator").and_then(text_of) {
        Some(sign) => compare_named(sign.as_str()).unwrap_or(Compare::Eq),
        None => Compare::Eq,
    }
}

pub(crate) fn distance_in(members: &Members) -> u32
    ensures { result ≡ distance_in members.now }
{
    match value_of(members, "distance").and_then(number_of) {
        Some(number) => whole_distance(number).unwrap_or(DEFAULT_DISTANCE),
        None => DEFAULT_DISTANCE,
    }
}

pub(crate) fn is_infinite(members: &Members) -> bool
    ensures { result ≡ is_infinite members.now }
{
    match value_of(members, "depth") {
        Some(depth) => is_text(depth, "infinity"),
        None => false,
    }
}
