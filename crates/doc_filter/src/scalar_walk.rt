ghost use Rattle.std.specs.Prelude.{◌≡◌, ◌&&◌, IfOk, Some};
ghost use Rattle.std.specs.List.{list_any};
ghost use Rattle.std.specs.Option.{option_copied};
ghost use Rattle.doc_filter.specs.Scalars.{passes, passes_text, some_named};
ghost use Rattle.doc_meaning.specs.Strings.{is_named, scalars, scalars_under};

use crate::properties::is_named;
use crate::scalar_test::ScalarTest;
use doc_model::{Members, Node, Nodes, Scalar, Text};
use std::alloc::{AllocError, Global};

/// Whether some scalar of the named properties passes.
///
/// It goes once down the tree, compares each scalar with the names and those of the named properties with the values,
/// and stops at the first that passes.
pub fn has_scalar(
    alloc: Global,
    root: &Node,
    names: &[Text],
    test: &ScalarTest,
) -> Result<bool, AllocError>
    ensures { IfOk result (λ b. b ≡ some_named names.now (passes test.now) (scalars root.now)) }
{
    some_passes(alloc, root, None, names, test)
}

/// The same of a node that has this owner.
#[cycle(scalars)]
fn some_passes(
    alloc: Global,
    node: &Node,
    property: Option<&Text>,
    names: &[Text],
    test: &ScalarTest,
) -> Result<bool, AllocError>
    ensures { let found = scalars_under node.now (option_copied property.entry) in
        IfOk result (λ b. b ≡ some_named names.now (passes test.now) found) }
{
    match node {
        Node::Null => Ok(is_named(Some(names), property) && test.passes(&Scalar::Null)),
        Node::Bool(b) => Ok(is_named(Some(names), property) && test.passes(&Scalar::Bool(*b))),
        Node::Num(n) => Ok(is_named(Some(names), property) && test.passes(&Scalar::Num(*n))),
        Node::Text(text) => owned_text_passes(alloc, text, property, names, test),
        Node::Items(items) => some_item_passes(alloc, items, property, names, test),
        Node::Members(members) => some_member_passes(alloc, members, names, test),
    }
}

fn owned_text_passes(
    alloc: Global,
    text: &Text,
    property: Option<&Text>,
    names: &[Text],
    test: &ScalarTest,
) -> Result<bool, AllocError>
    ensures { let owned = is_named (Some names.now) (option_copied property.entry) in
        IfOk result (λ b. b ≡ (owned && passes_text test.now text.now)) }
{
    if !is_named(Some(names), property) {
        return Ok(false);
    }
    test.passes_text(alloc, text)
}

#[cycle(scalars)]
fn some_item_passes(
    alloc: Global,
    items: &Nodes,
    property: Option<&Text>,
    names: &[Text],
    test: &ScalarTest,
) -> Result<bool, AllocError>
    ensures { let has = some_named names.now (passes test.now) in
        let found = list_any (λ item. has (scalars_under item (option_copied property.entry))) items.now in
        IfOk result (λ b. b ≡ found) }
{
    for item in items.as_slice() {
        if some_passes(alloc, item, property, names, test)? {
            return Ok(true);
        }
    }
    Ok(false)
}

#[cycle(scalars)]
fn some_member_passes(
    alloc: Global,
    members: &Members,
    names: &[Text],
    test: &ScalarTest,
) -> Result<bool, AllocError>
    ensures { let has = some_named names.now (passes test.now) in
        let found = list_any (λ member. has (scalars_under member.1 (Some member.0))) members.now in
        IfOk result (λ b. b ≡ found) }
{
    for member in members.as_slice() {
        if some_passes(alloc, &member.1, Some(&member.0), names, test)? {
            return Ok(true);
        }
    }
    Ok(false)
}
