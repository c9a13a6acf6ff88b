ghost use Rattle.std.specs.Prelude.{◌≡◌, ◌++◌, OnOk, IfOk, flat_map, Some, [], ◌∷◌};
ghost use Rattle.std.specs.Option.{option_copied};
ghost use Rattle.doc_meaning.specs.Strings.{scalars, scalars_under};

use doc_model::{Members, Node, Nodes, Scalar, Text};
use sqlite_items::Items;
use std::alloc::{AllocError, Global};

/// The scalars of a tree in document order, each with its property: the name of the member whose value holds it
/// through arrays alone.
pub fn scalars(alloc: Global, root: &Node) -> Result<Items<(Option<Text>, Scalar)>, AllocError>
    ensures { IfOk result (λ found. found ≡ scalars root.now) }
{
    let mut out = Items::new(alloc);
    add_scalars(alloc, root, None, &mut out)?;
    Ok(out)
}

#[cycle(scalars)]
fn add_scalars(
    alloc: Global,
    node: &Node,
    property: Option<&Text>,
    out: &mut Items<(Option<Text>, Scalar)>,
) -> Result<(), AllocError>
    ensures { OnOk result (out.new ≡ out.old ++ scalars_under node.now (option_copied property.entry)) }
{
    match node {
        Node::Null => add_scalar(alloc, Scalar::Null, property, out),
        Node::Bool(b) => add_scalar(alloc, Scalar::Bool(*b), property, out),
        Node::Num(n) => add_scalar(alloc, Scalar::Num(*n), property, out),
        Node::Text(t) => add_scalar(alloc, Scalar::Text(t.copy(alloc)?), property, out),
        Node::Items(items) => add_items(alloc, items, property, out),
        Node::Members(members) => add_members(alloc, members, out),
    }
}

#[cycle(scalars)]
fn add_items(
    alloc: Global,
    items: &Nodes,
    property: Option<&Text>,
    out: &mut Items<(Option<Text>, Scalar)>,
) -> Result<(), AllocError>
    ensures { let added = flat_map (λ item. scalars_under item (option_copied property.entry)) items.now in
        OnOk result (out.new ≡ out.old ++ added) }
{
    for item in items.as_slice() {
        add_scalars(alloc, item, property, out)?;
    }
    Ok(())
}

#[cycle(scalars)]
fn add_members(
    alloc: Global,
    members: &Members,
    out: &mut Items<(Option<Text>, Scalar)>,
) -> Result<(), AllocError>
    ensures { let added = flat_map (λ member. scalars_under member.1 (Some member.0)) members.now in
        OnOk result (out.new ≡ out.old ++ added) }
{
    for member in members.as_slice() {
        add_scalars(alloc, &member.1, Some(&member.0), out)?;
    }
    Ok(())
}

fn add_scalar(
    alloc: Global,
    scalar: Scalar,
    property: Option<&Text>,
    out: &mut Items<(Option<Text>, Scalar)>,
) -> Result<(), AllocError>
    ensures { OnOk result (out.new ≡ out.old ++ (option_copied property.entry, scalar) ∷ []) }
{
    let property = copy_owner(alloc, property)?;
    out.push((property, scalar))
}

pub(crate) fn copy_owner(alloc: Global, property: Option<&Text>) -> Result<Option<Text>, AllocError>
    ensures { IfOk result (λ o. o ≡ option_copied property.entry) }
{
    match property {
        None => Ok(None),
        Some(name) => Ok(Some(name.copy(alloc)?)),
    }
}
