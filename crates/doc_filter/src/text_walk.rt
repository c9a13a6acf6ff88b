ghost use Rattle.std.specs.Prelude.{◌≡◌, ◌&&◌, IfOk, None, Some};
ghost use Rattle.std.specs.List.{list_any};
ghost use Rattle.std.specs.Option.{option_copied};
ghost use Rattle.doc_filter.specs.Tokenized.{some_text_has, texts_under};
ghost use Rattle.doc_meaning.specs.Meaning.{is_nonempty};
ghost use Rattle.doc_meaning.specs.Strings.{is_named, positions, words_seen};

use crate::properties::is_named;
use crate::word_runs::occur_in;
use doc_model::{Members, Node, Nodes, Text};
use doc_tokens::words_seen;
use std::alloc::{AllocError, Global};

/// Whether the words occur one after another in a text of these properties, or in any.
///
/// It stops at the first text that has them, and lets go of the words of each before it looks at the next.
pub fn some_text_has(
    alloc: Global,
    root: &Node,
    any_case: bool,
    wanted: &[Text],
    names: Option<&[Text]>,
) -> Result<bool, AllocError>
    ensures { let texts = texts_under root.now None in
        IfOk result (λ b. b ≡ some_text_has any_case wanted.now (option_copied names.entry) texts) }
{
    occurs_under(alloc, root, None, any_case, wanted, names)
}

/// The same of a node that has this owner.
#[cycle(texts)]
fn occurs_under(
    alloc: Global,
    node: &Node,
    property: Option<&Text>,
    any_case: bool,
    wanted: &[Text],
    names: Option<&[Text]>,
) -> Result<bool, AllocError>
    ensures { let texts = texts_under node.now (option_copied property.entry) in
        IfOk result (λ b. b ≡ some_text_has any_case wanted.now (option_copied names.entry) texts) }
{
    match node {
        Node::Text(text) => occurs_in(alloc, text.as_str(), property, any_case, wanted, names),
        Node::Items(items) => occurs_in_items(alloc, items, property, any_case, wanted, names),
        Node::Members(members) => occurs_in_members(alloc, members, any_case, wanted, names),
        _ => Ok(false),
    }
}

#[cycle(texts)]
fn occurs_in_items(
    alloc: Global,
    items: &Nodes,
    property: Option<&Text>,
    any_case: bool,
    wanted: &[Text],
    names: Option<&[Text]>,
) -> Result<bool, AllocError>
    ensures { let has = some_text_has any_case wanted.now (option_copied names.entry) in
        let occurs = list_any (λ item. has (texts_under item (option_copied property.entry))) items.now in
        IfOk result (λ b. b ≡ occurs) }
{
    for item in items.as_slice() {
        if occurs_under(alloc, item, property, any_case, wanted, names)? {
            return Ok(true);
        }
    }
    Ok(false)
}

#[cycle(texts)]
fn occurs_in_members(
    alloc: Global,
    members: &Members,
    any_case: bool,
    wanted: &[Text],
    names: Option<&[Text]>,
) -> Result<bool, AllocError>
    ensures { let has = some_text_has any_case wanted.now (option_copied names.entry) in
        let occurs = list_any (λ member. has (texts_under member.1 (Some member.0))) members.now in
        IfOk result (λ b. b ≡ occurs) }
{
    for member in members.as_slice() {
        if occurs_under(alloc, &member.1, Some(&member.0), any_case, wanted, names)? {
            return Ok(true);
        }
    }
    Ok(false)
}

/// The same of one text.
fn occurs_in(
    alloc: Global,
    text: &str,
    property: Option<&Text>,
    any_case: bool,
    wanted: &[Text],
    names: Option<&[Text]>,
) -> Result<bool, AllocError>
    ensures { let owned = is_named (option_copied names.entry) (option_copied property.entry) in
        IfOk result (λ b. b ≡ (owned && is_nonempty (positions wanted.now (words_seen any_case text.now)))) }
{
    if !is_named(names, property) {
        return Ok(false);
    }
    let seen = words_seen(alloc, any_case, text)?;
    Ok(occur_in(wanted, seen.as_slice()))
}
