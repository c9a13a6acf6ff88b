ghost use Rattle.std.specs.Prelude.{◌≡◌, ◌+◌, ◌<◌, ◌^◌, ◌++◌, ◌∷◌, [], IfOk, OnOk, length};
ghost use Rattle.std.specs.Option.{option_copied};
ghost use Rattle.doc_filter.specs.Tokenized.{texts_under, texts_of_items, texts_of_members, word_count};
ghost use Rattle.doc_filter.specs.Tokenized.{tokenized_from, tokenized_strings, tokenized_text};
ghost use Rattle.doc_meaning.specs.Words.{plain};
ghost use Rattle.doc_model.specs.Tree.{size};

use crate::tokenized_string::TokenizedString;
use doc_model::{Members, Node, Nodes, Text};
use doc_tokens::words_seen;
use sqlite_items::Items;
use std::alloc::{AllocError, Global};

/// The text values of a tree in document order, each by its words, case folded or as they are written.
///
/// It copies each word once, or folds it once, and each owner once for each of its texts.
#[tactic(auto, using(doc_meaning::proofs::FitLemmas::texts_fit))]
pub fn tokenized_strings(
    alloc: Global,
    any_case: bool,
    root: &Node,
) -> Result<Items<TokenizedString>, AllocError>
    requires { size root.now < 2 ^ 64 }
    ensures { IfOk result (λ found. found ≡ tokenized_strings any_case root.now) }
{
    let mut out = Items::new(alloc);
    add_strings(alloc, any_case, root, None, 0, &mut out)?;
    Ok(out)
}

/// Adds the text values of a node that has this owner, and answers the base of what comes behind them.
#[cycle(strings)]
fn add_strings(
    alloc: Global,
    any_case: bool,
    node: &Node,
    property: Option<&Text>,
    first_position: u64,
    out: &mut Items<TokenizedString>,
) -> Result<u64, AllocError>
    requires { first_position + word_count (texts_under node.now (option_copied property)) < 2 ^ 64 }
    ensures next { let texts = texts_under node.now (option_copied property.entry) in
        IfOk result (λ n. n ≡ first_position + word_count texts) }
    ensures added { let texts = texts_under node.now (option_copied property.entry) in
        OnOk result (out.new ≡ out.old ++ tokenized_from any_case first_position texts) }
{
    match node {
        Node::Text(text) => add_string(
            alloc,
            any_case,
            text.as_str(),
            property,
            first_position,
            out,
        ),
        Node::Items(items) => add_items(alloc, any_case, items, property, first_position, out),
        Node::Members(members) => add_members(alloc, any_case, members, first_position, out),
        _ => Ok(first_position),
    }
}

#[cycle(strings)]
fn add_items(
    alloc: Global,
    any_case: bool,
    items: &Nodes,
    property: Option<&Text>,
    first_position: u64,
    out: &mut Items<TokenizedString>,
) -> Result<u64, AllocError>
    requires { first_position + word_count (texts_of_items items.now (option_copied property)) < 2 ^ 64 }
    ensures next { let texts = texts_of_items items.now (option_copied property.entry) in
        IfOk result (λ n. n ≡ first_position + word_count texts) }
    ensures added { let texts = texts_of_items items.now (option_copied property.entry) in
        OnOk result (out.new ≡ out.old ++ tokenized_from any_case first_position texts) }
{
    let mut next = first_position;
    for item in items.as_slice() {
        next = add_strings(alloc, any_case, item, property, next, out)?;
    }
    Ok(next)
}

#[cycle(strings)]
fn add_members(
    alloc: Global,
    any_case: bool,
    members: &Members,
    first_position: u64,
    out: &mut Items<TokenizedString>,
) -> Result<u64, AllocError>
    requires { first_position + word_count (texts_of_members members.now) < 2 ^ 64 }
    ensures next { IfOk result (λ n. n ≡ first_position + word_count (texts_of_members members.now)) }
    ensures added { OnOk result
        (out.new ≡ out.old ++ tokenized_from any_case first_position (texts_of_members members.now)) }
{
    let mut next = first_position;
    for member in members.as_slice() {
        next = add_strings(alloc, any_case, &member.1, Some(&member.0), next, out)?;
    }
    Ok(next)
}

/// Adds one text value.
#[tactic(auto, using(crate::proofs::TokenizedLemmas::as_many_words))]
fn add_string(
    alloc: Global,
    any_case: bool,
    text: &str,
    property: Option<&Text>,
    first_position: u64,
    out: &mut Items<TokenizedString>,
) -> Result<u64, AllocError>
    requires { first_position + length (plain text.now) < 2 ^ 64 }
    ensures next { IfOk result (λ n. n ≡ first_position + length (plain text.now)) }
    ensures added { let string = tokenized_text any_case (option_copied property.entry) first_position text.now in
        OnOk result (out.new ≡ out.old ++ string ∷ []) }
{
    let words = words_seen(alloc, any_case, text)?;
    let next = first_position + words.len() as u64;
    let property = copy_property(alloc, property)?;
    out.push(TokenizedString {
        property,
        first_position,
        words,
    })?;
    Ok(next)
}

fn copy_property(alloc: Global, property: Option<&Text>) -> Result<Option<Text>, AllocError>
    ensures { IfOk result (λ o. o ≡ option_copied property.entry) }
{
    match property {
        None => Ok(None),
        Some(name) => Ok(Some(name.copy(alloc)?)),
    }
}
