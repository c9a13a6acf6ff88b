ghost use Rattle.std.specs.Prelude.{◌≡◌, ◌+◌, ◌<◌, ◌^◌, ◌++◌, [], ◌∷◌};
ghost use Rattle.std.specs.Prelude.{IfOk, OnOk, length, sum_by};
ghost use Rattle.std.specs.List.{filter_map};
ghost use Rattle.std.specs.Option.{option_to_list};
ghost use Rattle.doc_meaning.specs.Strings.{strings, scalars, with_positions, text_of};
ghost use Rattle.doc_meaning.specs.Words.{plain};
ghost use Rattle.doc_meaning.specs.declared.string_node.StringNode.{StringNode};
ghost use Rattle.doc_model.specs.Tree.{size};

use crate::scalar_list::copy_owner;
use crate::scalars;
use doc_meaning::StringNode;
use doc_model::{Node, Scalar, Text};
use doc_tokens::plain_words;
use sqlite_items::Items;
use std::alloc::{AllocError, Global};

/// The text values of a tree in document order, each with its property and its first position.
pub fn strings(alloc: Global, root: &Node) -> Result<Items<StringNode>, AllocError>
    requires { size root.now < 2 ^ 64 }
    ensures { IfOk result (λ found. found ≡ strings root.now) }
{
    let found = scalars(alloc, root)?;
    let texts = texts_of(alloc, found.as_slice())?;
    with_positions(alloc, texts.as_slice())
}

/// The texts among scalars, each with its property.
fn texts_of(
    alloc: Global,
    scalars: &[(Option<Text>, Scalar)],
) -> Result<Items<(Option<Text>, Text)>, AllocError>
    ensures { IfOk result (λ texts. texts ≡ filter_map text_of scalars.now) }
{
    let mut out = Items::new(alloc);
    for scalar in scalars {
        add_text(alloc, scalar, &mut out)?;
    }
    Ok(out)
}

fn add_text(
    alloc: Global,
    scalar: &(Option<Text>, Scalar),
    out: &mut Items<(Option<Text>, Text)>,
) -> Result<(), AllocError>
    ensures { OnOk result (out.new ≡ out.old ++ option_to_list (text_of scalar.now)) }
{
    match &scalar.1 {
        Scalar::Text(text) => out.push((copy_owner(alloc, scalar.0.as_ref())?, text.copy(alloc)?)),
        _ => Ok(()),
    }
}

fn with_positions(
    alloc: Global,
    texts: &[(Option<Text>, Text)],
) -> Result<Items<StringNode>, AllocError>
    requires { sum_by (λ s. length (plain s.1)) texts.now < 2 ^ 64 }
    ensures { IfOk result (λ found. found ≡ with_positions 0 texts.now) }
{
    let mut out = Items::new(alloc);
    let mut first_position: u64 = 0;
    for text in texts {
        first_position = add_string(alloc, text, first_position, &mut out)?;
    }
    Ok(out)
}

/// Adds a text that has this first position, and returns that of the next one.
fn add_string(
    alloc: Global,
    text: &(Option<Text>, Text),
    first_position: u64,
    out: &mut Items<StringNode>,
) -> Result<u64, AllocError>
    requires { first_position + length (plain text.now.1) < 2 ^ 64 }
    ensures next { IfOk result (λ n. n ≡ first_position + length (plain text.now.1)) }
    ensures added { let string : StringNode =
        record { property = text.now.0; text = text.now.1; first_position = first_position } in
        OnOk result (out.new ≡ out.old ++ string ∷ []) }
{
    let count = plain_words(alloc, text.1.as_str())?.len() as u64;
    out.push(StringNode {
        property: copy_owner(alloc, text.0.as_ref())?,
        text: text.1.copy(alloc)?,
        first_position,
    })?;
    Ok(first_position + count)
}
