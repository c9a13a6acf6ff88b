ghost use Rattle.std.specs.Prelude.{◌≡◌, ◌∷◌, [], IfOk, filter, Some};
ghost use Rattle.doc_meaning.specs.Estimates.{exactly, only_maybe, occur, each_occurs, neighbours_occur};
ghost use Rattle.doc_meaning.specs.Estimates.{word_bounds, text_bounds, prop_word_bounds, prop_text_bounds};
ghost use Rattle.doc_meaning.specs.Strings.{is_named};

use crate::scalar_list::copy_owner;
use crate::{ignores_case, positions, words_seen};
use doc_meaning::{Bounds, StringNode};
use doc_model::{Case, Text};
use sqlite_items::Items;
use std::alloc::{AllocError, Global};

/// Both tests of a query that is decided.
pub(crate) fn exactly(holds: bool) -> Bounds
    ensures { result ≡ exactly holds }
{
    Bounds {
        sure: holds,
        maybe: holds,
    }
}

/// Both tests of a query of which it is known only whether it may hold.
pub(crate) fn only_maybe(holds: bool) -> Bounds
    ensures { result ≡ only_maybe holds }
{
    Bounds {
        sure: false,
        maybe: holds,
    }
}

/// Both tests for a query text in all strings.
pub(crate) fn text_bounds(
    alloc: Global,
    found: &[StringNode],
    case: Case,
    text: &str,
) -> Result<Bounds, AllocError>
    ensures { IfOk result (λ b. b ≡ text_bounds found.now case text.now) }
{
    let any_case = ignores_case(case, text);
    let words = words_seen(alloc, any_case, text)?;
    word_bounds(alloc, found, any_case, words.as_slice())
}

fn word_bounds(
    alloc: Global,
    found: &[StringNode],
    any_case: bool,
    words: &[Text],
) -> Result<Bounds, AllocError>
    ensures { IfOk result (λ b. b ≡ word_bounds found.now any_case words.now) }
{
    match words {
        [] => Ok(exactly(false)),
        [_] => Ok(exactly(occur(alloc, found, any_case, words)?)),
        [_, _] => Ok(exactly(occur(alloc, found, any_case, words)?)),
        _ => Ok(only_maybe(neighbours_occur(alloc, found, any_case, words)?)),
    }
}

/// Both tests for a query text in the strings of one property.
pub(crate) fn prop_text_bounds(
    alloc: Global,
    found: &[StringNode],
    case: Case,
    text: &str,
    name: &str,
) -> Result<Bounds, AllocError>
    ensures { IfOk result (λ b. b ≡ prop_text_bounds found.now case text.now name.now) }
{
    let any_case = ignores_case(case, text);
    let words = words_seen(alloc, any_case, text)?;
    let owned = owned_strings(alloc, found, name)?;
    prop_word_bounds(alloc, found, owned.as_slice(), any_case, words.as_slice())
}

fn prop_word_bounds(
    alloc: Global,
    found: &[StringNode],
    owned: &[StringNode],
    any_case: bool,
    words: &[Text],
) -> Result<Bounds, AllocError>
    ensures { IfOk result (λ b. b ≡ prop_word_bounds found.now owned.now any_case words.now) }
{
    match words {
        [] => Ok(exactly(false)),
        [_] => Ok(exactly(occur(alloc, owned, any_case, words)?)),
        _ => {
            let each = each_occurs(alloc, owned, any_case, words)?;
            let neighbours = neighbours_occur(alloc, found, any_case, words)?;
            Ok(only_maybe(each && neighbours))
        }
    }
}

/// The strings of one property.
fn owned_strings(
    alloc: Global,
    found: &[StringNode],
    name: &str,
) -> Result<Items<StringNode>, AllocError>
    ensures { IfOk result (λ owned. owned ≡ filter (λ s. is_named (Some (name.now ∷ [])) s.property) found.now) }
{
    let mut out = Items::new(alloc);
    for string in found {
        if is_owned_by(name, &string.property) {
            out.push(copy_string(alloc, string)?)?;
        }
    }
    Ok(out)
}

fn is_owned_by(name: &str, property: &Option<Text>) -> bool
    ensures { result ≡ is_named (Some (name.now ∷ [])) property.now }
{
    match property {
        None => false,
        Some(property) => property.as_str() == name,
    }
}

fn copy_string(alloc: Global, string: &StringNode) -> Result<StringNode, AllocError>
    ensures { IfOk result (λ s. s ≡ string.now) }
{
    Ok(StringNode {
        property: copy_owner(alloc, string.property.as_ref())?,
        text: string.text.copy(alloc)?,
        first_position: string.first_position,
    })
}

/// Whether the words occur one after another in some string.
fn occur(
    alloc: Global,
    found: &[StringNode],
    any_case: bool,
    words: &[Text],
) -> Result<bool, AllocError>
    ensures { IfOk result (λ b. b ≡ occur found.now any_case words.now) }
{
    for string in found {
        let seen = words_seen(alloc, any_case, string.text.as_str())?;
        if !positions(alloc, words, seen.as_slice())?.is_empty() {
            return Ok(true);
        }
    }
    Ok(false)
}

/// Whether each word occurs somewhere.
fn each_occurs(
    alloc: Global,
    found: &[StringNode],
    any_case: bool,
    words: &[Text],
) -> Result<bool, AllocError>
    ensures { IfOk result (λ b. b ≡ each_occurs found.now any_case words.now) }
{
    match words {
        [] => Ok(true),
        _ => {
            let first = occur(alloc, found, any_case, &words[..1])?;
            Ok(first && each_occurs(alloc, found, any_case, &words[1..])?)
        }
    }
}

/// Whether each word and the one behind it occur one after another somewhere.
fn neighbours_occur(
    alloc: Global,
    found: &[StringNode],
    any_case: bool,
    words: &[Text],
) -> Result<bool, AllocError>
    ensures { IfOk result (λ b. b ≡ neighbours_occur found.now any_case words.now) }
{
    match words {
        [_, _, ..] => {
            let first = occur(alloc, found, any_case, &words[..2])?;
            Ok(first && neighbours_occur(alloc, found, any_case, &words[1..])?)
        }
        _ => Ok(true),
    }
}
