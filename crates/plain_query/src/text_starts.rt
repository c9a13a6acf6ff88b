ghost use Rattle.std.specs.Prelude.{◌≡◌, ◌+◌, ◌<◌, ◌^◌, ◌++◌, All, IfOk, OnOk, length, map};
ghost use Rattle.std.specs.Option.{option_copied};
ghost use Rattle.doc_meaning.specs.Strings.{is_named, starts_among, starts_in};
ghost use Rattle.doc_meaning.specs.Words.{plain};
ghost use Rattle.doc_meaning.specs.Meaning.{word_starts};
ghost use Rattle.doc_model.specs.Tree.{is_among};

use crate::{ignores_case, positions, words_seen};
use doc_meaning::StringNode;
use doc_model::{Case, Text};
use sqlite_items::Items;
use std::alloc::{AllocError, Global};

/// Whether a name is one of the names.
pub(crate) fn is_among(names: &[Text], name: &str) -> bool
    ensures { result ≡ is_among names.now name.now }
{
    names.iter().any(|other| name == other.as_str())
}

/// Whether the owner is one of the names, where names are given.
pub(crate) fn is_named(names: Option<&[Text]>, property: &Option<Text>) -> bool
    ensures { result ≡ is_named (option_copied names.entry) property.now }
{
    match (names, property) {
        (None, _) => true,
        (Some(_), None) => false,
        (Some(names), Some(property)) => is_among(names, property.as_str()),
    }
}

/// Where a query text starts in one string, as numbers of words.
fn starts_in(
    alloc: Global,
    string: &StringNode,
    text: &str,
    case: Case,
) -> Result<Items<u64>, AllocError>
    requires { string.now.first_position + length (plain string.now.text) < 2 ^ 64 }
    ensures { IfOk result (λ ns. ns ≡ starts_in string.now text.now case) }
{
    let any_case = ignores_case(case, text);
    let wanted = words_seen(alloc, any_case, text)?;
    let seen = words_seen(alloc, any_case, string.text.as_str())?;
    let found = positions(alloc, wanted.as_slice(), seen.as_slice())?;
    behind(alloc, string.first_position, found.as_slice())
}

/// Each number raised by the base.
fn behind(alloc: Global, first_position: u64, positions: &[u64]) -> Result<Items<u64>, AllocError>
    requires { All (λ j. first_position + j < 2 ^ 64) positions.now }
    ensures { IfOk result (λ ns. ns ≡ map (λ j. first_position + j) positions.now) }
{
    let mut out = Items::new(alloc);
    for j in positions {
        out.push(first_position + *j)?;
    }
    Ok(out)
}

/// Where a query text starts in the strings of these properties, or in all, as numbers of words.
#[tactic(auto, unfolding(doc_meaning::specs::Strings::starts_among))]
pub fn starts_among(
    alloc: Global,
    found: &[StringNode],
    text: &str,
    case: Case,
    names: Option<&[Text]>,
) -> Result<Items<u64>, AllocError>
    requires { All (λ s. s.first_position + length (plain s.text) < 2 ^ 64) found.now }
    ensures { IfOk result (λ ns. ns ≡ starts_among found.now text.now case (option_copied names.entry)) }
{
    let mut out = Items::new(alloc);
    for string in found {
        if is_named(names, &string.property) {
            out.append(starts_in(alloc, string, text, case)?)?;
        }
    }
    Ok(out)
}

/// Where some of the texts start.
pub(crate) fn word_starts(
    alloc: Global,
    found: &[StringNode],
    texts: &[Text],
    case: Case,
    names: Option<&[Text]>,
) -> Result<Items<u64>, AllocError>
    requires { All (λ s. s.first_position + length (plain s.text) < 2 ^ 64) found.now }
    ensures { IfOk result (λ ns. ns ≡ word_starts found.now texts.now case (option_copied names.entry)) }
{
    let mut out = Items::new(alloc);
    for text in texts {
        out.append(starts_among(alloc, found, text.as_str(), case, names)?)?;
    }
    Ok(out)
}
