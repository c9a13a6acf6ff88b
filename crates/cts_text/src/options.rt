//! The options of a query.

ghost use Rattle.std.specs.Prelude.{◌≡◌};
ghost use Rattle.doc_model.specs.Tree.{is_among};
ghost use Rattle.cts_meaning.specs.Shapes.{both_cases, both_orders, has_rivals, has_text, is_language, is_option};
ghost use Rattle.cts_meaning.specs.Shapes.{is_text};

use crate::kinds::text_of;
use cts_meaning::OptionKind;
use doc_model::{Node, Nodes};

/// Whether the options of this kind have this one.
pub(crate) fn is_option(kind: OptionKind, text: &str) -> bool
    ensures { result ≡ is_option kind text.now }
{
    match kind {
        OptionKind::Word => is_case(text) || is_language(text),
        OptionKind::Value => is_case(text) || text == "exact" || is_language(text),
        OptionKind::Near => is_order(text),
    }
}

fn is_case(text: &str) -> bool
    ensures { result ≡ is_among both_cases text.now }
{
    text == "case-sensitive" || text == "case-insensitive"
}

fn is_order(text: &str) -> bool
    ensures { result ≡ is_among both_orders text.now }
{
    text == "ordered" || text == "unordered"
}

fn is_language(text: &str) -> bool
    ensures { result ≡ is_language text.now }
{
    text.as_bytes().starts_with(b"lang=")
}

/// Whether options exclude each other.
pub(crate) fn has_rivals(items: &Nodes) -> bool
    ensures { result ≡ has_rivals items.now }
{
    (has_text(items, "case-sensitive") && has_text(items, "case-insensitive"))
        || (has_text(items, "ordered") && has_text(items, "unordered"))
}

/// Whether a text is one of the items.
pub(crate) fn has_text(items: &Nodes, text: &str) -> bool
    ensures { result ≡ has_text items.now text.now }
{
    items.as_slice().iter().any(|item| is_text(item, text))
}

pub(crate) fn is_text(node: &Node, wanted: &str) -> bool
    ensures { result ≡ is_text wanted.now node.now }
{
    match text_of(node) {
        Some(text) => wanted == text.as_str(),
        None => false,
    }
}
