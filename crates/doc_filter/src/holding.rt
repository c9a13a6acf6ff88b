ghost use Rattle.std.specs.Prelude.{◌≡◌, IfOk, OnOk};
ghost use Rattle.std.specs.List.{list_any, list_all};
ghost use Rattle.doc_filter.specs.Conditions.{is_met};
ghost use Rattle.doc_filter.specs.Found.{AreOf};

use crate::collections::have_common;
use crate::condition::{Condition, Conditions};
use crate::directories::is_in_some_directory;
use crate::document_words::DocumentWords;
use crate::properties::is_among;
use crate::scalar_walk::has_scalar;
use crate::starting::near_holds;
use crate::text_queries::some_phrase_occurs;
use doc_model::Document;
use std::alloc::{AllocError, Global};

/// Whether a document meets a condition, with its words as far as they are found.
#[cycle(holds)]
pub fn holds(
    alloc: Global,
    condition: &Condition,
    document: &Document,
    words: &mut DocumentWords,
) -> Result<bool, AllocError>
    requires { AreOf words.old document.now.root }
    ensures answer { IfOk result (λ b. b ≡ is_met condition.now document.now) }
    ensures kept { OnOk result (AreOf words.new document.now.root) }
{
    match condition {
        Condition::True => Ok(true),
        Condition::False => Ok(false),
        Condition::And(children) => all_hold(alloc, children, document, words),
        Condition::Or(children) => some_holds(alloc, children, document, words),
        Condition::Not(child) => Ok(!holds(alloc, child.get(), document, words)?),
        Condition::AndNot { positive, negative } => {
            let positive = holds(alloc, positive.get(), document, words)?;
            Ok(positive && !holds(alloc, negative.get(), document, words)?)
        }
        Condition::Word { phrases } => {
            some_phrase_occurs(alloc, phrases.as_slice(), None, document, words)
        }
        Condition::PropWord { names, phrases } => {
            let names = Some(names.as_slice());
            some_phrase_occurs(alloc, phrases.as_slice(), names, document, words)
        }
        Condition::Scalars { names, test } => {
            has_scalar(alloc, document.root(), names.as_slice(), test)
        }
        Condition::Near {
            children,
            distance,
            ordered,
        } => near_holds(alloc, children, *distance, *ordered, document, words),
        Condition::Collection(names) => Ok(have_common(document.collections(), names)),
        Condition::Directory { uris, infinite } => {
            Ok(is_in_some_directory(*infinite, document.uri().as_str(), uris.as_slice()))
        }
        Condition::DocUri(uris) => Ok(is_among(uris.as_slice(), document.uri().as_str())),
    }
}

#[cycle(holds)]
fn all_hold(
    alloc: Global,
    children: &Conditions,
    document: &Document,
    words: &mut DocumentWords,
) -> Result<bool, AllocError>
    requires { AreOf words.old document.now.root }
    ensures answer { IfOk result (λ b. b ≡ list_all (λ c. is_met c document.now) children.now) }
    ensures kept { OnOk result (AreOf words.new document.now.root) }
{
    for child in children.as_slice() {
        if !holds(alloc, child, document, words)? {
            return Ok(false);
        }
    }
    Ok(true)
}

#[cycle(holds)]
fn some_holds(
    alloc: Global,
    children: &Conditions,
    document: &Document,
    words: &mut DocumentWords,
) -> Result<bool, AllocError>
    requires { AreOf words.old document.now.root }
    ensures answer { IfOk result (λ b. b ≡ list_any (λ c. is_met c document.now) children.now) }
    ensures kept { OnOk result (AreOf words.new document.now.root) }
{
    for child in children.as_slice() {
        if holds(alloc, child, document, words)? {
            return Ok(true);
        }
    }
    Ok(false)
}
