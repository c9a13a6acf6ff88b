ghost use Rattle.std.specs.Prelude.{◌≡◌, ◌++◌, IfOk, OnOk, flat_map, map};
ghost use Rattle.doc_filter.specs.Conditions.{condition_meaning};
ghost use Rattle.doc_filter.specs.Found.{AreOf};
ghost use Rattle.doc_meaning.specs.Near.{is_near};

use crate::condition::{Condition, Conditions};
use crate::document_words::DocumentWords;
use crate::is_near;
use crate::text_queries::add_starts_of_some;
use doc_model::Document;
use sqlite_items::Items;
use std::alloc::{AllocError, Global};

/// Whether the children of near start close to each other. It stops at the first child that starts nowhere.
pub fn near_holds(
    alloc: Global,
    children: &Conditions,
    distance: u32,
    ordered: bool,
    document: &Document,
    words: &mut DocumentWords,
) -> Result<bool, AllocError>
    requires { AreOf words.old document.now.root }
    ensures answer { let starts = map (λ c. (condition_meaning document.now c).starts) children.now in
        IfOk result (λ b. b ≡ is_near distance ordered starts) }
    ensures kept { OnOk result (AreOf words.new document.now.root) }
{
    let mut all = Items::new(alloc);
    for child in children.as_slice() {
        let mut starts = Items::new(alloc);
        add_starts(alloc, child, document, words, &mut starts)?;
        if starts.is_empty() {
            return Ok(false);
        }
        all.push(starts)?;
    }
    is_near(alloc, distance, ordered, all.as_slice())
}

/// Adds the numbers of the words at which a condition starts.
#[cycle(starts)]
fn add_starts(
    alloc: Global,
    condition: &Condition,
    document: &Document,
    words: &mut DocumentWords,
    out: &mut Items<u64>,
) -> Result<(), AllocError>
    requires { AreOf words.old document.now.root }
    ensures starts { OnOk result (out.new ≡ out.old ++ (condition_meaning document.now condition.now).starts) }
    ensures kept { OnOk result (AreOf words.new document.now.root) }
{
    match condition {
        Condition::Or(children) => add_all_starts(alloc, children, document, words, out),
        Condition::Word { phrases } => {
            add_starts_of_some(alloc, phrases.as_slice(), None, document, words, out)
        }
        Condition::PropWord { names, phrases } => {
            let names = Some(names.as_slice());
            add_starts_of_some(alloc, phrases.as_slice(), names, document, words, out)
        }
        _ => Ok(()),
    }
}

#[cycle(starts)]
fn add_all_starts(
    alloc: Global,
    children: &Conditions,
    document: &Document,
    words: &mut DocumentWords,
    out: &mut Items<u64>,
) -> Result<(), AllocError>
    requires { AreOf words.old document.now.root }
    ensures starts { let starts = flat_map (λ c. (condition_meaning document.now c).starts) children.now in
        OnOk result (out.new ≡ out.old ++ starts) }
    ensures kept { OnOk result (AreOf words.new document.now.root) }
{
    for child in children.as_slice() {
        add_starts(alloc, child, document, words, out)?;
    }
    Ok(())
}
