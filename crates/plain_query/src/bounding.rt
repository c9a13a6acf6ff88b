ghost use Rattle.std.specs.Prelude.{◌≡◌, ◌&&◌, not, IfOk, map};
ghost use Rattle.std.specs.List.{list_any, list_all};
ghost use Rattle.doc_meaning.specs.Estimates.{bounds, any_bound, near_bounds, text_bounds};
ghost use Rattle.doc_meaning.specs.Strings.{strings};
ghost use Rattle.plain_query.specs.PropertyTexts.{name_bounds, names_bounds};

use crate::leaves::leaf_holds;
use crate::strings;
use crate::text_bounding::{exactly, only_maybe, prop_text_bounds, text_bounds};
use doc_meaning::{Bounds, StringNode};
use doc_model::{Case, Document, Queries, Query, Text};
use sqlite_items::Items;
use std::alloc::{AllocError, Global};

/// Two tests of a query by single words, pairs of words and whole values: only documents that satisfy the query
/// pass `sure`, and all that satisfy it pass `maybe`.
#[cycle(bounds)]
pub fn bounds(alloc: Global, query: &Query, document: &Document) -> Result<Bounds, AllocError>
    ensures { IfOk result (λ b. b ≡ bounds document.now query.now) }
{
    match query {
        Query::And(queries) => Ok(all_of(bounds_of(alloc, queries, document)?.as_slice())),
        Query::Or(queries) => Ok(any_of(bounds_of(alloc, queries, document)?.as_slice())),
        Query::Not(query) => Ok(negated(bounds(alloc, query.get(), document)?)),
        Query::AndNot { positive, negative } => {
            let positive = bounds(alloc, positive.get(), document)?;
            let negative = bounds(alloc, negative.get(), document)?;
            Ok(and_not(positive, negative))
        }
        Query::Near { queries, .. } => {
            let all = bounds_of(alloc, queries, document)?;
            Ok(near_bounds(all.as_slice()))
        }
        Query::Word { texts, case } => word_query_bounds(alloc, document, *case, texts.as_slice()),
        Query::PropWord { names, texts, case } => {
            prop_word_query_bounds(alloc, document, *case, texts.as_slice(), names.as_slice())
        }
        _ => Ok(exactly(leaf_holds(alloc, query, document)?)),
    }
}

#[cycle(bounds)]
fn bounds_of(
    alloc: Global,
    queries: &Queries,
    document: &Document,
) -> Result<Items<Bounds>, AllocError>
    ensures { IfOk result (λ all. all ≡ map (bounds document.now) queries.now) }
{
    let mut out = Items::new(alloc);
    for query in queries.as_slice() {
        out.push(bounds(alloc, query, document)?)?;
    }
    Ok(out)
}

fn negated(inner: Bounds) -> Bounds
    ensures { result ≡ record { sure = not inner.maybe; maybe = not inner.sure } }
{
    Bounds {
        sure: !inner.maybe,
        maybe: !inner.sure,
    }
}

fn and_not(positive: Bounds, negative: Bounds) -> Bounds
    ensures sure { result.sure ≡ (positive.sure && not negative.maybe) }
    ensures maybe { result.maybe ≡ (positive.maybe && not negative.sure) }
{
    Bounds {
        sure: positive.sure && !negative.maybe,
        maybe: positive.maybe && !negative.sure,
    }
}

fn all_of(all: &[Bounds]) -> Bounds
    ensures sure { result.sure ≡ list_all (λ b. b.sure) all.now }
    ensures maybe { result.maybe ≡ list_all (λ b. b.maybe) all.now }
{
    Bounds {
        sure: all_sure(all),
        maybe: all_maybe(all),
    }
}

fn any_of(all: &[Bounds]) -> Bounds
    ensures { result ≡ any_bound all.now }
{
    Bounds {
        sure: any_sure(all),
        maybe: any_maybe(all),
    }
}

fn near_bounds(all: &[Bounds]) -> Bounds
    ensures { result ≡ near_bounds all.now }
{
    match all {
        [] => exactly(true),
        [child] => *child,
        _ => only_maybe(all_maybe(all)),
    }
}

fn all_sure(all: &[Bounds]) -> bool
    ensures { result ≡ list_all (λ b. b.sure) all.now }
{
    all.iter().all(|b| b.sure)
}

fn all_maybe(all: &[Bounds]) -> bool
    ensures { result ≡ list_all (λ b. b.maybe) all.now }
{
    all.iter().all(|b| b.maybe)
}

fn any_sure(all: &[Bounds]) -> bool
    ensures { result ≡ list_any (λ b. b.sure) all.now }
{
    all.iter().any(|b| b.sure)
}

fn any_maybe(all: &[Bounds]) -> bool
    ensures { result ≡ list_any (λ b. b.maybe) all.now }
{
    all.iter().any(|b| b.maybe)
}

#[tactic(auto, using(doc_meaning::proofs::FitLemmas::document_fits))]
fn word_query_bounds(
    alloc: Global,
    document: &Document,
    case: Case,
    texts: &[Text],
) -> Result<Bounds, AllocError>
    ensures { IfOk result (λ b. b ≡ any_bound (map (text_bounds (strings document.now.root) case) texts.now)) }
{
    let found = strings(alloc, document.root())?;
    let mut out = Items::new(alloc);
    for text in texts {
        out.push(text_bounds(alloc, found.as_slice(), case, text.as_str())?)?;
    }
    Ok(any_of(out.as_slice()))
}

#[tactic(auto, using(doc_meaning::proofs::FitLemmas::document_fits))]
fn prop_word_query_bounds(
    alloc: Global,
    document: &Document,
    case: Case,
    texts: &[Text],
    names: &[Text],
) -> Result<Bounds, AllocError>
    ensures { IfOk result (λ b. b ≡ names_bounds (strings document.now.root) case texts.now names.now) }
{
    let found = strings(alloc, document.root())?;
    names_bounds(alloc, found.as_slice(), case, texts, names)
}

/// Both tests for some of the texts in the strings of some properties.
fn names_bounds(
    alloc: Global,
    found: &[StringNode],
    case: Case,
    texts: &[Text],
    names: &[Text],
) -> Result<Bounds, AllocError>
    ensures { IfOk result (λ b. b ≡ names_bounds found.now case texts.now names.now) }
{
    let mut out = Items::new(alloc);
    for name in names {
        out.push(name_bounds(alloc, found, case, texts, name.as_str())?)?;
    }
    Ok(any_of(out.as_slice()))
}

/// Both tests for some of the texts in the strings of one property.
fn name_bounds(
    alloc: Global,
    found: &[StringNode],
    case: Case,
    texts: &[Text],
    name: &str,
) -> Result<Bounds, AllocError>
    ensures { IfOk result (λ b. b ≡ name_bounds found.now case texts.now name.now) }
{
    let mut out = Items::new(alloc);
    for text in texts {
        out.push(prop_text_bounds(alloc, found, case, text.as_str(), name)?)?;
    }
    Ok(any_of(out.as_slice()))
}
