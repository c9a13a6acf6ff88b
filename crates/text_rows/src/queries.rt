//! Queries on documents, their rules, and what is near.

use crate::places::{indexes, kind_name, lists, placed};
use doc_model::{Document, Query, QueryBad, check_query};
use std::alloc::{AllocError, Global};

/// A document and a query, or the first fault of both.
fn both(
    alloc: Global,
    place: &str,
    root: &[u8],
    query: &[u8],
) -> Result<Result<(Document, Query), String>, AllocError> {
    let document = match placed(alloc, place, root)? {
        Ok(document) => document,
        Err(fault) => return Ok(Err(fault)),
    };
    match cts_text::read(alloc, query) {
        Ok(query) => Ok(Ok((document, query))),
        Err(bad) => Ok(Err(format!(in alloc; "{bad:?}")?)),
    }
}

/// What two programs find, where they agree.
fn agreed(alloc: Global, found: bool, plain: bool) -> Result<String, AllocError> {
    if found == plain {
        format!(in alloc; "{found}")
    } else {
        format!(in alloc; "{found} by doc_filter, {plain} by plain_query")
    }
}

/// Whether a document satisfies a query, by the filter and as `plain_query` says.
pub fn verdict(
    alloc: Global,
    place: &str,
    root: &[u8],
    query: &[u8],
) -> Result<String, AllocError> {
    let (document, query) = match both(alloc, place, root, query)? {
        Ok(both) => both,
        Err(fault) => return Ok(fault),
    };
    let found = doc_filter::matches(alloc, &query, &document)?;
    let plain = plain_query::matches(alloc, &query, &document)?;
    agreed(alloc, found, plain)
}

/// The numbers of the words at which a query starts in a document, each between two strokes.
pub fn starts(alloc: Global, place: &str, root: &[u8], query: &[u8]) -> Result<String, AllocError> {
    let (document, query) = match both(alloc, place, root, query)? {
        Ok(both) => both,
        Err(fault) => return Ok(fault),
    };
    let mut out = String::from_str(alloc, "/")?;
    for start in plain_query::meaning(alloc, &query, &document)?
        .starts
        .as_slice()
    {
        write!(out, "{start}/")?;
    }
    Ok(out)
}

/// The two tests of a query on a document by single words, pairs of words and whole values.
pub fn bounds(alloc: Global, place: &str, root: &[u8], query: &[u8]) -> Result<String, AllocError> {
    let (document, query) = match both(alloc, place, root, query)? {
        Ok(both) => both,
        Err(fault) => return Ok(fault),
    };
    let found = plain_query::bounds(alloc, &query, &document)?;
    format!(in alloc; "sure {}, maybe {}", found.sure, found.maybe)
}

/// The first rule that a query breaks beside these indexes.
pub fn check(alloc: Global, there: &str, query: &[u8]) -> Result<String, AllocError> {
    let query = match cts_text::read(alloc, query) {
        Ok(query) => query,
        Err(bad) => return format!(in alloc; "{bad:?}"),
    };
    let Some(indexes) = indexes(alloc, there)? else {
        return String::from_str(alloc, "indexes refused");
    };
    match check_query(alloc, &query.copy(alloc)?, &indexes) {
        Ok(()) => String::from_str(alloc, "kept"),
        Err(QueryBad::NoRange { name, kind }) => {
            format!(in alloc; "NoRange {} {}", name.as_str(), kind_name(kind))
        }
        Err(bad) => format!(in alloc; "{bad:?}"),
    }
}

/// The distance of a cell, and whether the starts are to rise.
fn terms(cell: &str) -> (u32, bool) {
    let (distance, order) = cell.split_once(' ').unwrap_or((cell, ""));
    (distance.parse::<u32>().unwrap_or(0), order == "ordered")
}

/// Whether children are near, by leaps and as `plain_query` says.
pub fn near(alloc: Global, cell: &str, children: &str) -> Result<String, AllocError> {
    let (distance, ordered) = terms(cell);
    let children = lists(alloc, children)?;
    let found = doc_filter::is_near(alloc, distance, ordered, children.as_slice())?;
    let plain = plain_query::is_near(alloc, distance, ordered, children.as_slice())?;
    agreed(alloc, found, plain)
}

/// Whether children are near, by leaps alone: their choices may be more than can be gone through.
pub fn leaps(alloc: Global, cell: &str, children: &str) -> Result<String, AllocError> {
    let (distance, ordered) = terms(cell);
    let children = lists(alloc, children)?;
    let found = doc_filter::is_near(alloc, distance, ordered, children.as_slice())?;
    format!(in alloc; "{found}")
}
