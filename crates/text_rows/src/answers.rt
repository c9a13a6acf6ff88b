//! The kinds of rows.

use crate::bodies::{document, entry, root};
use crate::cells::bytes_of;
use crate::histories::history;
use crate::queries::{bounds, check, leaps, near, starts, verdict};
use crate::rules::{members, ops, size};
use crate::texts::{cts, folded, json, words};
use std::alloc::{AllocError, Global};

/// The cells of an input that has two.
fn two(input: &str) -> (&str, &str) {
    input.split_once(" | ").unwrap_or((input, ""))
}

/// The answer to a row about one text or some bytes.
fn of_bytes(alloc: Global, kind: &str, bytes: &[u8]) -> Result<String, AllocError> {
    match kind {
        "json" => json(alloc, bytes),
        "cts" => cts(alloc, bytes),
        "document" => document(alloc, bytes),
        "entry" => entry(alloc, bytes),
        "root" => root(alloc, bytes),
        _ => String::from_str(alloc, "no such kind of row"),
    }
}

/// The answer to a row about a document, whose place and root come first, and a query.
fn of_document(alloc: Global, kind: &str, input: &str) -> Result<String, AllocError> {
    let (place, input) = two(input);
    let (root, query) = two(input);
    let root = bytes_of(alloc, root)?;
    let query = bytes_of(alloc, query)?;
    match kind {
        "query" => verdict(alloc, place, &root, &query),
        "starts" => starts(alloc, place, &root, &query),
        _ => bounds(alloc, place, &root, &query),
    }
}

/// The answer to a row of this kind with this input.
pub fn answer(alloc: Global, kind: &str, input: &str) -> Result<String, AllocError> {
    let (first, second) = two(input);
    match kind {
        "words" => words(alloc, input),
        "folded" => folded(alloc, input),
        "query" | "starts" | "bounds" => of_document(alloc, kind, input),
        "check" => check(alloc, first, &bytes_of(alloc, second)?),
        "near" => near(alloc, first, second),
        "leaps" => leaps(alloc, first, second),
        "size" => {
            let (names, root) = two(second);
            size(alloc, first, names, root)
        }
        "members" => members(alloc, first, second),
        "ops" => ops(alloc, input),
        "history" => history(alloc, input),
        _ => of_bytes(alloc, kind, &bytes_of(alloc, input)?),
    }
}
