//! Range indexes in words.

ghost use Rattle.std.specs.Prelude.{◌≡◌, ◌↔◌, IfOk, IsTrue, OnErr, OnOk, map};
ghost use Rattle.command_words.specs.Asked.{IsName, index_of};
ghost use Rattle.command_words.specs.Reading.{AddsRange, FindsRange, RefusesRange, has_range};
ghost use Rattle.doc_model.specs.Queries.{is_index_list};

use crate::reading::Unfit;
use crate::scan::strip_end;
use arrayvec::ArrayVec;
use doc_model::{Indexes, Kind, Text};
use std::alloc::{AllocError, Global};

/// How many range indexes there are at most.
pub const MAX_RANGES: usize = doc_model::MAX_INDEXES;

const LONGEST_NAME: usize = 0xFFFF_FFFF;

/// A range index: a property's name, and the kind of its values.
#[derive(Clone, Copy)]
pub struct Range<'a> {
    pub name: &'a str,
    pub kind: Kind,
}

impl Default for Range<'_> {
    fn default() -> Self {
        Range {
            name: "",
            kind: Kind::Decimal,
        }
    }
}

// Adds the index that a word names. Refuses a word that isn't NAME:TYPE, an index that is there already, and one too
// many.
pub(crate) fn take_range<'a>(
    ranges: &mut ArrayVec<Range<'a>, MAX_RANGES>,
    word: &'a str,
) -> Result<(), Unfit>
    ensures added { OnOk result
        (AddsRange (map index_of ranges.old.items) (map index_of ranges.new.items) word.now) }
    ensures refused { OnErr result (RefusesRange (map index_of ranges.old.items) word.now) }
{
    let Some(range) = range_of(word) else {
        return Err(Unfit);
    };
    if ranges.is_full() {
        return Err(Unfit);
    }
    if has(ranges.as_slice(), range) {
        return Err(Unfit);
    }
    ranges.push(range);
    Ok(())
}

// The index that a word is.
fn range_of(word: &str) -> Option<Range<'_>>
    ensures { FindsRange word.now result }
{
    let (name, kind) = if let Some(name) = strip_end(word, ":decimal") {
        (name, Kind::Decimal)
    } else {
        (strip_end(word, ":string")?, Kind::Text)
    };
    if !is_name(name) {
        return None;
    }
    Some(Range { name, kind })
}

// Whether a name isn't empty, and its length fits into four bytes.
fn is_name(name: &str) -> bool
    ensures { IsTrue result ↔ IsName name.now }
{
    !name.is_empty() && name.len() <= LONGEST_NAME
}

fn has(ranges: &[Range<'_>], wanted: Range<'_>) -> bool
    ensures { result ≡ has_range ranges.now wanted.entry }
{
    ranges.iter().any(|range| wanted.name == range.name && wanted.kind == range.kind)
}

// The same indexes, with memory of their own.
pub(crate) fn indexes_of(alloc: Global, ranges: &[Range<'_>]) -> Result<Indexes, AllocError>
    requires { IsTrue (is_index_list (map index_of ranges.now)) }
    ensures { IfOk result (λ indexes. indexes ≡ map index_of ranges.now) }
{
    let mut list = Vec::new(alloc);
    for range in ranges {
        list.push((Text::from_str(alloc, range.name)?, range.kind))?;
    }
    match Indexes::new(list) {
        Some(indexes) => Ok(indexes),
        None => unreachable!(),
    }
}
