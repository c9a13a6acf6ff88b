//! Operations on two lists as sets.

ghost use Rattle.std.specs.Prelude.{◌≡◌, ◌&&◌, ◌||◌, not, IfOk};
ghost use Rattle.post_lists.specs.Sets.{Collects, chosen, has, lesser};

use crate::TermList;
use std::alloc::{AllocError, Global};

/// The items that are in both.
///
/// Goes through the shorter list, and seeks each of its items in the longer one.
pub fn and(alloc: Global, a: &TermList, b: &TermList) -> Result<TermList, AllocError>
    ensures { IfOk result (λ list. Collects (λ x. has a.now x && has b.now x) list) }
{
    if a.len() <= b.len() {
        chosen(alloc, a, b, true)
    } else {
        chosen(alloc, b, a, true)
    }
}

/// The items that are in one of them or in both, in time in proportion to the items of both.
pub fn or(alloc: Global, a: &TermList, b: &TermList) -> Result<TermList, AllocError>
    ensures { IfOk result (λ list. Collects (λ x. has a.now x || has b.now x) list) }
{
    let mut list = TermList::new(alloc);
    let mut left = a.cursor();
    let mut right = b.cursor();
    while let Some(item) = lesser(left.peek(), right.peek()) {
        list = list.push(item)?;
        left.pass(item);
        right.pass(item);
    }
    Ok(list)
}

/// The items of the first that aren't in the second.
///
/// Goes through the first list, and seeks each of its items in the second; so of a longer second list most is skipped.
pub fn minus(alloc: Global, a: &TermList, b: &TermList) -> Result<TermList, AllocError>
    ensures { IfOk result (λ list. Collects (λ x. has a.now x && not (has b.now x)) list) }
{
    chosen(alloc, a, b, false)
}

/// The items of the first that are in the second, or those that aren't.
fn chosen(alloc: Global, a: &TermList, b: &TermList, there: bool) -> Result<TermList, AllocError>
    ensures { IfOk result (λ list. Collects (λ x. has a.now x && chosen there (has b.now x)) list) }
{
    let mut list = TermList::new(alloc);
    let mut items = a.cursor();
    let mut others = b.cursor();
    while let Some(item) = items.next() {
        others.skip_to(item);
        list = list.push_if(others.starts_with(item) == there, item)?;
    }
    Ok(list)
}

/// The lesser of two items that may be missing.
fn lesser(a: Option<u32>, b: Option<u32>) -> Option<u32>
    ensures { result ≡ lesser a b }
{
    match (a, b) {
        (Some(x), Some(y)) if y < x => Some(y),
        (Some(x), _) => Some(x),
        (None, _) => b,
    }
}
