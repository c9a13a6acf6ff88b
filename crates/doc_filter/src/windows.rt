ghost use Rattle.std.specs.Prelude.{◌≡◌, All};
ghost use Rattle.std.specs.List.Sorted.{IsNonDecreasing};
ghost use Rattle.doc_filter.specs.Windows.{FindsEnd, FindsNext, floor};
ghost use Rattle.doc_meaning.specs.Near.{is_near};

use crate::bound::Bound;
use sqlite_items::{Items, at};

/// The least number of a sorted list that a bound allows, by a binary search.
fn next_in(numbers: &[u64], bound: Bound) -> Option<u64>
    requires { IsNonDecreasing numbers.now }
    ensures { FindsNext numbers.now (floor bound) result }
{
    let place = numbers.partition_point(|n| bound.excludes(*n));
    at(numbers, place).copied()
}

/// The least number at which a choice can end that takes one number of each sorted list, in their order if `ordered`,
/// and none that the bound excludes.
///
/// It takes the least number of each list that may follow the ones before.
fn least_end(children: &[Items<u64>], from: Bound, ordered: bool) -> Option<u64>
    requires { All IsNonDecreasing children.now }
    ensures { FindsEnd ordered (floor from) children.now result }
{
    let mut bound = from;
    let mut end: u64 = 0;
    for child in children {
        let next = next_in(child.as_slice(), bound)?;
        bound = bound.behind(ordered, next);
        end = end.max(next);
    }
    Some(end)
}

/// Whether one number of each sorted list can be chosen so that no two are further apart than the distance, and they
/// rise where that is asked.
///
/// It leaps: from a number on, the least end of a choice is within the distance, or no choice that will do has a
/// number further below that end than the distance.
pub fn is_near_sorted(children: &[Items<u64>], distance: u32, ordered: bool) -> bool
    requires { All IsNonDecreasing children.now }
    ensures { result ≡ is_near distance ordered children.now }
{
    let reach = distance as u64;
    let mut low = 0;
    while let Some(end) = least_end(children, Bound::From(low), ordered) {
        if end.saturating_sub(low) <= reach {
            return true;
        }
        low = end - reach;
    }
    false
}
