ghost use Rattle.std.specs.Prelude.{◌≡◌, IfOk};
ghost use Rattle.std.specs.List.{AllZip};
ghost use Rattle.doc_filter.specs.Windows.{IsSortedCopy};
ghost use Rattle.doc_meaning.specs.Near.{is_near};

use crate::windows::is_near_sorted;
use sqlite_items::Items;
use std::alloc::{AllocError, Global};

/// Whether one start of each child can be chosen so that no two are further apart than the distance, and they
/// rise where that is asked. The starts of a child are in any order.
///
/// It sorts them. Then it goes through them by leaps, each but the last past a start and in the time of a binary search
/// for each child.
pub fn is_near(
    alloc: Global,
    distance: u32,
    ordered: bool,
    children: &[Items<u64>],
) -> Result<bool, AllocError>
    ensures { IfOk result (λ b. b ≡ is_near distance ordered children.now) }
{
    let sorted = sorted_lists(alloc, children)?;
    Ok(is_near_sorted(sorted.as_slice(), distance, ordered))
}

fn sorted_lists(alloc: Global, lists: &[Items<u64>]) -> Result<Items<Items<u64>>, AllocError>
    ensures { IfOk result (AllZip IsSortedCopy lists.now) }
{
    let mut out = Items::new(alloc);
    for numbers in lists {
        out.push(sorted_copy(alloc, numbers.as_slice())?)?;
    }
    Ok(out)
}

fn sorted_copy(alloc: Global, numbers: &[u64]) -> Result<Items<u64>, AllocError>
    ensures { IfOk result (IsSortedCopy numbers.now) }
{
    let mut sorted = Vec::from_slice(alloc, numbers)?;
    sorted.sort_unstable();
    Ok(Items::from_vec(sorted))
}
