//! The table that a search in a list begins with.

ghost use Rattle.std.specs.Prelude.{◌≡◌, ◌<◌, IfOk, IfSome};
ghost use Rattle.post_lists.specs.Keeping.{IsBefore, with_skip};

use std::alloc::AllocError;

/// A skip follows each so many items.
pub const STRETCH: u32 = 128;

/// An item, and the place behind its number.
#[derive(Clone, Copy, Debug)]
pub struct Skip {
    pub item: u32,
    pub place: usize,
}

/// The table with a skip, if one follows after `count` items.
pub fn with_skip(mut skips: Vec<Skip>, count: u32, skip: Skip) -> Result<Vec<Skip>, AllocError>
    ensures { IfOk result (λ all. all.items ≡ with_skip skips.items count skip) }
{
    if count % STRETCH == 0 {
        skips.push(skip)?;
    }
    Ok(skips)
}

/// The last skip from number `from` on whose item is below `least`; none where the first of them isn't.
///
/// Takes time in the logarithm of their number.
pub fn last_before(skips: &[Skip], from: usize, least: u32) -> Option<usize>
    ensures { IfSome result (IsBefore skips.now from least) }
{
    if from >= skips.len() || skips[from].item >= least {
        return None;
    }
    let mut low = from;
    let mut high = skips.len();
    while high - low > 1 {
        let middle = low + (high - low) / 2;
        if skips[middle].item < least {
            low = middle;
        } else {
            high = middle;
        }
    }
    Some(low)
}
