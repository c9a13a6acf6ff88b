ghost use Rattle.std.specs.Prelude.{◌≡◌, ◌^◌, [], ◌∷◌, ◌++◌, length, IfOk, if◌then◌else◌};
ghost use Rattle.std.specs.List.Sorted.{IsStrictlyIncreasing};
ghost use Rattle.post_lists.specs.Postings.{ArePostings, spelling};

mod cursor;
mod reading;

use crate::numbers::put_number;
use crate::skip::{Skip, with_skip};
pub use cursor::Cursor;
use std::alloc::{AllocError, Global};
use std::marker::Model;

/// Numbers that rise strictly, as the bytes of their postings. Contracts see the list of the numbers.
///
/// A list takes as many bytes as its postings, and sixteen for each 128 of them.
#[derive(Debug, Drop)]
pub struct TermList {
    bytes: Vec<u8>,
    skips: Vec<Skip>,
    count: u32,
    /// The last item, 0 where there is none.
    last: u32,
}

impl Model for TermList {
    ghost use Rattle.std.specs.Prelude.{List, ℕ};
    ghost use Rattle.post_lists.specs.Numbers.{items_of};
    ghost use Rattle.post_lists.specs.Keeping.{Keeps};

    ghost Value = { List ℕ };

    ghost view = { λ l. items_of l.count 0 l.bytes.items };

    ghost invariant = { λ l. Keeps (items_of l.count 0 l.bytes.items) l.bytes.items l.skips.items l.count l.last };
}

impl TermList {
    /// The list of these items, in time in proportion to their number. A list of 2^32 items is refused as if there were
    /// no memory for it, since its length has no number.
    pub fn of(alloc: Global, items: &[u32]) -> Result<TermList, AllocError>
        requires { IsStrictlyIncreasing items.now }
        ensures { IfOk result (λ list. list ≡ items.now) }
    {
        let mut list = TermList::new(alloc);
        for item in items {
            list = list.push(*item)?;
        }
        Ok(list)
    }

    /// The number of items, in constant time.
    pub fn len(&self) -> u32
        ensures value { result ≡ length self.now }
        ensures kept { ArePostings (2 ^ 32) self.now }
    {
        self.count
    }

    /// The postings: the first item and the differences, each in its shortest form.
    pub fn bytes(&self) -> &[u8]
        ensures { result.now ≡ spelling self.now }
    {
        self.bytes.as_slice()
    }

    /// No items. It takes no memory.
    pub(crate) fn new(alloc: Global) -> TermList
        ensures { result ≡ [] }
    {
        TermList {
            bytes: Vec::new(alloc),
            skips: Vec::new(alloc),
            count: 0,
            last: 0,
        }
    }

    /// The items and one more.
    pub(crate) fn push(self, item: u32) -> Result<TermList, AllocError>
        requires { IsStrictlyIncreasing (self ++ item ∷ []) }
        ensures { IfOk result (λ list. list ≡ self ++ item ∷ []) }
    {
        let TermList {
            mut bytes,
            skips,
            count,
            last,
        } = self;
        let Some(count) = count.checked_add(1) else {
            return Err(AllocError);
        };
        put_number(&mut bytes, item - last)?;
        let place = bytes.len();
        let skips = with_skip(skips, count, Skip { item, place })?;
        Ok(TermList {
            bytes,
            skips,
            count,
            last: item,
        })
    }

    /// The items, and one more if it is wanted.
    pub(crate) fn push_if(self, wanted: bool, item: u32) -> Result<TermList, AllocError>
        requires { IsStrictlyIncreasing (self ++ item ∷ []) }
        ensures { IfOk result (λ list. list ≡ (if wanted then self ++ item ∷ [] else self)) }
    {
        if wanted { self.push(item) } else { Ok(self) }
    }
}
