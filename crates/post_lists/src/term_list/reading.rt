ghost use Rattle.std.specs.Prelude.{◌↔◌, ◌≤◌, ℕ, List, [], ◌∷◌, ◌++◌};
ghost use Rattle.std.specs.List.Sorted.{IsStrictlyIncreasing};
ghost use Rattle.post_lists.specs.Postings.{ArePostings, Spells};
ghost use Rattle.post_lists.specs.Reading.{FindsPosting, Gives, Reads};

use crate::numbers::number_at;
use crate::{ListRefusal, TermList};
use std::alloc::Global;

impl TermList {
    /// The list of `count` items, all below a bound, whose postings take all of the bytes.
    ///
    /// Takes time in the number of bytes, and memory for the postings that are there, not for those that `count`
    /// claims.
    pub fn read(
        alloc: Global,
        bytes: &[u8],
        count: u32,
        below: u32,
    ) -> Result<TermList, ListRefusal>
        ensures read { Reads count below bytes.now result }
        ensures only { (items : List ℕ) → Spells count below bytes.now items → Gives items result }
    {
        read_all(alloc, bytes, count, below)
    }

    /// The item of the next posting behind those of the list, and the bytes behind it.
    fn posting_at<'a>(&self, below: u32, bytes: &'a [u8]) -> Option<(u32, &'a [u8])>
        requires { ArePostings below self.now }
        ensures { FindsPosting below self.now bytes.now result }
    {
        let (more, rest) = number_at(bytes)?;
        let item = u64::from(self.last) + more;
        if item < self.least_next() {
            return None;
        }
        if item >= u64::from(below) {
            return None;
        }
        Some((item as u32, rest))
    }

    /// The least item that may follow those of the list.
    fn least_next(&self) -> u64
        ensures { (x : ℕ) → IsStrictlyIncreasing (self.now ++ x ∷ []) ↔ (result ≤ x) }
    {
        if self.count == 0 {
            0
        } else {
            u64::from(self.last) + 1
        }
    }
}

fn read_all(alloc: Global, bytes: &[u8], count: u32, below: u32) -> Result<TermList, ListRefusal>
    ensures { Reads count below bytes.now result }
{
    let mut list = TermList::new(alloc);
    let mut rest = bytes;
    for _ in 0..count {
        let Some((item, behind)) = list.posting_at(below, rest) else {
            return Err(ListRefusal::Bad {
                place: (bytes.len() - rest.len()) as u64,
            });
        };
        list = list.push(item)?;
        rest = behind;
    }
    if rest.is_empty() {
        Ok(list)
    } else {
        Err(ListRefusal::Bad {
            place: (bytes.len() - rest.len()) as u64,
        })
    }
}
