ghost use Rattle.std.specs.Prelude.{◌≡◌, ◌+◌, ◌^◌, ◌∷◌, nat_le, length, drop, IfSome};
ghost use Rattle.std.specs.List.{filter, slice_get};
ghost use Rattle.std.specs.List.Sorted.{IsStrictlyIncreasing};
ghost use Rattle.post_lists.specs.Keeping.{IsAt};
ghost use Rattle.post_lists.specs.Postings.{ArePostings};
ghost use Rattle.post_lists.specs.Sets.{starts_below, starts_with, without_first};

use crate::TermList;
use crate::numbers::number_at;
use crate::skip::{STRETCH, last_before};
use std::marker::Model;

/// A place in a term list. Contracts see the list of the items that aren't passed.
#[derive(Drop)]
pub struct Cursor<'a> {
    list: &'a TermList,
    /// The number of items that are passed.
    passed: u32,
    /// The first item that isn't passed.
    head: Option<u32>,
    /// The place behind its number.
    place: usize,
}

impl<'a> Model for Cursor<'a> {
    ghost use Rattle.std.specs.Prelude.{List, ℕ, drop};
    ghost use Rattle.post_lists.specs.Keeping.{IsReading};

    ghost Value = { List ℕ };

    ghost view = { λ c. drop c.passed c.list.now };

    ghost invariant = { λ c. IsReading c.list.now c.passed c.head c.place };
}

impl TermList {
    /// A cursor that has passed no item yet.
    pub fn cursor(&self) -> Cursor<'_>
        ensures value { result ≡ self.now }
        ensures kept { ArePostings (2 ^ 32) self.now }
    {
        let _count = self.count;
        Cursor::at(self, 0, 0, 0)
    }
}

impl<'a> Cursor<'a> {
    /// The next item. This passes it, in constant time.
    pub fn next(&mut self) -> Option<u32>
        ensures item { result ≡ slice_get self.old 0 }
        ensures rest { self.new ≡ drop 1 self.old }
    {
        let head = self.head;
        self.advance();
        head
    }

    /// The next item that is at least `least`. This passes it and all before it, or all items if there is none.
    ///
    /// Reads at most 128 numbers. If a skip ahead is below `least`, it first takes time in the logarithm of the number
    /// of skips.
    pub fn seek(&mut self, least: u32) -> Option<u32>
        ensures item { result ≡ slice_get (filter (nat_le least) self.old) 0 }
        ensures rest { self.new ≡ drop 1 (filter (nat_le least) self.old) }
    {
        self.skip_to(least);
        self.next()
    }

    /// The next item, which isn't passed.
    pub(crate) fn peek(&self) -> Option<u32>
        ensures { result ≡ slice_get self.now 0 }
    {
        self.head
    }

    /// Whether the next item is this one.
    pub(crate) fn starts_with(&self, item: u32) -> bool
        ensures { result ≡ starts_with item self.now }
    {
        match self.head {
            Some(head) => item == head,
            None => false,
        }
    }

    /// Passes the next item if it is this one.
    pub(crate) fn pass(&mut self, item: u32)
        ensures { self.new ≡ without_first item self.old }
    {
        if self.starts_with(item) {
            self.advance();
        }
    }

    /// Passes all items below `least`.
    pub(crate) fn skip_to(&mut self, least: u32)
        ensures { self.new ≡ filter (nat_le least) self.old }
    {
        self.jump(least);
        while self.starts_below(least) {
            self.advance();
        }
    }

    /// Whether there is a next item, below `least`.
    fn starts_below(&self, least: u32) -> bool
        ensures { result ≡ starts_below least self.now }
    {
        match self.head {
            Some(head) => head < least,
            None => false,
        }
    }

    /// Passes items below `least`, up to the last skip before that.
    fn jump(&mut self, least: u32)
        ensures same { filter (nat_le least) self.new ≡ filter (nat_le least) self.old }
        ensures rising { IsStrictlyIncreasing self.new }
    {
        let list = self.list;
        let from = (self.passed / STRETCH) as usize;
        if let Some(found) = last_before(list.skips.as_slice(), from, least) {
            let skip = list.skips[found];
            let passed = STRETCH * (found as u32 + 1);
            *self = Cursor::at(list, passed, skip.item, skip.place);
        }
    }

    /// Passes the next item, if there is one.
    fn advance(&mut self)
        ensures { self.new ≡ drop 1 self.old }
    {
        if let Some(head) = self.head {
            *self = Cursor::at(self.list, self.passed + 1, head, self.place);
        }
    }

    /// The cursor that has passed so many items, of which `last` is the last, and whose next number is at a place.
    fn at(list: &'a TermList, passed: u32, last: u32, place: usize) -> Cursor<'a>
        requires { IsAt list.now passed place last }
        ensures { result ≡ drop passed list.now }
    {
        let bytes = list.bytes.as_slice();
        let Some((more, rest)) = number_at(&bytes[place..]) else {
            return Cursor {
                list,
                passed,
                head: None,
                place,
            };
        };
        Cursor {
            list,
            passed,
            head: Some(last + more as u32),
            place: bytes.len() - rest.len(),
        }
    }
}
