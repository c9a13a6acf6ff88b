//! Lines of a source, in pieces of any size.

ghost use Rattle.std.specs.Prelude.{◌≡◌, ◌≤◌, ◌<◌, ◌+◌, ◌-◌, [], false, length, take, drop, IfOk, OnErr, None, vec_len};
ghost use Rattle.std.specs.Io.KnownBytes.{Keeps};
ghost use Rattle.disk_model.specs.Causes.{HasCause};
ghost use Rattle.client_run.specs.Reading.{FindsFeed, Finds, Fills, ReadsBehind};

use crate::find::Find;
use disk_model::{Failed, Source};
use memchr::memchr;
use std::alloc::{AllocError, Global};
use std::marker::Model;
use transcript::LONGEST_LINE;

/// The bytes of the buffer: a longest line and 64 KiB more, so that a read has room behind a part of a line.
const SIZE: usize = LONGEST_LINE + 65_536;

/// Reads lines, and lends them from its buffer without a copy. It moves a line only where this doesn't fit behind those
/// before it: once, to the front. Contracts see the bytes that were read and not taken, and whether the source is over.
#[derive(Drop)]
pub struct LineReader {
    buffer: Vec<u8>,
    from: usize,
    to: usize,
    seen: usize,
    over: bool,
}

impl Model for LineReader {
    ghost use Rattle.std.specs.Prelude.{◌≡◌, ◌≤◌, ◌-◌, take, drop, vec_len};
    ghost use Rattle.client_run.specs.Reading.{ReaderState, HasNoFeedBefore, most_held};

    ghost Value = { ReaderState };

    ghost view = { λ r. record { pending = drop r.from (take r.to r.buffer.items); over = r.over } };

    ghost invariant = { λ r. (vec_len r.buffer ≡ most_held) × (r.from ≤ r.to) × (r.to ≤ most_held)
        × (r.seen ≤ r.to - r.from) × HasNoFeedBefore (drop r.from (take r.to r.buffer.items)) r.seen };
}

impl LineReader {
    /// Takes all the memory that it will need.
    pub fn new(alloc: Global) -> Result<LineReader, AllocError>
        ensures { IfOk result (λ reader. reader ≡ record { pending = []; over = false }) }
    {
        let buffer = vec![in alloc; 0u8; SIZE]?;
        Ok(LineReader {
            buffer,
            from: 0,
            to: 0,
            seen: 0,
            over: false,
        })
    }

    fn len(&self) -> usize
        ensures { result ≡ length self.now.pending }
    {
        self.to - self.from
    }

    fn is_over(&self) -> bool
        ensures { result ≡ self.now.over }
    {
        self.over
    }

    // The number of bytes before the first line feed, where there is one. It searches no byte twice.
    fn find_feed(&mut self) -> Option<usize>
        ensures same { self.new ≡ self.old }
        ensures found { FindsFeed self.old.pending result }
    {
        match memchr(b'\n', &self.buffer[self.from + self.seen..self.to]) {
            Some(more) => {
                self.seen += more;
                Some(self.seen)
            }
            None => {
                self.seen = self.to - self.from;
                None
            }
        }
    }

    /// What the bytes begin with.
    pub fn find(&mut self) -> Find
        ensures same { self.new ≡ self.old }
        ensures found { Finds self.old result }
    {
        match self.find_feed() {
            Some(count) if count <= LONGEST_LINE => Find::Line(count),
            Some(_) => Find::Long,
            None => self.find_last(),
        }
    }

    // What bytes without a line feed are.
    fn find_last(&self) -> Find
        requires { FindsFeed self.now.pending None }
        ensures { Finds self.now result }
    {
        let count = self.len();
        if count > LONGEST_LINE {
            Find::Long
        } else if !self.is_over() {
            Find::More
        } else if count == 0 {
            Find::End
        } else {
            Find::Last(count)
        }
    }

    /// The first bytes.
    pub fn front(&self, count: usize) -> &[u8]
        requires { count ≤ length self.now.pending }
        ensures { result.now ≡ take count self.now.pending }
    {
        &self.buffer[self.from..self.from + count]
    }

    /// Takes the first bytes.
    pub fn skip(&mut self, count: usize)
        requires { count ≤ length self.old.pending }
        ensures { self.new ≡ record self.old { pending = drop count self.old.pending } }
    {
        self.from += count;
        self.seen = 0;
    }

    /// Reads more bytes, in one read.
    pub fn fill<I: Source>(&mut self, source: &mut I) -> Result<(), Failed>
        requires { length self.old.pending ≤ LONGEST_LINE }
        ensures bytes { Fills result self.old self.new (I.left source.old) (I.left source.new) }
        ensures cause { HasCause (I.faults source.old) (I.faults source.new) result }
    {
        if self.from == self.to || self.to == SIZE {
            move_to_front(&mut self.buffer, self.from, self.to);
            self.to -= self.from;
            self.from = 0;
        }
        let count = read_behind(source, &mut self.buffer, self.to)?;
        self.to += count;
        self.over = count == 0;
        Ok(())
    }
}

// Moves bytes to the front.
fn move_to_front(buffer: &mut Vec<u8>, from: usize, to: usize)
    requires order { from ≤ to }
    requires within { to ≤ vec_len buffer.old }
    ensures len { vec_len buffer.new ≡ vec_len buffer.old }
    ensures moved { take (to - from) buffer.new.items ≡ drop from (take to buffer.old.items) }
{
    buffer.copy_within(from..to, 0);
}

// Reads behind the first bytes, and leaves those as they are.
fn read_behind<I: Source>(source: &mut I, buffer: &mut Vec<u8>, to: usize) -> Result<usize, Failed>
    requires { to < vec_len buffer.old }
    ensures len { vec_len buffer.new ≡ vec_len buffer.old }
    ensures bytes { IfOk result (λ n. ReadsBehind (take to buffer.old.items) buffer.new.items n
        (I.left source.old) (I.left source.new)) }
    ensures fits { IfOk result (λ n. to + n ≤ vec_len buffer.new) }
    ensures kept { OnErr result (Keeps (I.left source.old) (I.left source.new)) }
    ensures same { OnErr result (take to buffer.new.items ≡ take to buffer.old.items) }
    ensures cause { HasCause (I.faults source.old) (I.faults source.new) result }
{
    match source.read(&mut buffer[to..]) {
        Ok(count) => Ok(count),
        Err(fault) => Err(fault),
    }
}
