ghost use Rattle.std.specs.Prelude.{◌≡◌, ◌<◌, ◌≤◌, ◌↔◌, ◌-◌, ◌++◌, [], length, take, min, IfOk, IsTrue, OnOk};
ghost use Rattle.disk_model.specs.Causes.{HasCause};
ghost use Rattle.client_lines.specs.Sending.{Passes, Puts};

use disk_model::{Failed, Sink};
use std::alloc::{AllocError, Global};
use std::marker::Model;

/// How many bytes wait at most.
const CAPACITY: usize = 65_536;

/// Bytes that wait for a sink, so that the replies to many lines go out in one write. Contracts see the list of them.
#[derive(Drop)]
pub struct Outbox {
    buffer: Vec<u8>,
    len: usize,
}

impl Model for Outbox {
    ghost use Rattle.std.specs.Prelude.{List, ℕ, ◌≡◌, ◌≤◌, take, vec_len};

    ghost Value = { List ℕ };

    ghost view = { λ o. take o.len o.buffer.items };

    ghost invariant = { λ o. (vec_len o.buffer ≡ 65536) × (o.len ≤ 65536) };
}

impl Outbox {
    /// Takes all the memory that it will need.
    pub fn new(alloc: Global) -> Result<Outbox, AllocError>
        ensures { IfOk result (λ outbox. outbox ≡ []) }
    {
        let buffer = vec![in alloc; 0u8; CAPACITY]?;
        Ok(Outbox { buffer, len: 0 })
    }

    /// Sends what waits in one write, where something does.
    pub fn send<W: Sink>(&mut self, sink: &mut W) -> Result<(), Failed>
        ensures bytes { Passes result self.old self.new (W.written sink.old) (W.written sink.new) [] }
        ensures empty { OnOk result (self.new ≡ []) }
        ensures cause { HasCause (W.faults sink.old) (W.faults sink.new) result }
    {
        if self.len > 0 {
            sink.write(&self.buffer[..self.len])?;
            self.len = 0;
        }
        Ok(())
    }

    // Buffers the first bytes, as many as there is room for, and returns how many.
    fn fill(&mut self, bytes: &[u8]) -> usize
        ensures kept { self.new ≡ self.old ++ take result bytes.now }
        ensures count { result ≡ min (length bytes.now) (65536 - length self.old) }
        ensures most { length self.new ≤ 65536 }
    {
        let count = bytes.len().min(CAPACITY - self.len);
        let end = self.len + count;
        self.buffer[self.len..end].copy_from_slice(&bytes[..count]);
        self.len = end;
        count
    }

    // Whether there is no room for one byte more.
    fn is_full(&self) -> bool
        ensures { IsTrue result ↔ (length self.now ≡ 65536) }
    {
        self.len == CAPACITY
    }

    /// Buffers bytes behind those that wait, and sends whenever there is no room for one more byte: what a write sends
    /// has some of the bytes that came last.
    pub(crate) fn add<W: Sink>(&mut self, sink: &mut W, bytes: &[u8]) -> Result<(), Failed>
        ensures { Puts W.written W.faults result self.old self.new sink.old sink.new bytes.now }
    {
        let mut at = self.fill(bytes);
        'full: while self.is_full() {
            self.send(sink)?;
            at += self.fill(&bytes[at..]);
        }
        Ok(())
    }
}
