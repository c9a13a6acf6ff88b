//! A source and a sink in memory.

ghost use Rattle.std.specs.Prelude.{◌≡◌, ◌≤◌, ◌<◌, [], drop, vec_len, Some, IfOk};
ghost use Rattle.std.specs.Io.{ReadsAtMost};
ghost use Rattle.std.specs.Io.KnownBytes.{ReadConsumes};
ghost use Rattle.disk_model.specs.Causes.{HasCause};

use crate::faults::Faults;
use crate::plan::Plan;
use disk_model::{Failed, Sink, Source};
use std::alloc::Global;

/// Bytes that are read in pieces of at most `piece`.
#[derive(Drop)]
pub struct MemorySource {
    bytes: Vec<u8>,
    at: usize,
    piece: usize,
    faults: Faults,
    ghost within: { at ≤ vec_len bytes },
    ghost some: { 0 < piece },
}

impl MemorySource {
    /// Gives these bytes, at most `piece` of them a read.
    pub fn new(bytes: Vec<u8>, piece: usize, plan: Plan) -> Self
        requires { 0 < piece }
        ensures left { ⟦<MemorySource as Source>⟧.left result ≡ Some bytes.items }
        ensures piece { result.piece ≡ piece }
        ensures faults { ⟦<MemorySource as Source>⟧.faults result ≡ 0 }
        ensures plan { (result.faults.plan ≡ plan) × (result.faults.calls ≡ 0) }
    {
        MemorySource {
            bytes,
            at: 0,
            piece,
            faults: Faults::new(plan),
        }
    }
}

impl Source for MemorySource {
    ghost left = { λ s. Some (drop s.at s.bytes.items) };

    ghost faults = { λ s. s.faults.count };

    // The trait's clauses, written out, and how much a read gives at most.
    fn read(&mut self, out: &mut [u8]) -> Result<usize, Failed>
        ensures bound { ReadsAtMost result out.new }
        ensures bytes { ReadConsumes (Some (drop self.old.at self.old.bytes.items))
            (Some (drop self.new.at self.new.bytes.items)) result out.new }
        ensures piece { IfOk result (λ n. n ≤ self.old.piece) }
        ensures same { self.new.piece ≡ self.old.piece }
        ensures cause { HasCause self.old.faults.count self.new.faults.count result }
    {
        if !self.faults.lets() {
            return Err(Failed);
        }
        let rest = &self.bytes[self.at..];
        let count = self.piece.min(out.len()).min(rest.len());
        out[..count].copy_from_slice(&rest[..count]);
        self.at += count;
        Ok(count)
    }

    fn faults(&self) -> u64 {
        self.faults.count
    }
}

/// Keeps the bytes that are written. Want of memory is a fault.
#[derive(Drop)]
pub struct MemorySink {
    bytes: Vec<u8>,
    faults: Faults,
}

impl MemorySink {
    /// Nothing was written yet.
    pub fn new(alloc: Global, plan: Plan) -> Self
        ensures written { ⟦<MemorySink as Sink>⟧.written result ≡ Some [] }
        ensures faults { ⟦<MemorySink as Sink>⟧.faults result ≡ 0 }
        ensures plan { (result.faults.plan ≡ plan) × (result.faults.calls ≡ 0) }
    {
        MemorySink {
            bytes: Vec::new(alloc),
            faults: Faults::new(plan),
        }
    }

    /// What was written.
    pub fn bytes(&self) -> &[u8]
        ensures { ⟦<MemorySink as Sink>⟧.written self.now ≡ Some result.now }
    {
        &self.bytes
    }
}

impl Sink for MemorySink {
    ghost written = { λ s. Some s.bytes.items };

    ghost faults = { λ s. s.faults.count };

    fn write(&mut self, bytes: &[u8]) -> Result<(), Failed> {
        if !self.faults.lets() {
            return Err(Failed);
        }
        match self.bytes.extend_from_slice(bytes) {
            Ok(()) => Ok(()),
            Err(_) => Err(self.faults.fail()),
        }
    }

    fn faults(&self) -> u64 {
        self.faults.count
    }
}
