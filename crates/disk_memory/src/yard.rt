//! A yard in memory.

ghost use Rattle.std.specs.Prelude.{◌≡◌, ◌≤◌, Some, IfSome, ℕ};
ghost use Rattle.disk_model.specs.Files.{nothing};
ghost use Rattle.std.specs.Ordering.{nat_cmp};
ghost use Rattle.std.specs.BTreeMap.{get};
ghost use Rattle.disk_model.specs.Causes.{Rose};
ghost use Rattle.disk_memory.specs.Files.{slot_of};

use crate::build::{Content, MemoryBuild};
use crate::file::MemoryFile;
use crate::meter::Meter;
use crate::plan::Verdict;
use disk_model::{Failed, Yard};
use std::alloc::Global;
use std::collections::BTreeMap;

/// What a number has.
#[derive(Drop)]
pub struct Entry {
    pub sealed: Option<&'static [u8]>,
    pub mark: Option<u64>,
}

/// A yard in memory, which tells what it holds. A call that the plan fails changes nothing but the count, and so does
/// each call after the stop.
#[derive(Drop)]
pub struct MemoryYard {
    alloc: Global,
    entries: BTreeMap<u64, Entry>,
    marks: u64,
    meter: Meter,
    faults: u64,
}

impl MemoryYard {
    /// A yard that holds nothing.
    pub fn new(alloc: Global, meter: Meter) -> Self
        ensures holds { IfSome (⟦<MemoryYard as Yard>⟧.holds result) (λ slots. (number : ℕ) → slots number ≡ nothing) }
        ensures faults { ⟦<MemoryYard as Yard>⟧.faults result ≡ 0 }
    {
        MemoryYard {
            alloc,
            entries: BTreeMap::new(alloc),
            marks: 0,
            meter,
            faults: 0,
        }
    }

    /// The yard that a crash at this moment leaves: it holds the same files.
    pub fn after_crash(self, meter: Meter) -> Self
        ensures holds { ⟦<MemoryYard as Yard>⟧.holds result ≡ ⟦<MemoryYard as Yard>⟧.holds self }
        ensures faults { ⟦<MemoryYard as Yard>⟧.faults result ≡ 0 }
    {
        MemoryYard {
            alloc: self.alloc,
            entries: self.entries,
            marks: self.marks,
            meter,
            faults: 0,
        }
    }

    // Counts a fault.
    fn fail(&mut self) -> Failed
        ensures same { self.new.entries ≡ self.old.entries }
        ensures later { self.old.faults ≤ self.new.faults }
        ensures rose { Rose self.old.faults self.new.faults }
    {
        self.faults = self.faults.saturating_add(1);
        Failed
    }
}

impl Yard for MemoryYard {
    type File = MemoryFile;

    type Build = MemoryBuild;

    ghost holds = { λ y. Some (λ number. slot_of (get nat_cmp y.entries number)) };

    ghost faults = { λ y. y.faults };

    fn fresh(&mut self, number: u64) -> Result<MemoryBuild, Failed> {
        let Verdict::Goes = self.meter.next() else {
            return Err(self.fail());
        };
        let Ok(meter) = self.meter.share() else {
            return Err(self.fail());
        };
        let mark = self.marks;
        let begun = Entry {
            sealed: None,
            mark: Some(mark),
        };
        let Ok(_) = self.entries.insert(number, begun) else {
            return Err(self.fail());
        };
        self.marks = self.marks.wrapping_add(1);
        Ok(MemoryBuild {
            number,
            mark,
            content: Content::Open(Vec::new(self.alloc)),
            meter,
            faults: 0,
        })
    }

    fn open(&mut self, number: u64) -> Result<Option<MemoryFile>, Failed> {
        let Verdict::Goes = self.meter.next() else {
            return Err(self.fail());
        };
        let Some(entry) = self.entries.get(&number) else {
            return Ok(None);
        };
        let Some(bytes) = entry.sealed else {
            return Ok(None);
        };
        Ok(Some(MemoryFile {
            number,
            mark: entry.mark.unwrap_or(0),
            bytes,
        }))
    }

    fn remove(&mut self, number: u64) -> Result<(), Failed> {
        let Verdict::Goes = self.meter.next() else {
            return Err(self.fail());
        };
        self.entries.remove(&number);
        Ok(())
    }

    fn admit(&mut self, file: &MemoryFile) {
        let held = Entry {
            sealed: Some(file.bytes),
            mark: Some(file.mark),
        };
        let _ = self.entries.insert(file.number, held);
    }

    fn faults(&self) -> u64 {
        self.faults
    }
}
