//! A file in memory that is being made.

ghost use Rattle.std.specs.Prelude.{◌≡◌, ◌≤◌, ◌++◌, Some};
ghost use Rattle.std.specs.Bool.{OnTrue, OnFalse};
ghost use Rattle.disk_model.specs.Causes.{Rose};
ghost use Rattle.disk_memory.specs.Files.{given_of};

use crate::file::MemoryFile;
use crate::meter::Meter;
use crate::plan::Verdict;
use disk_model::{Build, Failed};
use std::mem;

/// What a build was given, before its first seal and after it.
#[derive(Drop)]
pub enum Content {
    Open(Vec<u8>),
    Sealed(&'static [u8]),
}

/// A file that is being made. After a seal an append fails, and another seal gives the same file.
#[derive(Drop)]
pub struct MemoryBuild {
    pub number: u64,
    pub mark: u64,
    pub content: Content,
    pub meter: Meter,
    pub faults: u64,
}

impl MemoryBuild {
    // Counts a fault.
    fn fail(&mut self) -> Failed
        ensures number { self.new.number ≡ self.old.number }
        ensures mark { self.new.mark ≡ self.old.mark }
        ensures content { self.new.content ≡ self.old.content }
        ensures later { self.old.faults ≤ self.new.faults }
        ensures rose { Rose self.old.faults self.new.faults }
    {
        self.faults = self.faults.saturating_add(1);
        Failed
    }
}

impl Build for MemoryBuild {
    type File = MemoryFile;

    ghost number = { λ b. b.number };

    ghost mark = { λ b. b.mark };

    ghost given = { λ b. Some (given_of b.content) };

    ghost faults = { λ b. b.faults };

    fn append(&mut self, bytes: &[u8]) -> Result<(), Failed> {
        let Verdict::Goes = self.meter.next() else {
            return Err(self.fail());
        };
        match add(&mut self.content, bytes) {
            true => Ok(()),
            false => Err(self.fail()),
        }
    }

    fn seal(&mut self) -> Result<MemoryFile, Failed> {
        let Verdict::Goes = self.meter.next() else {
            return Err(self.fail());
        };
        Ok(MemoryFile {
            number: self.number,
            mark: self.mark,
            bytes: fix(&mut self.content),
        })
    }

    fn faults(&self) -> u64 {
        self.faults
    }
}

// Adds the bytes, unless the content was sealed or there is no memory.
fn add(content: &mut Content, bytes: &[u8]) -> bool
    ensures added { OnTrue result (given_of content.new ≡ given_of content.old ++ bytes.now) }
    ensures same { OnFalse result (given_of content.new ≡ given_of content.old) }
{
    match content {
        Content::Open(given) => given.extend_from_slice(bytes).is_ok(),
        Content::Sealed(_) => false,
    }
}

// The bytes, which stay for good.
fn fix(content: &mut Content) -> &'static [u8]
    ensures bytes { result.now ≡ given_of content.old }
    ensures same { given_of content.new ≡ given_of content.old }
{
    let bytes: &'static [u8] = match mem::replace(content, Content::Sealed(&[])) {
        Content::Open(given) => given.leak(),
        Content::Sealed(bytes) => bytes,
    };
    *content = Content::Sealed(bytes);
    bytes
}
