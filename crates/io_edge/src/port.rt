//! Reading sealed files.

use crate::count::Count;
use crate::file::SystemFile;
use disk_model::{Failed, Port};
use std::os::unix::fs::FileExt;

/// Reads sealed files.
#[derive(Drop)]
pub struct SystemPort {
    reads: u64,
    count: Count,
}

impl SystemPort {
    /// One that read nothing yet.
    pub fn new(rt: HostRuntime) -> Self {
        SystemPort {
            reads: 0,
            count: Count::new(rt),
        }
    }
}

impl Port for SystemPort {
    type File = SystemFile;

    ghost reads = { λ p. p.reads };

    ghost faults = { λ p. p.count.faults };

    fn read(&mut self, file: &SystemFile, place: u64, out: &mut [u8]) -> Result<(), Failed> {
        self.reads = self.reads.saturating_add(out.len() as u64);
        let answer = file.file.read_exact_at(out, place);
        self.count.counted(file.path.as_str(), answer)
    }

    fn reads(&self) -> u64 {
        self.reads
    }

    fn faults(&self) -> u64 {
        self.count.faults
    }
}
