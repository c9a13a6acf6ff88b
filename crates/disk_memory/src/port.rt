//! A port in memory.

ghost use Rattle.std.specs.Prelude.{◌≡◌};

use crate::faults::Faults;
use crate::file::MemoryFile;
use crate::plan::Plan;
use disk_model::{Failed, Port};

/// Reads sealed files in memory.
#[derive(Drop)]
pub struct MemoryPort {
    faults: Faults,
    reads: u64,
}

impl MemoryPort {
    /// One that read nothing yet.
    pub fn new(plan: Plan) -> Self
        ensures plan { result.faults.plan ≡ plan }
        ensures calls { result.faults.calls ≡ 0 }
        ensures reads { ⟦<MemoryPort as Port>⟧.reads result ≡ 0 }
        ensures faults { ⟦<MemoryPort as Port>⟧.faults result ≡ 0 }
    {
        MemoryPort {
            faults: Faults::new(plan),
            reads: 0,
        }
    }
}

impl Port for MemoryPort {
    type File = MemoryFile;

    ghost reads = { λ p. p.reads };

    ghost faults = { λ p. p.faults.count };

    fn read(&mut self, file: &MemoryFile, place: u64, out: &mut [u8]) -> Result<(), Failed> {
        if !self.faults.lets() {
            return Err(Failed);
        }
        let from = place as usize;
        out.copy_from_slice(&file.bytes[from..from + out.len()]);
        self.reads = self.reads.saturating_add(out.len() as u64);
        Ok(())
    }

    fn reads(&self) -> u64 {
        self.reads
    }

    fn faults(&self) -> u64 {
        self.faults.count
    }
}
