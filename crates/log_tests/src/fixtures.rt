//! What the tests share: why one gives up, and disks whose calls fail by a plan.

use disk_memory::{MemoryDisk, Meter, blank_logs};
use disk_model::Failed;
use frame_log::{LogRefusal, ScanRefusal};
use std::alloc::{AllocError, AllocFailed, Global};

/// Why a test gave up.
#[derive(Debug, Drop)]
pub enum Fail {
    Memory,
    Device,
    Log(LogRefusal),
    Scan(ScanRefusal),
}

impl From<AllocError> for Fail {
    fn from(_: AllocError) -> Fail {
        Fail::Memory
    }
}

impl<T: Drop> From<AllocFailed<T>> for Fail {
    fn from(_: AllocFailed<T>) -> Fail {
        Fail::Memory
    }
}

impl From<Failed> for Fail {
    fn from(_: Failed) -> Fail {
        Fail::Device
    }
}

impl From<LogRefusal> for Fail {
    fn from(refusal: LogRefusal) -> Fail {
        Fail::Log(refusal)
    }
}

impl From<ScanRefusal> for Fail {
    fn from(refusal: ScanRefusal) -> Fail {
        Fail::Scan(refusal)
    }
}

/// A blank disk whose calls this meter counts.
pub fn metered(alloc: Global, calls: &Meter) -> Result<MemoryDisk, AllocError> {
    let calls = calls.share()?;
    MemoryDisk::new(alloc, blank_logs(alloc)?, calls)
}

/// How much of each change of log 0 has landed.
pub fn landed(alloc: Global, counts: &[u64]) -> Result<Vec<Vec<u64>>, AllocError> {
    let counts = counts.to_vec(alloc)?;
    let mut all = Vec::new(alloc);
    all.push(counts)?;
    Ok(all)
}
