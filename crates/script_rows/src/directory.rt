//! Directories as what their four logs hold.

ghost use Rattle.std.specs.Prelude.{◌<◌};
ghost use Rattle.disk_model.specs.declared.disk.TheConstants.{LOG_COUNT};

use disk_memory::{MemoryDisk, Meter, Plan, blank_logs};
use disk_model::{Disk, LOG_COUNT};
use std::alloc::{AllocError, Global};

/// What the logs hold, in their order.
pub type Logs = Vec<Vec<u8>>;

/// No log of a script is longer.
const LONG: usize = 65_536;

/// The names of the logs, in their order.
pub const NAMES: [&str; 4] = ["journal-0", "journal-1", "root-0", "root-1"];

/// Logs without a database.
pub fn blank(alloc: Global) -> Result<Logs, AllocError> {
    blank_logs(alloc)
}

/// The same logs.
pub fn copied(alloc: Global, logs: &Logs) -> Result<Logs, AllocError> {
    let mut copies = Vec::new(alloc);
    for log in logs {
        copies.push(log.to_vec(alloc)?)?;
    }
    Ok(copies)
}

/// A plan by which this call fails, if any, and everything stops after so many, if any.
pub fn plan(alloc: Global, call: Option<u64>, stop: Option<u64>) -> Result<Plan, AllocError> {
    match call {
        Some(call) => Plan::of(alloc, &[call], stop),
        None => Plan::of(alloc, &[], stop),
    }
}

/// A disk that holds these logs. Where they aren't four it is refused as want of memory.
pub fn disk_of(alloc: Global, logs: &Logs, meter: Meter) -> Result<MemoryDisk, AllocError> {
    let logs = copied(alloc, logs)?;
    if logs.len() != 4 {
        return Err(AllocError);
    }
    MemoryDisk::new(alloc, logs, meter)
}

/// What a log holds. One that is too long is refused as want of memory.
fn log(alloc: Global, disk: &mut MemoryDisk, file: u8) -> Result<Vec<u8>, AllocError>
    requires { file < LOG_COUNT }
{
    let mut bytes = vec![in alloc; 0u8; LONG]?;
    let Ok(count) = disk.read_at(file, 0, &mut bytes) else {
        return Err(AllocError);
    };
    if count == LONG {
        return Err(AllocError);
    }
    bytes[..count].to_vec(alloc)
}

/// What the logs hold where so many bytes of each change that isn't sure are there.
pub fn left(alloc: Global, disk: &MemoryDisk, landed: u64) -> Result<Logs, AllocError> {
    let mut changes = Vec::new(alloc);
    for _ in 0..LOG_COUNT {
        changes.push([landed, landed].to_vec(alloc)?)?;
    }
    let meter = Meter::new(alloc, Plan::none(alloc))?;
    let mut image = disk.after_crash(alloc, &changes, meter)?;
    let mut logs = Vec::new(alloc);
    for file in 0..LOG_COUNT {
        logs.push(log(alloc, &mut image, file)?)?;
    }
    Ok(logs)
}
