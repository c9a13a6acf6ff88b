//! Stores in memory.

ghost use Rattle.std.specs.Prelude.{◌≡◌, ◌<◌, IfOk, ℕ, length, vec_len};
ghost use Rattle.disk_model.specs.Worlds.{IsBlank};
ghost use Rattle.disk_model.specs.declared.disk.TheConstants.{LOG_COUNT};
ghost use Rattle.disk_memory.specs.CrashStates.{AreBlank};

use crate::disk::MemoryDisk;
use crate::meter::Meter;
use crate::plan::Plan;
use crate::yard::MemoryYard;
use disk_model::{Disk, LOG_COUNT, Store, Yard};
use std::alloc::{AllocError, Global};

/// The logs and the sealed files of a directory in memory.
pub type MemoryStore = Store<MemoryDisk, MemoryYard>;

/// The store of a directory without files. None of its calls is to fail.
pub fn blank_store(alloc: Global) -> Result<MemoryStore, AllocError>
    ensures { IfOk result (λ store. IsBlank (⟦<MemoryDisk as Disk>⟧.seen store.disk)
        (⟦<MemoryDisk as Disk>⟧.may_leave store.disk) (⟦<MemoryYard as Yard>⟧.holds store.yard)) }
{
    let meter = Meter::new(alloc, Plan::none(alloc))?;
    let contents = blank_logs(alloc)?;
    Ok(Store {
        disk: MemoryDisk::new(alloc, contents, meter.share()?)?,
        yard: MemoryYard::new(alloc, meter),
    })
}

/// The bytes of each log of a directory without files.
pub fn blank_logs(alloc: Global) -> Result<Vec<Vec<u8>>, AllocError>
    ensures len { IfOk result (λ contents. vec_len contents ≡ LOG_COUNT) }
    ensures blank { IfOk result (λ contents. AreBlank contents.items) }
{
    let mut contents = Vec::new(alloc);
    'logs: for _ in 0..LOG_COUNT {
        contents.push(vec![in alloc; 0]?)?;
    }
    Ok(contents)
}
