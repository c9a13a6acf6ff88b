//! The logs of a disk in memory, and what they were before each change.

ghost use Rattle.std.specs.Prelude.{◌≡◌, ◌≤◌, ◌<◌, ◌+◌, ◌^◌, length, vec_len, OnOk, OnErr, IfOk, Some, ℕ};
ghost use Rattle.disk_model.specs.Changes.{Any};
ghost use Rattle.disk_model.specs.Logs.{Torn, MayCut, Writes, Cuts, Settled};
ghost use Rattle.disk_model.specs.declared.disk.TheConstants.{LOG_COUNT};
ghost use Rattle.disk_memory.specs.CrashStates.{read_of, AreSure, MayLeave, ReadBecomes, Steps};

use crate::log::MemoryLog;
use disk_model::{LOG_COUNT, LONGEST_LOG};
use std::alloc::{AllocError, Global};
use std::snapshot::Snapshot;

/// The logs, and their states before each change. These states take no memory, and only clauses read them.
#[derive(Drop)]
pub struct MemoryLogs {
    pub alloc: Global,
    pub logs: Vec<MemoryLog>,
    pub past: Vec<Snapshot<Vec<MemoryLog>>>,
    ghost all: { vec_len logs ≡ LOG_COUNT },
}

impl MemoryLogs {
    /// Logs that hold these bytes, all of them on the disk. A log past 2^62 bytes is refused as want of memory.
    pub fn new(alloc: Global, contents: Vec<Vec<u8>>) -> Result<Self, AllocError>
        requires { vec_len contents ≡ LOG_COUNT }
        ensures { IfOk result (λ all. AreSure all.logs.items contents.items) }
    {
        let logs = sure_logs(alloc, contents)?;
        Ok(MemoryLogs {
            alloc,
            logs,
            past: Vec::new(alloc),
        })
    }

    /// Writes these bytes, over old ones and past the end. A write that fails changes nothing that is read.
    pub fn write(&mut self, file: u8, place: u64, bytes: &[u8]) -> Result<(), AllocError>
        requires file { file < LOG_COUNT }
        requires place { place ≤ length (read_of self.old.logs.items file) }
        requires end { place + length bytes.now ≤ 2 ^ 62 }
        ensures ok { OnOk result (ReadBecomes file (Writes place bytes.now) self.old.logs.items self.new.logs.items) }
        ensures err { OnErr result
            (ReadBecomes file (Torn place (length bytes.now)) self.old.logs.items self.new.logs.items) }
        ensures steps { Steps file (Torn place (length bytes.now))
            self.old.past.items self.old.logs.items self.new.past.items self.new.logs.items }
    {
        self.past.push(Snapshot::of(&self.logs))?;
        self.logs[file as usize].write(self.alloc, place, bytes)
    }

    /// Notes a write that failed, of which a crash may leave any part.
    pub fn miss_write(&mut self, file: u8, place: u64, bytes: &[u8]) -> Result<(), AllocError>
        requires { file < LOG_COUNT }
        ensures err { ReadBecomes file (Torn place (length bytes.now)) self.old.logs.items self.new.logs.items }
        ensures steps { Steps file (Torn place (length bytes.now))
            self.old.past.items self.old.logs.items self.new.past.items self.new.logs.items }
    {
        self.past.push(Snapshot::of(&self.logs))?;
        self.logs[file as usize].miss_write(self.alloc, place, bytes)
    }

    /// Cuts a log to its first `len` bytes. A cut that fails changes nothing that is read.
    pub fn cut(&mut self, file: u8, len: u64) -> Result<(), AllocError>
        requires file { file < LOG_COUNT }
        requires len { len ≤ length (read_of self.old.logs.items file) }
        ensures ok { OnOk result (ReadBecomes file (Cuts len) self.old.logs.items self.new.logs.items) }
        ensures err { OnErr result (ReadBecomes file (MayCut len) self.old.logs.items self.new.logs.items) }
        ensures steps { Steps file (MayCut len)
            self.old.past.items self.old.logs.items self.new.past.items self.new.logs.items }
    {
        self.past.push(Snapshot::of(&self.logs))?;
        self.logs[file as usize].cut(self.alloc, len)
    }

    /// Notes a cut that failed, which a crash may leave done.
    pub fn miss_cut(&mut self, file: u8, len: u64) -> Result<(), AllocError>
        requires { file < LOG_COUNT }
        ensures err { ReadBecomes file (MayCut len) self.old.logs.items self.new.logs.items }
        ensures steps { Steps file (MayCut len)
            self.old.past.items self.old.logs.items self.new.past.items self.new.logs.items }
    {
        self.past.push(Snapshot::of(&self.logs))?;
        self.logs[file as usize].miss_cut(len)
    }

    /// Puts what is read of a log on the disk.
    pub fn sync(&mut self, file: u8) -> Result<(), AllocError>
        requires { file < LOG_COUNT }
        ensures settled { OnOk result
            (Settled file (Some (read_of self.new.logs.items)) (MayLeave self.new.logs.items)) }
        ensures read { (other : ℕ) → read_of self.new.logs.items other ≡ read_of self.old.logs.items other }
        ensures err { OnErr result (self.new.logs.items ≡ self.old.logs.items) }
        ensures steps { Steps file Any
            self.old.past.items self.old.logs.items self.new.past.items self.new.logs.items }
    {
        self.past.push(Snapshot::of(&self.logs))?;
        self.logs[file as usize].sync();
        Ok(())
    }
}

// Logs that hold these bytes, all of them on the disk.
fn sure_logs(alloc: Global, contents: Vec<Vec<u8>>) -> Result<Vec<MemoryLog>, AllocError>
    ensures { IfOk result (λ logs. AreSure logs.items contents.items) }
{
    let mut logs = Vec::new(alloc);
    'logs: for content in contents {
        if content.len() as u64 > LONGEST_LOG {
            return Err(AllocError);
        }
        logs.push(MemoryLog::new(alloc, content))?;
    }
    Ok(logs)
}
