//! A disk in memory.

ghost use Rattle.std.specs.Prelude.{◌≡◌, ◌≤◌, ◌<◌, ◌^◌, Some, length, vec_len, ℕ, IfOk, IfSome};
ghost use Rattle.disk_model.specs.declared.disk.TheConstants.{LOG_COUNT};
ghost use Rattle.disk_model.specs.Causes.{Rose};
ghost use Rattle.disk_model.specs.Logs.{Image, ReadsAt, Settled};
ghost use Rattle.disk_memory.specs.CrashStates.{changes_of, read_of, bytes_of, AreLeft, MayLeave, LeftSince};
ghost use Rattle.disk_memory.specs.Laws.{counts_now_of, each_alone_of, only_now_of, reads_now_of};

use crate::log::MemoryLog;
use crate::logs::MemoryLogs;
use crate::meter::Meter;
use crate::plan::Verdict;
use disk_model::{Disk, Failed};
use std::alloc::{AllocError, Global};

/// A disk in memory, which tells what its logs hold and what a crash may leave of them.
///
/// A write costs as much as its bytes, whatever the log's length and the number of calls. A sync costs as much as there
/// are changes since the last one. A call that the plan fails changes nothing that is read, but a crash may leave any
/// part of its change. After the stop each call fails, and only the count of faults changes.
#[derive(Drop)]
pub struct MemoryDisk {
    logs: MemoryLogs,
    meter: Meter,
    faults: u64,
}

impl MemoryDisk {
    /// A disk whose logs have these bytes, all of them synced. A log past 2^62 bytes is refused as want of memory.
    pub fn new(alloc: Global, contents: Vec<Vec<u8>>, meter: Meter) -> Result<Self, AllocError>
        requires { vec_len contents ≡ LOG_COUNT }
        ensures reads { IfOk result (λ disk. IfSome (⟦<MemoryDisk as Disk>⟧.seen disk)
            (λ image. (file : ℕ) → image file ≡ bytes_of contents.items file)) }
        ensures sure { IfOk result (λ disk. (image : Image) → ⟦<MemoryDisk as Disk>⟧.may_leave disk image
            → (file : ℕ) → image file ≡ bytes_of contents.items file) }
        ensures faults { IfOk result (λ disk. ⟦<MemoryDisk as Disk>⟧.faults disk ≡ 0) }
    {
        let logs = MemoryLogs::new(alloc, contents)?;
        Ok(MemoryDisk {
            logs,
            meter,
            faults: 0,
        })
    }

    /// How many changes of a log came after its last sync.
    pub fn unsure(&self, file: u8) -> usize
        requires { file < LOG_COUNT }
        ensures { result ≡ length (changes_of self.now.logs.logs.items file) }
    {
        self.logs.logs[file as usize].pending.len()
    }

    /// The disk that a crash at this moment leaves. For each log, and each of its changes since its last sync in order,
    /// `landed` has the number of bytes that reached the disk: the first bytes of a write. A cut happened unless its
    /// number is 0. A change without a number didn't happen.
    pub fn after_crash(
        &self,
        alloc: Global,
        landed: &[Vec<u64>],
        meter: Meter,
    ) -> Result<Self, AllocError>
        ensures left { IfOk result (λ disk. IfSome (⟦<MemoryDisk as Disk>⟧.seen disk)
            (⟦<MemoryDisk as Disk>⟧.may_leave self.now)) }
        ensures sure { IfOk result (λ disk. (file : ℕ) → Settled file
            (⟦<MemoryDisk as Disk>⟧.seen disk) (⟦<MemoryDisk as Disk>⟧.may_leave disk)) }
    {
        let contents = all_left(alloc, &self.logs.logs, landed)?;
        MemoryDisk::new(alloc, contents, meter)
    }

    // Counts a fault.
    fn fail(&mut self) -> Failed
        ensures same { self.new.logs ≡ self.old.logs }
        ensures later { self.old.faults ≤ self.new.faults }
        ensures rose { Rose self.old.faults self.new.faults }
    {
        self.faults = self.faults.saturating_add(1);
        Failed
    }
}

impl Disk for MemoryDisk {
    ghost seen = { λ d. Some (read_of d.logs.logs.items) };

    ghost may_leave = { λ d image. MayLeave d.logs.logs.items image };

    ghost moment = { λ d. length d.logs.past.items };

    ghost left_since = { λ d t image. LeftSince d.logs.past.items d.logs.logs.items t image };

    ghost faults = { λ d. d.faults };

    ghost counts_now = { λ d t image le now. counts_now_of d.logs.past.items d.logs.logs.items t image now };

    ghost only_now = { λ d image left. only_now_of d.logs.past.items d.logs.logs.items image left };

    ghost reads_now = { λ d. reads_now_of d.logs.logs.items };

    ghost each_alone = { λ d file other old new may was is.
        each_alone_of d.logs.logs.items file other old new may was is };

    fn len(&mut self, file: u8) -> Result<u64, Failed> {
        let Verdict::Goes = self.meter.next() else {
            return Err(self.fail());
        };
        Ok(self.logs.logs[file as usize].content.len() as u64)
    }

    fn read_at(&mut self, file: u8, place: u64, out: &mut [u8]) -> Result<usize, Failed> {
        let Verdict::Goes = self.meter.next() else {
            return Err(self.fail());
        };
        Ok(copy_from(&self.logs.logs[file as usize].content, place, out))
    }

    fn write_at(&mut self, file: u8, place: u64, bytes: &[u8]) -> Result<(), Failed> {
        let done = match self.meter.next() {
            Verdict::Goes => self.logs.write(file, place, bytes),
            Verdict::Fails => {
                let _ = self.logs.miss_write(file, place, bytes);
                return Err(self.fail());
            }
            Verdict::Stopped => return Err(self.fail()),
        };
        match done {
            Ok(()) => Ok(()),
            Err(_) => Err(self.fail()),
        }
    }

    fn cut(&mut self, file: u8, len: u64) -> Result<(), Failed> {
        let done = match self.meter.next() {
            Verdict::Goes => self.logs.cut(file, len),
            Verdict::Fails => {
                let _ = self.logs.miss_cut(file, len);
                return Err(self.fail());
            }
            Verdict::Stopped => return Err(self.fail()),
        };
        match done {
            Ok(()) => Ok(()),
            Err(_) => Err(self.fail()),
        }
    }

    fn sync(&mut self, file: u8) -> Result<(), Failed> {
        let Verdict::Goes = self.meter.next() else {
            return Err(self.fail());
        };
        match self.logs.sync(file) {
            Ok(()) => Ok(()),
            Err(_) => Err(self.fail()),
        }
    }

    fn faults(&self) -> u64 {
        self.faults
    }
}

// Copies the bytes from a place on into the buffer, as many as there are and as fit.
fn copy_from(content: &[u8], place: u64, out: &mut [u8]) -> usize
    ensures bytes { ReadsAt content.now place result out.new }
    ensures bound { result ≤ length out.new }
{
    if place >= content.len() as u64 {
        return 0;
    }
    let rest = &content[place as usize..];
    let count = out.len().min(rest.len());
    out[..count].copy_from_slice(&rest[..count]);
    count
}

// What is left of each log.
fn all_left(
    alloc: Global,
    logs: &[MemoryLog],
    landed: &[Vec<u64>],
) -> Result<Vec<Vec<u8>>, AllocError>
    ensures len { IfOk result (λ contents. vec_len contents ≡ length logs.now) }
    ensures left { IfOk result (λ contents. AreLeft logs.now contents.items) }
{
    let mut contents = Vec::new(alloc);
    'logs: for k in 0..logs.len() {
        let count: &[u64] = match landed.get(k) {
            Some(landed) => landed,
            None => &[],
        };
        contents.push(logs[k].left(alloc, count)?)?;
    }
    Ok(contents)
}
