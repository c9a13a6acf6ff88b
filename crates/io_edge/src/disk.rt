//! The logs of a directory.

ghost use Rattle.std.specs.Prelude.{◌≤◌, length, None};
ghost use Rattle.disk_model.specs.Causes.{HasCause, Rose};
ghost use Rattle.io_edge.specs.Untold.{Anything};

use crate::count::Count;
use crate::directory::Directory;
use crate::log::Log;
use crate::reading;
use disk_model::{Disk, Failed};
use std::alloc::Global;
use std::io;
use std::os::unix::fs::FileExt;

/// The four logs of a directory as files, or four logs of one zero byte that refuse writes. Its ghosts tell nothing of
/// what the logs hold: by them a crash may leave anything.
#[derive(Drop)]
pub struct SystemDisk {
    logs: Option<[Log; 4]>,
    count: Count,
}

impl SystemDisk {
    /// Opens the logs of a directory, and makes those that are missing. It reads and writes each byte of each log once,
    /// as `Log::open` says.
    pub(crate) fn open(
        rt: &HostRuntime,
        alloc: Global,
        count: &mut Count,
        directory: &Directory,
    ) -> Result<Self, Failed>
        ensures cause { HasCause count.old.faults count.new.faults result }
    {
        let logs = [
            Log::open(rt, alloc, count, directory, "journal-0")?,
            Log::open(rt, alloc, count, directory, "journal-1")?,
            Log::open(rt, alloc, count, directory, "root-0")?,
            Log::open(rt, alloc, count, directory, "root-1")?,
        ];
        count.counted(directory.path(), directory.sync())?;
        Ok(SystemDisk {
            logs: Some(logs),
            count: Count::new(*rt),
        })
    }

    /// Four logs of one zero byte, without files.
    pub(crate) fn blank(rt: &HostRuntime) -> Self {
        SystemDisk {
            logs: None,
            count: Count::new(*rt),
        }
    }

    // Counts a change of a log without a file as a fault.
    fn refuse(&mut self) -> Failed
        ensures rose { Rose self.old.count.faults self.new.count.faults }
        ensures later { self.old.count.faults ≤ self.new.count.faults }
    {
        let error = io::ErrorKind::ReadOnlyFilesystem.into();
        self.count.fail("a missing log", error)
    }
}

// Reads from a log of one zero byte.
fn read_blank(place: u64, out: &mut [u8]) -> usize
    ensures { result ≤ length out.new }
{
    match out.first_mut() {
        Some(first) if place == 0 => {
            *first = 0;
            1
        }
        _ => 0,
    }
}

impl Disk for SystemDisk {
    ghost seen = { λ d. None };

    ghost may_leave = { λ d. Anything };

    ghost moment = { λ d. 0 };

    ghost left_since = { λ d t. Anything };

    ghost faults = { λ d. d.count.faults };

    fn len(&mut self, file: u8) -> Result<u64, Failed> {
        let Some(logs) = &self.logs else {
            return Ok(1);
        };
        let log = &logs[file as usize];
        let answer = log.len();
        self.count.counted(log.path.as_str(), answer)
    }

    fn read_at(&mut self, file: u8, place: u64, out: &mut [u8]) -> Result<usize, Failed> {
        let Some(logs) = &self.logs else {
            return Ok(read_blank(place, out));
        };
        let log = &logs[file as usize];
        let answer = reading::read_at(&log.file, out, place);
        self.count.counted(log.path.as_str(), answer)
    }

    #[tactic(auto, using(crate::proofs::TornLemmas::write_left))]
    fn write_at(&mut self, file: u8, place: u64, bytes: &[u8]) -> Result<(), Failed> {
        let Some(logs) = &self.logs else {
            return Err(self.refuse());
        };
        let log = &logs[file as usize];
        let answer = log.file.write_all_at(bytes, place);
        self.count.counted(log.path.as_str(), answer)
    }

    #[tactic(auto, using(crate::proofs::TornLemmas::cut_left))]
    fn cut(&mut self, file: u8, len: u64) -> Result<(), Failed> {
        let Some(logs) = &self.logs else {
            return Err(self.refuse());
        };
        let log = &logs[file as usize];
        let answer = log.file.set_len(len);
        self.count.counted(log.path.as_str(), answer)
    }

    #[tactic(auto, using(crate::proofs::TornLemmas::sync_left))]
    fn sync(&mut self, file: u8) -> Result<(), Failed> {
        let Some(logs) = &self.logs else {
            return Ok(());
        };
        let log = &logs[file as usize];
        let answer = log.file.sync_data();
        self.count.counted(log.path.as_str(), answer)
    }

    fn faults(&self) -> u64 {
        self.count.faults
    }

    ghost counts_now = { λ disk t c _ _. tt };

    ghost only_now = { λ disk c _. tt };

    ghost reads_now = { λ disk. tt };

    ghost each_alone = { λ disk file other old new _ _ _. tt };
}
