//! A log of a directory.

ghost use Rattle.std.specs.Prelude.{◌≤◌, ◌^◌, IfOk};
ghost use Rattle.disk_model.specs.Causes.{HasCause};

use crate::count::Count;
use crate::directory::Directory;
use crate::opening::open_above_standard;
use crate::reading::read_at;
use disk_model::{Failed, LONGEST_LOG};
use std::alloc::Global;
use std::fs::{File, OpenOptions};
use std::io;
use std::os::unix::fs::FileExt;

/// How many bytes an opening reads and writes at once.
const PIECE: usize = 65_536;

/// An open log, and its path, with which failures are printed.
#[derive(Drop)]
pub struct Log {
    pub path: String,
    pub file: File,
}

impl Log {
    /// Opens a log, and makes a missing or empty one as one zero byte. After it the bytes that a read gives are on the
    /// disk.
    ///
    /// It reads and writes each byte of the log once, 64 KiB at a time. A file past 2^62 bytes is refused, and none
    /// of it is read or written.
    pub fn open(
        rt: &HostRuntime,
        alloc: Global,
        count: &mut Count,
        directory: &Directory,
        name: &str,
    ) -> Result<Log, Failed>
        ensures cause { HasCause count.old.faults count.new.faults result }
    {
        let path = count.counted(directory.path(), directory.join(alloc, name))?;
        let file = count.counted(path.as_str(), open_file(rt, alloc, path.as_str()))?;
        Ok(Log { path, file })
    }

    /// The length. A file past 2^62 bytes is refused.
    pub fn len(&self) -> io::Result<u64>
        ensures { IfOk result (λ n. n ≤ 2 ^ 62) }
    {
        log_len(&self.file)
    }
}

fn log_len(file: &File) -> io::Result<u64>
    ensures { IfOk result (λ n. n ≤ 2 ^ 62) }
{
    let length = file.metadata()?.len();
    if length > LONGEST_LOG {
        return Err(io::ErrorKind::FileTooLarge.into());
    }
    Ok(length)
}

fn open_file(rt: &HostRuntime, alloc: Global, path: &str) -> io::Result<File> {
    let mut options = OpenOptions::new();
    options.read(true).write(true).create(true);
    let file = open_above_standard(rt, path, &options)?;
    if log_len(&file)? == 0 {
        file.write_all_at(&[0], 0)?;
    }
    write_back(alloc, &file)?;
    file.sync_all()?;
    Ok(file)
}

// Writes the bytes of a file over themselves, so that the next sync puts them on the disk.
//
// After a sync that failed the system may take a page as clean that it hasn't written, and a later sync doesn't write
// it. The system doesn't tell which pages these are, so no piece is skipped. Nor is a piece of zero bytes: a read
// doesn't tell a hole from zeros that were written over other bytes, as a closed gate is, and the disk may still have
// the other bytes.
fn write_back(alloc: Global, file: &File) -> io::Result<()> {
    let mut piece = vec![in alloc; 0u8; PIECE]?;
    let mut place = 0u64;
    for _ in 0..u64::MAX {
        let count = read_at(file, &mut piece, place)?;
        if count == 0 {
            break;
        }
        file.write_all_at(&piece[..count], place)?;
        place = place.saturating_add(count as u64);
    }
    Ok(())
}
