//! A directory of the file system that this process holds for itself.

use crate::opening::open_above_standard;
use std::alloc::Global;
use std::fs::{File, OpenOptions, TryLockError};
use std::io::ErrorKind;
use std::{fs, io};

/// What is done where a directory is missing, or no database was made in it.
#[derive(Clone, Copy, Debug, PartialEq, Eq)]
pub enum Missing {
    /// The directory and its logs are made.
    Make,
    /// Nothing is made: a blank store is handed out, which refuses writes.
    Leave,
}

/// A directory, open and locked. The lock ends with the value, and with the process however that ends.
#[derive(Drop)]
pub struct Directory {
    path: String,
    handle: File,
}

impl Directory {
    /// Opens a directory and locks it, which fails where it is locked already. Returns none where the directory is left
    /// as missing.
    pub fn hold(
        rt: &HostRuntime,
        alloc: Global,
        path: &str,
        missing: Missing,
    ) -> io::Result<Option<Directory>> {
        match missing {
            Missing::Make => make(rt, alloc, path)?,
            Missing::Leave if !fs::exists(rt, path)? => return Ok(None),
            Missing::Leave => {}
        }
        let directory = Directory {
            path: String::from_str(alloc, path)?,
            handle: open_directory(rt, path)?,
        };
        directory.lock()?;
        if missing == Missing::Leave && !directory.has_root(rt, alloc)? {
            return Ok(None);
        }
        Ok(Some(directory))
    }

    fn lock(&self) -> io::Result<()> {
        match self.handle.try_lock() {
            Ok(()) => Ok(()),
            Err(TryLockError::Error(error)) => Err(error),
            Err(TryLockError::WouldBlock) => Err(io::Error::new(
                ErrorKind::WouldBlock,
                "another process serves this directory",
            )),
        }
    }

    // Whether one of its root logs is there.
    fn has_root(&self, rt: &HostRuntime, alloc: Global) -> io::Result<bool> {
        let first = fs::exists(rt, self.join(alloc, "root-0")?.as_str())?;
        Ok(first || fs::exists(rt, self.join(alloc, "root-1")?.as_str())?)
    }

    /// Its path.
    pub fn path(&self) -> &str {
        self.path.as_str()
    }

    /// The path of a file in it.
    pub fn join(&self, alloc: Global, name: &str) -> io::Result<String> {
        Ok(format!(in alloc; "{}/{name}", self.path.as_str())?)
    }

    /// The path of a sealed file in it.
    pub fn sealed(&self, alloc: Global, number: u64) -> io::Result<String> {
        Ok(format!(in alloc; "{}/file-{number}", self.path.as_str())?)
    }

    /// The path of a file in it that isn't sealed yet.
    pub fn unsealed(&self, alloc: Global, number: u64) -> io::Result<String> {
        Ok(format!(in alloc; "{}/file-{number}.new", self.path.as_str())?)
    }

    /// Syncs the directory: the names that were made, changed or removed in it survive a crash.
    pub fn sync(&self) -> io::Result<()> {
        self.handle.sync_all()
    }
}

// Makes a directory where it is missing. Its entry in the directory above survives a crash.
fn make(rt: &HostRuntime, alloc: Global, path: &str) -> io::Result<()> {
    match fs::create_dir(rt, path) {
        Err(error) if error.kind() != ErrorKind::AlreadyExists => Err(error),
        _ => {
            let above = format!(in alloc; "{path}/..")?;
            File::open(rt, above.as_str())?.sync_all()
        }
    }
}

// Opens a directory. Anything else is refused first, since opening a pipe could wait for ever.
fn open_directory(rt: &HostRuntime, path: &str) -> io::Result<File> {
    if !fs::metadata(rt, path)?.is_dir() {
        return Err(ErrorKind::NotADirectory.into());
    }
    let mut options = OpenOptions::new();
    open_above_standard(rt, path, options.read(true))
}
