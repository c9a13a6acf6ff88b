//! The sealed files of a directory.

ghost use Rattle.std.specs.Prelude.{None};

use crate::build::SystemBuild;
use crate::count::Count;
use crate::directory::Directory;
use crate::file::SystemFile;
use crate::opening::open_above_standard;
use disk_model::{Failed, Yard};
use std::alloc::Global;
use std::fs::{File, OpenOptions};
use std::sync::Arc;
use std::{fs, io};

/// The sealed files of a directory by number, or a yard without a directory, which has no file and begins no build. Its
/// ghosts don't tell what files hold.
#[derive(Drop)]
pub struct SystemYard {
    rt: HostRuntime,
    alloc: Global,
    directory: Option<Arc<Directory, Global>>,
    count: Count,
}

impl SystemYard {
    /// The yard of a directory, or of none.
    pub(crate) fn new(
        rt: &HostRuntime,
        alloc: Global,
        directory: Option<Arc<Directory, Global>>,
    ) -> Self {
        SystemYard {
            rt: *rt,
            alloc,
            directory,
            count: Count::new(*rt),
        }
    }
}

// Opens the file of a build, and removes what the number has.
fn begin(
    rt: &HostRuntime,
    alloc: Global,
    directory: &Directory,
    number: u64,
    path: &str,
) -> io::Result<File> {
    remove_if_there(rt, directory.sealed(alloc, number)?.as_str())?;
    let mut options = OpenOptions::new();
    options.read(true).write(true).create(true).truncate(true);
    open_above_standard(rt, path, &options)
}

// Opens a sealed file where it is there. Returns it with its size.
fn find(rt: &HostRuntime, path: &str) -> io::Result<Option<(File, u64)>> {
    let mut options = OpenOptions::new();
    match open_above_standard(rt, path, options.read(true)) {
        Ok(file) => {
            let size = file.metadata()?.len();
            Ok(Some((file, size)))
        }
        Err(error) if error.kind() == io::ErrorKind::NotFound => Ok(None),
        Err(error) => Err(error),
    }
}

// Removes what a number has, sealed or not. The removed names stay removed over a crash.
fn clear(rt: &HostRuntime, alloc: Global, directory: &Directory, number: u64) -> io::Result<()> {
    remove_if_there(rt, directory.unsealed(alloc, number)?.as_str())?;
    remove_if_there(rt, directory.sealed(alloc, number)?.as_str())?;
    directory.sync()
}

// Removes a file. It is no error if the file isn't there.
fn remove_if_there(rt: &HostRuntime, path: &str) -> io::Result<()> {
    match fs::remove_file(rt, path) {
        Err(error) if error.kind() == io::ErrorKind::NotFound => Ok(()),
        answer => answer,
    }
}

impl Yard for SystemYard {
    type File = SystemFile;

    type Build = SystemBuild;

    ghost holds = { λ y. None };

    ghost faults = { λ y. y.count.faults };

    fn fresh(&mut self, number: u64) -> Result<SystemBuild, Failed> {
        let Some(directory) = &self.directory else {
            let error = io::ErrorKind::ReadOnlyFilesystem.into();
            return Err(self.count.fail("a missing directory", error));
        };
        let path = directory.unsealed(self.alloc, number);
        let path = self.count.counted(directory.path(), path)?;
        let file = begin(&self.rt, self.alloc, directory, number, path.as_str());
        let file = self.count.counted(path.as_str(), file)?;
        let shared = Arc::try_clone(directory).map_err(io::Error::from);
        Ok(SystemBuild {
            rt: self.rt,
            alloc: self.alloc,
            directory: self.count.counted(path.as_str(), shared)?,
            number,
            path,
            file: Some(file),
            count: Count::new(self.rt),
        })
    }

    fn open(&mut self, number: u64) -> Result<Option<SystemFile>, Failed> {
        let Some(directory) = &self.directory else {
            return Ok(None);
        };
        let path = directory.sealed(self.alloc, number);
        let path = self.count.counted(directory.path(), path)?;
        let found = find(&self.rt, path.as_str());
        let Some((file, size)) = self.count.counted(path.as_str(), found)? else {
            return Ok(None);
        };
        Ok(Some(SystemFile {
            number,
            size,
            path,
            file,
        }))
    }

    fn remove(&mut self, number: u64) -> Result<(), Failed> {
        let Some(directory) = &self.directory else {
            return Ok(());
        };
        let answer = clear(&self.rt, self.alloc, directory, number);
        self.count.counted(directory.path(), answer)
    }

    fn admit(&mut self, _file: &SystemFile) {}

    fn faults(&self) -> u64 {
        self.count.faults
    }
}
