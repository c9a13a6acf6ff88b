//! A file that is being made.

ghost use Rattle.std.specs.Prelude.{◌≡◌, None, IfOk};

use crate::count::Count;
use crate::directory::Directory;
use crate::file::SystemFile;
use disk_model::{Build, Failed};
use std::alloc::Global;
use std::fs::File;
use std::io::Write;
use std::sync::Arc;
use std::{fs, io};

/// A file that is being made under a name of its own. After a seal, also a failed one, every call fails.
#[derive(Drop)]
pub struct SystemBuild {
    pub(crate) rt: HostRuntime,
    pub(crate) alloc: Global,
    pub(crate) directory: Arc<Directory, Global>,
    pub(crate) number: u64,
    pub(crate) path: String,
    pub(crate) file: Option<File>,
    pub(crate) count: Count,
}

impl SystemBuild {
    // Syncs the bytes, then renames the file, then syncs the directory.
    fn finish(&self, file: File) -> io::Result<SystemFile>
        ensures { IfOk result (λ sealed. sealed.number ≡ self.now.number) }
    {
        let path = self.directory.sealed(self.alloc, self.number)?;
        let size = file.metadata()?.len();
        file.sync_all()?;
        fs::rename(&self.rt, self.path.as_str(), path.as_str())?;
        self.directory.sync()?;
        Ok(SystemFile {
            number: self.number,
            size,
            path,
            file,
        })
    }
}

impl Build for SystemBuild {
    type File = SystemFile;

    ghost number = { λ b. b.number };

    ghost mark = { λ b. 0 };

    ghost given = { λ b. None };

    ghost faults = { λ b. b.count.faults };

    fn append(&mut self, bytes: &[u8]) -> Result<(), Failed> {
        let answer = match &mut self.file {
            Some(file) => file.write_all(bytes),
            None => Err(io::ErrorKind::Unsupported.into()),
        };
        self.count.counted(self.path.as_str(), answer)
    }

    fn seal(&mut self) -> Result<SystemFile, Failed> {
        let Some(file) = self.file.take() else {
            let error = io::ErrorKind::Unsupported.into();
            return Err(self.count.fail(self.path.as_str(), error));
        };
        let answer = self.finish(file);
        self.count.counted(self.path.as_str(), answer)
    }

    fn faults(&self) -> u64 {
        self.count.faults
    }
}
