//! Opening files.

use std::fs::{File, OpenOptions};
use std::io;
use std::os::fd::AsRawFd;

/// Opens a file under a descriptor above 2. Where the program began with a standard stream closed, the system gives the
/// stream's number to the next file, and the program would print into that file.
pub fn open_above_standard(
    rt: &HostRuntime,
    path: &str,
    options: &OpenOptions,
) -> io::Result<File> {
    let file = options.open(rt, path)?;
    if file.as_raw_fd() > 2 {
        return Ok(file);
    }
    file.try_clone()
}
