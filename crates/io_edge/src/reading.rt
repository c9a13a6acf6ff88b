//! Reads that are made again where a signal interrupts them.

ghost use Rattle.std.specs.Io.{ReadsAtMost};

use std::fs::File;
use std::io::{self, ErrorKind, Read};
use std::os::unix::fs::FileExt;

/// Reads bytes of a file from a place on. A call that a signal interrupts is made again.
pub fn read_at(file: &File, out: &mut [u8], place: u64) -> io::Result<usize>
    ensures { ReadsAtMost result out.new }
{
    for _ in 0..u64::MAX {
        match file.read_at(out, place) {
            Err(error) if error.kind() == ErrorKind::Interrupted => {}
            answer => return answer,
        }
    }
    Err(ErrorKind::Interrupted.into())
}

/// Reads the next bytes of a stream. A call that a signal interrupts is made again.
pub fn read_next<R: Read>(stream: &mut R, out: &mut [u8]) -> io::Result<usize>
    ensures { ReadsAtMost result out.new }
{
    for _ in 0..u64::MAX {
        match stream.read(out) {
            Err(error) if error.kind() == ErrorKind::Interrupted => {}
            answer => return answer,
        }
    }
    Err(ErrorKind::Interrupted.into())
}
