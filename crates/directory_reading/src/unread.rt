//! Why logs weren't read.

ghost use Rattle.std.specs.Prelude.{◌≡◌, ◌+◌, ◌<◌, ◌^◌};
ghost use Rattle.docs_format.specs.Answers.{IsPlaced};
ghost use Rattle.directory_reading.specs.Unread.{TellsBad};

use disk_model::FileName;
use journal_bodies::BodyBad;
use std::alloc::{AllocError, AllocFailed};
use thiserror::Error;

/// How many bytes a frame has before its body: its gate, and the length of the body.
pub const HEAD: u64 = 9;

/// Why a log wasn't read.
#[derive(Clone, Copy, Debug, PartialEq, Eq, Error)]
pub enum LogBad {
    /// The bytes of this log break a rule at this place.
    #[error("{file:?} breaks a rule at {place}")]
    Damaged { file: FileName, place: u64 },
    /// The disk failed.
    #[error("the disk failed")]
    Fault,
    #[error("out of memory")]
    Memory,
}

impl LogBad {
    ghost use Rattle.disk_model.specs.declared.file_name.FileName.TheVariants.{Log};
    ghost use Rattle.directory_reading.specs.declared.unread.LogBad.TheVariants.{Damaged};

    /// The bytes of this log break a rule at this place.
    pub fn at(file: u8, place: u64) -> LogBad
        ensures { result ≡ Damaged (Log file) place }
    {
        LogBad::Damaged {
            file: FileName::Log(file),
            place,
        }
    }
}

impl<T: Drop> From<AllocFailed<T>> for LogBad {
    ghost use Rattle.directory_reading.specs.declared.unread.LogBad.TheVariants.{Memory};

    ghost from_gives = { λ _ unread. unread ≡ Memory };

    fn from(_: AllocFailed<T>) -> LogBad {
        LogBad::Memory
    }
}

impl From<AllocError> for LogBad {
    ghost use Rattle.directory_reading.specs.declared.unread.LogBad.TheVariants.{Memory};

    ghost from_gives = { λ _ unread. unread ≡ Memory };

    fn from(_: AllocError) -> LogBad {
        LogBad::Memory
    }
}

/// Why the body of the frame at this gate wasn't decoded. A place past 2^62 is told as 2^62, where a log is too long.
pub fn body_bad(file: u8, gate: u64, len: usize, why: BodyBad) -> LogBad
    requires room { gate + 9 + len < 2 ^ 64 }
    requires placed { IsPlaced len why }
    ensures { TellsBad file gate why result }
{
    match why {
        BodyBad::Bad { place } => LogBad::at(file, (gate + HEAD + place).min(1 << 62)),
        BodyBad::Memory => LogBad::Memory,
    }
}
