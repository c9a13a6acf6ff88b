//! Why a call on a log was refused.

ghost use Rattle.std.specs.Prelude.{◌≡◌};
ghost use Rattle.frame_log.specs.declared.refusal.LogRefusal.TheVariants.{Fault};

use disk_model::Failed;
use std::alloc::{AllocError, AllocFailed};

/// Why a log refused a call.
#[derive(Clone, Copy, Debug, PartialEq, Eq)]
pub enum LogRefusal {
    /// The log met a fault and wasn't revived.
    Down,
    /// With the frame the log would be longer than 2^62 bytes. It ends here.
    Long { end: u64 },
    /// The disk failed. The log is down.
    Fault,
}

impl From<Failed> for LogRefusal {
    ghost from_gives = { λ _ refusal. refusal ≡ Fault };

    fn from(_: Failed) -> LogRefusal {
        LogRefusal::Fault
    }
}

/// Why a log wasn't read.
#[derive(Clone, Copy, Debug, PartialEq, Eq)]
pub enum ScanRefusal {
    /// The disk failed.
    Fault,
    /// From this place on the bytes of the log aren't frames.
    Damaged { place: u64 },
    /// There was no memory for the bodies.
    Memory,
}

impl From<Failed> for ScanRefusal {
    ghost use Rattle.std.specs.Prelude.{◌≡◌};
    ghost use Rattle.frame_log.specs.declared.refusal.ScanRefusal.TheVariants.{Fault};

    ghost from_gives = { λ _ refusal. refusal ≡ Fault };

    fn from(_: Failed) -> ScanRefusal {
        ScanRefusal::Fault
    }
}

impl From<AllocError> for ScanRefusal {
    ghost use Rattle.std.specs.Prelude.{◌≡◌};
    ghost use Rattle.frame_log.specs.declared.refusal.ScanRefusal.TheVariants.{Memory};

    ghost from_gives = { λ _ refusal. refusal ≡ Memory };

    fn from(_: AllocError) -> ScanRefusal {
        ScanRefusal::Memory
    }
}

impl<T: Drop> From<AllocFailed<T>> for ScanRefusal {
    ghost use Rattle.std.specs.Prelude.{◌≡◌};
    ghost use Rattle.frame_log.specs.declared.refusal.ScanRefusal.TheVariants.{Memory};

    ghost from_gives = { λ _ refusal. refusal ≡ Memory };

    fn from(_: AllocFailed<T>) -> ScanRefusal {
        ScanRefusal::Memory
    }
}
