//! Why a directory's logs weren't read or made.

ghost use Rattle.std.specs.Prelude.{◌≡◌};
ghost use Rattle.journal.specs.Refusals.{of_scan};

use directory_reading::LogBad;
use disk_model::{Failed, FileName};
use frame_log::{LogRefusal, ScanRefusal};
use std::alloc::AllocError;
use thiserror::Error;

/// Why the logs weren't read.
#[derive(Clone, Copy, Debug, PartialEq, Eq, Error)]
pub enum JournalRefusal {
    /// Neither root log has a root.
    #[error("there is no root")]
    NotThere,
    /// The bytes of this log break a rule at this place.
    #[error("{file:?} breaks a rule at {place}")]
    Damaged { file: FileName, place: u64 },
    /// The disk failed.
    #[error("the disk failed")]
    Fault,
    #[error("out of memory")]
    Memory,
}

/// Why the logs of an empty database weren't made.
#[derive(Clone, Copy, Debug, PartialEq, Eq, Error)]
pub enum MakeRefusal {
    /// A root log has a root.
    #[error("there is a root already")]
    AlreadyThere,
    /// The bytes of this root log break a rule at this place.
    #[error("{file:?} breaks a rule at {place}")]
    Damaged { file: FileName, place: u64 },
    /// The disk failed.
    #[error("the disk failed")]
    Fault,
    #[error("out of memory")]
    Memory,
}

// Why a scan of this log was refused.
pub(crate) fn scan_bad(file: u8, refusal: ScanRefusal) -> LogBad
    ensures { result ≡ of_scan file refusal }
{
    match refusal {
        ScanRefusal::Fault => LogBad::Fault,
        ScanRefusal::Damaged { place } => LogBad::at(file, place),
        ScanRefusal::Memory => LogBad::Memory,
    }
}

impl From<LogBad> for JournalRefusal {
    ghost use Rattle.journal.specs.Refusals.{journal_refusal};

    ghost from_gives = { λ why refusal. refusal ≡ journal_refusal why };

    fn from(why: LogBad) -> JournalRefusal {
        match why {
            LogBad::Damaged { file, place } => JournalRefusal::Damaged { file, place },
            LogBad::Fault => JournalRefusal::Fault,
            LogBad::Memory => JournalRefusal::Memory,
        }
    }
}

impl From<Failed> for JournalRefusal {
    ghost use Rattle.journal.specs.declared.refusal.JournalRefusal.TheVariants.{Fault};

    ghost from_gives = { λ _ refusal. refusal ≡ Fault };

    fn from(_: Failed) -> JournalRefusal {
        JournalRefusal::Fault
    }
}

impl From<LogRefusal> for JournalRefusal {
    ghost use Rattle.journal.specs.declared.refusal.JournalRefusal.TheVariants.{Fault};

    ghost from_gives = { λ _ refusal. refusal ≡ Fault };

    // A log that is up refuses a reset only if the disk fails.
    fn from(_: LogRefusal) -> JournalRefusal {
        JournalRefusal::Fault
    }
}

impl From<LogBad> for MakeRefusal {
    ghost use Rattle.journal.specs.Refusals.{make_refusal};

    ghost from_gives = { λ why refusal. refusal ≡ make_refusal why };

    fn from(why: LogBad) -> MakeRefusal {
        match why {
            LogBad::Damaged { file, place } => MakeRefusal::Damaged { file, place },
            LogBad::Fault => MakeRefusal::Fault,
            LogBad::Memory => MakeRefusal::Memory,
        }
    }
}

impl From<Failed> for MakeRefusal {
    ghost use Rattle.journal.specs.declared.refusal.MakeRefusal.TheVariants.{Fault};

    ghost from_gives = { λ _ refusal. refusal ≡ Fault };

    fn from(_: Failed) -> MakeRefusal {
        MakeRefusal::Fault
    }
}

impl From<AllocError> for MakeRefusal {
    ghost use Rattle.journal.specs.declared.refusal.MakeRefusal.TheVariants.{Memory};

    ghost from_gives = { λ _ refusal. refusal ≡ Memory };

    fn from(_: AllocError) -> MakeRefusal {
        MakeRefusal::Memory
    }
}

impl From<LogRefusal> for MakeRefusal {
    ghost use Rattle.journal.specs.declared.refusal.MakeRefusal.TheVariants.{Fault};

    ghost from_gives = { λ _ refusal. refusal ≡ Fault };

    // An empty log that is up refuses a first root only if the disk fails.
    fn from(_: LogRefusal) -> MakeRefusal {
        MakeRefusal::Fault
    }
}
