//! Why an engine refuses a call.

ghost use Rattle.std.specs.Prelude.{◌≡◌};

use disk_model::FileName;
use doc_model::{QueryBad, Text};
use journal::{JournalRefusal, MakeRefusal};
use std::alloc::AllocError;
use thiserror::Error;

/// Why a commit was refused, in the order of the checks. Want of memory may come in place of each but the first. After
/// every refusal but a fault the engine is as before.
#[derive(Debug, Drop, Error)]
pub enum CommitRefusal {
    /// A log is down since this count of the disk's faults.
    #[error("a log is down since fault {faults} of the disk")]
    Down { faults: u64 },
    /// The first URI that an earlier operation named.
    #[error("{} is named twice", .uri.as_str())]
    Twice { uri: Text },
    /// The first operation that expects another version than the live one, which was created at `found`, 0 for none.
    #[error("{} was created at {found}, not as expected, with the front at {front}", .uri.as_str())]
    Conflict { uri: Text, found: u64, front: u64 },
    /// No timestamp is left, or the journal would pass its longest with this entry and end at `end`.
    #[error("nothing is left behind timestamp {front}, or the journal would end at {end}")]
    Spent { front: u64, end: u64 },
    /// The disk failed. The engine is at the same history, and down.
    #[error("the disk failed")]
    Fault,
    #[error("out of memory")]
    Memory,
}

impl From<AllocError> for CommitRefusal {
    ghost use Rattle.doc_engine.specs.declared.refusal.CommitRefusal.TheVariants.{Memory};

    ghost from_gives = { λ _ refusal. refusal ≡ Memory };

    fn from(_: AllocError) -> CommitRefusal {
        CommitRefusal::Memory
    }
}

/// A read at a timestamp below the merge timestamp.
#[derive(Clone, Copy, Debug, PartialEq, Eq)]
pub struct TooOld {
    pub asked: u64,
    pub merge: u64,
}

/// Why a search was refused, in the order of the checks.
#[derive(Debug, Drop, Error)]
pub enum SearchRefusal {
    /// The first rule that the query breaks.
    #[error("the query breaks a rule")]
    Query(QueryBad),
    /// The merge timestamp is past the front.
    #[error("the merge timestamp is past the front")]
    Old(TooOld),
    #[error("out of memory")]
    Memory,
}

impl From<QueryBad> for SearchRefusal {
    ghost use Rattle.doc_engine.specs.Reads.{refused_as};

    ghost from_gives = { λ why refusal. refusal ≡ refused_as why };

    fn from(why: QueryBad) -> SearchRefusal {
        match why {
            QueryBad::Memory => SearchRefusal::Memory,
            QueryBad::TooDeep { .. }
            | QueryBad::TooMany { .. }
            | QueryBad::BadDirectory
            | QueryBad::NearChild
            | QueryBad::NoRange { .. } => SearchRefusal::Query(why),
        }
    }
}

impl From<TooOld> for SearchRefusal {
    ghost use Rattle.doc_engine.specs.declared.refusal.SearchRefusal.TheVariants.{Old};

    ghost from_gives = { λ old refusal. refusal ≡ Old old };

    fn from(old: TooOld) -> SearchRefusal {
        SearchRefusal::Old(old)
    }
}

impl From<AllocError> for SearchRefusal {
    ghost use Rattle.doc_engine.specs.declared.refusal.SearchRefusal.TheVariants.{Memory};

    ghost from_gives = { λ _ refusal. refusal ≡ Memory };

    fn from(_: AllocError) -> SearchRefusal {
        SearchRefusal::Memory
    }
}

/// Why a directory wasn't opened or made. It comes back with the reason.
#[derive(Debug, Drop)]
pub struct OpenRefused<D, Y> {
    pub disk: D,
    pub yard: Y,
    pub why: OpenWhy,
}

/// The reason.
#[derive(Clone, Copy, Debug, PartialEq, Eq)]
pub enum OpenWhy {
    /// A root log has a root.
    AlreadyThere,
    /// Neither root log has one.
    NotThere,
    /// The bytes break a rule at this place.
    Damaged { file: FileName, place: u64 },
    /// The disk failed.
    Fault,
    Memory,
}

impl From<JournalRefusal> for OpenWhy {
    ghost use Rattle.doc_engine.specs.Opening.{open_why};

    ghost from_gives = { λ refusal why. why ≡ open_why refusal };

    fn from(refusal: JournalRefusal) -> OpenWhy {
        match refusal {
            JournalRefusal::NotThere => OpenWhy::NotThere,
            JournalRefusal::Damaged { file, place } => OpenWhy::Damaged { file, place },
            JournalRefusal::Fault => OpenWhy::Fault,
            JournalRefusal::Memory => OpenWhy::Memory,
        }
    }
}

impl From<MakeRefusal> for OpenWhy {
    ghost use Rattle.doc_engine.specs.Opening.{made_why};

    ghost from_gives = { λ refusal why. why ≡ made_why refusal };

    fn from(refusal: MakeRefusal) -> OpenWhy {
        match refusal {
            MakeRefusal::AlreadyThere => OpenWhy::AlreadyThere,
            MakeRefusal::Damaged { file, place } => OpenWhy::Damaged { file, place },
            MakeRefusal::Fault => OpenWhy::Fault,
            MakeRefusal::Memory => OpenWhy::Memory,
        }
    }
}

impl From<AllocError> for OpenWhy {
    ghost use Rattle.doc_engine.specs.declared.refusal.OpenWhy.TheVariants.{Memory};

    ghost from_gives = { λ _ why. why ≡ Memory };

    fn from(_: AllocError) -> OpenWhy {
        OpenWhy::Memory
    }
}

/// What a broken append may have left.
#[derive(Clone, Copy, Debug, PartialEq, Eq)]
pub enum Pending {
    /// The entry of this timestamp.
    Entry(u64),
    /// The root of this number.
    Root(u64),
}
