ghost use Rattle.std.specs.Prelude.{◌≡◌};
ghost use Rattle.db_top.specs.Statuses.{code_of, lost_to, refused_as, status_of};

use disk_model::FileName;
use doc_engine::OpenWhy;
use transcript::SessionEnd;

/// How a run ended.
#[derive(Clone, Copy, Debug, PartialEq, Eq)]
pub enum Status {
    /// All was done.
    Done,
    /// The words don't fit.
    Usage,
    /// The directory has no root.
    NotThere,
    /// The directory has a root.
    AlreadyThere,
    /// The world, a disk, a source or a sink failed.
    Fault,
    Memory,
    /// The directory's bytes break a rule at this place.
    Damaged { file: FileName, place: u64 },
}

impl Status {
    /// The exit status of the program.
    pub fn code(self) -> u8
        ensures { result ≡ code_of self }
    {
        match self {
            Status::Done => 0,
            Status::Usage => 1,
            Status::NotThere | Status::AlreadyThere => 2,
            Status::Fault => 3,
            Status::Memory => 4,
            Status::Damaged { .. } => 5,
        }
    }

    // Where something couldn't be put back or printed, an earlier cause goes before.
    pub(crate) fn lost(self) -> Status
        ensures { result ≡ lost_to self }
    {
        match self {
            Status::Done => Status::Fault,
            Status::Usage
            | Status::NotThere
            | Status::AlreadyThere
            | Status::Fault
            | Status::Memory
            | Status::Damaged { .. } => self,
        }
    }
}

impl From<SessionEnd> for Status {
    ghost from_gives = { λ how status. status ≡ status_of how };

    fn from(how: SessionEnd) -> Status {
        match how {
            SessionEnd::Quit | SessionEnd::End | SessionEnd::Long => Status::Done,
            SessionEnd::ReadFault | SessionEnd::WriteFault => Status::Fault,
            SessionEnd::Memory => Status::Memory,
        }
    }
}

impl From<OpenWhy> for Status {
    ghost from_gives = { λ why status. status ≡ refused_as why };

    fn from(why: OpenWhy) -> Status {
        match why {
            OpenWhy::AlreadyThere => Status::AlreadyThere,
            OpenWhy::NotThere => Status::NotThere,
            OpenWhy::Damaged { file, place } => Status::Damaged { file, place },
            OpenWhy::Fault => Status::Fault,
            OpenWhy::Memory => Status::Memory,
        }
    }
}
