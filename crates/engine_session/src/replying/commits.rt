//! Replies to commits.

ghost use Rattle.std.specs.Prelude.{◌≡◌};
ghost use Rattle.engine_session.specs.Step.{said_of};

use doc_engine::CommitRefusal;
use transcript::Reply;

// The reply to a commit, by its result.
pub(crate) fn said_of(committed: Result<u64, CommitRefusal>) -> Reply
    ensures { result ≡ said_of committed }
{
    match committed {
        Ok(at) => Reply::Ok(at),
        Err(CommitRefusal::Down { .. }) => Reply::Down,
        Err(CommitRefusal::Twice { uri }) => Reply::Twice { uri },
        Err(CommitRefusal::Conflict { uri, found, front }) => Reply::Conflict { uri, found, front },
        Err(CommitRefusal::Spent { front, .. }) => Reply::Spent { front },
        Err(CommitRefusal::Fault) => Reply::Fault,
        Err(CommitRefusal::Memory) => Reply::Memory,
    }
}
