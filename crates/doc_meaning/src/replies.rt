use doc_model::{QueryBad, Text};

/// The reply to a commit.
#[derive(Debug, Drop)]
pub enum CommitReply {
    /// The first URI that an earlier operation named.
    Twice { uri: Text },
    /// The first operation whose live version isn't the one that it expects: that version's stamp, and the front.
    Conflict { uri: Text, found: u64, front: u64 },
    /// There is no timestamp left, or no room in the logs.
    Spent { front: u64 },
    /// The timestamp of the new entry.
    Entered { at: u64 },
}

/// The reply to a forget.
#[derive(Clone, Copy, Debug)]
pub enum ForgetReply {
    /// The timestamp is below the merge timestamp.
    Back { t: u64, merge: u64 },
    /// The timestamp is above the front.
    Ahead { t: u64, front: u64 },
    /// There is no timestamp left, or no room in the logs.
    Spent { front: u64 },
    /// The timestamp of the new entry.
    Entered { at: u64 },
}

/// The reply to a look.
#[derive(Clone, Copy, Debug)]
pub struct LookReply {
    pub front: u64,
    pub merge: u64,
}

/// The reply to a read at a timestamp.
#[derive(Debug, Drop)]
pub enum ReadReply<T> {
    /// The query breaks a rule.
    Bad(QueryBad),
    /// The timestamp is below the merge timestamp.
    Old { asked: u64, merge: u64 },
    /// The timestamp is above the front.
    New { asked: u64, front: u64 },
    Found(T),
}
