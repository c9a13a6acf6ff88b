use disk_model::FileName;
use doc_model::{Kind, Text, Texts};

/// The reply to a line.
#[derive(Debug, Drop)]
pub enum Reply {
    /// The timestamp of a new entry, or the front.
    Ok(u64),
    Wished,
    /// The collections and the root are JSON texts, written as they are.
    Doc {
        created: u64,
        at: u64,
        front: u64,
        collections: Text,
        root: Text,
    },
    NoDoc {
        at: u64,
        front: u64,
    },
    Found {
        at: u64,
        front: u64,
        uris: Texts,
    },
    Estimate {
        count: u64,
        at: u64,
        front: u64,
    },
    Stamp {
        front: u64,
        merge: u64,
    },
    Bye,
    /// The line passes the limits.
    Long,
    /// The line is invalid: `place` is the byte offset in it, or for `Query` and `Ops` the number of a node.
    Bad {
        kind: BadKind,
        place: u64,
    },
    NoPin,
    Deep,
    Many,
    Directory,
    Near,
    /// The name is a JSON text, written as it is.
    NoRange {
        name: Text,
        kind: Kind,
    },
    Old {
        asked: u64,
        merge: u64,
    },
    New {
        asked: u64,
        front: u64,
    },
    Back {
        t: u64,
        merge: u64,
    },
    Ahead {
        t: u64,
        front: u64,
    },
    Twice {
        uri: Text,
    },
    Conflict {
        uri: Text,
        found: u64,
        front: u64,
    },
    Spent {
        front: u64,
    },
    Down,
    Fault,
    Damaged {
        file: FileName,
        place: u64,
    },
    Memory,
    /// A line that isn't answered yet.
    Later,
}

/// What is wrong with a line.
#[derive(Clone, Copy, Debug, PartialEq, Eq)]
pub enum BadKind {
    Utf8,
    Syntax,
    Uri,
    Json,
    Depth,
    Number,
    Query,
    Ops,
}
