use doc_model::{Ops, Query, Text};

/// What a line asks.
#[derive(Debug, Drop)]
pub enum Command {
    Commit(Ops),
    Get { uri: Text, when: When },
    Search { query: Query, when: When },
    Estimate { query: Query, when: When },
    Stamp,
    Forget(u64),
    Pin,
    Unpin,
    Save,
    Merge,
    Revive,
    Quit,
}

/// The timestamp at which a line reads.
#[derive(Clone, Copy, Debug, PartialEq, Eq)]
pub enum When {
    /// The front.
    Front,
    At(u64),
    /// The front of the open pin.
    Pinned,
}
