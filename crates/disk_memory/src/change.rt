//! What was done to a log since its last sync.

/// A change that no sync has put on the disk yet. It keeps what it replaced, so that it can be taken back.
#[derive(Debug, Drop)]
pub enum Change {
    Wrote {
        place: u64,
        bytes: Vec<u8>,
        over: Vec<u8>,
    },
    Cut {
        len: u64,
        lost: Vec<u8>,
    },
    /// A write that failed. It isn't read, and a crash may leave any part of it.
    MissedWrite {
        place: u64,
        bytes: Vec<u8>,
    },
    /// A cut that failed. It isn't read, and a crash may leave it done.
    MissedCut {
        len: u64,
    },
}
