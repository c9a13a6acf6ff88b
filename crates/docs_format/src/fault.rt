//! Why bytes weren't decoded.

use thiserror::Error;

/// Why bytes weren't decoded.
#[derive(Clone, Copy, Debug, PartialEq, Eq, Error)]
pub enum DocBytesBad {
    /// The bytes break a rule at this place. For a document it is the first byte of the first invalid field, the
    /// length of the bytes if they end early, the first byte past the document if they go on, and 0 if only the
    /// document's size is too great.
    #[error("the bytes break a rule at {place}")]
    Bad { place: u64 },
    #[error("out of memory")]
    Memory,
}
