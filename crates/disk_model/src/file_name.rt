//! How a file of a directory is named.

/// A file of a directory: a log, or a sealed file by its number.
#[derive(Clone, Copy, Debug, PartialEq, Eq)]
pub enum FileName {
    Log(u8),
    Sealed(u64),
}
