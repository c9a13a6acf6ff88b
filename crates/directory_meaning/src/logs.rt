//! How many logs a directory has.

/// A directory has four logs: the journals 0 and 1, and the root logs 2 and 3.
pub const DIRECTORY_LOGS: u8 = 4;
