//! What a session takes at most.

/// The greatest length of a line, in bytes before its line feed. A session holds one whole line in memory, so this
/// bounds what a client can make it hold.
pub const LONGEST_LINE: usize = 4_194_304;

/// The greatest number of lines of a session. That many lines of the greatest length are 2^62 bytes, so every count
/// over a session fits in 64 bits.
pub const MAX_LINES: u64 = 1 << 40;
