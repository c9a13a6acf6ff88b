/// Why bytes are no JSON text that is taken, and where: an offset from 0, the first one that reading from the left meets.
/// What stands before it begins some JSON text.
#[derive(Clone, Copy, Debug, PartialEq, Eq)]
pub enum JsonBad {
    /// Where a byte stands, or the bytes end, that can't go on what was read.
    Syntax { place: u64 },
    /// Where a character is due and none begins, or the backslash of an escaped surrogate without its partner.
    Utf8 { place: u64 },
    /// The bracket that opens the 129th array or object around a place.
    Depth { place: u64 },
    /// The first byte of a number that isn't a count of 10^-18 below 10^38.
    Number { place: u64 },
    Memory,
}
