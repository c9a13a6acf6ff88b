/// Timestamps end here, at 2^48-1.
pub const LAST_TIMESTAMP: u64 = 281_474_976_710_655;
