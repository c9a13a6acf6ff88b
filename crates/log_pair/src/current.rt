//! Which log of a pair is current.

/// Which of a pair's two logs takes the next frame.
#[derive(Clone, Copy, Debug, PartialEq, Eq)]
pub enum Current {
    /// The log with the lower number.
    First,
    /// The log with the higher number.
    Second,
}
