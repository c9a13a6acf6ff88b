//! What a fault broke off.

/// The call that a fault broke off after it had touched a gate. A crash may leave its effect or not, until the logs are
/// revived.
#[derive(Clone, Copy, Debug, PartialEq, Eq)]
pub enum BrokenOff {
    /// The append of an entry.
    Entry,
    /// The append of a root.
    Root,
    /// The reset of a log.
    Reset,
}
