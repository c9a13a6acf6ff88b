//! Whether a log is down, and what a fault may have done to its gate.

/// What is known of a log's last gate.
#[derive(Clone, Copy, Debug, PartialEq, Eq)]
pub enum State {
    /// It is closed on the disk.
    Healthy,
    /// A call failed. The gate is closed on the disk.
    Failed,
    /// A call failed. A crash may leave the gate open.
    GateUnknown,
}
