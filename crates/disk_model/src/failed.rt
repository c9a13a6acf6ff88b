//! The error of a device that failed.

/// A device failed. In the call that returns this the object's count of faults has risen.
#[derive(Clone, Copy, Debug, PartialEq, Eq, Drop)]
pub struct Failed;
