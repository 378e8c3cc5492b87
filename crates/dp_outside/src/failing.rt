//! The answer of a read or a write that failed.

/// A read or a write that failed. The count of faults of the shelf or sink rose then.
#[derive(Clone, Copy, Debug, PartialEq, Eq)]
pub struct Failed;
