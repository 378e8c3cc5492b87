//! Why an expression has no polynomial.

use std::alloc::{AllocError, AllocFailed};

/// Why an expression is not told: no polynomial is known for its form, or one would be too long or its coefficients have
/// no place in 64 bits; or memory was refused.
#[derive(Clone, Copy, Debug, PartialEq, Eq)]
pub enum Untold {
    Form,
    Memory,
}

impl From<AllocError> for Untold {
    fn from(_error: AllocError) -> Untold {
        Untold::Memory
    }
}

impl<T: Drop> From<AllocFailed<T>> for Untold {
    fn from(_error: AllocFailed<T>) -> Untold {
        Untold::Memory
    }
}
