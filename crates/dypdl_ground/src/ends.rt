//! Why transitions are not grounded.

ghost use Rattle.std.specs.Prelude.{◌≡◌};
ghost use Rattle.dypdl_ground.specs.declared.ends.GroundEnd.TheVariants.{Memory};

use std::alloc::{AllocError, AllocFailed};
use thiserror::Error;

/// Why transitions are not grounded.
#[derive(Debug, Drop, Error)]
pub enum GroundEnd {
    /// With this transition, named by its number, there are more than 65,536 ground transitions.
    #[error("too many ground transitions at transition {0}")]
    TooMany(u32),
    #[error("out of memory")]
    Memory,
}

impl From<AllocError> for GroundEnd {
    ghost from_gives = { λ _ e. e ≡ Memory };

    fn from(_error: AllocError) -> GroundEnd {
        GroundEnd::Memory
    }
}

impl<T: Drop> From<AllocFailed<T>> for GroundEnd {
    ghost from_gives = { λ _ e. e ≡ Memory };

    fn from(_error: AllocFailed<T>) -> GroundEnd {
        GroundEnd::Memory
    }
}
