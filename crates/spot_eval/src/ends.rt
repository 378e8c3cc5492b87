//! Why a call that evaluates a part of a model gives no answer.

ghost use Rattle.std.specs.Prelude.{◌≡◌};
ghost use Rattle.spot_eval.specs.declared.ends.SpotEnd.TheVariants.{Fault, Memory};

use dp_model::{FaultKind, Spot};
use std::alloc::{AllocError, AllocFailed};
use thiserror::Error;

/// A fault, and the spot of the model where it is met.
#[derive(Clone, Copy, Debug, PartialEq, Eq)]
pub struct SpotFault {
    pub spot: Spot,
    pub kind: FaultKind,
}

/// The first fault that is met, or memory that was refused.
#[derive(Debug, Drop, Error)]
pub enum SpotEnd {
    #[error("a fault at {0:?}")]
    Fault(SpotFault),
    #[error("out of memory")]
    Memory,
}

impl From<AllocError> for SpotEnd {
    ghost from_gives = { λ _ e. e ≡ Memory };

    fn from(_error: AllocError) -> SpotEnd {
        SpotEnd::Memory
    }
}

impl<T: Drop> From<AllocFailed<T>> for SpotEnd {
    ghost from_gives = { λ _ e. e ≡ Memory };

    fn from(_error: AllocFailed<T>) -> SpotEnd {
        SpotEnd::Memory
    }
}

impl From<SpotFault> for SpotEnd {
    ghost from_gives = { λ met e. e ≡ Fault met };

    fn from(met: SpotFault) -> SpotEnd {
        SpotEnd::Fault(met)
    }
}
