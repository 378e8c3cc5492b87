//! Why a call of the expander gives no answer.

ghost use Rattle.std.specs.Prelude.{◌≡◌, None};
ghost use Rattle.successors.specs.Answers.{ended};
ghost use Rattle.successors.specs.declared.ends.ExpandEnd.TheVariants.{Fault, Memory};

use dp_model::{FaultKind, Spot};
use spot_eval::{SpotEnd, SpotFault};
use std::alloc::{AllocError, AllocFailed};
use thiserror::Error;

/// The first fault that is met, or memory that was refused. `last` is the ground transition that led to the state where
/// the fault is met, where that is a successor of the state at hand.
#[derive(Debug, Drop, Error)]
pub enum ExpandEnd {
    #[error("a fault at {spot:?}: {kind:?}")]
    Fault {
        spot: Spot,
        kind: FaultKind,
        last: Option<u32>,
    },
    #[error("out of memory")]
    Memory,
}

impl From<SpotEnd> for ExpandEnd {
    ghost from_gives = { λ spot_end e. e ≡ ended spot_end };

    fn from(spot_end: SpotEnd) -> ExpandEnd {
        match spot_end {
            SpotEnd::Fault(met) => ExpandEnd::Fault {
                spot: met.spot,
                kind: met.kind,
                last: None,
            },
            SpotEnd::Memory => ExpandEnd::Memory,
        }
    }
}

impl From<SpotFault> for ExpandEnd {
    ghost from_gives = { λ met e. e ≡ Fault met.spot met.kind None };

    fn from(met: SpotFault) -> ExpandEnd {
        ExpandEnd::Fault {
            spot: met.spot,
            kind: met.kind,
            last: None,
        }
    }
}

impl From<AllocError> for ExpandEnd {
    ghost from_gives = { λ _ e. e ≡ Memory };

    fn from(_error: AllocError) -> ExpandEnd {
        ExpandEnd::Memory
    }
}

impl<T: Drop> From<AllocFailed<T>> for ExpandEnd {
    ghost from_gives = { λ _ e. e ≡ Memory };

    fn from(_error: AllocFailed<T>) -> ExpandEnd {
        ExpandEnd::Memory
    }
}
