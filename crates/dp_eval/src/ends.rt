//! What an evaluator ends with where it has no value.

ghost use Rattle.std.specs.Prelude.{◌≡◌};
ghost use Rattle.dp_eval.specs.declared.ends.EvalEnd.TheVariants.{Fault, Memory};

use dp_model::FaultKind;
use std::alloc::{AllocError, AllocFailed};
use thiserror::Error;

/// Why an expression has no value: a fault, or memory that was refused.
#[derive(Debug, Drop, Error)]
pub enum EvalEnd {
    #[error("the expression meets a fault: {0:?}")]
    Fault(FaultKind),
    #[error("out of memory")]
    Memory,
}

impl From<FaultKind> for EvalEnd {
    ghost from_gives = { λ k e. e ≡ Fault k };

    fn from(kind: FaultKind) -> EvalEnd {
        EvalEnd::Fault(kind)
    }
}

impl From<AllocError> for EvalEnd {
    ghost from_gives = { λ _ e. e ≡ Memory };

    fn from(_error: AllocError) -> EvalEnd {
        EvalEnd::Memory
    }
}

impl<T: Drop> From<AllocFailed<T>> for EvalEnd {
    ghost from_gives = { λ _ e. e ≡ Memory };

    fn from(_error: AllocFailed<T>) -> EvalEnd {
        EvalEnd::Memory
    }
}
