//! Why an expression has no meaning in its place.

ghost use Rattle.std.specs.Prelude.{◌≡◌};
ghost use Rattle.dypdl_words.specs.declared.ends.TypeEnd.TheVariants.{Memory};

use std::alloc::{AllocError, AllocFailed};
use thiserror::Error;

/// Why an expression has no type in its place: what is refused first, at a byte offset, or want of memory.
#[derive(Debug, Drop, Error)]
pub enum TypeEnd {
    /// A word that is no number, variable, table or parameter in force, or a list whose head is no operator and no
    /// table.
    #[error("an unknown name at {0}")]
    UnknownName(u32),
    /// A form of another kind, or of another object type, than the place wants, or a list whose head is no word.
    #[error("another kind is wanted at {0}")]
    WrongKind(u32),
    /// Another number of operands than the head has.
    #[error("another number of operands is wanted at {0}")]
    WrongCount(u32),
    /// The word `cost` outside a cost expression.
    #[error("no place for cost at {0}")]
    CostPlace(u32),
    /// A number that is not whole, or an operator of such numbers.
    #[error("continuous numbers are left out: at {0}")]
    Continuous(u32),
    /// A whole number out of range.
    #[error("a number out of range at {0}")]
    BadNumber(u32),
    /// No cost expression.
    #[error("no cost expression at {0}")]
    CostForm(u32),
    #[error("out of memory")]
    Memory,
}

impl From<AllocError> for TypeEnd {
    ghost from_gives = { λ _ e. e ≡ Memory };

    fn from(_error: AllocError) -> TypeEnd {
        TypeEnd::Memory
    }
}

impl<T: Drop> From<AllocFailed<T>> for TypeEnd {
    ghost from_gives = { λ _ e. e ≡ Memory };

    fn from(_error: AllocFailed<T>) -> TypeEnd {
        TypeEnd::Memory
    }
}
