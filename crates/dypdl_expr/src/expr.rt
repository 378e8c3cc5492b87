//! Expressions, and why a text is none.

ghost use Rattle.std.specs.Prelude.{◌≡◌};
ghost use Rattle.dypdl_expr.specs.declared.expr.ExprEnd.TheVariants.{Memory};

use dp_base::{Boxed, Seq, Text};
use std::alloc::{AllocError, AllocFailed};
use thiserror::Error;

/// An expression. Each form has the byte offset of its beginning.
#[derive(Debug, Drop)]
pub enum Expr {
    Word(u32, Text),
    /// `(`, one or more expressions, `)`.
    List(u32, Seq<Expr>),
    /// `|`, an expression, `|`.
    Bars(u32, Boxed<Expr>),
}

/// Why a text is no expression: the first refusal from left to right, at a byte offset, or want of memory.
#[derive(Debug, Drop, Error)]
pub enum ExprEnd {
    /// A word with a control character.
    #[error("a control character in the word at {0}")]
    BadToken(u32),
    /// A `)` that closes no list, or the outermost form of those that the end of the text leaves open.
    #[error("unbalanced at {0}")]
    Unbalanced(u32),
    /// `()` or `||`, or a text without tokens.
    #[error("no expression at {0}")]
    Empty(u32),
    /// A token after the whole expression, or after the one expression between two `|`.
    #[error("one expression too many at {0}")]
    Rest(u32),
    /// A form inside 200 others.
    #[error("nested too deep at {0}")]
    TooNested(u32),
    #[error("out of memory")]
    Memory,
}

impl From<AllocError> for ExprEnd {
    ghost from_gives = { λ _ e. e ≡ Memory };

    fn from(_error: AllocError) -> ExprEnd {
        ExprEnd::Memory
    }
}

impl<T: Drop> From<AllocFailed<T>> for ExprEnd {
    ghost from_gives = { λ _ e. e ≡ Memory };

    fn from(_error: AllocFailed<T>) -> ExprEnd {
        ExprEnd::Memory
    }
}
