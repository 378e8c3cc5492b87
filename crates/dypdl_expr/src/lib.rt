//! Prefix expressions as texts: their tokens, their grammar, and a reader that gives the expression or the first
//! refusal.
#![tactic(auto)]

mod expr;
mod laws;
mod reading;
mod tokens;

pub use expr::{Expr, ExprEnd};
pub use laws::{one_reading, some_reading};
pub use reading::read_expr;
