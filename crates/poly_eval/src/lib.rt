//! Expressions of a model over a symbolic state, as polynomials.
#![tactic(auto)]

mod atoms;
mod bits;
mod cells;
mod evaluate;
mod junctions;
mod operations;
mod rows;
mod sets;
mod sums;
mod symbols;
mod tables;
mod told;
mod untold;

pub use symbols::Symbol;
pub use told::{condition, members, number, operated};
