//! Modes: what is known of all states of a kind at once, the symbols that stand for such a state, and what a condition
//! that holds adds to what is known.
#![tactic(auto)]

mod absorbing;
mod closed;
mod joining;
mod learning;
mod mode;
mod narrowing;
mod opening;
mod within;

pub use closed::is_closed;
pub use joining::{joined, mode_of};
pub use mode::{Known, Mode, Narrowed, is_in, is_in_some};
pub use narrowing::narrowed;
pub use opening::{Symbolic, symbols_of};
pub use within::{are_within, is_within};
