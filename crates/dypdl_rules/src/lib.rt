//! The rules of a model: transitions, constraints, base cases and dual bounds, as nodes of the texts of a domain and a
//! problem. Each reader gives what its node stands for, or what is refused first.
#![tactic(auto)]

mod bases;
mod conditions;
mod declarations;
mod effects;
mod expressions;
mod parameters;
mod transitions;

pub use bases::{base_cases, bounds, constraints};
pub use declarations::Declared;
pub use transitions::{Joining, Move, Weighing, moves};
