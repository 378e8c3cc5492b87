//! Grounding: each transition with all values of its parameters.
#![tactic(auto)]

mod counts;
mod ends;
mod grounding;
mod ways;

pub use ends::GroundEnd;
pub use grounding::{ground, ground_all};
