//! Which dual bounds of a model are proved: by modes that each step to an inner state keeps, and by each step of each mode.
#![tactic(auto)]

mod asking;
mod bearing;
mod proving;
mod sums;

pub use proving::proved_bounds;
