//! Whether a sum is at least 0, also where quotients and comparisons stand in it that the rules for one atom say nothing of.
#![tactic(auto)]

mod above;
mod finding;
mod lessening;
mod never;
mod sides;

pub use never::never_negative;
