//! Which preferences of a model are proved, by the signs with which its resource variables stand in expressions.
#![tactic(auto)]

mod answering;
mod choosing;
mod easing;
mod effects;
mod leaving;
mod signs;
mod simulating;
mod switches;

pub use choosing::proved_preferences;
