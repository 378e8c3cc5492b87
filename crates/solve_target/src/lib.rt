//! What a search can say of the target of a model alone, before any other state is looked at.
#![tactic(auto)]

mod looks;

pub use looks::{AtTarget, look_at_target};
