//! The steps that a search has taken, kept so that the list of transitions to any of them can be read off. Each shard
//! writes a log of its own. An entry names its parent, which may stand in another shard's log.
#![tactic(auto)]

mod logs;
mod step;
mod walking;

pub use logs::{Entry, PathLog, StepId};
pub use walking::walk;
