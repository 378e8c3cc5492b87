//! What a search begins with: what the target of a model turns out to be, and which shard owns its node.
#![tactic(auto)]

mod calls;
mod starts;

pub use starts::{Target, find_target, start_at};
