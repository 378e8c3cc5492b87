//! One shard of a pass: it collects the nodes of a layer, closes the layer, visits the kept nodes, and hands out letters.
#![tactic(auto)]

mod counts;
mod intake;
mod layers;
mod offers;
mod outbox;
mod past;
mod shard;

pub use layers::Layer;
pub use shard::{Closed, Shard, ShardEnd, Visited, merged_floor};
