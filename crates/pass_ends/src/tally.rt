//! What the shards of a pass handed back.

use path_log::PathLog;
use shard_core::ShardEnd;

/// What the shards of a pass handed back, in the order of their numbers: what they held and counted, and their logs of steps. And
/// what is known of the whole pass: how many of the numbers that it drew are below the budget, and the share that it was made
/// with.
#[derive(Drop)]
pub struct Tally {
    pub ends: Vec<ShardEnd>,
    pub logs: Vec<PathLog>,
    pub visited: u64,
    pub share: u64,
}
