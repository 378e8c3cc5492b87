//! What the shards of a best-first search handed back.

use best_shard::BestShardEnd;
use path_log::PathLog;

/// What the shards handed back, in the order of their numbers: what they held and counted, and their logs of steps. And how many of
/// the numbers that the search drew are below the budget.
#[derive(Drop)]
pub struct BestTally {
    pub ends: Vec<BestShardEnd>,
    pub logs: Vec<PathLog>,
    pub visited: u64,
}
