//! One shard of a best-first search: it takes letters, picks its best open node, prunes or visits it, and hands out letters.
#![tactic(auto)]

mod offers;
mod opening;
mod outbox;
mod shard;

pub use shard::{BestShard, BestShardEnd};
