//! A best-first search by one shard: the calling thread makes its steps one after another, and the shard takes each letter as it hands it
//! out. There is no mailbox, and nothing waits: so a search returns.
#![tactic(auto)]

mod letters;
mod nodes;
mod room;
mod search;
mod steps;

pub use best_ends::BestEnd;
pub use search::run_best_alone;
