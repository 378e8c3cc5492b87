//! What a best-first search answers, by what its shards handed back: how many nodes were visited, the best solution with its list, and
//! why the search was halted.
#![tactic(auto)]

mod answers;
mod bests;
mod faults;
mod tally;

pub use answers::{BestEnd, answer, out_of_memory};
pub use tally::BestTally;
