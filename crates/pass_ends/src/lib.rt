//! What a pass of a search answers, by what its shards handed back: how many nodes were visited and dropped, the best solution
//! with its list, and why the pass was halted.
#![tactic(auto)]

mod answers;
mod bests;
mod faults;
mod floors;
mod tally;

pub use answers::{PassEnd, answer, out_of_memory};
pub use tally::Tally;
