//! What each way to make a best-first search begins and ends with: when a search may be made, what its shards leave and what its seat
//! knows then, and the answer by that.
#![tactic(auto)]

mod ending;

pub use ending::{tell, visits_so_far};
