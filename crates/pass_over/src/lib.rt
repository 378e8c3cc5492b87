//! What each way to make a pass begins and ends with: when a pass may be made, what its shards leave and what its seat knows then, the
//! answer by that, and what is announced of it.
#![tactic(auto)]

mod announced;
mod ending;

pub use announced::{AnnouncedEnd, best_cost, silent};
pub use ending::{tell, visits_so_far};
