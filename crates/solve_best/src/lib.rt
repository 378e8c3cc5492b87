//! A run of a best-first search: what is found is printed when the search has ended, then how many nodes it visited, and at last what
//! is known of all lists.
#![tactic(auto)]

mod alone;
mod printing;
mod runs;
mod solving;

pub use alone::solve_best_alone;
pub use run_ends::{Solved, Status};
pub use solving::solve_best;
