//! A run of a search: passes with shares that double, until one loses nothing, or the run is halted. What is found is printed as
//! it is found, and at last what is known of all lists.
#![tactic(auto)]

mod alone;
mod made;
mod progress;
mod solving;
mod turns;

pub use alone::solve_alone;
pub use progress::Printing;
pub use run_ends::{Solved, Status, conclude, run_out, status_after};
pub use solving::solve;
