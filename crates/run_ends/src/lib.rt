//! How a run ends, whatever it searches with: its status, the lines of its verdict, and what it claims of all lists.
#![tactic(auto)]

mod endings;
mod solved;
mod status;

pub use endings::{conclude, run_out};
pub use solved::{Solved, solved_by};
pub use status::{Status, status_after};
