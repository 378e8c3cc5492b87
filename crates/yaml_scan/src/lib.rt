//! The lines of a YAML text: where each begins and ends, and how far it is indented.
#![tactic(auto)]

mod faults;
mod line;
mod pieces;
mod scanning;

pub use line::{Line, ScanEnd};
pub use scanning::lines;
