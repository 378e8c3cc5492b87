//! Models of any size, written out as the texts of a domain and a problem.
#![tactic(auto)]

mod domains;
mod draws;
mod kinds;
mod problems;
mod rows;
mod texts;

pub use kinds::GenKind;
pub use texts::generate;
