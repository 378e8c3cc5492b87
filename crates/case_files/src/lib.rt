//! Files of cases, for the programs that run cases and print what came out.
#![tactic(auto)]

mod escapes;
mod reading;

pub use escapes::{escaped, unescaped};
pub use reading::{Entry, entries};
