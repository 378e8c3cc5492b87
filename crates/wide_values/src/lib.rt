//! Wide values: what an expression stands for where numbers have no limits and every test passes.
#![tactic(auto)]

mod laws;

pub use laws::law_wide;
