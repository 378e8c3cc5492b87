//! What a step of a model says in wide values: which conditions hold before it, what it weighs, and where it leads.
#![tactic(auto)]

mod laws;

pub use laws::law_wide_steps;
