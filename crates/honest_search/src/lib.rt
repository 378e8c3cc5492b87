//! The search for modes: sets of states that the steps of a model do not leave. What it finds is a guess, and is tried
//! afterwards, so it promises nothing.
#![tactic(auto)]

mod effort;
mod finding;
mod keys;
mod sizes;
mod target;
mod widening;

pub use finding::modes_of;
