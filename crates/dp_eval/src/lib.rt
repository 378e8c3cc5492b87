//! The plain evaluators: the value of an expression in a state, or the first fault that it meets. They walk the
//! expression's tree and follow the definition of the value line by line.
#![tactic(auto)]

mod ends;
mod evaluate;
mod laws;
mod members;
mod numbers;
mod objects;
mod parameters;
mod sets;
mod sums;
mod tables;

pub use ends::EvalEnd;
pub use evaluate::{eval_cond, eval_num, eval_set};
pub use laws::{reads_fit, values_fit};
