//! How much room the evaluation of a model's expressions needs.
#![tactic(auto)]

mod model;
mod needs;
mod objects;

pub use model::room_for;
pub use needs::{cond_need, num_need, set_need};
pub use objects::{set_count, set_object};
