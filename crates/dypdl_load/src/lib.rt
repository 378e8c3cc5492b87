//! From the trees of a domain and a problem to the model that they mean, or to what is refused first.
#![tactic(auto)]

mod laws;
mod settings;
mod together;
mod whole;

pub use dypdl_nodes::LoadEnd;
pub use laws::{all_choices, one_model, one_reading, steps_differ};
pub use whole::load;
