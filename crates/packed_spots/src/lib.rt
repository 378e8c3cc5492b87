//! The parts of a model, evaluated in a packed state in a fixed order, up to the first fault, which is told with its spot:
//! what a state turns out to be, which transitions are enabled in it, and what they do there. Nothing but a new state takes
//! memory.
#![tactic(auto)]

mod costs;
mod effects;
mod looks;
mod moves;
mod tests;

pub use costs::cost_at;
pub use effects::{next_state, set_effects};
pub use looks::{allowed, base_cost, floor, look_at};
pub use moves::{
    first_enabled, in_words, is_enabled, is_enabled_past_first, may_step, number_enabled,
};
pub use spot_eval::{Look, SpotEnd, SpotFault, Tests};
