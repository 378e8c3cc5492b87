//! The parts of a model, evaluated in a plain state in a fixed order, up to the first fault, which is told with its spot:
//! what a state turns out to be, which transitions are enabled in it, and what they do there.
#![tactic(auto)]

mod changes;
mod costs;
mod effects;
mod ends;
mod looks;
mod moves;
mod tests;

pub use changes::copy_values;
pub use costs::{cost_at, joined_at};
pub use effects::{effects_at, next_state};
pub use ends::{SpotEnd, SpotFault};
pub use looks::{Look, allowed, base_cost, best_case, floor, look_at};
pub use moves::{first_before, first_enabled, forced_of, may_step, number_enabled, others_of};
pub use tests::Tests;
