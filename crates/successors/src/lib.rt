//! The expander: what a visit makes of a node of a search. It looks at states, tests transitions, and makes the
//! successors of a state, in the order in which the model is evaluated, up to the first fault.
#![tactic(auto)]

mod batch;
mod candidates;
mod ends;
mod expander;
mod spares;
mod starts;
mod switches;
mod visits;

pub use batch::{Batch, Offer};
pub use candidates::{Candidate, Membership};
pub use ends::ExpandEnd;
pub use expander::Expander;
pub use starts::Start;
pub use switches::{Switch, Wanted};
