//! The laws of costs: how a cost so far is joined with a weight, and which of two costs is better. A model has one of six,
//! by whether it minimizes and by its operator. Crates above are generic in the law.
#![tactic(auto)]

mod joins;
mod law;
mod maximizing;
mod minimizing;
mod steps;
mod words;

pub use law::CostLaw;
pub use maximizing::{MaxLeast, MaxMost, MaxPlus};
pub use minimizing::{MinLeast, MinMost, MinPlus};
pub use steps::join_in_turn;
pub use words::NO_INCUMBENT;
