//! A best-first search, whole: its shards are made, turned until none has work, and taken apart again; what they leave is the answer of
//! the search.
#![tactic(auto)]

mod alone;
mod crew;
mod ending;
mod mails;
mod room;
mod search;
mod stages;

pub use best_ends::BestEnd;
pub use best_ledger::law_best;
pub use dp_model::{Cause, Found};
pub use search::run_best;
