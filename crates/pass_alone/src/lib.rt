//! A pass of one shard: the calling thread makes its layers one after another, and the shard takes each letter as it hands it out. There
//! is no mailbox, and nothing waits: so a pass returns.
#![tactic(auto)]

mod announced;
mod letters;
mod nodes;
mod pass;
mod room;
mod steps;
mod telling;

pub use announced::run_pass_alone_announced;
pub use pass::run_pass_alone;
