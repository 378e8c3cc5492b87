//! Texts that the programs of cases make when they run: pieces in many copies, texts cut short, noise; and what is told of
//! many runs together.
#![tactic(auto)]

mod changes;
mod draws;
mod filling;
mod lines;
mod tally;

pub use changes::noisy;
pub use draws::Draws;
pub use filling::filled;
pub use tally::Tally;
