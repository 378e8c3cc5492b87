//! Three words that the shards of a search share: the best word found so far, the number of visits drawn, and the
//! cause of a halt. Each thread reads and changes them through a seat of its own, in single atomic steps that never
//! wait. What a seat saw and did is kept in its view, and a seat into which all others are joined knows the words
//! exactly.
#![tactic(auto)]

mod board;
mod halt;
mod rule;
mod seat;

pub use board::{Board, Totals};
pub use halt::HaltCause;
pub use seat::{BoardSeat, View};
