//! The packed evaluators: the value of an expression in a state that lies in words, or the first fault that it meets.
//! They take no memory.
#![tactic(auto)]

mod calls;
mod cells;
mod evaluate;
mod places;
mod quick;
mod rows;
mod sums;

pub use calls::{Scratch, operand_word, packed_cond, packed_num, packed_set, words_of};
pub use evaluate::{holds, number, set_into};
