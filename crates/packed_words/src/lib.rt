//! What evaluators read of a packed state and of a model, and what they do with words. No call takes memory but the one that
//! makes the tables.
#![tactic(auto)]

mod cells;
mod numbers;
mod ranges;
mod scene;
mod sets;
mod steps;
mod tables;
mod word;

pub use cells::{
    after_first, cell_count, cell_word, copy_cell, counts, member_on, number_at, number_placed,
    numbers_in, truth_placed,
};
pub use numbers::{compares, member_of, operate, ranged};
pub use ranges::Range;
pub use scene::{Scene, copy_set, has_in, next_in, number_in, parameter, set_slot, word_of};
pub use sets::{
    has_member, is_empty, is_same, is_subset, operate_into, others, size, with, without, words_for,
};
pub use steps::{count_of, first_bit, next_of, range_of, start_more, write_more};
pub use tables::{Shape, Tables};
pub use word::{
    is_empty_word, is_same_word, is_within_word, lowest, operate_words, other_word, without_lowest,
    word_has, word_size, word_with, word_without,
};
