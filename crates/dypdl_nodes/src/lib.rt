//! What the nodes of a model's texts must be, lists, maps with known keys, and scalars of each kind, and what is refused
//! where one is not.
#![tactic(auto)]

mod ends;
mod keys;
mod lists;
mod maps;
mod numbers;
pub mod rules;
mod texts;
mod truths;

pub use ends::{LoadEnd, refused};
pub use keys::{file_keyed, keyed, known_keys, needed, value_in};
pub use lists::{few_items, items_of, items_or_none};
pub use maps::{entries_of, entries_or_none, file_entries};
pub use numbers::{GREATEST, count_of, index_of, number_between, number_of};
pub use texts::text_of;
pub use truths::{truth_of, truth_or_false};
