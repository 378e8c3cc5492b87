//! What words stand for in expressions: the names in force, numbers, operators and the words of the language; the
//! trees of words, and trees made of trees.
#![tactic(auto)]

mod ends;
mod folding;
mod leaves;
mod names;
mod scope;
mod trees;
mod words;

pub use ends::TypeEnd;
pub use folding::SetRelation;
pub use leaves::{
    are_sets, are_truths, are_whole, condition_word, fits, head_refused, members_word, number_word,
    word_holds_set, word_refused,
};
pub use scope::{CellKind, Named, Param, Scope, Shape};
pub use trees::{
    change_of, comparison, complement, condition_cell, condition_choice, connection, emptiness,
    membership, negation, number_cell, number_choice, operation, set_cell, set_choice,
    set_operation, set_pair, set_relation, size, sum,
};
pub use words::{
    Change, Connective, HeadForm, Operator, SetTest, WordForm, begins_number, head_form, is_cost,
    is_reserved, word_form,
};
