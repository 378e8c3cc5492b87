//! The words of the command line: which job they ask for.
#![tactic(auto)]

mod commands;
mod jobs;
mod numbers;
mod reading;

pub use jobs::{Engine, Job, Search, WordsEnd};
pub use model_gen::GenKind;
pub use reading::read_words;
