//! Laws of content: what a text says is what its model has, and what an expression reads there. A planner may rely on them
//! without a look at how a text is read or a model searched.
#![tactic(auto)]

mod choices;
mod tables;
mod texts;
mod values;
mod written;

pub use choices::{forall_is_each, parameter_is_member};
pub use tables::{cells_are_read, places_agree};
pub use texts::texts_mean_a_model;
pub use values::{both_files_count, reduce_decides, target_is_given};
pub use written::{written_block_reads_back, written_tree_reads_back};
