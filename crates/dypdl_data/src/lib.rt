//! The data of a model's texts: object types, state variables, tables with their cells, and the target.
#![tactic(auto)]

mod blanks;
mod cells;
mod constant_tables;
mod heads;
mod kinds;
mod laws;
mod members;
mod names;
mod object_types;
mod sizes;
mod state_variables;
mod target_state;
mod words;

pub use constant_tables::{ConstantTables, tables};
pub use heads::type_count;
pub use kinds::{Cell, CellKind, TableHead, TypeWord};
pub use laws::{
    each_variable, names_differ, objects_fit, tables_fit, tables_full, target_fits, variables_fit,
};
pub use names::{Names, transition_name, word_name};
pub use object_types::{ObjectTypes, objects, owned};
pub use state_variables::{StateVariables, variables};
pub use target_state::target;
pub use words::{is_transition_name, is_word_name};
