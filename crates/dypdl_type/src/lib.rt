//! The typing of expressions: the well-typed tree that an expression stands for where a number, a set, a condition
//! or a transition's cost is wanted, or what is refused first.
#![tactic(auto)]

mod cost;
mod forms;
mod kinds;
mod levels;
mod set_kind;
mod typing;

pub use cost::CostForm;
pub use dypdl_words::{Scope, TypeEnd, begins_number, is_reserved};
pub use kinds::{type_cond, type_cost, type_elem, type_num, type_set};
