//! A model without some of its dual bounds and preferences: what is the same of both, and when what is kept is honest.
#![tactic(auto)]

mod keeping;
mod kept;
mod laws;
mod parts;

pub use keeping::keep_parts;
pub use kept::Kept;
pub use laws::{law_alike, law_faults, law_fewer, law_honest, law_kept};
pub use parts::{Part, PartName, parts_of};
