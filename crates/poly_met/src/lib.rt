//! That tables can be met, as a law.
#![tactic(auto)]

mod founded;

ghost use Rattle.poly_met.specs.Met.{LawMet, LawAllMet};

pub use founded::{defined_from, is_sum_below};

/// A table whose atoms stand for earlier ones can still be met with one more atom, and nothing changes for the others.
pub fn law_met()
    ensures { LawMet }
{}

/// The same with as many more atoms as there are.
pub fn law_all_met()
    ensures { LawAllMet }
{}
