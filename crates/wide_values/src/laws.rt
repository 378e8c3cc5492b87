//! What wide values have to do with values.

ghost use Rattle.wide_values.specs.Laws.{LawWide};

/// Where an expression has a value, that is its wide value.
pub fn law_wide()
    ensures { LawWide }
{}
