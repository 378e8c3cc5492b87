//! Inner and base states, and steps, in wide values.

ghost use Rattle.wide_steps.specs.Laws.{LawWideSteps};

use wide_values::law_wide;

/// What inner states, base states and steps say of wide values.
pub fn law_wide_steps()
    ensures { LawWideSteps }
{
    law_wide();
}
