//! Whether kept preferences are a simulation: each part of the model is looked at once.

ghost use Rattle.std.specs.Prelude.{◌≡◌, ℕ, Some, slice_get, IsTrue};
ghost use Rattle.dp_model.specs.declared.parts.Transition.{Transition};
ghost use Rattle.honest_preferences.specs.Answering.{AreAnswered, IsSimulation};
ghost use Rattle.honest_preferences.specs.Parts.{IsAnswered, IsFollowed};

use crate::answering::{is_alike, is_answered, starts_within};
use crate::easing::{all_ease, all_leave};
use crate::effects::{costs_no_more, keeps_ends};
use crate::signs::Signs;
use dp_model::{BaseCase, Transition};

/// Whether a base case is satisfied in both states or in neither, at a cost that is no worse in the better one.
fn case_is_answered(at: &Signs<'_>, case: &BaseCase) -> bool
    ensures { IsTrue result → IsAnswered at.now.model.now at.now.kept.now at.now.ends.now case.now }
{
    all_leave(at.kept, case.conditions()) && costs_no_more(at, case.cost())
}

/// Whether all base cases are.
fn cases_are_answered(at: &Signs<'_>) -> bool
    ensures { IsTrue result → AreAnswered at.now.model.now at.now.kept.now at.now.ends.now }
{
    for case in at.model.base_cases().list() {
        if !case_is_answered(at, case) {
            return false;
        }
    }
    true
}

/// Whether a better state follows a transition.
fn is_followed(at: &Signs<'_>, t: &Transition) -> bool
    ensures { IsTrue result → IsFollowed at.now.model.now at.now.kept.now at.now.ends.now t.now }
{
    is_answered(at, t) && keeps_ends(at, t) && (!t.forced() || is_alike(at, t))
}

/// Whether a better state follows each of the transitions.
fn all_are_followed(at: &Signs<'_>) -> bool
    ensures { IsTrue result → (i : ℕ) (t : Transition) → slice_get at.now.model.now.transitions i ≡ Some t → IsFollowed at.now.model.now at.now.kept.now at.now.ends.now t }
{
    for t in at.model.transitions().list() {
        if !is_followed(at, t) {
            return false;
        }
    }
    true
}

/// Whether the kept preferences are a simulation, within these ends. `false` says that the rules do not show it.
pub fn is_simulation(at: &Signs<'_>) -> bool
    ensures { IsTrue result → IsSimulation at.now.model.now at.now.kept.now at.now.ends.now }
{
    starts_within(at)
        && all_ease(at, at.model.constraints())
        && cases_are_answered(at)
        && all_are_followed(at)
}
