//! Transitions that a better state answers, and the target: the questions that are asked of each model.

ghost use Rattle.std.specs.Prelude.{◌≡◌, IsTrue, true};
ghost use Rattle.dp_model.specs.Evaluation.{number_in};
ghost use Rattle.honest_preferences.specs.Answering.{Answers, IsAlike};
ghost use Rattle.honest_preferences.specs.Effects.{IsAtEnd, IsWithinAt, Moves};
ghost use Rattle.honest_preferences.specs.Signs.{HasEnds};

use crate::easing::{all_ease, all_leave};
use crate::effects::{are_effects_answered, end_of, is_weight_answered, params_leave};
use crate::signs::Signs;
use crate::switches::is_switched;
use dp_model::{PlainState, PlainValue, Preference, Transition};

/// Whether a better state answers each step by the transition with the same step.
fn is_moved(at: &Signs<'_>, t: &Transition) -> bool
    ensures { IsTrue result → Moves at.now.model.now at.now.kept.now at.now.ends.now t.now }
{
    if !params_leave(at.kept, t.params()) {
        return false;
    }
    if !all_ease(at, t.preconditions()) {
        return false;
    }
    if !are_effects_answered(at, t.effects()) {
        return false;
    }
    is_weight_answered(at, t)
}

/// Whether a better state answers each step by a transition.
pub fn is_answered(at: &Signs<'_>, t: &Transition) -> bool
    ensures { IsTrue result → Answers at.now.model.now at.now.kept.now at.now.ends.now t.now }
{
    if is_moved(at, t) {
        true
    } else {
        is_switched(at, t)
    }
}

/// Whether a transition is enabled in a state and in each better one, or in neither.
pub fn is_alike(at: &Signs<'_>, t: &Transition) -> bool
    ensures { IsTrue result → IsAlike at.now.model.now at.now.kept.now at.now.ends.now t.now }
{
    if !params_leave(at.kept, t.params()) {
        return false;
    }
    all_leave(at.kept, t.preconditions())
}

/// The number that a variable holds in a state; 0 where it holds none.
fn number_in(s: &PlainState, v: usize) -> i64
    ensures { result ≡ number_in s.now v }
{
    match s.values().list().get(v) {
        Some(PlainValue::Number(n)) => *n,
        _ => 0,
    }
}

/// Whether a variable of the target is not beyond its end.
fn is_at_end(at: &Signs<'_>, v: usize, end: i64) -> bool
    ensures { IsTrue result → IsAtEnd at.now.model.now at.now.model.now.target v end }
{
    match at.model.variables().list().get(v) {
        Some(variable) => match variable.preference() {
            Preference::Without => true,
            Preference::Less => end <= number_in(at.model.target(), v),
            Preference::Greater => number_in(at.model.target(), v) <= end,
        },
        None => true,
    }
}

/// Whether a variable of the target has an end and is not beyond it.
fn is_within(at: &Signs<'_>, v: usize) -> bool
    ensures { IsTrue result → IsWithinAt at.now.model.now at.now.ends.now at.now.model.now.target v }
{
    match end_of(at, v) {
        Some(end) => is_at_end(at, v, end),
        None => false,
    }
}

/// The same of a variable whose preference is kept; another has no end.
fn is_within_if(at: &Signs<'_>, v: usize, keeps: bool) -> bool
    ensures { IsTrue result → keeps ≡ true → IsWithinAt at.now.model.now at.now.ends.now at.now.model.now.target v }
{
    if keeps { is_within(at, v) } else { true }
}

/// Whether no variable with a kept preference is beyond its end in the target.
pub fn starts_within(at: &Signs<'_>) -> bool
    ensures { IsTrue result → HasEnds at.now.model.now at.now.kept.now at.now.ends.now at.now.model.now.target }
{
    for (v, keeps) in at.kept.iter().enumerate() {
        if !is_within_if(at, v, *keeps) {
            return false;
        }
    }
    true
}
