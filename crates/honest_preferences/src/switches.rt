//! Switches: transitions that only raise a resource from one number to the next. A better state takes the same step
//! where it holds the same number, and need not move where it holds more.

ghost use Rattle.std.specs.Prelude.{◌≡◌, ℤ, IfSome, IsTrue};
ghost use Rattle.dp_model.specs.declared.whole.Model.{Model};
ghost use Rattle.honest_preferences.specs.Answering.{Answers};
ghost use Rattle.honest_preferences.specs.Switches.{AllEaseAt, AllSetUpTo, EasesAt, FreeToLeave, HasSwitch, IsFreeBy, IsRaise, IsSwitch, IsTest, SetsUpTo};

use crate::easing::eases;
use crate::effects::{
    are_effects_answered, falls_to, is_integer, is_weight_answered, params_leave, rises_to,
};
use crate::leaving::is_kept;
use crate::signs::{Signs, prefers_greater};
use dp_base::Seq;
use dp_model::{Compare, Cond, Effect, JoinOp, Num, Transition};

/// A test whether a variable holds a number.
#[derive(Clone, Copy)]
pub struct Test {
    pub variable: u32,
    pub number: i64,
}

/// The test that a condition `(= variable number)` is.
fn test_in(c: &Cond) -> Option<Test>
    ensures { IfSome result (λ t. (m : Model) → IsTest m c.now t.variable t.number) }
{
    match c {
        Cond::Numbers(Compare::Same, Num::Var(v), Num::Fixed(n)) => Some(Test {
            variable: *v,
            number: *n,
        }),
        _ => None,
    }
}

/// The test that a condition is, of a kept integer variable of which more is preferred.
fn switch_in(at: &Signs<'_>, c: &Cond) -> Option<Test>
    ensures { IfSome result (λ t. IsSwitch at.now.model.now at.now.kept.now c.now t.variable t.number) }
{
    let test = test_in(c)?;
    if !is_kept(at.kept, test.variable) {
        return None;
    }
    if !is_integer(at.model, test.variable) {
        return None;
    }
    if !prefers_greater(at.model, test.variable) {
        return None;
    }
    Some(test)
}

/// The first such test among conditions.
fn switch_among(at: &Signs<'_>, conditions: &Seq<Cond>) -> Option<Test>
    ensures { IfSome result (λ t. HasSwitch at.now.model.now at.now.kept.now conditions.now t.variable t.number) }
{
    for c in conditions.list() {
        if let Some(test) = switch_in(at, c) {
            return Some(test);
        }
    }
    None
}

/// Whether a condition tests only what a variable holds.
fn is_test_of(v: u32, c: &Cond) -> bool
    ensures { IsTrue result → (n : ℤ) × ((m : Model) → IsTest m c.now v n) }
{
    match test_in(c) {
        Some(test) => test.variable == v,
        None => false,
    }
}

/// Whether a condition stays true in a better state that holds the same in a variable.
fn eases_at(at: &Signs<'_>, v: u32, c: &Cond) -> bool
    ensures { IsTrue result → EasesAt at.now.model.now at.now.kept.now at.now.ends.now v c.now }
{
    if is_test_of(v, c) { true } else { eases(at, c) }
}

/// Whether each of some conditions does.
fn all_ease_at(at: &Signs<'_>, v: u32, conditions: &Seq<Cond>) -> bool
    ensures { IsTrue result → AllEaseAt at.now.model.now at.now.kept.now at.now.ends.now v conditions.now }
{
    for c in conditions.list() {
        if !eases_at(at, v, c) {
            return false;
        }
    }
    true
}

/// Whether an effect sets a variable to no more than a limit.
fn sets_up_to(at: &Signs<'_>, v: u32, limit: i64, effect: &Effect) -> bool
    ensures { IsTrue result → SetsUpTo at.now.model.now at.now.kept.now at.now.ends.now v limit effect.now }
{
    match effect {
        Effect::Number(u, e) => {
            if *u == v {
                rises_to(at, e, limit)
            } else {
                false
            }
        }
        Effect::Members(_, _) => false,
    }
}

/// Whether each of some effects does.
fn all_set_up_to(at: &Signs<'_>, v: u32, limit: i64, effects: &Seq<Effect>) -> bool
    ensures { IsTrue result → AllSetUpTo at.now.model.now at.now.kept.now at.now.ends.now v limit effects.now }
{
    for effect in effects.list() {
        if !sets_up_to(at, v, limit, effect) {
            return false;
        }
    }
    true
}

/// Whether a weight makes no cost better: with `+` one that is not below 0 where less is sought, and not above 0 where
/// more is. The greater of two costs is no less, and the lesser no greater.
fn weighs_down(at: &Signs<'_>, e: &Num) -> bool
    ensures { IsTrue result → IsFreeBy at.now.model.now at.now.kept.now at.now.ends.now e.now }
{
    match at.model.join() {
        JoinOp::Plus => {
            if at.model.minimize() {
                falls_to(at, e, 0)
            } else {
                rises_to(at, e, 0)
            }
        }
        JoinOp::Most => at.model.minimize(),
        JoinOp::Least => !at.model.minimize(),
    }
}

/// Whether a step by a transition is as well left out, as for its cost.
fn is_free_to_leave(at: &Signs<'_>, t: &Transition) -> bool
    ensures { IsTrue result → FreeToLeave at.now.model.now at.now.kept.now at.now.ends.now t.now }
{
    match t.weight() {
        None => true,
        Some(e) => weighs_down(at, e),
    }
}

/// Whether a transition raises a variable to no more than a limit, where a better state holds the same in it.
fn raises_to(at: &Signs<'_>, t: &Transition, v: u32, limit: i64) -> bool
    ensures { IsTrue result → IsRaise at.now.model.now at.now.kept.now at.now.ends.now t.now v limit }
{
    if !params_leave(at.kept, t.params()) {
        return false;
    }
    if !all_ease_at(at, v, t.preconditions()) {
        return false;
    }
    if !are_effects_answered(at, t.effects()) {
        return false;
    }
    if !is_weight_answered(at, t) {
        return false;
    }
    if !all_set_up_to(at, v, limit, t.effects()) {
        return false;
    }
    is_free_to_leave(at, t)
}

/// Whether a transition only raises a resource from one number to the next: then a better state answers each step by it
/// with the same step, or holds more and stays.
pub fn is_switched(at: &Signs<'_>, t: &Transition) -> bool
    ensures { IsTrue result → Answers at.now.model.now at.now.kept.now at.now.ends.now t.now }
{
    match switch_among(at, t.preconditions()) {
        Some(test) => match test.number.checked_add(1) {
            Some(limit) => raises_to(at, t, test.variable, limit),
            None => false,
        },
        None => false,
    }
}
