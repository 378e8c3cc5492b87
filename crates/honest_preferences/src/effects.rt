//! Parameters, effects and weights of transitions: which of them are no worse in a better state, and which stay within the
//! ends.

ghost use Rattle.std.specs.Prelude.{◌≡◌, ◌≤ℤ◌, ℤ, IfSome, IsTrue, Some, map, slice_get};
ghost use Rattle.dp_model.specs.Evaluation.{kind_of};
ghost use Rattle.honest_preferences.specs.Answering.{KeepsEnds};
ghost use Rattle.honest_preferences.specs.Effects.{AnswersEffect, AnswersEffects, AnswersWeight, CostsNoMore, StaysWithin};
ghost use Rattle.honest_preferences.specs.Leaving.{all_leave, over_leaves};
ghost use Rattle.honest_preferences.specs.Signs.{Falls, Rises};

use crate::leaving::{is_kept, leaves_num, leaves_set, over_leaves};
use crate::signs::{Signs, falls, is_no_greater, is_no_less, prefers_greater, prefers_less, rises};
use dp_base::Seq;
use dp_model::{Effect, Model, Num, Over, Transition, VarKind};

/// Whether what each parameter ranges over leaves out the variables with kept preferences.
pub fn params_leave(kept: &[bool], params: &Seq<Over>) -> bool
    ensures { result ≡ all_leave (map (over_leaves kept.now) params.now) }
{
    for over in params.list() {
        if !over_leaves(kept, *over) {
            return false;
        }
    }
    true
}

/// Whether a variable is an integer variable.
pub fn is_integer(model: &Model, v: u32) -> bool
    ensures { IsTrue result → kind_of model.now v ≡ VarKind.Integer }
{
    match model.variables().list().get(v as usize) {
        Some(variable) => match variable.kind() {
            VarKind::Integer => true,
            VarKind::Element(_) | VarKind::Set(_) => false,
        },
        None => false,
    }
}

/// Whether a number falls where the resources are better, and never below an end.
pub fn falls_to(at: &Signs<'_>, e: &Num, end: i64) -> bool
    ensures { IsTrue result → (low : ℤ) × Falls at.now.model.now at.now.kept.now at.now.ends.now e.now low × (end ≤ℤ low) }
{
    match falls(at, e) {
        Some(low) => end <= low,
        None => false,
    }
}

/// Whether a number rises where the resources are better, and never above an end.
pub fn rises_to(at: &Signs<'_>, e: &Num, end: i64) -> bool
    ensures { IsTrue result → (high : ℤ) × Rises at.now.model.now at.now.kept.now at.now.ends.now e.now high × (high ≤ℤ end) }
{
    match rises(at, e) {
        Some(high) => high <= end,
        None => false,
    }
}

/// Whether a kept resource is set to a number that is no worse in a better state.
fn sets_no_worse(at: &Signs<'_>, v: u32, e: &Num) -> bool
    ensures { IsTrue result → AnswersEffect at.now.model.now at.now.kept.now at.now.ends.now (Effect.Number v e.now) }
{
    if !is_kept(at.kept, v) {
        return false;
    }
    if !is_integer(at.model, v) {
        return false;
    }
    if prefers_less(at.model, v) {
        return is_no_greater(at, e);
    }
    if prefers_greater(at.model, v) {
        return is_no_less(at, e);
    }
    false
}

/// Whether a variable is set to a value that is at least as good in a better state.
fn is_effect_answered(at: &Signs<'_>, effect: &Effect) -> bool
    ensures { IsTrue result → AnswersEffect at.now.model.now at.now.kept.now at.now.ends.now effect.now }
{
    match effect {
        Effect::Number(v, e) => {
            if leaves_num(at.kept, e) {
                true
            } else {
                sets_no_worse(at, *v, e)
            }
        }
        Effect::Members(_, e) => leaves_set(at.kept, e),
    }
}

/// Whether each of some effects sets its variable to a value that is at least as good in a better state.
pub fn are_effects_answered(at: &Signs<'_>, effects: &Seq<Effect>) -> bool
    ensures { IsTrue result → AnswersEffects at.now.model.now at.now.kept.now at.now.ends.now effects.now }
{
    for effect in effects.list() {
        if !is_effect_answered(at, effect) {
            return false;
        }
    }
    true
}

/// Whether a cost is no worse in a better state.
pub fn costs_no_more(at: &Signs<'_>, e: &Num) -> bool
    ensures { IsTrue result → CostsNoMore at.now.model.now at.now.kept.now at.now.ends.now e.now }
{
    if at.model.minimize() {
        is_no_greater(at, e)
    } else {
        is_no_less(at, e)
    }
}

/// Whether a transition has no weight, or one that is no worse in a better state.
pub fn is_weight_answered(at: &Signs<'_>, t: &Transition) -> bool
    ensures { IsTrue result → AnswersWeight at.now.model.now at.now.kept.now at.now.ends.now t.now }
{
    match t.weight() {
        None => true,
        Some(e) => costs_no_more(at, e),
    }
}

/// The end of a variable, if it has one.
pub fn end_of(at: &Signs<'_>, v: usize) -> Option<i64>
    ensures { IfSome result (λ end. slice_get at.now.ends.now v ≡ Some end) }
{
    at.ends.get(v).copied()
}

/// Whether a resource is set to a number that is not beyond its end.
fn sets_within(at: &Signs<'_>, v: u32, e: &Num) -> bool
    ensures { IsTrue result → StaysWithin at.now.model.now at.now.kept.now at.now.ends.now (Effect.Number v e.now) }
{
    match end_of(at, v as usize) {
        Some(end) => {
            if prefers_less(at.model, v) {
                falls_to(at, e, end)
            } else if prefers_greater(at.model, v) {
                rises_to(at, e, end)
            } else {
                false
            }
        }
        None => false,
    }
}

/// Whether no kept resource is set to what is beyond its end.
pub fn stays_within(at: &Signs<'_>, effect: &Effect) -> bool
    ensures { IsTrue result → StaysWithin at.now.model.now at.now.kept.now at.now.ends.now effect.now }
{
    match effect {
        Effect::Number(v, e) => {
            if is_kept(at.kept, *v) {
                sets_within(at, *v, e)
            } else {
                true
            }
        }
        Effect::Members(v, _) => !is_kept(at.kept, *v),
    }
}

/// Whether a transition leads from states within the ends to such states alone.
pub fn keeps_ends(at: &Signs<'_>, t: &Transition) -> bool
    ensures { IsTrue result → KeepsEnds at.now.model.now at.now.kept.now at.now.ends.now t.now }
{
    for effect in t.effects().list() {
        if !stays_within(at, effect) {
            return false;
        }
    }
    true
}
