//! Which preferences are kept: a guess, which the check of each step confirms.

ghost use Rattle.std.specs.Prelude.{◌≡◌, ◌<◌, ◌⊎◌, ℕ, true, false, Some, length, slice_get, slice_set, IfOk, IsTrue};
ghost use Rattle.dp_model.specs.Typing.{is_without};
ghost use Rattle.dp_model.specs.declared.parts.Variable.{Variable};
ghost use Rattle.kept_model.specs.Honesty.{PreferencesHold};
ghost use Rattle.kept_model.specs.Parts.{variables_with};

use crate::effects::stays_within;
use crate::signs::{Signs, falls, prefers_less, rises};
use crate::simulating::is_simulation;
use dp_model::{Effect, Model, Num, PlainValue, Preference, Transition, VarKind, Variable};
use std::alloc::{AllocError, Global};

/// The greatest number of a model, 2^62 - 1; the least is its negative.
const GREATEST: i64 = 4_611_686_018_427_387_903;

/// How often ends are moved out at most, before they are tried.
const ROUNDS: u32 = 8;

/// How often they are moved to what effects reach.
const NEAR_ROUNDS: u32 = 4;

/// Whether a variable is an integer variable with a preference.
fn is_resource(variable: &Variable) -> bool
    ensures { IsTrue result → is_without variable.now.preference ≡ false }
{
    match variable.preference() {
        Preference::Without => false,
        Preference::Less | Preference::Greater => match variable.kind() {
            VarKind::Integer => true,
            VarKind::Element(_) | VarKind::Set(_) => false,
        },
    }
}

/// Which variables are integer variables with a preference.
fn resources(alloc: Global, model: &Model) -> Result<Vec<bool>, AllocError>
    ensures each { IfOk result (λ kept. length kept.items ≡ length model.now.variables) }
    ensures named { IfOk result (λ kept. (i : ℕ) (v : Variable) → slice_get kept.items i ≡ Some true → slice_get model.now.variables i ≡ Some v → is_without v.preference ≡ false) }
{
    let mut kept = Vec::new(alloc);
    for variable in model.variables().list() {
        kept.push(is_resource(variable))?;
    }
    Ok(kept)
}

/// No preference, for each variable.
fn no_preferences(alloc: Global, model: &Model) -> Result<Vec<bool>, AllocError>
    ensures each { IfOk result (λ kept. length kept.items ≡ length model.now.variables) }
    ensures none { IfOk result (λ kept. (i : ℕ) → slice_get kept.items i ≡ Some true → ⊥) }
{
    let mut kept = Vec::new(alloc);
    for _variable in model.variables().list() {
        kept.push(false)?;
    }
    Ok(kept)
}

/// The number that a value is; 0 for a set.
fn number_of(value: &PlainValue) -> i64 {
    match value {
        PlainValue::Number(n) => *n,
        PlainValue::Members(_) => 0,
    }
}

/// The narrowest ends: what each variable holds in the target.
fn target_ends(alloc: Global, model: &Model) -> Result<Vec<i64>, AllocError> {
    let mut ends = Vec::new(alloc);
    for value in model.target().values().list() {
        ends.push(number_of(value))?;
    }
    Ok(ends)
}

/// The end that an effect reaches of its variable; where the rules tell none, or ends are to go far, the end of all numbers.
fn new_end(at: &Signs<'_>, v: u32, e: &Num, far: bool) -> i64 {
    let less = prefers_less(at.model, v);
    let farthest = if less { -GREATEST } else { GREATEST };
    if far {
        return farthest;
    }
    let reached = if less { falls(at, e) } else { rises(at, e) };
    reached.unwrap_or(farthest)
}

/// Moves the end of a variable out to another one.
fn move_out(model: &Model, ends: &mut [i64], v: u32, end: i64) {
    let place = v as usize;
    if place < ends.len() {
        ends[place] = if prefers_less(model, v) {
            ends[place].min(end)
        } else {
            ends[place].max(end)
        };
    }
}

/// Moves the ends out that a transition does not keep.
fn move_out_by(at: &Signs<'_>, t: &Transition, far: bool, ends: &mut [i64]) {
    for effect in t.effects().list() {
        if let Effect::Number(v, e) = effect
            && !stays_within(at, effect)
        {
            move_out(at.model, ends, *v, new_end(at, *v, e, far));
        }
    }
}

/// The ends, those moved out that some transition does not keep.
fn moved_out(alloc: Global, at: &Signs<'_>, far: bool) -> Result<Vec<i64>, AllocError> {
    let mut ends = at.ends.to_vec(alloc)?;
    for t in at.model.transitions().list() {
        move_out_by(at, t, far, &mut ends);
    }
    Ok(ends)
}

/// Ends that transitions keep, as far as some rounds find them: first such as effects reach, and in the last rounds far ones.
fn likely_ends(alloc: Global, model: &Model, kept: &[bool]) -> Result<Vec<i64>, AllocError> {
    let mut ends = target_ends(alloc, model)?;
    for round in 0..ROUNDS {
        let now = Signs {
            model,
            kept,
            ends: &ends,
        };
        let wider = moved_out(alloc, &now, round >= NEAR_ROUNDS)?;
        if wider.as_slice() == ends.as_slice() {
            return Ok(wider);
        }
        ends = wider;
    }
    Ok(ends)
}

/// Whether these preferences together are proved.
fn are_proved(alloc: Global, model: &Model, kept: &[bool]) -> Result<bool, AllocError>
    ensures { IfOk result (λ proved. IsTrue proved → PreferencesHold model.now (variables_with kept.now model.now.variables)) }
{
    let ends = likely_ends(alloc, model, kept)?;
    Ok(is_simulation(&Signs {
        model,
        kept,
        ends: &ends,
    }))
}

/// The kept preferences and one more.
fn added(alloc: Global, kept: &[bool], place: usize) -> Result<Vec<bool>, AllocError>
    requires { place < length kept.now }
    ensures { IfOk result (λ more. more.items ≡ slice_set kept.now place true) }
{
    let mut more = kept.to_vec(alloc)?;
    more[place] = true;
    Ok(more)
}

/// The kept preferences, and one more where it is proved with them.
fn tried(
    alloc: Global,
    model: &Model,
    kept: Vec<bool>,
    place: usize,
) -> Result<Vec<bool>, AllocError>
    requires { place < length kept.items }
    ensures each { IfOk result (λ more. length more.items ≡ length kept.items) }
    ensures holds { IfOk result (λ more. PreferencesHold model.now (variables_with kept.items model.now.variables) → PreferencesHold model.now (variables_with more.items model.now.variables)) }
    ensures among { IfOk result (λ more. (i : ℕ) → slice_get more.items i ≡ Some true → (slice_get kept.items i ≡ Some true) ⊎ (i ≡ place)) }
{
    let more = added(alloc, &kept, place)?;
    if are_proved(alloc, model, &more)? {
        Ok(more)
    } else {
        Ok(kept)
    }
}

/// Those of some preferences that are proved, each with those before it.
fn one_by_one(alloc: Global, model: &Model, resources: &[bool]) -> Result<Vec<bool>, AllocError>
    requires { length resources.now ≡ length model.now.variables }
    ensures each { IfOk result (λ kept. length kept.items ≡ length model.now.variables) }
    ensures holds { IfOk result (λ kept. PreferencesHold model.now (variables_with kept.items model.now.variables)) }
    ensures among { IfOk result (λ kept. (i : ℕ) → slice_get kept.items i ≡ Some true → slice_get resources.now i ≡ Some true) }
{
    let mut kept = no_preferences(alloc, model)?;
    for (place, is_one) in resources.iter().enumerate() {
        if *is_one {
            kept = tried(alloc, model, kept, place)?;
        }
    }
    Ok(kept)
}

/// Which preferences of a model are proved, together: no state costs more to complete than one that is no better by these.
///
/// All preferences of integer variables are tried together. Where these are not proved, they are tried one after another in
/// order, each with those that are kept by then. What is not kept may be honest too.
pub fn proved_preferences(alloc: Global, model: &Model) -> Result<Vec<bool>, AllocError>
    ensures each { IfOk result (λ kept. length kept.items ≡ length model.now.variables) }
    ensures holds { IfOk result (λ kept. PreferencesHold model.now (variables_with kept.items model.now.variables)) }
    ensures named { IfOk result (λ kept. (i : ℕ) (v : Variable) → slice_get kept.items i ≡ Some true → slice_get model.now.variables i ≡ Some v → is_without v.preference ≡ false) }
{
    let all = resources(alloc, model)?;
    if are_proved(alloc, model, &all)? {
        Ok(all)
    } else {
        one_by_one(alloc, model, &all)
    }
}
