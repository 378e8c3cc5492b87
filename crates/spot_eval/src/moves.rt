//! Which transitions are enabled in a state.

ghost use Rattle.std.specs.Prelude.{◌≡◌, ◌≤◌, length, filter, IfOk};
ghost use Rattle.dp_steps.specs.States.{are_members};
ghost use Rattle.dp_model.specs.Evaluation.{has};
ghost use Rattle.spot_eval.specs.Answers.{Answers};
ghost use Rattle.spot_eval.specs.Moves.{enabled_at, first_enabled, forced_of, goes_before, is_forced, is_member, may_step_at, number_enabled, others_of};

use crate::ends::SpotEnd;
use crate::tests::{Tests, all_at};
use dp_model::{Model, Over, PlainState, PlainValue, Seq, Transition};
use std::alloc::{AllocError, Global};

fn has(set: &[u32], member: u32) -> bool
    ensures { result ≡ has set.now member }
{
    set.iter().any(|k| member == *k)
}

/// Whether the value of a parameter is a member of the set variable that it ranges over, if it ranges over one.
fn is_member(s: &PlainState, over: Over, k: u32) -> bool
    ensures { result ≡ is_member s.now over k }
{
    match over {
        Over::Object(_) => true,
        Over::Members(v) => match s.values().list().get(v as usize) {
            Some(PlainValue::Members(set)) => has(set.list(), k),
            _ => false,
        },
    }
}

/// Whether each value is so.
#[tactic(auto, using(crate::proofs::Members::members_step, crate::proofs::Members::members_past))]
fn are_members(s: &PlainState, params: &[Over], args: &[u32]) -> bool
    ensures { result ≡ are_members s.now params.now args.now }
{
    for (place, over) in params.iter().enumerate() {
        if place >= args.len() {
            return true;
        }
        if !is_member(s, *over, args[place]) {
            return false;
        }
    }
    true
}

/// Whether a ground transition is enabled: its memberships are tested, which cannot fault, and then its preconditions.
fn enabled_at(
    alloc: Global,
    model: &Model,
    number: u32,
    transition: &Transition,
    args: &Seq<u32>,
    s: &PlainState,
) -> Result<bool, SpotEnd>
    requires { length transition.now.preconditions ≤ 65536 }
    ensures { Answers result (enabled_at model.now s.now number (transition.now, args.now)) }
{
    if !are_members(s, transition.params().list(), args.list()) {
        return Ok(false);
    }
    let preconditions = transition.preconditions().list();
    all_at(
        alloc,
        model,
        Tests::Preconditions(number),
        preconditions,
        args,
        s,
    )
}

/// Whether the ground transition with this number is enabled: its memberships are tested before its preconditions.
#[tactic(auto, using(crate::proofs::Limits::few_preconditions))]
pub fn number_enabled(
    alloc: Global,
    model: &Model,
    number: u32,
    s: &PlainState,
) -> Result<bool, SpotEnd>
    ensures { Answers result (number_enabled model.now s.now number) }
{
    match model.step(number) {
        Some((transition, args)) => enabled_at(alloc, model, number, transition, args, s),
        None => Ok(false),
    }
}

/// The first of these ground transitions that is enabled.
pub fn first_enabled(
    alloc: Global,
    model: &Model,
    s: &PlainState,
    numbers: &[u32],
) -> Result<Option<u32>, SpotEnd>
    ensures { Answers result (first_enabled model.now s.now numbers.now) }
{
    for number in numbers {
        if number_enabled(alloc, model, *number, s)? {
            return Ok(Some(*number));
        }
    }
    Ok(None)
}

/// Whether the ground transition with this number is forced.
fn is_forced(model: &Model, number: u32) -> bool
    ensures { result ≡ is_forced model.now number }
{
    match model.step(number) {
        Some((transition, _)) => transition.forced(),
        None => false,
    }
}

/// The numbers of the forced ground transitions, in order of definition.
#[tactic(auto, using(crate::proofs::Limits::few_grounds))]
pub fn forced_of(alloc: Global, model: &Model) -> Result<Vec<u32>, AllocError>
    ensures { IfOk result (λ numbers. numbers.items ≡ forced_of model.now) }
{
    let count = model.ground().list().len() as u32;
    (0..count)
        .filter(|number| is_forced(model, *number))
        .collect(alloc)
}

/// The numbers of the others, in order of definition.
#[tactic(auto, using(crate::proofs::Limits::few_grounds))]
pub fn others_of(alloc: Global, model: &Model) -> Result<Vec<u32>, AllocError>
    ensures { IfOk result (λ numbers. numbers.items ≡ others_of model.now) }
{
    let count = model.ground().list().len() as u32;
    (0..count)
        .filter(|number| !is_forced(model, *number))
        .collect(alloc)
}

/// Whether a forced transition is tested before another: before each that is not forced, and before each forced one with
/// a greater number.
fn goes_before(model: &Model, number: u32, forced: u32) -> bool
    ensures { result ≡ goes_before model.now number forced }
{
    forced < number || !is_forced(model, number)
}

/// The first enabled one of the forced transitions that are tested before this one.
pub fn first_before(
    alloc: Global,
    model: &Model,
    s: &PlainState,
    number: u32,
    forced: &[u32],
) -> Result<Option<u32>, SpotEnd>
    ensures { Answers result (first_enabled model.now s.now (filter (goes_before model.now number) forced.now)) }
{
    for before in forced {
        if goes_before(model, number, *before) && number_enabled(alloc, model, *before, s)? {
            return Ok(Some(*before));
        }
    }
    Ok(None)
}

/// Whether the ground transition with this number is considered and enabled, where these are the forced ones: no forced
/// one that is tested before it is enabled, and it is.
pub fn may_step(
    alloc: Global,
    model: &Model,
    s: &PlainState,
    number: u32,
    forced: &[u32],
) -> Result<bool, SpotEnd>
    requires { forced.now ≡ forced_of model.now }
    ensures { Answers result (may_step_at model.now s.now number) }
{
    match first_before(alloc, model, s, number, forced)? {
        Some(_) => Ok(false),
        None => number_enabled(alloc, model, number, s),
    }
}
