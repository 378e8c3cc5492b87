//! Values of the expressions of a model's transitions by the calls of a search's evaluators, which keep a scratch beside the
//! model; its ground transitions, and the signature of its target. All are texts.

ghost use Rattle.std.specs.Prelude.{◌≡◌, ◌≤◌, IfOk, length, true};
ghost use Rattle.packed_eval.specs.Scratches.{IsScratchOf};
ghost use Rattle.state_layout.specs.Conditions.{IsLayoutOf, IsPackedFor};

use crate::packed::{members_in, words};
use crate::plain;
use crate::plain::fault_name;
use crate::values::agreed;
use dp_base::Seq;
use dp_model::{Effect, FaultKind, Ground, Model, Transition};
use dypdl_ground::ground_all;
use eval_room::set_count;
use packed_eval::{Scratch, packed_cond, packed_num, packed_set};
use packed_words::words_for;
use state_layout::{Layout, Packed};
use std::alloc::{AllocError, Global};

/// How many transitions a model may have.
const MOST_TRANSITIONS: usize = 1024;

/// A model's target in words, and what the calls keep beside the model.
#[derive(Drop)]
struct Desk {
    layout: Layout,
    state: Packed,
    scratch: Scratch,
}

impl Desk {
    fn of(alloc: Global, model: &Model) -> Result<Desk, AllocError>
        ensures layout { IfOk result (λ desk. IsLayoutOf model.now desk.layout) }
        ensures state { IfOk result (λ desk. IsPackedFor desk.layout desk.state) }
        ensures scratch { IfOk result (λ desk. IsScratchOf model.now desk.scratch) }
    {
        let layout = Layout::of(alloc, model)?;
        let state = layout.pack(alloc, model.target())?;
        let scratch = Scratch::of(alloc, model)?;
        Ok(Desk {
            layout,
            state,
            scratch,
        })
    }
}

/// Whether there is a value for each parameter of a transition.
fn are_given(args: &Seq<u32>, step: &Transition) -> bool
    ensures all { result ≡ true → length args.now ≡ length step.now.params }
    ensures few { result ≡ true → length args.now ≤ 4 }
{
    args.list().len() == step.params.list().len() && args.list().len() <= 4
}

/// What stands where a transition has other parameters than those with values.
fn other_parameters(alloc: Global) -> Result<String, AllocError> {
    String::from_str(alloc, "other parameters")
}

/// A number, or the name of a fault.
fn number_text(alloc: Global, told: Result<i64, FaultKind>) -> Result<String, AllocError> {
    match told {
        Ok(n) => n.to_string(alloc),
        Err(kind) => String::from_str(alloc, fault_name(kind)),
    }
}

/// Whether a condition holds, or the name of a fault.
fn condition_text(alloc: Global, told: Result<bool, FaultKind>) -> Result<String, AllocError> {
    match told {
        Ok(held) => String::from_str(alloc, if held { "true" } else { "false" }),
        Err(kind) => String::from_str(alloc, fault_name(kind)),
    }
}

/// The members of a set, or the name of a fault.
fn set_text(
    alloc: Global,
    told: Result<(), FaultKind>,
    count: u32,
    words: &[u64],
) -> Result<String, AllocError> {
    match told {
        Ok(()) => members_in(alloc, count, words),
        Err(kind) => String::from_str(alloc, fault_name(kind)),
    }
}

/// What a precondition of a transition gives with these values of its parameters, if there is one at this place.
pub(crate) fn precondition(
    alloc: Global,
    model: &Model,
    args: &Seq<u32>,
    transition: usize,
    place: usize,
) -> Result<Option<String>, AllocError> {
    let Some(step) = model.transitions().list().get(transition) else {
        return Ok(None);
    };
    let Some(e) = step.preconditions.list().get(place) else {
        return Ok(None);
    };
    if !are_given(args, step) {
        return Ok(Some(other_parameters(alloc)?));
    }
    let mut desk = Desk::of(alloc, model)?;
    let told = packed_cond(model, &desk.layout, e, args, &desk.state, &mut desk.scratch);
    let plain = plain::condition(alloc, model, args, e)?;
    Ok(Some(agreed(alloc, plain, condition_text(alloc, told)?)?))
}

/// What an effect of a transition gives with these values of its parameters, if there is one at this place.
pub(crate) fn effect(
    alloc: Global,
    model: &Model,
    args: &Seq<u32>,
    transition: usize,
    place: usize,
) -> Result<Option<String>, AllocError> {
    let Some(step) = model.transitions().list().get(transition) else {
        return Ok(None);
    };
    let Some(effect) = step.effects.list().get(place) else {
        return Ok(None);
    };
    if !are_given(args, step) {
        return Ok(Some(other_parameters(alloc)?));
    }
    let mut desk = Desk::of(alloc, model)?;
    match effect {
        Effect::Number(_, e) => {
            let told = packed_num(model, &desk.layout, e, args, &desk.state, &mut desk.scratch);
            let plain = plain::number(alloc, model, args, e)?;
            Ok(Some(agreed(alloc, plain, number_text(alloc, told)?)?))
        }
        Effect::Members(_, e) => {
            let count = set_count(model, e);
            let mut set = words(alloc, words_for(count))?;
            let told = packed_set(
                model,
                &desk.layout,
                e,
                args,
                &desk.state,
                &mut desk.scratch,
                set.as_mut_slice(),
            );
            let plain = plain::members(alloc, model, args, e)?;
            Ok(Some(agreed(alloc, plain, set_text(alloc, told, count, &set)?)?))
        }
    }
}

/// Writes a ground transition behind a text: its number, and its values.
fn push_ground(alloc: Global, text: &mut String, ground: &Ground) -> Result<(), AllocError> {
    text.push(' ')?;
    text.push_str(ground.transition.to_string(alloc)?.as_str())?;
    text.push('(')?;
    for (i, value) in ground.args.list().iter().enumerate() {
        if i > 0 {
            text.push(',')?;
        }
        text.push_str(value.to_string(alloc)?.as_str())?;
    }
    text.push(')')?;
    Ok(())
}

/// The ground transitions of all transitions of a model, in order.
pub(crate) fn grounds_text(alloc: Global, model: &Model) -> Result<String, AllocError> {
    let mut text = String::from_str(alloc, "ground")?;
    if model.transitions().list().len() > MOST_TRANSITIONS {
        return Ok(text);
    }
    match ground_all(
        alloc,
        model.objects(),
        model.variables(),
        model.transitions(),
    ) {
        Ok(grounds) => {
            for ground in grounds.list() {
                push_ground(alloc, &mut text, ground)?;
            }
        }
        Err(_) => text.push_str(" none")?,
    }
    Ok(text)
}

/// The words of the signature of a model's target.
pub(crate) fn signature_text(alloc: Global, model: &Model) -> Result<String, AllocError> {
    let desk = Desk::of(alloc, model)?;
    let mut text = String::from_str(alloc, "signature")?;
    for word in desk.layout.signature(alloc, &desk.state)?.list() {
        text.push(' ')?;
        text.push_str(word.to_string(alloc)?.as_str())?;
    }
    Ok(text)
}
