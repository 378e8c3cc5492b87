//! Which states of a mode a ground transition may leave.

ghost use Rattle.std.specs.Prelude.{◌≡◌, ℕ, true, Some, slice_get, IfOk, IsTrue};
ghost use Rattle.spot_eval.specs.Moves.{is_forced};
ghost use Rattle.honest_steps.specs.Moves.{Enters, GoesBefore};

use crate::copies::same_mode;
use crate::inside::{where_may_go, where_may_not_go, whole};
use dp_model::Model;
use honest_states::{Mode, Narrowed};
use std::alloc::{AllocError, Global};

/// How many forced ground transitions are looked at. The others are not used, which only means that less is known.
const MOST_FORCED: usize = 64;

/// Whether a ground transition is forced.
fn is_forced(model: &Model, ground: u32) -> bool
    ensures { result ≡ is_forced model.now ground }
{
    match model.ground().list().get(ground as usize) {
        Some(step) => match model.transitions().list().get(step.transition() as usize) {
            Some(transition) => transition.forced(),
            None => false,
        },
        None => false,
    }
}

/// The numbers of the first forced ground transitions.
pub fn forced_steps(alloc: Global, model: &Model) -> Result<Vec<u32>, AllocError>
    ensures { IfOk result (λ numbers. (k g : ℕ) → slice_get numbers.items k ≡ Some g → is_forced model.now g ≡ true) }
{
    let mut numbers = Vec::new(alloc);
    for place in 0..model.ground().list().len() {
        match u32::try_from(place) {
            Ok(number) if numbers.len() < MOST_FORCED => {
                if is_forced(model, number) {
                    numbers.push(number)?;
                }
            }
            _ => return Ok(numbers),
        }
    }
    Ok(numbers)
}

/// Whether a forced ground transition is tested before another one.
fn goes_before(model: &Model, number: u32, ground: u32) -> bool
    ensures { IsTrue result → GoesBefore model.now number ground }
{
    number < ground || !is_forced(model, ground)
}

/// What is left of a mode where this forced ground transition, which is tested before another one, may not go.
fn without(
    alloc: Global,
    model: &Model,
    mode: &Mode,
    number: u32,
    ground: u32,
) -> Result<Narrowed, AllocError>
    ensures { IfOk result (Enters model.now mode.now ground) }
{
    let Some(step) = model.ground().list().get(number as usize) else {
        return whole(alloc, mode);
    };
    let Some(transition) = model.transitions().list().get(step.transition() as usize) else {
        return whole(alloc, mode);
    };
    if transition.forced() && goes_before(model, number, ground) {
        where_may_not_go(alloc, model, mode, transition, step.args().list())
    } else {
        whole(alloc, mode)
    }
}

/// What is left of a mode where no forced ground transition of these that is tested before another one may go.
fn without_all(
    alloc: Global,
    model: &Model,
    mode: &Mode,
    forced: &[u32],
    ground: u32,
) -> Result<Narrowed, AllocError>
    ensures { IfOk result (Enters model.now mode.now ground) }
{
    let mut left = same_mode(alloc, mode)?;
    for number in forced {
        match without(alloc, model, &left, *number, ground)? {
            Narrowed::Never => return Ok(Narrowed::Never),
            Narrowed::To(narrower) => left = narrower,
        }
    }
    Ok(Narrowed::To(left))
}

/// What is left of a mode where the ground transition makes a step: its memberships and its preconditions hold, and no forced
/// ground transition of these that is tested before it may go. Which numbers are given as `forced` is free: a number
/// of one that is not forced tells nothing.
pub fn entered(
    alloc: Global,
    model: &Model,
    forced: &[u32],
    mode: &Mode,
    ground: u32,
) -> Result<Narrowed, AllocError>
    ensures { IfOk result (Enters model.now mode.now ground) }
{
    let Some(step) = model.ground().list().get(ground as usize) else {
        return whole(alloc, mode);
    };
    let Some(transition) = model.transitions().list().get(step.transition() as usize) else {
        return whole(alloc, mode);
    };
    match where_may_go(alloc, model, mode, transition, step.args().list())? {
        Narrowed::Never => Ok(Narrowed::Never),
        Narrowed::To(left) => without_all(alloc, model, &left, forced, ground),
    }
}
