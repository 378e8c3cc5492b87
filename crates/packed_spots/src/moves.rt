//! Which transitions are enabled in a state.

ghost use Rattle.std.specs.Prelude.{◌≡◌, ◌≤◌, ◌<◌, ◌^◌, ℕ, Some, true, length, filter, slice_index, take};
ghost use Rattle.std.specs.List.{list_all};
ghost use Rattle.dp_model.specs.StepTexts.{ground_of};
ghost use Rattle.dp_model.specs.Typing.{is_set_kind, kind_at, over_typed};
ghost use Rattle.dp_steps.specs.States.{are_members};
ghost use Rattle.state_layout.specs.Packing.{state_in};
ghost use Rattle.packed_words.specs.Scenes.{AreSmall};
ghost use Rattle.packed_spots.specs.Firsts.{first_holds};
ghost use Rattle.packed_spots.specs.Values.{in_four};
ghost use Rattle.eval_room.specs.Needs.{ServesModel};
ghost use Rattle.spot_eval.specs.Moves.{enabled_at, first_enabled, forced_of, goes_before, is_forced, is_member, may_step_at, number_enabled};

use crate::tests::all_at;
use dp_model::{Model, Over, Transition};
use packed_words::{Scene, has_in};
use spot_eval::{SpotFault, Tests};

/// The value at a place, or 0 past the last.
#[inline(always)]
fn value_at(args: &[u32], place: usize) -> u64
    ensures value { result ≡ slice_index args.now place }
    ensures small { result < 2 ^ 32 }
{
    match args.get(place) {
        Some(value) => u64::from(*value),
        None => 0,
    }
}

/// The values of parameters, each in a word, and zeros behind them. A transition has no more than four.
#[tactic(auto, using(crate::proofs::Values::four, crate::proofs::Values::four_small))]
#[inline(always)]
pub fn in_words(args: &[u32]) -> [u64; 4]
    requires { length args.now ≤ 4 }
    ensures words { result ≡ in_four args.now }
    ensures values { take (length args.now) result ≡ args.now }
    ensures small { AreSmall result }
{
    [
        value_at(args, 0),
        value_at(args, 1),
        value_at(args, 2),
        value_at(args, 3),
    ]
}

/// Whether the value of a parameter is a member of the set variable that it ranges over, if it ranges over one.
#[inline(always)]
fn is_member(at: &Scene<'_>, over: Over, k: u32) -> bool
    requires { over_typed at.now.model.now.objects at.now.model.now.variables over ≡ true }
    ensures { result ≡ is_member (state_in at.now.words.now) over k }
{
    match over {
        Over::Object(_) => true,
        Over::Members(v) => has_in(at, v, k),
    }
}

/// Whether each value is so.
#[tactic(auto, using(spot_eval::proofs::Members::members_step, spot_eval::proofs::Members::members_past))]
#[inline(always)]
fn are_members(at: &Scene<'_>, params: &[Over]) -> bool
    requires { list_all (over_typed at.now.model.now.objects at.now.model.now.variables) params.now ≡ true }
    ensures { result ≡ are_members (state_in at.now.words.now) params.now at.now.args.now }
{
    for (place, over) in params.iter().enumerate() {
        if place >= at.args.len() {
            return true;
        }
        if !is_member(at, *over, at.args[place] as u32) {
            return false;
        }
    }
    true
}

/// Whether a ground transition is enabled: its memberships are tested, which cannot fault, and then its preconditions.
#[tactic(auto, using(crate::proofs::Rooms::params_typed, crate::proofs::Rooms::preconditions_room, spot_eval::proofs::Limits::few_preconditions))]
#[inline(always)]
pub fn is_enabled(
    at: &Scene<'_>,
    number: u32,
    transition: &Transition,
    stack: &mut [u64],
) -> Result<bool, SpotFault>
    requires step { ground_of at.now.model.now number ≡ Some (transition.now, at.now.args.now) }
    requires room { ServesModel at.now.model.now (length stack.old) }
    ensures { result ≡ enabled_at at.now.model.now (state_in at.now.words.now) number (transition.now, at.now.args.now) }
{
    if !are_members(at, transition.params().list()) {
        return Ok(false);
    }
    all_at(
        at,
        Tests::Preconditions(number),
        &transition.preconditions,
        stack,
    )
}

/// The same, where the first value is so: what has no other parameter is not looked at again.
#[inline(always)]
#[tactic(auto, using(crate::proofs::Firsts::few_members))]
fn other_members(at: &Scene<'_>, params: &[Over]) -> bool
    requires typed { list_all (over_typed at.now.model.now.objects at.now.model.now.variables) params.now ≡ true }
    requires first { first_holds (state_in at.now.words.now) params.now at.now.args.now ≡ true }
    ensures { result ≡ are_members (state_in at.now.words.now) params.now at.now.args.now }
{
    if params.len() <= 1 {
        return true;
    }
    are_members(at, params)
}

/// Whether a ground transition is enabled whose first membership is known to hold, where it has one.
#[inline(always)]
#[tactic(auto, using(crate::proofs::Rooms::params_typed, crate::proofs::Rooms::preconditions_room, spot_eval::proofs::Limits::few_preconditions))]
pub fn is_enabled_past_first(
    at: &Scene<'_>,
    number: u32,
    transition: &Transition,
    stack: &mut [u64],
) -> Result<bool, SpotFault>
    requires step { ground_of at.now.model.now number ≡ Some (transition.now, at.now.args.now) }
    requires first { first_holds (state_in at.now.words.now) transition.now.params at.now.args.now ≡ true }
    requires room { ServesModel at.now.model.now (length stack.old) }
    ensures { result ≡ enabled_at at.now.model.now (state_in at.now.words.now) number (transition.now, at.now.args.now) }
{
    if !other_members(at, transition.params().list()) {
        return Ok(false);
    }
    all_at(
        at,
        Tests::Preconditions(number),
        &transition.preconditions,
        stack,
    )
}

/// Whether the ground transition with this number is enabled: its memberships are tested before its preconditions.
#[tactic(auto, using(crate::proofs::Rooms::few_values, crate::proofs::Values::front_small))]
pub fn number_enabled(at: &Scene<'_>, number: u32, stack: &mut [u64]) -> Result<bool, SpotFault>
    requires { ServesModel at.now.model.now (length stack.old) }
    ensures { result ≡ number_enabled at.now.model.now (state_in at.now.words.now) number }
{
    match at.model.step(number) {
        Some((transition, args)) => {
            let given = in_words(args.list());
            let there = Scene {
                model: at.model,
                tables: at.tables,
                slots: at.slots,
                words: at.words,
                args: &given[..args.list().len()],
            };
            is_enabled(&there, number, transition, stack)
        }
        None => Ok(false),
    }
}

/// The first of these ground transitions that is enabled.
pub fn first_enabled(
    at: &Scene<'_>,
    numbers: &[u32],
    stack: &mut [u64],
) -> Result<Option<u32>, SpotFault>
    requires { ServesModel at.now.model.now (length stack.old) }
    ensures { result ≡ first_enabled at.now.model.now (state_in at.now.words.now) numbers.now }
{
    for number in numbers {
        if number_enabled(at, *number, stack)? {
            return Ok(Some(*number));
        }
    }
    Ok(None)
}

/// Whether the ground transition with this number is forced.
fn is_forced(model: &Model, number: u32) -> bool
    ensures { result ≡ is_forced model.now number }
{
    match model.step(number) {
        Some((transition, _)) => transition.forced(),
        None => false,
    }
}

/// Whether a forced transition is tested before another: before each that is not forced, and before each forced one with
/// a greater number.
fn goes_before(model: &Model, number: u32, forced: u32) -> bool
    ensures { result ≡ goes_before model.now number forced }
{
    forced < number || !is_forced(model, number)
}

/// The first enabled one of the forced transitions that are tested before this one.
fn first_before(
    at: &Scene<'_>,
    number: u32,
    forced: &[u32],
    stack: &mut [u64],
) -> Result<Option<u32>, SpotFault>
    requires { ServesModel at.now.model.now (length stack.old) }
    ensures { result ≡ first_enabled at.now.model.now (state_in at.now.words.now) (filter (goes_before at.now.model.now number) forced.now) }
{
    for before in forced {
        if goes_before(at.model, number, *before) && number_enabled(at, *before, stack)? {
            return Ok(Some(*before));
        }
    }
    Ok(None)
}

/// Whether the ground transition with this number is considered and enabled, where these are the forced ones: no forced
/// one that is tested before it is enabled, and it is.
pub fn may_step(
    at: &Scene<'_>,
    number: u32,
    forced: &[u32],
    stack: &mut [u64],
) -> Result<bool, SpotFault>
    requires forced { forced.now ≡ forced_of at.now.model.now }
    requires room { ServesModel at.now.model.now (length stack.old) }
    ensures { result ≡ may_step_at at.now.model.now (state_in at.now.words.now) number }
{
    match first_before(at, number, forced, stack)? {
        Some(_) => Ok(false),
        None => number_enabled(at, number, stack),
    }
}
