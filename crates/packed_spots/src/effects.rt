//! What the effects of a transition make of a state: all are computed in the old state, and take place together.

ghost use Rattle.std.specs.Prelude.{◌≡◌, ◌≤◌, Some, true, Ok, length, IsTrue, IfOk, OnOk};
ghost use Rattle.dp_model.specs.StepTexts.{ground_of};
ghost use Rattle.dp_model.specs.Evaluation.{kind_of};
ghost use Rattle.dp_model.specs.declared.parts.Effect.TheVariants as effects;
ghost use Rattle.dp_steps.specs.States.{effect_value, stored};
ghost use Rattle.state_layout.specs.Conditions.{IsLayoutOf, IsPackedOf};
ghost use Rattle.state_layout.specs.Packing.{state_in};
ghost use Rattle.eval_room.specs.Needs.{ServesModel, AllServe, effect_fits};
ghost use Rattle.packed_words.specs.Operands.{Tells};
ghost use Rattle.packed_spots.specs.Changes.{TellsAt, changed_by, all_changed_by};
ghost use Rattle.spot_eval.specs.Answers.{Answers, at_spot};
ghost use Rattle.spot_eval.specs.Moves.{effects_at, next_at};

use dp_model::{Effect, FaultKind, Model, Num, Seq, SetEx, Spot, Transition, VarKind};
use eval_room::set_count;
use packed_eval::{number, operand_word, set_into};
use packed_words::{Scene, set_slot, words_for};
use spot_eval::{SpotEnd, SpotFault};
use state_layout::{Draft, Layout, Packed};
use std::alloc::Global;

/// The kind of a variable.
#[inline(always)]
fn kind_of(model: &Model, variable: u32) -> VarKind
    ensures { result ≡ kind_of model.now variable }
{
    match model.variables().list().get(variable as usize) {
        Some(known) => known.kind(),
        None => VarKind::Integer,
    }
}

/// A number as the new value of a variable: an element variable holds 0 to 2^32 - 1.
#[inline(always)]
fn stored(kind: VarKind, n: i64) -> Result<i64, FaultKind>
    ensures { result ≡ stored kind n }
{
    match kind {
        VarKind::Element(_) if n < 0 => Err(FaultKind::Negative),
        VarKind::Element(_) if n > i64::from(u32::MAX) => Err(FaultKind::Range),
        _ => Ok(n),
    }
}

/// Sets a variable to a number.
#[tactic(auto, using(crate::proofs::Slots::number_inside, crate::proofs::Slots::number_slot))]
#[inline(always)]
fn set_number(
    at: &Scene<'_>,
    v: u32,
    e: &Num,
    draft: &mut Draft<'_>,
    stack: &mut [u64],
) -> Result<(), FaultKind>
    requires slots { draft.old.slots ≡ at.now.slots.now }
    requires fits { IsTrue (effect_fits at.now.model.now (length at.now.args.now) (effects.Number v e.now) (length stack.old)) }
    ensures { Tells (λ _. draft.new) result (changed_by draft.old (effect_value at.now.model.now (state_in at.now.words.now) at.now.args.now (effects.Number v e.now))) }
{
    let n = number(at, e, stack)?;
    let held = stored(kind_of(at.model, v), n)?;
    draft.set_number(v as usize, held);
    Ok(())
}

/// Sets a variable to a set. One that has a word is set as it is.
#[inline(always)]
#[tactic(auto, using(crate::proofs::Slots::set_within, crate::proofs::Slots::set_slot))]
fn set_members(
    at: &Scene<'_>,
    v: u32,
    e: &SetEx,
    draft: &mut Draft<'_>,
    stack: &mut [u64],
) -> Result<(), FaultKind>
    requires slots { draft.old.slots ≡ at.now.slots.now }
    requires fits { IsTrue (effect_fits at.now.model.now (length at.now.args.now) (effects.Members v e.now) (length stack.old)) }
    ensures { Tells (λ _. draft.new) result (changed_by draft.old (effect_value at.now.model.now (state_in at.now.words.now) at.now.args.now (effects.Members v e.now))) }
{
    let count = set_slot(at, v).count;
    if 1 <= count && count <= 64 {
        let word = operand_word(at, e, count, stack)?;
        draft.set_word(v as usize, word);
        Ok(())
    } else {
        set_wide(at, v, e, draft, stack)
    }
}

/// Sets a variable to a set of several words, which is written to the front of the stack before.
#[inline(never)]
#[tactic(auto, using(crate::proofs::Slots::set_within, crate::proofs::Slots::set_slot))]
fn set_wide(
    at: &Scene<'_>,
    v: u32,
    e: &SetEx,
    draft: &mut Draft<'_>,
    stack: &mut [u64],
) -> Result<(), FaultKind>
    requires slots { draft.old.slots ≡ at.now.slots.now }
    requires fits { IsTrue (effect_fits at.now.model.now (length at.now.args.now) (effects.Members v e.now) (length stack.old)) }
    ensures { Tells (λ _. draft.new) result (changed_by draft.old (effect_value at.now.model.now (state_in at.now.words.now) at.now.args.now (effects.Members v e.now))) }
{
    let count = set_count(at.model, e);
    let (mine, rest) = stack.split_at_mut(words_for(count));
    set_into(at, e, count, mine, rest)?;
    draft.set_members(v as usize, mine);
    Ok(())
}

/// Sets what an effect sets, to what it is in the state at hand.
#[inline(always)]
fn set_variable(
    at: &Scene<'_>,
    effect: &Effect,
    draft: &mut Draft<'_>,
    stack: &mut [u64],
) -> Result<(), FaultKind>
    requires slots { draft.old.slots ≡ at.now.slots.now }
    requires fits { IsTrue (effect_fits at.now.model.now (length at.now.args.now) effect.now (length stack.old)) }
    ensures { Tells (λ _. draft.new) result (changed_by draft.old (effect_value at.now.model.now (state_in at.now.words.now) at.now.args.now effect.now)) }
{
    match effect {
        Effect::Number(v, e) => set_number(at, *v, e, draft, stack),
        Effect::Members(v, e) => set_members(at, *v, e, draft, stack),
    }
}

/// Sets what all effects set, in order. All are computed in the state at hand.
#[inline(always)]
fn set_variables(
    at: &Scene<'_>,
    number: u32,
    effects: &Seq<Effect>,
    draft: &mut Draft<'_>,
    stack: &mut [u64],
) -> Result<(), SpotFault>
    requires few { length effects.now ≤ 65536 }
    requires slots { draft.old.slots ≡ at.now.slots.now }
    requires fits { AllServe (effect_fits at.now.model.now (length at.now.args.now)) effects.now (length stack.old) }
    ensures { TellsAt (λ _. draft.new) result (all_changed_by draft.old (effects_at at.now.model.now (state_in at.now.words.now) number at.now.args.now 0 effects.now)) }
{
    for (place, effect) in effects.list().iter().enumerate() {
        if let Err(kind) = set_variable(at, effect, draft, stack) {
            return Err(SpotFault {
                spot: Spot::Effect(number, place as u32),
                kind,
            });
        }
    }
    Ok(())
}

/// Sets what the effects of a ground transition set, in a copy of the state at hand: it becomes the state that the transition
/// leads to, which is a state of the model again. After a fault some of the variables may be set.
#[tactic(auto, using(spot_eval::proofs::Limits::few_effects, crate::proofs::Rooms::effects_room))]
#[inline(always)]
pub fn set_effects(
    at: &Scene<'_>,
    number: u32,
    transition: &Transition,
    draft: &mut Draft<'_>,
    stack: &mut [u64],
) -> Result<(), SpotFault>
    requires step { ground_of at.now.model.now number ≡ Some (transition.now, at.now.args.now) }
    requires slots { draft.old.slots ≡ at.now.slots.now }
    requires copy { draft.old.state ≡ state_in at.now.words.now }
    requires packed { IsPackedOf at.now.model.now (state_in at.now.words.now) }
    requires room { ServesModel at.now.model.now (length stack.old) }
    ensures next { TellsAt (λ _. draft.new.state) result (next_at at.now.model.now (state_in at.now.words.now) number (transition.now, at.now.args.now)) }
    ensures packed { OnOk result (IsPackedOf at.now.model.now draft.new.state) }
{
    set_variables(at, number, &transition.effects, draft, stack)?;
    Ok(())
}

/// The state that a ground transition leads to. It is a state of the model again.
pub fn next_state(
    alloc: Global,
    layout: &Layout,
    at: &Scene<'_>,
    p: &Packed,
    number: u32,
    transition: &Transition,
    stack: &mut [u64],
) -> Result<Packed, SpotEnd>
    requires step { ground_of at.now.model.now number ≡ Some (transition.now, at.now.args.now) }
    requires layout { layout.now ≡ at.now.slots.now }
    requires state { p.now ≡ state_in at.now.words.now }
    requires packed { IsPackedOf at.now.model.now p.now }
    requires room { ServesModel at.now.model.now (length stack.old) }
    ensures next { Answers result (next_at at.now.model.now p.now number (transition.now, at.now.args.now)) }
    ensures packed { IfOk result (λ next. IsPackedOf at.now.model.now next) }
{
    let mut draft = layout.draft(alloc, p)?;
    set_effects(at, number, transition, &mut draft, stack)?;
    Ok(draft.done())
}
