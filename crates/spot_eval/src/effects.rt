//! What the effects of a transition make of a state: all are computed in the old state, and take place together.

ghost use Rattle.std.specs.Prelude.{◌≡◌, ◌≤◌, Some, length, IfOk};
ghost use Rattle.dp_model.specs.Evaluation.{kind_of};
ghost use Rattle.dp_model.specs.StepTexts.{ground_of};
ghost use Rattle.dp_steps.specs.States.{effect_value, stored};
ghost use Rattle.dp_eval.specs.Answers.{Answers as Evaluates};
ghost use Rattle.spot_eval.specs.Answers.{Answers, AnswersBy, at_spot};
ghost use Rattle.spot_eval.specs.Moves.{effects_at, next_at};
ghost use Rattle.spot_eval.specs.Ranges.{IsStateIn};

use crate::changes::changed_values;
use crate::ends::{SpotEnd, SpotFault};
use dp_eval::{EvalEnd, eval_num, eval_set};
use dp_model::{Effect, FaultKind, Model, PlainState, PlainValue, Seq, Spot, Transition, VarKind};
use std::alloc::Global;

/// The kind of a variable.
fn kind_of(model: &Model, variable: u32) -> VarKind
    ensures { result ≡ kind_of model.now variable }
{
    match model.variables().list().get(variable as usize) {
        Some(known) => known.kind(),
        None => VarKind::Integer,
    }
}

/// A number as the new value of a variable: an element variable holds 0 to 2^32 - 1.
fn stored(kind: VarKind, n: i64) -> Result<i64, FaultKind>
    ensures { result ≡ stored kind n }
{
    match kind {
        VarKind::Element(_) if n < 0 => Err(FaultKind::Negative),
        VarKind::Element(_) if n > i64::from(u32::MAX) => Err(FaultKind::Range),
        _ => Ok(n),
    }
}

/// The variable that an effect sets, and its new value.
fn effect_value(
    alloc: Global,
    model: &Model,
    effect: &Effect,
    args: &Seq<u32>,
    s: &PlainState,
) -> Result<(u32, PlainValue), EvalEnd>
    ensures { Evaluates result (effect_value model.now s.now args.now effect.now) }
{
    match effect {
        Effect::Number(v, e) => {
            let n = eval_num(alloc, model, e, args, s)?;
            let held = stored(kind_of(model, *v), n)?;
            Ok((*v, PlainValue::Number(held)))
        }
        Effect::Members(v, e) => {
            let members = eval_set(alloc, model, e, args, s)?;
            Ok((*v, PlainValue::Members(members)))
        }
    }
}

/// The same, where a fault is told with the spot of the effect.
fn change_at(
    alloc: Global,
    model: &Model,
    spot: Spot,
    effect: &Effect,
    args: &Seq<u32>,
    s: &PlainState,
) -> Result<(u32, PlainValue), SpotEnd>
    ensures { Answers result (at_spot spot (effect_value model.now s.now args.now effect.now)) }
{
    match effect_value(alloc, model, effect, args, s) {
        Ok(change) => Ok(change),
        Err(EvalEnd::Fault(kind)) => Err(SpotEnd::Fault(SpotFault { spot, kind })),
        Err(EvalEnd::Memory) => Err(SpotEnd::Memory),
    }
}

/// What the effects of a ground transition set, in order. All are computed in the state as it is.
pub fn effects_at(
    alloc: Global,
    model: &Model,
    number: u32,
    effects: &[Effect],
    args: &Seq<u32>,
    s: &PlainState,
) -> Result<Vec<(u32, PlainValue)>, SpotEnd>
    requires { length effects.now ≤ 65536 }
    ensures { AnswersBy (λ changes. changes.items) result (effects_at model.now s.now number args.now 0 effects.now) }
{
    let mut changes = Vec::new(alloc);
    for (place, effect) in effects.iter().enumerate() {
        let spot = Spot::Effect(number, place as u32);
        changes.push(change_at(alloc, model, spot, effect, args, s)?)?;
    }
    Ok(changes)
}

/// The state that a ground transition leads to. It is a state of the model again.
#[tactic(auto, using(crate::proofs::Limits::few_effects, crate::proofs::Next::next_fits))]
pub fn next_state(
    alloc: Global,
    model: &Model,
    number: u32,
    transition: &Transition,
    args: &Seq<u32>,
    s: &PlainState,
) -> Result<PlainState, SpotEnd>
    requires { ground_of model.now number ≡ Some (transition.now, args.now) }
    ensures next { Answers result (next_at model.now s.now number (transition.now, args.now)) }
    ensures state { IsStateIn model.now s.now → IfOk result (λ next. IsStateIn model.now next) }
{
    let changes = effects_at(alloc, model, number, transition.effects().list(), args, s)?;
    let values = changed_values(alloc, s, changes)?;
    Ok(PlainState {
        values: Seq::of(values),
    })
}
