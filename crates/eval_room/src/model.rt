//! The room that all expressions of a model need.

ghost use Rattle.std.specs.Prelude.{◌≡◌, IfSome, length};
ghost use Rattle.dp_model.specs.declared.parts.Effect.TheVariants as effects;
ghost use Rattle.eval_room.specs.Fits.{num_fits, cond_fits};
ghost use Rattle.eval_room.specs.Needs.{Serves, AllServe, ServesTransition, ServesBaseCase, AllServeTransition, AllServeBaseCase, ServesModel, effect_fits, weight_fits};

use crate::needs::{cond_need, num_need, operand_need};
use crate::objects::{is_number, is_set, set_object, variable_object};
use dp_base::Seq;
use dp_model::{BaseCase, Cond, Effect, Model, Num, SetEx, Transition};

/// How many words each expression of a model can be evaluated in; none where no word holds the number. It takes no memory.
pub fn room_for(model: &Model) -> Option<usize>
    ensures { IfSome result (ServesModel model.now) }
{
    let transitions = transitions_need(model, &model.transitions)?;
    let constraints = conds_need(model, &model.constraints, 0)?;
    let base_cases = base_cases_need(model, &model.base_cases)?;
    let bounds = nums_need(model, &model.bounds, 0)?;
    Some(transitions.max(constraints.max(base_cases.max(bounds))))
}

fn conds_need(model: &Model, conditions: &Seq<Cond>, given: usize) -> Option<usize>
    ensures { IfSome result (AllServe (λ c. cond_fits model.now c given) conditions.now) }
{
    let mut most = 0;
    for c in conditions.list() {
        let need = cond_need(model, c, given)?;
        most = need.max(most);
    }
    Some(most)
}

fn nums_need(model: &Model, numbers: &Seq<Num>, given: usize) -> Option<usize>
    ensures { IfSome result (AllServe (λ n. num_fits model.now n given) numbers.now) }
{
    let mut most = 0;
    for n in numbers.list() {
        let need = num_need(model, n, given)?;
        most = need.max(most);
    }
    Some(most)
}

fn effects_need(model: &Model, effects: &Seq<Effect>, given: usize) -> Option<usize>
    ensures { IfSome result (AllServe (effect_fits model.now given) effects.now) }
{
    let mut most = 0;
    for e in effects.list() {
        let need = effect_need(model, e, given)?;
        most = need.max(most);
    }
    Some(most)
}

fn effect_need(model: &Model, e: &Effect, given: usize) -> Option<usize>
    ensures { IfSome result (Serves (effect_fits model.now given e.now)) }
{
    match e {
        Effect::Number(v, n) => number_need(model, *v, n, given),
        Effect::Members(v, set) => members_need(model, *v, set, given),
    }
}

fn number_need(model: &Model, v: u32, n: &Num, given: usize) -> Option<usize>
    ensures { IfSome result (Serves (effect_fits model.now given (effects.Number v n.now))) }
{
    let need = num_need(model, n, given)?;
    if is_number(model, v) {
        Some(need)
    } else {
        None
    }
}

#[tactic(auto, using(crate::proofs::Lists::members_serve))]
fn members_need(model: &Model, v: u32, set: &SetEx, given: usize) -> Option<usize>
    ensures { IfSome result (Serves (effect_fits model.now given (effects.Members v set.now))) }
{
    let need = operand_need(model, set, given)?;
    if is_set(model, v) && variable_object(model, v) == set_object(model, set) {
        Some(need)
    } else {
        None
    }
}

fn weight_need(model: &Model, weight: &Option<Num>, given: usize) -> Option<usize>
    ensures { IfSome result (Serves (weight_fits model.now given weight.now)) }
{
    match weight {
        Some(n) => num_need(model, n, given),
        None => Some(0),
    }
}

/// How many parameters a transition has.
fn parameters(t: &Transition) -> usize
    ensures { result ≡ length t.now.params }
{
    t.params.list().len()
}

/// The room that the expressions of a transition need, with its parameters in force.
fn transition_need(model: &Model, t: &Transition) -> Option<usize>
    ensures { IfSome result (ServesTransition model.now t.now) }
{
    let given = parameters(t);
    let preconditions = conds_need(model, &t.preconditions, given)?;
    let effects = effects_need(model, &t.effects, given)?;
    let weight = weight_need(model, &t.weight, given)?;
    Some(preconditions.max(effects.max(weight)))
}

fn transitions_need(model: &Model, transitions: &Seq<Transition>) -> Option<usize>
    ensures { IfSome result (AllServeTransition model.now transitions.now) }
{
    let mut most = 0;
    for t in transitions.list() {
        let need = transition_need(model, t)?;
        most = need.max(most);
    }
    Some(most)
}

fn base_case_need(model: &Model, b: &BaseCase) -> Option<usize>
    ensures { IfSome result (ServesBaseCase model.now b.now) }
{
    let conditions = conds_need(model, &b.conditions, 0)?;
    let cost = num_need(model, &b.cost, 0)?;
    Some(conditions.max(cost))
}

fn base_cases_need(model: &Model, base_cases: &Seq<BaseCase>) -> Option<usize>
    ensures { IfSome result (AllServeBaseCase model.now base_cases.now) }
{
    let mut most = 0;
    for b in base_cases.list() {
        let need = base_case_need(model, b)?;
        most = need.max(most);
    }
    Some(most)
}
