//! What the effects of a transition make of symbols.

ghost use Rattle.std.specs.Prelude.{◌≡◌, ℕ, ℤ, Some, Option, option_map, IfOk, IfSome, IsTrue, OnOk};
ghost use Rattle.dp_model.specs.Typing.{effect_variable, is_state};
ghost use Rattle.dp_model.specs.declared.trees.Num.{Num};
ghost use Rattle.dp_model.specs.declared.parts.PlainState.{PlainState};
ghost use Rattle.poly_terms.specs.Fits.{Fits};
ghost use Rattle.poly_eval.specs.Shows.{Extends, Shows, ShowsValue};
ghost use Rattle.wide_values.specs.Wide.{wide_num};
ghost use Rattle.wide_steps.specs.Steps.{wide_effect};
ghost use Rattle.honest_steps.specs.Moves.{IsWeighed, ShowsChanged};

use crate::copies::copied_symbols;
use dp_base::Seq;
use dp_model::{Effect, Model, Num};
use poly_eval::{Symbol, members, number};
use poly_terms::{Atom, Term};
use std::alloc::{AllocError, Global};

/// The number of the variable that an effect sets.
fn variable_of(effect: &Effect) -> u32
    ensures { result ≡ effect_variable effect.now }
{
    match effect {
        Effect::Number(variable, _) => *variable,
        Effect::Members(variable, _) => *variable,
    }
}

/// The new value of the variable that an effect sets.
fn value_of(
    alloc: Global,
    model: &Model,
    table: &mut Vec<Atom>,
    before: &[Symbol],
    given: &[u32],
    effect: &Effect,
) -> Result<Option<Symbol>, AllocError>
    ensures value { IfOk result (λ answer. IfSome answer (λ x. (s : PlainState) (v : ℕ → ℤ) → IsTrue (is_state model.now.objects model.now.variables s) → Fits table.new.items v → Shows v before.now s → ShowsValue v x (Some (wide_effect model.now s given.now effect.now).1))) }
    ensures grows { OnOk result (Extends table.old.items table.new.items) }
{
    match effect {
        Effect::Number(_, e) => match number(alloc, model, table, before, given, e)? {
            Some(sum) => Ok(Some(Symbol::Number(Seq::of(sum)))),
            None => Ok(None),
        },
        Effect::Members(_, e) => match members(alloc, model, table, before, given, e)? {
            Some(bits) => Ok(Some(Symbol::Members(Seq::of(bits)))),
            None => Ok(None),
        },
    }
}

/// The symbols after effects, each of which is computed over the symbols before them all.
pub fn symbols_after(
    alloc: Global,
    model: &Model,
    table: &mut Vec<Atom>,
    before: &[Symbol],
    given: &[u32],
    effects: &[Effect],
) -> Result<Option<Vec<Symbol>>, AllocError>
    ensures value { IfOk result (λ answer. IfSome answer (λ after. (s : PlainState) (v : ℕ → ℤ) → IsTrue (is_state model.now.objects model.now.variables s) → Fits table.new.items v → Shows v before.now s → ShowsChanged model.now s given.now effects.now v after.items)) }
    ensures grows { OnOk result (Extends table.old.items table.new.items) }
{
    let mut after = copied_symbols(alloc, before)?;
    for effect in effects {
        let Some(symbol) = value_of(alloc, model, table, before, given, effect)? else {
            return Ok(None);
        };
        let place = variable_of(effect) as usize;
        if place >= after.len() || place >= model.variables().list().len() {
            return Ok(None);
        }
        after[place] = symbol;
    }
    Ok(Some(after))
}

/// What a transition weighs, if it has a weight. `None` says that it is not told.
pub fn weight_of(
    alloc: Global,
    model: &Model,
    table: &mut Vec<Atom>,
    before: &[Symbol],
    given: &[u32],
    weight: &Option<Num>,
) -> Result<Option<Option<Seq<Term>>>, AllocError>
    ensures value { IfOk result (λ answer. IfSome answer (λ told. (s : PlainState) (v : ℕ → ℤ) → IsTrue (is_state model.now.objects model.now.variables s) → Fits table.new.items v → Shows v before.now s → IsWeighed v told (option_map (λ (e : Num). wide_num model.now s e given.now) weight.now))) }
    ensures grows { OnOk result (Extends table.old.items table.new.items) }
{
    match weight {
        None => Ok(Some(None)),
        Some(e) => match number(alloc, model, table, before, given, e)? {
            Some(sum) => Ok(Some(Some(Seq::of(sum)))),
            None => Ok(None),
        },
    }
}
