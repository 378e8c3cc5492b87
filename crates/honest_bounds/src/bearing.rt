//! Steps of a mode whose weights bear what a bound says.

ghost use Rattle.std.specs.Prelude.{◌≡◌, true, ℕ, ℤ, Option, Some, slice_get, IfOk, IsTrue};
ghost use Rattle.dp_model.specs.declared.parts.BaseCase.{BaseCase};
ghost use Rattle.dp_model.specs.declared.parts.PlainState.{PlainState};
ghost use Rattle.poly_terms.specs.Fits.{Fits};
ghost use Rattle.poly_eval.specs.Shows.{Shows};
ghost use Rattle.honest_states.specs.Modes.{in_some};
ghost use Rattle.honest_steps.specs.Moves.{StepsFrom};
ghost use Rattle.honest_bounds.specs.Steps.{Bears, EndsBy, IsKept, StaysIn};

use crate::sums::{joined, never_better};
use dp_model::{BaseCase, Model, Num};
use honest_states::{Known, Mode, Narrowed, are_within, is_closed};
use honest_steps::{Move, View, inner, moved, where_all_hold};
use poly_eval::{Symbol, number};
use poly_terms::{Atom, Term};
use std::alloc::{AllocError, Global};

/// Whether the weight of each step of a mode, joined onto an expression where it leads, is never better than another expression
/// before it. `false` says that this is not shown.
fn bears(
    alloc: Global,
    model: &Model,
    mode: &Mode,
    ground: u32,
    e: &Num,
    other: &Num,
) -> Result<bool, AllocError>
    ensures { IfOk result (λ shown. IsTrue shown → Bears model.now mode.now ground e.now other.now) }
{
    let Some(
        Move {
            mut table,
            free,
            before,
            after,
            weight,
        },
    ) = moved(alloc, model, mode, ground)?
    else {
        return Ok(false);
    };
    let Some(bound) = number(alloc, model, &mut table, &before, &[], e)? else {
        return Ok(false);
    };
    let Some(cost) = number(alloc, model, &mut table, &after, &[], other)? else {
        return Ok(false);
    };
    let Some(total) = joined(alloc, model, &mut table, &weight, &cost)? else {
        return Ok(false);
    };
    if !is_closed(&table, free, &before) {
        return Ok(false);
    }
    never_better(alloc, model, &table, &total, &bound)
}

/// Whether the steps of a mode to where a base case holds bear its cost.
fn ends_by(
    alloc: Global,
    model: &Model,
    mode: &Mode,
    ground: u32,
    e: &Num,
    case: &BaseCase,
) -> Result<bool, AllocError>
    ensures { IfOk result (λ shown. IsTrue shown → EndsBy model.now mode.now ground e.now case.now) }
{
    let conditions = case.conditions().list();
    match where_all_hold(alloc, model, mode, View::After(ground), &[], conditions)? {
        Narrowed::Never => Ok(true),
        Narrowed::To(inside) => bears(alloc, model, &inside, ground, e, case.cost()),
    }
}

/// Whether those to where any base case holds do.
fn ends_by_all(
    alloc: Global,
    model: &Model,
    mode: &Mode,
    ground: u32,
    e: &Num,
) -> Result<bool, AllocError>
    ensures { IfOk result (λ shown. IsTrue shown → (i : ℕ) (b : BaseCase) → slice_get model.now.base_cases i ≡ Some b → EndsBy model.now mode.now ground e.now b) }
{
    for case in model.base_cases().list() {
        if !ends_by(alloc, model, mode, ground, e, case)? {
            return Ok(false);
        }
    }
    Ok(true)
}

/// The same, where the state after the step meets the constraints.
fn ends(alloc: Global, model: &Model, mode: &Mode, ground: u32, e: &Num) -> Result<bool, AllocError>
    ensures { IfOk result (λ shown. IsTrue shown → (i : ℕ) (b : BaseCase) → slice_get model.now.base_cases i ≡ Some b → EndsBy model.now mode.now ground e.now b) }
{
    let constraints = model.constraints().list();
    match where_all_hold(alloc, model, mode, View::After(ground), &[], constraints)? {
        Narrowed::Never => Ok(true),
        Narrowed::To(allowed) => ends_by_all(alloc, model, &allowed, ground, e),
    }
}

/// Whether the steps of a mode do not undercut an expression, where they end and where they go on.
pub fn is_kept(
    alloc: Global,
    model: &Model,
    mode: &Mode,
    ground: u32,
    e: &Num,
) -> Result<bool, AllocError>
    ensures { IfOk result (λ shown. IsTrue shown → IsKept model.now mode.now ground e.now) }
{
    if !ends(alloc, model, mode, ground, e)? {
        return Ok(false);
    }
    match inner(alloc, model, mode, View::After(ground))? {
        Narrowed::Never => Ok(true),
        Narrowed::To(inside) => bears(alloc, model, &inside, ground, e, e),
    }
}

/// The number that a sum is, if it has no atoms.
fn only_number(sum: &[Term]) -> Option<i64> {
    match sum {
        [] => Some(0),
        [term] if term.atoms.list().is_empty() => Some(term.coefficient),
        _ => None,
    }
}

/// Whether a symbol is a number that a mode does not have there.
fn is_outside(symbol: &Symbol, known: &Known) -> bool {
    match (symbol, known) {
        (Symbol::Number(sum), Known::Number(span)) => match only_number(sum.list()) {
            Some(n) => {
                span.low.is_some_and(|low| n < low) || span.high.is_some_and(|high| high < n)
            }
            None => false,
        },
        _ => false,
    }
}

/// Whether some symbol is a number that a mode does not have there: such a mode need not be tried.
fn may_not_be(symbols: &[Symbol], mode: &Mode) -> bool {
    for (place, known) in mode.known.list().iter().enumerate() {
        if let Some(symbol) = symbols.get(place)
            && is_outside(symbol, known)
        {
            return true;
        }
    }
    false
}

/// Whether symbols always show a state in one of these modes.
fn are_in_some(
    alloc: Global,
    table: &[Atom],
    symbols: &[Symbol],
    modes: &[Mode],
) -> Result<bool, AllocError>
    ensures { IfOk result (λ shown. IsTrue shown → (v : ℕ → ℤ) (s : PlainState) → Fits table.now v → Shows v symbols.now s → in_some modes.now s ≡ true) }
{
    for mode in modes {
        if !may_not_be(symbols, mode) && are_within(alloc, table, symbols, mode)? {
            return Ok(true);
        }
    }
    Ok(false)
}

/// Whether each step of a mode leads to one of the modes.
fn leads_into(
    alloc: Global,
    model: &Model,
    modes: &[Mode],
    mode: &Mode,
    ground: u32,
) -> Result<bool, AllocError>
    ensures { IfOk result (λ shown. IsTrue shown → (s : PlainState) (weight : Option ℤ) (next : PlainState) → StepsFrom model.now mode.now ground s weight next → in_some modes.now next ≡ true) }
{
    let Some(
        Move {
            table,
            free,
            before,
            after,
            weight: _,
        },
    ) = moved(alloc, model, mode, ground)?
    else {
        return Ok(false);
    };
    if !is_closed(&table, free, &before) {
        return Ok(false);
    }
    are_in_some(alloc, &table, &after, modes)
}

/// Whether each step of a mode to an inner state leads to one of the modes.
pub fn stays_in(
    alloc: Global,
    model: &Model,
    modes: &[Mode],
    mode: &Mode,
    ground: u32,
) -> Result<bool, AllocError>
    ensures { IfOk result (λ shown. IsTrue shown → StaysIn model.now modes.now mode.now ground) }
{
    match inner(alloc, model, mode, View::After(ground))? {
        Narrowed::Never => Ok(true),
        Narrowed::To(inside) => leads_into(alloc, model, modes, &inside, ground),
    }
}
