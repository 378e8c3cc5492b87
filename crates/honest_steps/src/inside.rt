//! What conditions that hold, in a state or where a step leads, leave of a mode.

ghost use Rattle.std.specs.Prelude.{◌≡◌, ℕ, ℤ, true, false, pos, IfOk};
ghost use Rattle.dp_model.specs.declared.parts.PlainState.{PlainState};
ghost use Rattle.dp_steps.specs.States.{are_members};
ghost use Rattle.poly_terms.specs.Worth.{worth};
ghost use Rattle.poly_terms.specs.Fits.{Fits};
ghost use Rattle.poly_eval.specs.Shows.{Shows};
ghost use Rattle.wide_values.specs.Wide.{wide_cond};
ghost use Rattle.wide_steps.specs.Steps.{all_hold, may_go};
ghost use Rattle.honest_states.specs.Modes.{in_mode, in_narrowed};
ghost use Rattle.honest_steps.specs.Views.{Begins, Leaves, LeavesInner, LeavesOpen};

use crate::bits::{all_bit, may_go_bit, members_bit, other_bit};
use crate::copies::same_mode;
use crate::views::{Seen, View, look};
use dp_model::{BaseCase, Cond, Model, Over, Transition};
use honest_states::{Mode, Narrowed, is_closed, narrowed};
use poly_eval::{Symbol, condition};
use poly_terms::{Atom, Term};
use std::alloc::{AllocError, Global};

/// The whole mode.
pub fn whole(alloc: Global, mode: &Mode) -> Result<Narrowed, AllocError>
    ensures { IfOk result (λ left. (s : PlainState) → in_mode mode.now s ≡ true → in_narrowed left s ≡ true) }
{
    Ok(Narrowed::To(same_mode(alloc, mode)?))
}

/// What is left of a mode where a bit is 1.
fn left_by(
    alloc: Global,
    mode: &Mode,
    table: &[Atom],
    free: usize,
    own: &[Symbol],
    bit: &[Term],
) -> Result<Narrowed, AllocError>
    ensures { IfOk result (λ left. (s : PlainState) → Begins mode.now table.now free own.now → in_mode mode.now s ≡ true → ((v : ℕ → ℤ) → Fits table.now v → Shows v own.now s → worth v bit.now ≡ pos 1) → in_narrowed left s ≡ true) }
{
    if is_closed(table, free, own) {
        narrowed(alloc, table, own, mode, bit)
    } else {
        whole(alloc, mode)
    }
}

/// What a condition that holds leaves.
fn where_holds(
    alloc: Global,
    model: &Model,
    mode: &Mode,
    view: View,
    given: &[u32],
    c: &Cond,
) -> Result<Narrowed, AllocError>
    ensures { IfOk result (Leaves model.now view mode.now (λ x. wide_cond model.now x c.now given.now) true) }
{
    let Some(
        Seen {
            mut table,
            free,
            own,
            symbols,
        },
    ) = look(alloc, model, mode, view)?
    else {
        return whole(alloc, mode);
    };
    match condition(alloc, model, &mut table, &symbols, given, c)? {
        Some(bit) => left_by(alloc, mode, &table, free, &own, &bit),
        None => whole(alloc, mode),
    }
}

/// What conditions that all hold leave of a mode.
pub fn where_all_hold(
    alloc: Global,
    model: &Model,
    mode: &Mode,
    view: View,
    given: &[u32],
    conditions: &[Cond],
) -> Result<Narrowed, AllocError>
    ensures { IfOk result (Leaves model.now view mode.now (λ x. all_hold model.now x given.now conditions.now) true) }
{
    let mut left = same_mode(alloc, mode)?;
    for c in conditions {
        match where_holds(alloc, model, &left, view, given, c)? {
            Narrowed::Never => return Ok(Narrowed::Never),
            Narrowed::To(narrower) => left = narrower,
        }
    }
    Ok(Narrowed::To(left))
}

/// What conditions leave of a mode that do not all hold.
fn where_not_all(
    alloc: Global,
    model: &Model,
    mode: &Mode,
    view: View,
    given: &[u32],
    conditions: &[Cond],
) -> Result<Narrowed, AllocError>
    ensures { IfOk result (Leaves model.now view mode.now (λ x. all_hold model.now x given.now conditions.now) false) }
{
    let Some(
        Seen {
            mut table,
            free,
            own,
            symbols,
        },
    ) = look(alloc, model, mode, view)?
    else {
        return whole(alloc, mode);
    };
    let Some(bit) = all_bit(alloc, model, &mut table, &symbols, given, conditions)? else {
        return whole(alloc, mode);
    };
    match other_bit(alloc, &bit)? {
        Some(other) => left_by(alloc, mode, &table, free, &own, &other),
        None => whole(alloc, mode),
    }
}

/// What base cases leave of a mode of which none holds.
fn where_open(
    alloc: Global,
    model: &Model,
    mode: &Mode,
    view: View,
    cases: &[BaseCase],
) -> Result<Narrowed, AllocError>
    ensures { IfOk result (LeavesOpen model.now view mode.now cases.now) }
{
    let mut left = same_mode(alloc, mode)?;
    for case in cases {
        match where_not_all(alloc, model, &left, view, &[], case.conditions().list())? {
            Narrowed::Never => return Ok(Narrowed::Never),
            Narrowed::To(narrower) => left = narrower,
        }
    }
    Ok(Narrowed::To(left))
}

/// What is left of a mode where the state that is looked at is inner: the constraints all hold, and no base case does.
pub fn inner(alloc: Global, model: &Model, mode: &Mode, view: View) -> Result<Narrowed, AllocError>
    ensures { IfOk result (LeavesInner model.now view mode.now) }
{
    let constraints = model.constraints().list();
    match where_all_hold(alloc, model, mode, view, &[], constraints)? {
        Narrowed::Never => Ok(Narrowed::Never),
        Narrowed::To(allowed) => where_open(
            alloc,
            model,
            &allowed,
            view,
            model.base_cases().list(),
        ),
    }
}

/// What is left of a mode where the memberships of parameters hold.
fn where_members(
    alloc: Global,
    model: &Model,
    mode: &Mode,
    params: &[Over],
    args: &[u32],
) -> Result<Narrowed, AllocError>
    ensures { IfOk result (Leaves model.now View.Here mode.now (λ x. are_members x params.now args.now) true) }
{
    let Some(
        Seen {
            table,
            free,
            own,
            symbols,
        },
    ) = look(alloc, model, mode, View::Here)?
    else {
        return whole(alloc, mode);
    };
    match members_bit(alloc, &table, &symbols, params, args)? {
        Some(bit) => left_by(alloc, mode, &table, free, &own, &bit),
        None => whole(alloc, mode),
    }
}

/// What is left of a mode where a ground transition may go.
pub fn where_may_go(
    alloc: Global,
    model: &Model,
    mode: &Mode,
    transition: &Transition,
    args: &[u32],
) -> Result<Narrowed, AllocError>
    ensures { IfOk result (Leaves model.now View.Here mode.now (λ x. may_go model.now x (transition.now, args.now)) true) }
{
    match where_members(alloc, model, mode, transition.params().list(), args)? {
        Narrowed::Never => Ok(Narrowed::Never),
        Narrowed::To(left) => {
            let preconditions = transition.preconditions().list();
            where_all_hold(alloc, model, &left, View::Here, args, preconditions)
        }
    }
}

/// What is left of a mode where a ground transition may not go.
pub fn where_may_not_go(
    alloc: Global,
    model: &Model,
    mode: &Mode,
    transition: &Transition,
    args: &[u32],
) -> Result<Narrowed, AllocError>
    ensures { IfOk result (Leaves model.now View.Here mode.now (λ x. may_go model.now x (transition.now, args.now)) false) }
{
    let Some(
        Seen {
            mut table,
            free,
            own,
            symbols,
        },
    ) = look(alloc, model, mode, View::Here)?
    else {
        return whole(alloc, mode);
    };
    let Some(bit) = may_go_bit(alloc, model, &mut table, &symbols, transition, args)? else {
        return whole(alloc, mode);
    };
    match other_bit(alloc, &bit)? {
        Some(other) => left_by(alloc, mode, &table, free, &own, &other),
        None => whole(alloc, mode),
    }
}
