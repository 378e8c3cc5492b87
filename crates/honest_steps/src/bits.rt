//! Tests as bits: conditions that all hold, and ground transitions that may go.

ghost use Rattle.std.specs.Prelude.{◌≡◌, ℕ, ℤ, pos, ◌-ℤ◌, Option, IfOk, IfSome, IsTrue, OnOk};
ghost use Rattle.dp_model.specs.Evaluation.{has, set_held};
ghost use Rattle.dp_model.specs.Typing.{is_state};
ghost use Rattle.dp_model.specs.declared.parts.PlainState.{PlainState};
ghost use Rattle.dp_model.specs.declared.parts.PlainValue.{PlainValue};
ghost use Rattle.dp_steps.specs.States.{are_members};
ghost use Rattle.poly_terms.specs.Worth.{worth, as_bit};
ghost use Rattle.poly_terms.specs.Fits.{Fits};
ghost use Rattle.poly_eval.specs.Shows.{Extends, Shows, ShowsValue};
ghost use Rattle.spot_eval.specs.Moves.{is_member};
ghost use Rattle.wide_steps.specs.Steps.{all_hold, may_go};

use dp_base::Seq;
use dp_model::{Cond, Model, Over, Transition};
use poly_eval::{Symbol, condition};
use poly_terms::{Atom, Term, add_times, constant, times};
use std::alloc::{AllocError, Global};

/// The bit that is 1 where another one is 0.
pub fn other_bit(alloc: Global, bit: &[Term]) -> Result<Option<Vec<Term>>, AllocError>
    ensures { IfOk result (λ answer. IfSome answer (λ p. (v : ℕ → ℤ) → worth v p.items ≡ pos 1 -ℤ worth v bit.now)) }
{
    let mut other = constant(alloc, 1)?;
    if add_times(&mut other, -1, bit)? {
        Ok(Some(other))
    } else {
        Ok(None)
    }
}

/// Conditions as one bit: whether they all hold.
pub fn all_bit(
    alloc: Global,
    model: &Model,
    table: &mut Vec<Atom>,
    symbols: &[Symbol],
    given: &[u32],
    conditions: &[Cond],
) -> Result<Option<Vec<Term>>, AllocError>
    ensures value { IfOk result (λ answer. IfSome answer (λ p. (s : PlainState) (v : ℕ → ℤ) → IsTrue (is_state model.now.objects model.now.variables s) → Fits table.new.items v → Shows v symbols.now s → as_bit (all_hold model.now s given.now conditions.now) ≡ worth v p.items)) }
    ensures grows { OnOk result (Extends table.old.items table.new.items) }
{
    let mut all = constant(alloc, 1)?;
    for c in conditions {
        let Some(bit) = condition(alloc, model, table, symbols, given, c)? else {
            return Ok(None);
        };
        let Some(both) = times(alloc, table, &all, &bit)? else {
            return Ok(None);
        };
        all = both;
    }
    Ok(Some(all))
}

/// The same sum once more.
fn copied(alloc: Global, sum: &[Term]) -> Result<Option<Vec<Term>>, AllocError>
    ensures { IfOk result (λ answer. IfSome answer (λ p. (v : ℕ → ℤ) → worth v p.items ≡ worth v sum.now)) }
{
    let mut same = Vec::new(alloc);
    if add_times(&mut same, 1, sum)? {
        Ok(Some(same))
    } else {
        Ok(None)
    }
}

/// The bit of a member of a set.
fn bit_among(alloc: Global, bits: &[Seq<Term>], k: u32) -> Result<Option<Vec<Term>>, AllocError>
    ensures { IfOk result (λ answer. IfSome answer (λ p. (v : ℕ → ℤ) (held : Option PlainValue) → ShowsValue v (Symbol.Members bits.now) held → as_bit (has (set_held held) k) ≡ worth v p.items)) }
{
    match bits.get(k as usize) {
        Some(bit) => copied(alloc, bit.list()),
        None => Ok(None),
    }
}

/// The bit of a member of what a symbol stands for.
fn bit_of(alloc: Global, symbol: &Symbol, k: u32) -> Result<Option<Vec<Term>>, AllocError>
    ensures { IfOk result (λ answer. IfSome answer (λ p. (v : ℕ → ℤ) (held : Option PlainValue) → ShowsValue v symbol.now held → as_bit (has (set_held held) k) ≡ worth v p.items)) }
{
    match symbol {
        Symbol::Members(bits) => bit_among(alloc, bits.list(), k),
        Symbol::Number(_) => Ok(None),
    }
}

/// Whether the value of a parameter is a member of the set variable that it ranges over, if it ranges over one, as a bit.
fn member_bit(
    alloc: Global,
    symbols: &[Symbol],
    over: Over,
    k: u32,
) -> Result<Option<Vec<Term>>, AllocError>
    ensures { IfOk result (λ answer. IfSome answer (λ p. (s : PlainState) (v : ℕ → ℤ) → Shows v symbols.now s → as_bit (is_member s over k) ≡ worth v p.items)) }
{
    match over {
        Over::Object(_) => Ok(Some(constant(alloc, 1)?)),
        Over::Members(place) => match symbols.get(place as usize) {
            Some(symbol) => bit_of(alloc, symbol, k),
            None => Ok(None),
        },
    }
}

/// The memberships of parameters as one bit: whether they all hold.
pub fn members_bit(
    alloc: Global,
    table: &[Atom],
    symbols: &[Symbol],
    params: &[Over],
    args: &[u32],
) -> Result<Option<Vec<Term>>, AllocError>
    ensures { IfOk result (λ answer. IfSome answer (λ p. (s : PlainState) (v : ℕ → ℤ) → Fits table.now v → Shows v symbols.now s → as_bit (are_members s params.now args.now) ≡ worth v p.items)) }
{
    let mut all = constant(alloc, 1)?;
    for (place, over) in params.iter().enumerate() {
        if place >= args.len() {
            return Ok(Some(all));
        }
        let Some(bit) = member_bit(alloc, symbols, *over, args[place])? else {
            return Ok(None);
        };
        let Some(both) = times(alloc, table, &all, &bit)? else {
            return Ok(None);
        };
        all = both;
    }
    Ok(Some(all))
}

/// Whether a ground transition may go, as a bit.
pub fn may_go_bit(
    alloc: Global,
    model: &Model,
    table: &mut Vec<Atom>,
    symbols: &[Symbol],
    transition: &Transition,
    args: &[u32],
) -> Result<Option<Vec<Term>>, AllocError>
    ensures value { IfOk result (λ answer. IfSome answer (λ p. (s : PlainState) (v : ℕ → ℤ) → IsTrue (is_state model.now.objects model.now.variables s) → Fits table.new.items v → Shows v symbols.now s → as_bit (may_go model.now s (transition.now, args.now)) ≡ worth v p.items)) }
    ensures grows { OnOk result (Extends table.old.items table.new.items) }
{
    let preconditions = transition.preconditions().list();
    let Some(holds) = all_bit(alloc, model, table, symbols, args, preconditions)? else {
        return Ok(None);
    };
    let Some(members) = members_bit(alloc, table, symbols, transition.params().list(), args)? else {
        return Ok(None);
    };
    times(alloc, table, &members, &holds)
}
