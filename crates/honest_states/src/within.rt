//! Whether what symbols stand for is as a mode knows.

ghost use Rattle.std.specs.Prelude.{◌≡◌, ℕ, ℤ, true, negsuc, ◌+ℤ◌, ◌*ℤ◌, Option, IfOk, IfSome, IsTrue};
ghost use Rattle.dp_model.specs.Evaluation.{has, set_held};
ghost use Rattle.dp_model.specs.declared.parts.PlainState.{PlainState};
ghost use Rattle.dp_model.specs.declared.parts.PlainValue.{PlainValue};
ghost use Rattle.poly_terms.specs.Worth.{worth, as_bit};
ghost use Rattle.poly_terms.specs.Spans.{Within};
ghost use Rattle.poly_terms.specs.Fits.{Fits};
ghost use Rattle.poly_eval.specs.Shows.{Shows, ShowsValue};
ghost use Rattle.honest_states.specs.Modes.{is_from, is_to, is_so, is_known, in_mode};

use crate::mode::{Known, Mode};
use dp_base::Seq;
use poly_eval::Symbol;
use poly_rules::{at_least_zero, span_of};
use poly_terms::{Atom, Span, Term, add_times, constant};
use std::alloc::{AllocError, Global};

/// How deep the rules go.
const DEPTH: u32 = 8;

/// How deep sums within sums are looked at for their intervals.
const NESTED: u32 = 4;

/// A number less a sum.
fn less_sum(alloc: Global, n: i64, sum: &[Term]) -> Result<Option<Vec<Term>>, AllocError>
    ensures { IfOk result (λ answer. IfSome answer (λ p. (v : ℕ → ℤ) → worth v p.items ≡ n +ℤ negsuc 0 *ℤ worth v sum.now)) }
{
    let mut p = constant(alloc, n)?;
    if add_times(&mut p, -1, sum)? {
        Ok(Some(p))
    } else {
        Ok(None)
    }
}

/// A sum less a number.
fn less_number(alloc: Global, sum: &[Term], n: i64) -> Result<Option<Vec<Term>>, AllocError>
    ensures { IfOk result (λ answer. IfSome answer (λ p. (v : ℕ → ℤ) → worth v p.items +ℤ n ≡ worth v sum.now)) }
{
    let Some(opposite) = n.checked_neg() else {
        return Ok(None);
    };
    let mut p = constant(alloc, opposite)?;
    if add_times(&mut p, 1, sum)? {
        Ok(Some(p))
    } else {
        Ok(None)
    }
}

/// Whether a sum is never above an end.
fn never_above(
    alloc: Global,
    table: &[Atom],
    sum: &[Term],
    high: Option<i64>,
) -> Result<bool, AllocError>
    ensures { IfOk result (λ shown. IsTrue shown → (v : ℕ → ℤ) → Fits table.now v → is_to high (worth v sum.now) ≡ true) }
{
    let Some(high) = high else {
        return Ok(true);
    };
    match less_sum(alloc, high, sum)? {
        Some(room) => at_least_zero(alloc, table, &room, DEPTH),
        None => Ok(false),
    }
}

/// Whether a sum is never below an end.
fn never_below(
    alloc: Global,
    table: &[Atom],
    sum: &[Term],
    low: Option<i64>,
) -> Result<bool, AllocError>
    ensures { IfOk result (λ shown. IsTrue shown → (v : ℕ → ℤ) → Fits table.now v → is_from low (worth v sum.now) ≡ true) }
{
    let Some(low) = low else {
        return Ok(true);
    };
    match less_number(alloc, sum, low)? {
        Some(room) => at_least_zero(alloc, table, &room, DEPTH),
        None => Ok(false),
    }
}

/// Whether a number is this bit.
fn is_bit_of(span: Span, value: bool) -> bool
    ensures { IsTrue result → (x : ℤ) → Within span x → x ≡ as_bit value }
{
    match (span.low, span.high) {
        (Some(low), Some(high)) => {
            if value {
                low == 1 && high == 1
            } else {
                low == 0 && high == 0
            }
        }
        _ => false,
    }
}

/// Whether a sum is always this bit.
fn is_worth(alloc: Global, table: &[Atom], sum: &[Term], value: bool) -> Result<bool, AllocError>
    ensures { IfOk result (λ shown. IsTrue shown → (v : ℕ → ℤ) → Fits table.now v → worth v sum.now ≡ as_bit value) }
{
    if is_bit_of(span_of(table, sum, NESTED), value) {
        return Ok(true);
    }
    let bit = i64::from(value);
    if !never_below(alloc, table, sum, Some(bit))? {
        return Ok(false);
    }
    never_above(alloc, table, sum, Some(bit))
}

/// Whether a member is in a set or not as is known.
fn is_member_within(
    alloc: Global,
    table: &[Atom],
    bits: &[Seq<Term>],
    member: usize,
    known: Option<bool>,
) -> Result<bool, AllocError>
    ensures { IfOk result (λ shown. IsTrue shown → (v : ℕ → ℤ) (held : Option PlainValue) → Fits table.now v → ShowsValue v (Symbol.Members bits.now) held → is_so known (has (set_held held) member) ≡ true) }
{
    let Some(value) = known else {
        return Ok(true);
    };
    match bits.get(member) {
        Some(bit) => is_worth(alloc, table, bit.list(), value),
        None => Ok(false),
    }
}

/// Whether each member is in a set or not as is known.
fn are_members_within(
    alloc: Global,
    table: &[Atom],
    bits: &[Seq<Term>],
    members: &[Option<bool>],
) -> Result<bool, AllocError>
    ensures { IfOk result (λ shown. IsTrue shown → (v : ℕ → ℤ) (held : Option PlainValue) → Fits table.now v → ShowsValue v (Symbol.Members bits.now) held → is_known (Known.Members members.now) held ≡ true) }
{
    for (j, known) in members.iter().enumerate() {
        if !is_member_within(alloc, table, bits, j, *known)? {
            return Ok(false);
        }
    }
    Ok(true)
}

/// Whether what a symbol stands for is always as is known. `false` says that the rules do not show it.
pub fn is_within(
    alloc: Global,
    table: &[Atom],
    symbol: &Symbol,
    known: &Known,
) -> Result<bool, AllocError>
    ensures { IfOk result (λ shown. IsTrue shown → (v : ℕ → ℤ) (held : Option PlainValue) → Fits table.now v → ShowsValue v symbol.now held → is_known known.now held ≡ true) }
{
    match (symbol, known) {
        (Symbol::Number(sum), Known::Number(span)) => {
            if !never_below(alloc, table, sum.list(), span.low)? {
                return Ok(false);
            }
            never_above(alloc, table, sum.list(), span.high)
        }
        (Symbol::Members(bits), Known::Members(members)) => {
            are_members_within(alloc, table, bits.list(), members.list())
        }
        _ => Ok(false),
    }
}

/// Whether each state that the symbols show is in a mode. `false` says that the rules do not show it.
pub fn are_within(
    alloc: Global,
    table: &[Atom],
    symbols: &[Symbol],
    mode: &Mode,
) -> Result<bool, AllocError>
    ensures { IfOk result (λ shown. IsTrue shown → (v : ℕ → ℤ) (s : PlainState) → Fits table.now v → Shows v symbols.now s → in_mode mode.now s ≡ true) }
{
    for (i, known) in mode.known.list().iter().enumerate() {
        match symbols.get(i) {
            Some(symbol) => {
                if !is_within(alloc, table, symbol, known)? {
                    return Ok(false);
                }
            }
            None => return Ok(false),
        }
    }
    Ok(true)
}
