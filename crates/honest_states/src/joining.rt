//! Modes that hold of more states: what two modes both know, and what symbols say by their intervals.

ghost use Rattle.std.specs.Prelude.{◌≡◌, ℕ, ℤ, Bool, true, pos, ◌≤ℤ◌, Option, IfOk, IsTrue};
ghost use Rattle.dp_model.specs.declared.parts.PlainState.{PlainState};
ghost use Rattle.dp_model.specs.declared.parts.PlainValue.{PlainValue};
ghost use Rattle.poly_terms.specs.Worth.{as_bit};
ghost use Rattle.poly_terms.specs.Spans.{Within};
ghost use Rattle.poly_terms.specs.Fits.{Fits};
ghost use Rattle.poly_eval.specs.Shows.{Shows, ShowsValue};
ghost use Rattle.honest_states.specs.Modes.{is_from, is_to, is_between, is_so, is_known, are_known, in_mode};

use crate::mode::{Known, Mode};
use dp_base::Seq;
use poly_eval::Symbol;
use poly_rules::span_of;
use poly_terms::{Atom, Span, Term};
use std::alloc::{AllocError, Global};

/// How deep sums within sums are looked at for their intervals.
const NESTED: u32 = 4;

fn low_of_both(a: Option<i64>, b: Option<i64>) -> Option<i64>
    ensures first { (x : ℤ) → is_from a x ≡ true → is_from result x ≡ true }
    ensures second { (x : ℤ) → is_from b x ≡ true → is_from result x ≡ true }
{
    match (a, b) {
        (Some(x), Some(y)) => Some(x.min(y)),
        _ => None,
    }
}

fn high_of_both(a: Option<i64>, b: Option<i64>) -> Option<i64>
    ensures first { (x : ℤ) → is_to a x ≡ true → is_to result x ≡ true }
    ensures second { (x : ℤ) → is_to b x ≡ true → is_to result x ≡ true }
{
    match (a, b) {
        (Some(x), Some(y)) => Some(x.max(y)),
        _ => None,
    }
}

/// Where a number lies that lies in one of two intervals.
fn joined_span(a: Span, b: Span) -> Span
    ensures first { (x : ℤ) → is_between a x ≡ true → is_between result x ≡ true }
    ensures second { (x : ℤ) → is_between b x ≡ true → is_between result x ≡ true }
{
    Span {
        low: low_of_both(a.low, b.low),
        high: high_of_both(a.high, b.high),
    }
}

/// What is known of a member in both cases.
fn joined_member(a: Option<bool>, b: Option<bool>) -> Option<bool>
    ensures first { (held : Bool) → is_so a held ≡ true → is_so result held ≡ true }
    ensures second { (held : Bool) → is_so b held ≡ true → is_so result held ≡ true }
{
    match (a, b) {
        (Some(true), Some(true)) => a,
        (Some(false), Some(false)) => a,
        _ => None,
    }
}

/// What is known of each member in both cases.
fn joined_members(
    alloc: Global,
    a: &[Option<bool>],
    b: &[Option<bool>],
) -> Result<Vec<Option<bool>>, AllocError>
    ensures first { IfOk result (λ both. (held : Option PlainValue) → is_known (Known.Members a.now) held ≡ true → is_known (Known.Members both.items) held ≡ true) }
    ensures second { IfOk result (λ both. (held : Option PlainValue) → is_known (Known.Members b.now) held ≡ true → is_known (Known.Members both.items) held ≡ true) }
{
    let mut both = Vec::new(alloc);
    for (j, known) in a.iter().enumerate() {
        match b.get(j) {
            Some(other) => both.push(joined_member(*known, *other))?,
            None => return Ok(both),
        }
    }
    Ok(both)
}

/// What is known of a variable in both cases.
fn joined_known(alloc: Global, a: &Known, b: &Known) -> Result<Known, AllocError>
    ensures first { IfOk result (λ both. (held : Option PlainValue) → is_known a.now held ≡ true → is_known both held ≡ true) }
    ensures second { IfOk result (λ both. (held : Option PlainValue) → is_known b.now held ≡ true → is_known both held ≡ true) }
{
    match (a, b) {
        (Known::Number(x), Known::Number(y)) => Ok(Known::Number(joined_span(*x, *y))),
        (Known::Members(x), Known::Members(y)) => {
            let both = joined_members(alloc, x.list(), y.list())?;
            Ok(Known::Members(Seq::of(both)))
        }
        _ => Ok(Known::Number(Span {
            low: None,
            high: None,
        })),
    }
}

/// What is known of each variable in both cases.
fn joined_list(alloc: Global, a: &[Known], b: &[Known]) -> Result<Vec<Known>, AllocError>
    ensures first { IfOk result (λ both. (s : PlainState) → are_known a.now 0 s ≡ true → are_known both.items 0 s ≡ true) }
    ensures second { IfOk result (λ both. (s : PlainState) → are_known b.now 0 s ≡ true → are_known both.items 0 s ≡ true) }
{
    let mut both = Vec::new(alloc);
    for (i, known) in a.iter().enumerate() {
        match b.get(i) {
            Some(other) => {
                let more = joined_known(alloc, known, other)?;
                both.push(more)?;
            }
            None => return Ok(both),
        }
    }
    Ok(both)
}

/// What two modes both know: a state of either is in it.
pub fn joined(alloc: Global, a: &Mode, b: &Mode) -> Result<Mode, AllocError>
    ensures first { IfOk result (λ both. (s : PlainState) → in_mode a.now s ≡ true → in_mode both s ≡ true) }
    ensures second { IfOk result (λ both. (s : PlainState) → in_mode b.now s ≡ true → in_mode both s ≡ true) }
{
    let both = joined_list(alloc, a.known.list(), b.known.list())?;
    Ok(Mode {
        known: Seq::of(both),
    })
}

/// Whether a number is at least 1.
fn is_positive(span: Span) -> bool
    ensures { IsTrue result → (x : ℤ) → Within span x → pos 1 ≤ℤ x }
{
    match span.low {
        Some(low) => low >= 1,
        None => false,
    }
}

/// Whether a number is at most 0.
fn is_below_one(span: Span) -> bool
    ensures { IsTrue result → (x : ℤ) → Within span x → x ≤ℤ pos 0 }
{
    match span.high {
        Some(high) => high <= 0,
        None => false,
    }
}

/// What an interval says of a bit.
fn member_in(span: Span) -> Option<bool>
    ensures { (b : Bool) → Within span (as_bit b) → is_so result b ≡ true }
{
    if is_positive(span) {
        Some(true)
    } else if is_below_one(span) {
        Some(false)
    } else {
        None
    }
}

/// What is known of each member by the intervals of the bits.
fn members_in(
    alloc: Global,
    table: &[Atom],
    bits: &[Seq<Term>],
) -> Result<Vec<Option<bool>>, AllocError>
    ensures { IfOk result (λ members. (v : ℕ → ℤ) (held : Option PlainValue) → Fits table.now v → ShowsValue v (Symbol.Members bits.now) held → is_known (Known.Members members.items) held ≡ true) }
{
    let mut members = Vec::new(alloc);
    for bit in bits {
        let member = member_in(span_of(table, bit.list(), NESTED));
        members.push(member)?;
    }
    Ok(members)
}

/// What is known of a variable by the intervals of its symbol.
fn known_in(alloc: Global, table: &[Atom], symbol: &Symbol) -> Result<Known, AllocError>
    ensures { IfOk result (λ known. (v : ℕ → ℤ) (held : Option PlainValue) → Fits table.now v → ShowsValue v symbol.now held → is_known known held ≡ true) }
{
    match symbol {
        Symbol::Number(sum) => Ok(Known::Number(span_of(table, sum.list(), NESTED))),
        Symbol::Members(bits) => {
            let members = members_in(alloc, table, bits.list())?;
            Ok(Known::Members(Seq::of(members)))
        }
    }
}

/// What is known of each state that symbols show, by the intervals of the symbols.
pub fn mode_of(alloc: Global, table: &[Atom], symbols: &[Symbol]) -> Result<Mode, AllocError>
    ensures { IfOk result (λ mode. (v : ℕ → ℤ) (s : PlainState) → Fits table.now v → Shows v symbols.now s → in_mode mode s ≡ true) }
{
    let mut known = Vec::new(alloc);
    for symbol in symbols {
        let one = known_in(alloc, table, symbol)?;
        known.push(one)?;
    }
    Ok(Mode {
        known: Seq::of(known),
    })
}
