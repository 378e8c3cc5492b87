//! Operations on polynomials.

ghost use Rattle.std.specs.Prelude.{◌≡◌, ◌≢◌, ℕ, ℤ, pos, ◌+ℤ◌, ◌*ℤ◌, int_div, int_rem, IfOk, IfSome, IsTrue, ◌≤ℤ◌};
ghost use Rattle.std.specs.Int.{int_max, int_min};
ghost use Rattle.poly_terms.specs.Worth.{worth};
ghost use Rattle.poly_terms.specs.Fits.{Fits};
ghost use Rattle.wide_values.specs.Wide.{wide_operation};
ghost use Rattle.poly_eval.specs.Shows.{Extends};
ghost use Rattle.poly_eval.specs.Bits.{IsWorth};

use crate::atoms::put_atom;
use crate::untold::Untold;
use dp_base::Seq;
use dp_model::NumOp;
use poly_rules::span_of;
use poly_terms::{Atom, Term, add_times, constant, from_zero, times};
use std::alloc::{AllocError, Global};

/// How deep sums within sums are looked at for their intervals.
pub const NESTED: u32 = 4;

/// A product is not told that would have more terms than this, before equal ones are joined.
const MOST_TERMS: usize = 65_536;

/// A sum that is worth the same.
pub fn same_sum(alloc: Global, terms: &[Term]) -> Result<Vec<Term>, Untold>
    ensures { IfOk result (λ p. (v : ℕ → ℤ) → worth v p.items ≡ worth v terms.now) }
{
    let mut sum = Vec::new(alloc);
    if add_times(&mut sum, 1, terms)? {
        Ok(sum)
    } else {
        Err(Untold::Form)
    }
}

/// A sum and a multiple of another one.
pub fn combined(alloc: Global, a: &[Term], factor: i64, b: &[Term]) -> Result<Vec<Term>, Untold>
    ensures { IfOk result (λ p. (v : ℕ → ℤ) → worth v p.items ≡ worth v a.now +ℤ factor *ℤ worth v b.now) }
{
    let mut sum = same_sum(alloc, a)?;
    if add_times(&mut sum, factor, b)? {
        Ok(sum)
    } else {
        Err(Untold::Form)
    }
}

/// The product of two sums.
pub fn product(alloc: Global, table: &[Atom], a: &[Term], b: &[Term]) -> Result<Vec<Term>, Untold>
    ensures { IfOk result (λ p. IsWorth table.now p.items (λ v. worth v a.now *ℤ worth v b.now)) }
{
    match a.len().checked_mul(b.len()) {
        Some(many) if many <= MOST_TERMS => times(alloc, table, a, b)?.ok_or(Untold::Form),
        _ => Err(Untold::Form),
    }
}

/// The number that a sum is without any atom.
pub fn constant_of(p: &[Term]) -> Option<i64>
    ensures { IfSome result (λ n. (v : ℕ → ℤ) → worth v p.now ≡ n) }
{
    match p {
        [] => Some(0),
        [t] if t.atoms.list().is_empty() => Some(t.coefficient),
        _ => None,
    }
}

/// The number that a sum is without any atom, where it is one.
pub fn known_number(p: &[Term]) -> Result<i64, Untold>
    ensures { IfOk result (λ n. (v : ℕ → ℤ) → worth v p.now ≡ n) }
{
    constant_of(p).ok_or(Untold::Form)
}

/// Whether a sum is never less than another one, by where their difference lies.
fn is_never_less(alloc: Global, table: &[Atom], a: &[Term], b: &[Term]) -> Result<bool, Untold>
    ensures { IfOk result (λ shown. IsTrue shown → (v : ℕ → ℤ) → Fits table.now v → worth v b.now ≤ℤ worth v a.now) }
{
    let difference = combined(alloc, a, -1, b)?;
    Ok(from_zero(span_of(table, &difference, NESTED)))
}

/// The greater of two sums.
fn most(
    alloc: Global,
    table: &mut Vec<Atom>,
    a: Vec<Term>,
    b: Vec<Term>,
) -> Result<Vec<Term>, Untold>
    ensures value { IfOk result (λ p. IsWorth table.new.items p.items (λ v. int_max (worth v a.items) (worth v b.items))) }
    ensures grows { Extends table.old.items table.new.items }
{
    if is_never_less(alloc, table, &a, &b)? {
        return Ok(a);
    }
    if is_never_less(alloc, table, &b, &a)? {
        return Ok(b);
    }
    put_atom(alloc, table, Atom::Most(Seq::of(a), Seq::of(b)))
}

/// The lesser of two sums.
fn least(
    alloc: Global,
    table: &mut Vec<Atom>,
    a: Vec<Term>,
    b: Vec<Term>,
) -> Result<Vec<Term>, Untold>
    ensures value { IfOk result (λ p. IsWorth table.new.items p.items (λ v. int_min (worth v a.items) (worth v b.items))) }
    ensures grows { Extends table.old.items table.new.items }
{
    if is_never_less(alloc, table, &a, &b)? {
        return Ok(b);
    }
    if is_never_less(alloc, table, &b, &a)? {
        return Ok(a);
    }
    put_atom(alloc, table, Atom::Least(Seq::of(a), Seq::of(b)))
}

/// The quotient of two numbers, rounded toward zero, if it has a place in 64 bits.
fn divided(a: i64, d: i64) -> Option<i64>
    requires { d ≢ pos 0 }
    ensures { IfSome result (λ q. q ≡ int_div a d) }
{
    i64::try_from(i128::from(a) / i128::from(d)).ok()
}

/// The quotient of a sum and a number, rounded toward zero.
fn quotient(alloc: Global, table: &mut Vec<Atom>, a: Vec<Term>, d: i64) -> Result<Vec<Term>, Untold>
    ensures value { IfOk result (λ p. IsWorth table.new.items p.items (λ v. int_div (worth v a.items) d)) }
    ensures grows { Extends table.old.items table.new.items }
{
    if d == 0 {
        return Err(Untold::Form);
    }
    match constant_of(&a) {
        Some(n) => Ok(constant(alloc, divided(n, d).ok_or(Untold::Form)?)?),
        None => put_atom(alloc, table, Atom::Over(Seq::of(a), d)),
    }
}

/// What is left of a sum without this many times its quotient.
fn left_of(alloc: Global, a: &[Term], d: i64, times: &[Term]) -> Result<Vec<Term>, Untold>
    ensures { IfOk result (λ p. (v : ℕ → ℤ) → worth v times.now ≡ int_div (worth v a.now) d → worth v p.items ≡ int_rem (worth v a.now) d) }
{
    let part = combined(alloc, &[], d, times)?;
    combined(alloc, a, -1, &part)
}

/// What the division of a sum by a number leaves, with the sign of the sum.
fn rest(alloc: Global, table: &mut Vec<Atom>, a: Vec<Term>, d: i64) -> Result<Vec<Term>, Untold>
    ensures value { IfOk result (λ p. IsWorth table.new.items p.items (λ v. int_rem (worth v a.items) d)) }
    ensures grows { Extends table.old.items table.new.items }
{
    let dividend = same_sum(alloc, &a)?;
    let times = quotient(alloc, table, dividend, d)?;
    left_of(alloc, &a, d, &times)
}

/// An operation on two sums.
pub fn operate(
    alloc: Global,
    table: &mut Vec<Atom>,
    op: NumOp,
    a: Vec<Term>,
    b: Vec<Term>,
) -> Result<Vec<Term>, Untold>
    ensures value { IfOk result (λ p. IsWorth table.new.items p.items (λ v. wide_operation op (worth v a.items) (worth v b.items))) }
    ensures grows { Extends table.old.items table.new.items }
{
    match op {
        NumOp::Plus => combined(alloc, &a, 1, &b),
        NumOp::Minus => combined(alloc, &a, -1, &b),
        NumOp::Times => product(alloc, table, &a, &b),
        NumOp::Most => most(alloc, table, a, b),
        NumOp::Least => least(alloc, table, a, b),
        NumOp::Over => quotient(alloc, table, a, constant_of(&b).ok_or(Untold::Form)?),
        NumOp::Rest => rest(alloc, table, a, constant_of(&b).ok_or(Untold::Form)?),
    }
}
