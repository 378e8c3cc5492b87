//! Conditions as bits.

ghost use Rattle.std.specs.Prelude.{◌≡◌, ℕ, Bool, ℤ, pos, int_le, int_lt, not, if◌then◌else◌, IfOk, IfSome, IsTrue};
ghost use Rattle.std.specs.Ordering.{int_eq};
ghost use Rattle.dp_model.specs.Evaluation.{compares};
ghost use Rattle.poly_terms.specs.Spans.{Within};
ghost use Rattle.poly_terms.specs.Worth.{worth, as_bit};
ghost use Rattle.poly_terms.specs.Fits.{Fits};
ghost use Rattle.poly_eval.specs.Shows.{Extends};
ghost use Rattle.poly_eval.specs.Bits.{IsWorth};

use crate::atoms::put_atom;
use crate::operations::{NESTED, combined, constant_of, product};
use crate::untold::Untold;
use dp_base::Seq;
use dp_model::Compare;
use poly_rules::span_of;
use poly_terms::{Atom, Span, Term, constant, from_zero};
use std::alloc::{AllocError, Global};

/// A truth value as a bit.
pub fn truth(alloc: Global, held: bool) -> Result<Vec<Term>, AllocError>
    ensures { IfOk result (λ p. (v : ℕ → ℤ) → as_bit held ≡ worth v p.items) }
{
    if held {
        constant(alloc, 1)
    } else {
        constant(alloc, 0)
    }
}

/// Whether a sum is 0, as far as its terms say.
pub fn is_zero(p: &[Term]) -> bool
    ensures { IsTrue result → (v : ℕ → ℤ) → worth v p.now ≡ pos 0 }
{
    constant_of(p) == Some(0)
}

/// Whether a sum is 1, as far as its terms say.
pub fn is_one(p: &[Term]) -> bool
    ensures { IsTrue result → (v : ℕ → ℤ) → worth v p.now ≡ pos 1 }
{
    constant_of(p) == Some(1)
}

/// The bit of a condition that does not hold.
pub fn negated(alloc: Global, c: &[Term]) -> Result<Vec<Term>, Untold>
    ensures { IfOk result (λ p. (v : ℕ → ℤ) (b : Bool) → as_bit b ≡ worth v c.now → as_bit (not b) ≡ worth v p.items) }
{
    let one = constant(alloc, 1)?;
    combined(alloc, &one, -1, c)
}

/// What is chosen by a condition.
pub fn chosen(
    alloc: Global,
    table: &[Atom],
    c: &[Term],
    a: &[Term],
    b: &[Term],
) -> Result<Vec<Term>, Untold>
    ensures { IfOk result (λ p. (v : ℕ → ℤ) (held : Bool) → Fits table.now v → as_bit held ≡ worth v c.now → worth v p.items ≡ (if held then worth v a.now else worth v b.now)) }
{
    let difference = combined(alloc, a, -1, b)?;
    let part = product(alloc, table, c, &difference)?;
    combined(alloc, b, 1, &part)
}

/// Whether a number is at most 0, if its interval decides that.
fn decided(span: Span) -> Option<bool>
    ensures { IfSome result (λ held. (x : ℤ) → Within span x → int_le x (pos 0) ≡ held) }
{
    if let Some(high) = span.high
        && high <= 0
    {
        return Some(true);
    }
    if let Some(low) = span.low
        && low > 0
    {
        return Some(false);
    }
    None
}

/// The bit of a sum that is at most 0.
pub fn at_most_zero(
    alloc: Global,
    table: &mut Vec<Atom>,
    sum: Vec<Term>,
) -> Result<Vec<Term>, Untold>
    ensures value { IfOk result (λ p. IsWorth table.new.items p.items (λ v. as_bit (int_le (worth v sum.items) (pos 0)))) }
    ensures grows { Extends table.old.items table.new.items }
{
    match decided(span_of(table, &sum, NESTED)) {
        Some(held) => Ok(truth(alloc, held)?),
        None => put_atom(alloc, table, Atom::AtMostZero(Seq::of(sum))),
    }
}

/// The bit of a number that is at most another.
fn at_most(
    alloc: Global,
    table: &mut Vec<Atom>,
    a: &[Term],
    b: &[Term],
) -> Result<Vec<Term>, Untold>
    ensures value { IfOk result (λ p. IsWorth table.new.items p.items (λ v. as_bit (int_le (worth v a.now) (worth v b.now)))) }
    ensures grows { Extends table.old.items table.new.items }
{
    let difference = combined(alloc, a, -1, b)?;
    at_most_zero(alloc, table, difference)
}

/// The bit of a number that is less than another.
fn less(alloc: Global, table: &mut Vec<Atom>, a: &[Term], b: &[Term]) -> Result<Vec<Term>, Untold>
    ensures value { IfOk result (λ p. IsWorth table.new.items p.items (λ v. as_bit (int_lt (worth v a.now) (worth v b.now)))) }
    ensures grows { Extends table.old.items table.new.items }
{
    let one = constant(alloc, 1)?;
    let more = combined(alloc, a, 1, &one)?;
    at_most(alloc, table, &more, b)
}

/// The bit of two numbers that are the same: each is at most the other.
fn same(alloc: Global, table: &mut Vec<Atom>, a: &[Term], b: &[Term]) -> Result<Vec<Term>, Untold>
    ensures value { IfOk result (λ p. IsWorth table.new.items p.items (λ v. as_bit (int_eq (worth v a.now) (worth v b.now)))) }
    ensures grows { Extends table.old.items table.new.items }
{
    let below = at_most(alloc, table, a, b)?;
    let above = at_most(alloc, table, b, a)?;
    product(alloc, table, &below, &above)
}

/// The bit of two numbers that are not the same.
fn other(alloc: Global, table: &mut Vec<Atom>, a: &[Term], b: &[Term]) -> Result<Vec<Term>, Untold>
    ensures value { IfOk result (λ p. IsWorth table.new.items p.items (λ v. as_bit (not (int_eq (worth v a.now) (worth v b.now))))) }
    ensures grows { Extends table.old.items table.new.items }
{
    let alike = same(alloc, table, a, b)?;
    negated(alloc, &alike)
}

/// The bit of a comparison.
pub fn compared(
    alloc: Global,
    table: &mut Vec<Atom>,
    op: Compare,
    a: Vec<Term>,
    b: Vec<Term>,
) -> Result<Vec<Term>, Untold>
    ensures value { IfOk result (λ p. IsWorth table.new.items p.items (λ v. as_bit (compares op (worth v a.items) (worth v b.items)))) }
    ensures grows { Extends table.old.items table.new.items }
{
    match op {
        Compare::Less => less(alloc, table, &a, &b),
        Compare::AtMost => at_most(alloc, table, &a, &b),
        Compare::More => less(alloc, table, &b, &a),
        Compare::AtLeast => at_most(alloc, table, &b, &a),
        Compare::Same => same(alloc, table, &a, &b),
        Compare::Other => other(alloc, table, &a, &b),
    }
}

/// Of two sums the one that a condition chooses.
pub fn chosen_sum(
    alloc: Global,
    table: &[Atom],
    c: Vec<Term>,
    a: Vec<Term>,
    b: Vec<Term>,
) -> Result<Vec<Term>, Untold>
    ensures { IfOk result (λ p. (v : ℕ → ℤ) (held : Bool) → Fits table.now v → as_bit held ≡ worth v c.items → worth v p.items ≡ (if held then worth v a.items else worth v b.items)) }
{
    chosen(alloc, table, &c, &a, &b)
}
