//! By how much one quotient or comparison is above another one.

ghost use Rattle.std.specs.Prelude.{◌≡◌, ℕ, ℤ, pos, ◌≤ℤ◌, ◌+ℤ◌, ◌-ℤ◌, ◌*ℤ◌, int_div, int_le, IfOk, IfSome, IsTrue};
ghost use Rattle.poly_terms.specs.Worth.{worth, as_bit};
ghost use Rattle.poly_terms.specs.Fits.{Fits, Meets};

use poly_rules::at_least_zero;
use poly_terms::{Atom, Term, add_times, constant};
use std::alloc::{AllocError, Global};

/// How deep the rules go.
const DEPTH: u32 = 8;

/// A sum less another one.
fn difference(alloc: Global, a: &[Term], b: &[Term]) -> Result<Option<Vec<Term>>, AllocError>
    ensures { IfOk result (λ answer. IfSome answer (λ p. (v : ℕ → ℤ) → worth v p.items ≡ worth v a.now -ℤ worth v b.now)) }
{
    let mut sum = Vec::new(alloc);
    if add_times(&mut sum, 1, a)? && add_times(&mut sum, -1, b)? {
        Ok(Some(sum))
    } else {
        Ok(None)
    }
}

/// A sum less a number.
fn less_number(alloc: Global, sum: &[Term], n: i64) -> Result<Option<Vec<Term>>, AllocError>
    ensures { IfOk result (λ answer. IfSome answer (λ p. (v : ℕ → ℤ) → worth v p.items +ℤ n ≡ worth v sum.now)) }
{
    let Some(opposite) = n.checked_neg() else {
        return Ok(None);
    };
    let mut p = constant(alloc, opposite)?;
    if add_times(&mut p, 1, sum)? {
        Ok(Some(p))
    } else {
        Ok(None)
    }
}

/// Whether a sum is at least a number.
fn is_sum_from(alloc: Global, table: &[Atom], sum: &[Term], n: i64) -> Result<bool, AllocError>
    ensures { IfOk result (λ shown. IsTrue shown → (v : ℕ → ℤ) → Fits table.now v → n ≤ℤ worth v sum.now) }
{
    match less_number(alloc, sum, n)? {
        Some(less) => at_least_zero(alloc, table, &less, DEPTH),
        None => Ok(false),
    }
}

/// Whether a sum is at least so much more than another one.
fn is_above_by(
    alloc: Global,
    table: &[Atom],
    p: &[Term],
    q: &[Term],
    n: i64,
) -> Result<bool, AllocError>
    ensures { IfOk result (λ shown. IsTrue shown → (v : ℕ → ℤ) → Fits table.now v → (worth v q.now +ℤ n) ≤ℤ worth v p.now) }
{
    match difference(alloc, p, q)? {
        Some(apart) => is_sum_from(alloc, table, &apart, n),
        None => Ok(false),
    }
}

/// Whether a quotient is at most so much less than another one by the same divisor: `gain` is at most 0.
fn falls_by(
    alloc: Global,
    table: &[Atom],
    p: &[Term],
    q: &[Term],
    d: i64,
    gain: i64,
) -> Result<bool, AllocError>
    ensures { IfOk result (λ shown. IsTrue shown → (v : ℕ → ℤ) → Fits table.now v → (int_div (worth v q.now) d +ℤ gain) ≤ℤ int_div (worth v p.now) d) }
{
    if d < 1 || gain > 0 {
        return Ok(false);
    }
    match d.checked_mul(gain) {
        Some(n) => is_above_by(alloc, table, p, q, n),
        None => Ok(false),
    }
}

/// Whether a quotient is at least so much more than another one by the same divisor, which is at least 0.
fn rises_by(
    alloc: Global,
    table: &[Atom],
    p: &[Term],
    q: &[Term],
    d: i64,
    gain: i64,
) -> Result<bool, AllocError>
    ensures { IfOk result (λ shown. IsTrue shown → (v : ℕ → ℤ) → Fits table.now v → (int_div (worth v q.now) d +ℤ gain) ≤ℤ int_div (worth v p.now) d) }
{
    if d < 1 || gain < 0 || !at_least_zero(alloc, table, q, DEPTH)? {
        return Ok(false);
    }
    match d.checked_mul(gain) {
        Some(n) => is_above_by(alloc, table, p, q, n),
        None => Ok(false),
    }
}

/// Whether a quotient is above another one by the same divisor by a number, which may be below 0.
pub fn quotient_above(
    alloc: Global,
    table: &[Atom],
    p: &[Term],
    q: &[Term],
    d: i64,
    gain: i64,
) -> Result<bool, AllocError>
    ensures { IfOk result (λ shown. IsTrue shown → (v : ℕ → ℤ) → Fits table.now v → (int_div (worth v q.now) d +ℤ gain) ≤ℤ int_div (worth v p.now) d) }
{
    if gain > 0 {
        rises_by(alloc, table, p, q, d, gain)
    } else {
        falls_by(alloc, table, p, q, d, gain)
    }
}

/// Whether a comparison holds where another one does.
fn truth_above(
    alloc: Global,
    table: &[Atom],
    p: &[Term],
    q: &[Term],
    gain: i64,
) -> Result<bool, AllocError>
    ensures { IfOk result (λ shown. IsTrue shown → (v : ℕ → ℤ) → Fits table.now v → (as_bit (int_le (worth v q.now) (pos 0)) +ℤ gain) ≤ℤ as_bit (int_le (worth v p.now) (pos 0))) }
{
    if gain > 0 {
        return Ok(false);
    }
    is_above_by(alloc, table, q, p, 0)
}

/// Whether the quotient of a sum is above what another atom stands for.
fn over_above(
    alloc: Global,
    table: &[Atom],
    p: &[Term],
    d: i64,
    other: &Atom,
    gain: i64,
) -> Result<bool, AllocError>
    ensures { IfOk result (λ shown. IsTrue shown → (v : ℕ → ℤ) (y : ℤ) → Fits table.now v → Meets v other.now y → (y +ℤ gain) ≤ℤ int_div (worth v p.now) d) }
{
    match other {
        Atom::Over(q, e) if *e == d => quotient_above(alloc, table, p, q.list(), d, gain),
        _ => Ok(false),
    }
}

/// Whether a comparison of a sum with 0 is above what another atom stands for.
fn holds_above(
    alloc: Global,
    table: &[Atom],
    p: &[Term],
    other: &Atom,
    gain: i64,
) -> Result<bool, AllocError>
    ensures { IfOk result (λ shown. IsTrue shown → (v : ℕ → ℤ) (y : ℤ) → Fits table.now v → Meets v other.now y → (y +ℤ gain) ≤ℤ as_bit (int_le (worth v p.now) (pos 0))) }
{
    match other {
        Atom::AtMostZero(q) => truth_above(alloc, table, p, q.list(), gain),
        _ => Ok(false),
    }
}

/// Whether what an atom stands for is above what another one does.
fn known_above(
    alloc: Global,
    table: &[Atom],
    atom: &Atom,
    other: &Atom,
    gain: i64,
) -> Result<bool, AllocError>
    ensures { IfOk result (λ shown. IsTrue shown → (v : ℕ → ℤ) (x y : ℤ) → Fits table.now v → Meets v atom.now x → Meets v other.now y → (y +ℤ gain) ≤ℤ x) }
{
    match atom {
        Atom::Over(p, d) => over_above(alloc, table, p.list(), *d, other, gain),
        Atom::AtMostZero(p) => holds_above(alloc, table, p.list(), other, gain),
        _ => Ok(false),
    }
}

/// Whether what an atom stands for is above another atom of the table.
fn atom_above(
    alloc: Global,
    table: &[Atom],
    atom: &Atom,
    other: u32,
    gain: i64,
) -> Result<bool, AllocError>
    ensures { IfOk result (λ shown. IsTrue shown → (v : ℕ → ℤ) (x : ℤ) → Fits table.now v → Meets v atom.now x → (v other +ℤ gain) ≤ℤ x) }
{
    match table.get(other as usize) {
        Some(known) => known_above(alloc, table, atom, known, gain),
        None => Ok(false),
    }
}

/// Whether an atom is above another one by a number, which may be below 0.
pub fn is_above(
    alloc: Global,
    table: &[Atom],
    atom: u32,
    other: u32,
    gain: i64,
) -> Result<bool, AllocError>
    ensures { IfOk result (λ shown. IsTrue shown → (v : ℕ → ℤ) → Fits table.now v → (v other +ℤ gain) ≤ℤ v atom) }
{
    match table.get(atom as usize) {
        Some(known) => atom_above(alloc, table, known, other, gain),
        None => Ok(false),
    }
}

/// Whether what an atom stands for is at least a number.
fn known_from(alloc: Global, table: &[Atom], atom: &Atom, low: i64) -> Result<bool, AllocError>
    ensures { IfOk result (λ shown. IsTrue shown → (v : ℕ → ℤ) (x : ℤ) → Fits table.now v → Meets v atom.now x → low ≤ℤ x) }
{
    match atom {
        Atom::Over(p, d) => quotient_above(alloc, table, p.list(), &[], *d, low),
        _ => Ok(false),
    }
}

/// Whether an atom is at least a number.
pub fn is_from(alloc: Global, table: &[Atom], atom: u32, low: i64) -> Result<bool, AllocError>
    ensures { IfOk result (λ shown. IsTrue shown → (v : ℕ → ℤ) → Fits table.now v → low ≤ℤ v atom) }
{
    match table.get(atom as usize) {
        Some(known) => known_from(alloc, table, known, low),
        None => Ok(false),
    }
}

/// Whether a quotient is at most a number.
fn quotient_to(
    alloc: Global,
    table: &[Atom],
    p: &[Term],
    d: i64,
    high: i64,
) -> Result<bool, AllocError>
    ensures { IfOk result (λ shown. IsTrue shown → (v : ℕ → ℤ) → Fits table.now v → int_div (worth v p.now) d ≤ℤ high) }
{
    let Some(gain) = high.checked_neg() else {
        return Ok(false);
    };
    if d < 1 {
        return Ok(false);
    }
    let last = constant(alloc, d - 1)?;
    quotient_above(alloc, table, &last, p, d, gain)
}

/// Whether what an atom stands for is at most a number.
fn known_to(alloc: Global, table: &[Atom], atom: &Atom, high: i64) -> Result<bool, AllocError>
    ensures { IfOk result (λ shown. IsTrue shown → (v : ℕ → ℤ) (x : ℤ) → Fits table.now v → Meets v atom.now x → x ≤ℤ high) }
{
    match atom {
        Atom::Over(p, d) => quotient_to(alloc, table, p.list(), *d, high),
        _ => Ok(false),
    }
}

/// Whether an atom is at most a number.
pub fn is_to(alloc: Global, table: &[Atom], atom: u32, high: i64) -> Result<bool, AllocError>
    ensures { IfOk result (λ shown. IsTrue shown → (v : ℕ → ℤ) → Fits table.now v → v atom ≤ℤ high) }
{
    match table.get(atom as usize) {
        Some(known) => known_to(alloc, table, known, high),
        None => Ok(false),
    }
}
