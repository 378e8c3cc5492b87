//! Sums that are no greater, in which quotients and comparisons are replaced by numbers.

ghost use Rattle.std.specs.Prelude.{◌≡◌, ℕ, ℤ, ◌≤ℤ◌, ◌+ℤ◌, ◌*ℤ◌, ◌-ℤ◌, IfOk, IfSome, IsTrue};
ghost use Rattle.poly_terms.specs.Worth.{worth};
ghost use Rattle.poly_terms.specs.Fits.{Fits};
ghost use Rattle.poly_pairs.specs.Less.{IsNoGreater};

use crate::above::{is_above, is_from, is_to};
use crate::finding::{Lone, Pair, pair_in, quotient_in};
use poly_rules::span_of;
use poly_terms::{Atom, Term, add_times, atom_alone, constant};
use std::alloc::{AllocError, Global};

/// How deep sums within sums are looked at for their intervals.
const NESTED: u32 = 4;

/// How often quotients and comparisons are replaced.
const ROUNDS: u32 = 8;

/// A sum and a multiple of another one.
fn with_times(
    alloc: Global,
    sum: &[Term],
    factor: i64,
    x: &[Term],
) -> Result<Option<Vec<Term>>, AllocError>
    ensures { IfOk result (λ answer. IfSome answer (λ p. (v : ℕ → ℤ) → worth v p.items ≡ worth v sum.now +ℤ factor *ℤ worth v x.now)) }
{
    let mut p = Vec::new(alloc);
    if add_times(&mut p, 1, sum)? && add_times(&mut p, factor, x)? {
        Ok(Some(p))
    } else {
        Ok(None)
    }
}

/// A sum and a multiple of an atom.
fn with_atom(
    alloc: Global,
    terms: &[Term],
    factor: i64,
    atom: u32,
) -> Result<Option<Vec<Term>>, AllocError>
    ensures { IfOk result (λ answer. IfSome answer (λ p. (v : ℕ → ℤ) → worth v p.items ≡ worth v terms.now +ℤ factor *ℤ v atom)) }
{
    let alone = atom_alone(alloc, atom)?;
    with_times(alloc, terms, factor, &alone)
}

/// A sum without so many times an atom.
fn without(
    alloc: Global,
    terms: &[Term],
    atom: u32,
    times: i64,
) -> Result<Option<Vec<Term>>, AllocError>
    ensures { IfOk result (λ answer. IfSome answer (λ rest. (v : ℕ → ℤ) → worth v terms.now ≡ worth v rest.items +ℤ times *ℤ v atom)) }
{
    match times.checked_neg() {
        Some(opposite) => with_atom(alloc, terms, opposite, atom),
        None => Ok(None),
    }
}

/// A sum without a pair of atoms.
fn without_both(alloc: Global, terms: &[Term], pair: Pair) -> Result<Option<Vec<Term>>, AllocError>
    ensures { IfOk result (λ answer. IfSome answer (λ rest. (v : ℕ → ℤ) → worth v terms.now +ℤ pair.times *ℤ v pair.less ≡ worth v rest.items +ℤ pair.times *ℤ v pair.more)) }
{
    match without(alloc, terms, pair.more, pair.times)? {
        Some(rest) => with_atom(alloc, &rest, pair.times, pair.less),
        None => Ok(None),
    }
}

/// A sum with so many times a number.
fn with_number(
    alloc: Global,
    rest: &[Term],
    times: i64,
    n: i64,
) -> Result<Option<Vec<Term>>, AllocError>
    ensures { IfOk result (λ answer. IfSome answer (λ sum. (v : ℕ → ℤ) → worth v sum.items ≡ worth v rest.now +ℤ times *ℤ n)) }
{
    let Some(many) = times.checked_mul(n) else {
        return Ok(None);
    };
    let mut sum = constant(alloc, many)?;
    if add_times(&mut sum, 1, rest)? {
        Ok(Some(sum))
    } else {
        Ok(None)
    }
}

/// How much so many of a number have to be at least, or at most where they are taken off, for a rest from `low` on to come to 0.
fn wanted(low: Option<i64>, times: i64) -> Option<i64> {
    let Some(low) = low else {
        return Some(0);
    };
    if times > 0 {
        low.checked_div_euclid(times)?.checked_neg()
    } else {
        low.checked_div_euclid(times.checked_neg()?)
    }
}

/// A sum that is no greater, where what a pair of atoms differ by is replaced by a number.
fn by_pair(
    alloc: Global,
    table: &[Atom],
    terms: &[Term],
    pair: Pair,
) -> Result<Option<Vec<Term>>, AllocError>
    ensures { IfOk result (λ answer. IfSome answer (λ less. IsNoGreater table.now less.items terms.now)) }
{
    let Some(rest) = without_both(alloc, terms, pair)? else {
        return Ok(None);
    };
    let Some(gain) = wanted(span_of(table, &rest, NESTED).low, pair.times) else {
        return Ok(None);
    };
    if pair.times > 0 && is_above(alloc, table, pair.more, pair.less, gain)? {
        with_number(alloc, &rest, pair.times, gain)
    } else {
        Ok(None)
    }
}

/// Whether a number may stand for an atom that is counted, or taken off, so that the sum is no greater.
fn may_stand(alloc: Global, table: &[Atom], lone: Lone, n: i64) -> Result<bool, AllocError>
    ensures { IfOk result (λ shown. IsTrue shown → (v : ℕ → ℤ) → Fits table.now v → (lone.times *ℤ n) ≤ℤ (lone.times *ℤ v lone.atom)) }
{
    if lone.times > 0 {
        is_from(alloc, table, lone.atom, n)
    } else {
        is_to(alloc, table, lone.atom, n)
    }
}

/// A sum that is no greater, where a quotient is replaced by a number.
fn by_lone(
    alloc: Global,
    table: &[Atom],
    terms: &[Term],
    lone: Lone,
) -> Result<Option<Vec<Term>>, AllocError>
    ensures { IfOk result (λ answer. IfSome answer (λ less. IsNoGreater table.now less.items terms.now)) }
{
    let Some(rest) = without(alloc, terms, lone.atom, lone.times)? else {
        return Ok(None);
    };
    let Some(n) = wanted(span_of(table, &rest, NESTED).low, lone.times) else {
        return Ok(None);
    };
    if may_stand(alloc, table, lone, n)? {
        with_number(alloc, &rest, lone.times, n)
    } else {
        Ok(None)
    }
}

/// A sum that is no greater, in which quotients or comparisons are replaced by a number, if some are found.
fn lessened(alloc: Global, table: &[Atom], terms: &[Term]) -> Result<Option<Vec<Term>>, AllocError>
    ensures { IfOk result (λ answer. IfSome answer (λ less. IsNoGreater table.now less.items terms.now)) }
{
    if let Some(pair) = pair_in(table, terms) {
        return by_pair(alloc, table, terms, pair);
    }
    match quotient_in(table, terms) {
        Some(lone) => by_lone(alloc, table, terms, lone),
        None => Ok(None),
    }
}

/// The same sum once more.
fn copied(alloc: Global, terms: &[Term]) -> Result<Option<Vec<Term>>, AllocError>
    ensures { IfOk result (λ answer. IfSome answer (λ p. (v : ℕ → ℤ) → worth v p.items ≡ worth v terms.now)) }
{
    let mut same = Vec::new(alloc);
    if add_times(&mut same, 1, terms)? {
        Ok(Some(same))
    } else {
        Ok(None)
    }
}

/// A sum that is no greater, in which quotients and comparisons are replaced by numbers, as long as some are found.
pub fn lessened_often(
    alloc: Global,
    table: &[Atom],
    terms: &[Term],
) -> Result<Option<Vec<Term>>, AllocError>
    ensures { IfOk result (λ answer. IfSome answer (λ less. IsNoGreater table.now less.items terms.now)) }
{
    let Some(mut sum) = copied(alloc, terms)? else {
        return Ok(None);
    };
    for _round in 0..ROUNDS {
        match lessened(alloc, table, &sum)? {
            Some(less) => sum = less,
            None => return Ok(Some(sum)),
        }
    }
    Ok(Some(sum))
}
