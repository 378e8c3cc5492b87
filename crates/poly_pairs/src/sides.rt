//! The greater and the lesser of two numbers in a sum, one after the other, down to sums in which quotients and comparisons are replaced.

ghost use Rattle.std.specs.Prelude.{◌≡◌, ℕ, ℤ, IfOk, IsTrue};
ghost use Rattle.poly_terms.specs.Worth.{worth, IsSide};
ghost use Rattle.poly_terms.specs.Fits.{IsNeverNegative, Meets};
ghost use Rattle.poly_rules.specs.Sides.{IsExtreme, IsNeverNegativeWhere};

use crate::lessening::lessened_often;
use poly_rules::{at_least_zero, span_of};
use poly_terms::{Atom, Term, from_zero, with_side, with_sum};
use std::alloc::{AllocError, Global};

/// How deep sums within sums are looked at for their intervals.
const NESTED: u32 = 4;

/// How deep the rules go that know nothing of quotients.
const DEPTH: u32 = 8;

/// An atom that stands alone in a term and is the greater or the lesser of two sums: first one that hinders, whose both
/// sides have to do, since a side that helps is chosen by them.
fn side_to_try(table: &[Atom], terms: &[Term]) -> Option<u32> {
    let mut found = None;
    for term in terms {
        if let [atom] = term.atoms.list().as_slice() {
            match table.get(*atom as usize) {
                Some(Atom::Most(_, _)) => {
                    if term.coefficient < 0 {
                        return Some(*atom);
                    }
                    found = Some(*atom);
                }
                Some(Atom::Least(_, _)) => {
                    if term.coefficient > 0 {
                        return Some(*atom);
                    }
                    found = Some(*atom);
                }
                _ => {}
            }
        }
    }
    found
}

/// Whether an atom stands alone with a coefficient above 0, or else below 0.
fn helps(terms: &[Term], atom: u32, above: bool) -> bool {
    for term in terms {
        if let [only] = term.atoms.list().as_slice()
            && *only == atom
        {
            return if above {
                term.coefficient > 0
            } else {
                term.coefficient < 0
            };
        }
    }
    false
}

/// Whether a sum is at least 0 once quotients and comparisons are replaced.
fn by_numbers(alloc: Global, table: &[Atom], terms: &[Term]) -> Result<bool, AllocError>
    ensures { IfOk result (λ shown. IsTrue shown → IsNeverNegative table.now terms.now) }
{
    match lessened_often(alloc, table, terms)? {
        Some(less) => at_least_zero(alloc, table, &less, DEPTH),
        None => Ok(false),
    }
}

/// Whether a sum is at least 0, whatever its atoms are, by the sides of the greater or the lesser of two numbers.
#[cycle(sides)]
pub fn by_all_sides(
    alloc: Global,
    table: &[Atom],
    terms: &[Term],
    depth: u32,
) -> Result<bool, AllocError>
    ensures { IfOk result (λ shown. IsTrue shown → IsNeverNegative table.now terms.now) }
{
    if from_zero(span_of(table, terms, NESTED)) {
        return Ok(true);
    }
    if depth == 0 {
        return by_numbers(alloc, table, terms);
    }
    match side_to_try(table, terms) {
        Some(atom) => by_sides(alloc, table, terms, atom, depth - 1),
        None => by_numbers(alloc, table, terms),
    }
}

/// The same by the sides of the greater or the lesser of two sums.
#[cycle(sides)]
fn by_sides(
    alloc: Global,
    table: &[Atom],
    terms: &[Term],
    atom: u32,
    depth: u32,
) -> Result<bool, AllocError>
    ensures { IfOk result (λ shown. IsTrue shown → IsNeverNegative table.now terms.now) }
{
    match table.get(atom as usize) {
        Some(known) => by_known(alloc, table, terms, atom, known, depth),
        None => Ok(false),
    }
}

/// The same where an atom stands for this.
#[cycle(sides)]
fn by_known(
    alloc: Global,
    table: &[Atom],
    terms: &[Term],
    atom: u32,
    known: &Atom,
    depth: u32,
) -> Result<bool, AllocError>
    ensures { IfOk result (λ shown. IsTrue shown → IsNeverNegativeWhere table.now terms.now (λ v. Meets v known.now (v atom))) }
{
    match known {
        Atom::Most(p, q) => by_extreme(alloc, table, terms, atom, p.list(), q.list(), true, depth),
        Atom::Least(p, q) => {
            by_extreme(alloc, table, terms, atom, p.list(), q.list(), false, depth)
        }
        _ => Ok(false),
    }
}

/// The same where an atom is the greater of two sums, or the lesser: by one of them where that makes the sum no
/// greater, and else by each.
#[cycle(sides)]
fn by_extreme(
    alloc: Global,
    table: &[Atom],
    terms: &[Term],
    atom: u32,
    p: &[Term],
    q: &[Term],
    most: bool,
    depth: u32,
) -> Result<bool, AllocError>
    ensures { IfOk result (λ shown. IsTrue shown → IsNeverNegativeWhere table.now terms.now (λ v. IsExtreme most (worth v p.now) (worth v q.now) (v atom))) }
{
    if helps(terms, atom, most) {
        if by_side(alloc, table, terms, atom, p, most, depth)? {
            return Ok(true);
        }
        return by_side(alloc, table, terms, atom, q, most, depth);
    }
    if !by_sum(alloc, table, terms, atom, p, depth)? {
        return Ok(false);
    }
    by_sum(alloc, table, terms, atom, q, depth)
}

/// The same where a sum is on this side of an atom.
#[cycle(sides)]
fn by_side(
    alloc: Global,
    table: &[Atom],
    terms: &[Term],
    atom: u32,
    side: &[Term],
    below: bool,
    depth: u32,
) -> Result<bool, AllocError>
    ensures { IfOk result (λ shown. IsTrue shown → IsNeverNegativeWhere table.now terms.now (λ v. IsSide below (worth v side.now) (v atom))) }
{
    match with_side(alloc, terms, atom, side, below)? {
        Some(sum) => by_all_sides(alloc, table, &sum, depth),
        None => Ok(false),
    }
}

/// The same where an atom is this sum.
#[cycle(sides)]
fn by_sum(
    alloc: Global,
    table: &[Atom],
    terms: &[Term],
    atom: u32,
    sum: &[Term],
    depth: u32,
) -> Result<bool, AllocError>
    ensures { IfOk result (λ shown. IsTrue shown → IsNeverNegativeWhere table.now terms.now (λ v. v atom ≡ worth v sum.now)) }
{
    match with_sum(alloc, terms, atom, sum)? {
        Some(replaced) => by_all_sides(alloc, table, &replaced, depth),
        None => Ok(false),
    }
}
