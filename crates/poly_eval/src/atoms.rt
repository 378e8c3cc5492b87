//! Atoms that are put into a table once.

ghost use Rattle.std.specs.Prelude.{◌≡◌, ℕ, ℤ, Some, slice_get, IfOk, IfSome, IsTrue};
ghost use Rattle.poly_terms.specs.Worth.{worth};
ghost use Rattle.poly_terms.specs.Fits.{Fits, Meets};
ghost use Rattle.poly_eval.specs.Shows.{Extends};

use crate::untold::Untold;
use poly_terms::{Atom, Term, atom_alone};
use std::alloc::Global;

/// Whether two sums have the same terms.
fn is_same_sum(a: &[Term], b: &[Term]) -> bool
    ensures { IsTrue result → a.now ≡ b.now }
{
    match (a, b) {
        ([], []) => true,
        ([x, a @ ..], [y, b @ ..]) => is_same_term(x, y) && is_same_sum(a, b),
        _ => false,
    }
}

fn is_same_term(a: &Term, b: &Term) -> bool
    ensures { IsTrue result → a.now ≡ b.now }
{
    a.coefficient == b.coefficient && a.atoms.list().as_slice() == b.atoms.list().as_slice()
}

/// Whether two atoms stand for the same: only those that are made of sums are compared.
fn is_same_atom(a: &Atom, b: &Atom) -> bool
    ensures { IsTrue result → a.now ≡ b.now }
{
    match a {
        Atom::Most(p, q) => match b {
            Atom::Most(r, s) => is_same_sum(p.list(), r.list()) && is_same_sum(q.list(), s.list()),
            _ => false,
        },
        Atom::Least(p, q) => match b {
            Atom::Least(r, s) => is_same_sum(p.list(), r.list()) && is_same_sum(q.list(), s.list()),
            _ => false,
        },
        Atom::Over(p, d) => match b {
            Atom::Over(q, e) => *d == *e && is_same_sum(p.list(), q.list()),
            _ => false,
        },
        Atom::AtMostZero(p) => match b {
            Atom::AtMostZero(q) => is_same_sum(p.list(), q.list()),
            _ => false,
        },
        Atom::Bit => false,
        Atom::Number(_, _) => false,
    }
}

/// The number of an atom that stands for the same.
fn place_of(table: &[Atom], atom: &Atom) -> Option<u32>
    ensures { IfSome result (λ k. slice_get table.now k ≡ Some atom.now) }
{
    for (i, known) in table.iter().enumerate() {
        if is_same_atom(known, atom) {
            return u32::try_from(i).ok();
        }
    }
    None
}

/// Puts an atom at the end of a table, and answers its number.
fn push_atom(table: &mut Vec<Atom>, atom: Atom) -> Result<u32, Untold>
    ensures there { IfOk result (λ k. slice_get table.new.items k ≡ Some atom) }
    ensures grows { Extends table.old.items table.new.items }
{
    let Ok(number) = u32::try_from(table.len()) else {
        return Err(Untold::Form);
    };
    table.push(atom)?;
    Ok(number)
}

/// Puts an atom into a table, if it has none that stands for the same, and answers it as a sum.
pub fn put_atom(alloc: Global, table: &mut Vec<Atom>, atom: Atom) -> Result<Vec<Term>, Untold>
    ensures value { IfOk result (λ p. (v : ℕ → ℤ) → Fits table.new.items v → Meets v atom (worth v p.items)) }
    ensures grows { Extends table.old.items table.new.items }
{
    let number = match place_of(table, &atom) {
        Some(number) => number,
        None => push_atom(table, atom)?,
    };
    Ok(atom_alone(alloc, number)?)
}
