//! Atoms that stand alone in the terms of a sum. What is found is tried afterwards, so nothing is promised here.

use poly_terms::{Atom, Term};

/// An atom that stands alone in a term, and how often it is counted there.
#[derive(Clone, Copy, Debug)]
pub struct Lone {
    pub atom: u32,
    pub times: i64,
}

/// Two atoms that stand alone, the one as often counted as the other is taken off.
#[derive(Clone, Copy, Debug)]
pub struct Pair {
    pub more: u32,
    pub less: u32,
    pub times: i64,
}

/// The atom of a term that has one alone.
fn lone_of(term: &Term) -> Option<Lone> {
    match term.atoms.list().as_slice() {
        [atom] => Some(Lone {
            atom: *atom,
            times: term.coefficient,
        }),
        _ => None,
    }
}

/// Whether an atom is a quotient.
fn is_quotient(table: &[Atom], atom: u32) -> bool {
    match table.get(atom as usize) {
        Some(Atom::Over(_, _)) => true,
        _ => false,
    }
}

/// Whether two atoms are quotients by one divisor, or two comparisons.
fn are_alike(table: &[Atom], a: u32, b: u32) -> bool {
    match (table.get(a as usize), table.get(b as usize)) {
        (Some(Atom::Over(_, d)), Some(Atom::Over(_, e))) => d == e,
        (Some(Atom::AtMostZero(_)), Some(Atom::AtMostZero(_))) => true,
        _ => false,
    }
}

/// An atom like another one that is as often taken off as that one is counted.
fn partner_of(table: &[Atom], terms: &[Term], lone: Lone) -> Option<u32> {
    for term in terms {
        if let Some(other) = lone_of(term)
            && other.times < 0
            && other.times.checked_neg() == Some(lone.times)
            && are_alike(table, lone.atom, other.atom)
        {
            return Some(other.atom);
        }
    }
    None
}

/// Two quotients by one divisor, or two comparisons, of which one is counted and the other taken off.
pub fn pair_in(table: &[Atom], terms: &[Term]) -> Option<Pair> {
    for term in terms {
        if let Some(lone) = lone_of(term)
            && lone.times > 0
            && let Some(less) = partner_of(table, terms, lone)
        {
            return Some(Pair {
                more: lone.atom,
                less,
                times: lone.times,
            });
        }
    }
    None
}

/// A quotient that stands alone.
pub fn quotient_in(table: &[Atom], terms: &[Term]) -> Option<Lone> {
    for term in terms {
        if let Some(lone) = lone_of(term)
            && is_quotient(table, lone.atom)
        {
            return Some(lone);
        }
    }
    None
}
