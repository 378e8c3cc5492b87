//! Products of bits that are taken off, replaced by one of their bits that is counted: a product of bits is no greater than each of them.

ghost use Rattle.std.specs.Prelude.{◌≡◌, ℕ, ℤ, ◌+ℤ◌, ◌*ℤ◌, ◌≤ℤ◌, IfOk, IfSome, IsTrue};
ghost use Rattle.poly_terms.specs.Worth.{product, term_worth, worth};
ghost use Rattle.poly_terms.specs.Fits.{Fits};
ghost use Rattle.honest_states.specs.Bits.{AreBits, IsAmong};

use dp_base::Seq;
use poly_terms::{Atom, Term, add_term, add_times, atom_alone, is_bit};
use std::alloc::{AllocError, Global};

/// Whether all atoms are bits.
fn are_bits(table: &[Atom], atoms: &[u32]) -> bool
    ensures { IsTrue result → (v : ℕ → ℤ) → Fits table.now v → AreBits v atoms.now }
{
    for atom in atoms {
        if !is_bit(table, *atom) {
            return false;
        }
    }
    true
}

/// Whether an atom stands alone in a term that counts it.
fn is_counted(terms: &[Term], atom: u32) -> bool {
    for term in terms {
        if let [alone] = term.atoms.list().as_slice()
            && *alone == atom
        {
            return term.coefficient > 0;
        }
    }
    false
}

/// The first of these atoms that stands alone in a term that counts it.
fn counted_in(terms: &[Term], atoms: &[u32]) -> Option<u32>
    ensures { IfSome result (λ atom. IsAmong atom atoms.now) }
{
    for atom in atoms {
        if is_counted(terms, *atom) {
            return Some(*atom);
        }
    }
    None
}

/// The bit that may stand for a product of some, if there is one.
fn bit_among(table: &[Atom], terms: &[Term], atoms: &[u32]) -> Option<u32>
    ensures { IfSome result (λ atom. (v : ℕ → ℤ) → Fits table.now v → product v atoms.now ≤ℤ v atom) }
{
    if atoms.len() > 1 && are_bits(table, atoms) {
        counted_in(terms, atoms)
    } else {
        None
    }
}

/// The bit that may stand for the product of a term that is taken off, if there is one.
fn bit_for(table: &[Atom], terms: &[Term], term: &Term) -> Option<u32>
    ensures { IfSome result (λ atom. (v : ℕ → ℤ) → Fits table.now v → (term.now.coefficient *ℤ v atom) ≤ℤ term_worth v term.now) }
{
    if term.coefficient < 0 {
        bit_among(table, terms, term.atoms.list())
    } else {
        None
    }
}

/// The same atoms once more.
fn copied(atoms: &Seq<u32>) -> Result<Seq<u32>, AllocError>
    ensures { IfOk result (λ same. same ≡ atoms.now) }
{
    Ok(Seq::of(atoms.list().clone()?))
}

/// Adds so many times an atom.
fn add_atom(alloc: Global, less: &mut Vec<Term>, times: i64, atom: u32) -> Result<bool, AllocError>
    ensures { IfOk result (λ added. IsTrue added → (v : ℕ → ℤ) → worth v less.new.items ≡ worth v less.old.items +ℤ times *ℤ v atom) }
{
    let alone = atom_alone(alloc, atom)?;
    add_times(less, times, &alone)
}

/// Adds a term, or one that is no greater.
fn add_absorbed(
    alloc: Global,
    table: &[Atom],
    terms: &[Term],
    less: &mut Vec<Term>,
    term: &Term,
) -> Result<bool, AllocError>
    ensures { IfOk result (λ added. IsTrue added → (v : ℕ → ℤ) → Fits table.now v → worth v less.new.items ≤ℤ (worth v less.old.items +ℤ term_worth v term.now)) }
{
    match bit_for(table, terms, term) {
        Some(atom) => add_atom(alloc, less, term.coefficient, atom),
        None => {
            let atoms = copied(&term.atoms)?;
            add_term(less, term.coefficient, atoms)
        }
    }
}

/// Whether a product of atoms is taken off.
fn takes_product(terms: &[Term]) -> bool {
    for term in terms {
        if term.coefficient < 0 && term.atoms.list().len() > 1 {
            return true;
        }
    }
    false
}

/// A sum that is no greater: where products of bits are taken off, one of their bits that is counted is taken off in place of each.
/// `None` where no product is taken off, or a coefficient has no place in 64 bits.
pub fn absorbed(
    alloc: Global,
    table: &[Atom],
    terms: &[Term],
) -> Result<Option<Vec<Term>>, AllocError>
    ensures { IfOk result (λ answer. IfSome answer (λ less. (v : ℕ → ℤ) → Fits table.now v → worth v less.items ≤ℤ worth v terms.now)) }
{
    if !takes_product(terms) {
        return Ok(None);
    }
    let mut less = Vec::new(alloc);
    for term in terms {
        if !add_absorbed(alloc, table, terms, &mut less, term)? {
            return Ok(None);
        }
    }
    Ok(Some(less))
}
