//! Whether atoms are defined by those before them.

ghost use Rattle.std.specs.Prelude.{◌≡◌, true, IsTrue};
ghost use Rattle.poly_met.specs.Met.{atoms_below, sum_below, is_defined_below, IsDefinedFrom};

use poly_terms::{Atom, Term};

/// Whether atoms are all below a number.
fn are_below(atoms: &[u32], n: usize) -> bool
    ensures { IsTrue result → atoms_below n atoms.now ≡ true }
{
    for atom in atoms {
        if *atom as usize >= n {
            return false;
        }
    }
    true
}

/// Whether the atoms of a sum are all below a number.
pub fn is_sum_below(terms: &[Term], n: usize) -> bool
    ensures { IsTrue result → sum_below n terms.now ≡ true }
{
    for term in terms {
        if !are_below(term.atoms.list(), n) {
            return false;
        }
    }
    true
}

/// Whether what an atom stands for is defined by atoms below a number.
fn is_defined(atom: &Atom, n: usize) -> bool
    ensures { IsTrue result → is_defined_below n atom.now ≡ true }
{
    match atom {
        Atom::Bit => false,
        Atom::Number(_, _) => false,
        Atom::Most(p, q) => is_sum_below(p.list(), n) && is_sum_below(q.list(), n),
        Atom::Least(p, q) => is_sum_below(p.list(), n) && is_sum_below(q.list(), n),
        Atom::Over(p, _) => is_sum_below(p.list(), n),
        Atom::AtMostZero(p) => is_sum_below(p.list(), n),
    }
}

/// Whether each atom of a table from a place on is defined by those before it.
pub fn defined_from(table: &[Atom], from: usize) -> bool
    ensures { IsTrue result → IsDefinedFrom from table.now }
{
    for (k, atom) in table.iter().enumerate() {
        if from <= k && !is_defined(atom, k) {
            return false;
        }
    }
    true
}
