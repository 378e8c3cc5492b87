//! Copies of modes and symbols.

ghost use Rattle.std.specs.Prelude.{◌≡◌, IfOk};

use dp_base::Seq;
use honest_states::{Known, Mode};
use poly_eval::Symbol;
use poly_terms::Term;
use std::alloc::{AllocError, Global};

fn copied_atoms(atoms: &Seq<u32>) -> Result<Seq<u32>, AllocError>
    ensures { IfOk result (λ same. same ≡ atoms.now) }
{
    Ok(Seq::of(atoms.list().clone()?))
}

fn copied_term(term: &Term) -> Result<Term, AllocError>
    ensures { IfOk result (λ same. same ≡ term.now) }
{
    let atoms = copied_atoms(&term.atoms)?;
    Ok(Term {
        coefficient: term.coefficient,
        atoms,
    })
}

fn copied_sum(alloc: Global, sum: &[Term]) -> Result<Vec<Term>, AllocError>
    ensures { IfOk result (λ same. same.items ≡ sum.now) }
{
    let mut same = Vec::new(alloc);
    for term in sum {
        same.push(copied_term(term)?)?;
    }
    Ok(same)
}

fn copied_bits(alloc: Global, bits: &[Seq<Term>]) -> Result<Vec<Seq<Term>>, AllocError>
    ensures { IfOk result (λ same. same.items ≡ bits.now) }
{
    let mut same = Vec::new(alloc);
    for bit in bits {
        same.push(Seq::of(copied_sum(alloc, bit.list())?))?;
    }
    Ok(same)
}

fn copied_symbol(alloc: Global, symbol: &Symbol) -> Result<Symbol, AllocError>
    ensures { IfOk result (λ same. same ≡ symbol.now) }
{
    match symbol {
        Symbol::Number(sum) => Ok(Symbol::Number(Seq::of(copied_sum(alloc, sum.list())?))),
        Symbol::Members(bits) => Ok(Symbol::Members(Seq::of(copied_bits(alloc, bits.list())?))),
    }
}

/// The same symbols once more.
pub fn copied_symbols(alloc: Global, symbols: &[Symbol]) -> Result<Vec<Symbol>, AllocError>
    ensures { IfOk result (λ same. same.items ≡ symbols.now) }
{
    let mut same = Vec::new(alloc);
    for symbol in symbols {
        same.push(copied_symbol(alloc, symbol)?)?;
    }
    Ok(same)
}

fn copied_known(known: &Known) -> Result<Known, AllocError>
    ensures { IfOk result (λ same. same ≡ known.now) }
{
    match known {
        Known::Number(span) => Ok(Known::Number(*span)),
        Known::Members(members) => Ok(Known::Members(Seq::of(members.list().clone()?))),
    }
}

fn copied_all(alloc: Global, known: &[Known]) -> Result<Vec<Known>, AllocError>
    ensures { IfOk result (λ same. same.items ≡ known.now) }
{
    let mut same = Vec::new(alloc);
    for x in known {
        same.push(copied_known(x)?)?;
    }
    Ok(same)
}

/// The same mode once more.
pub fn same_mode(alloc: Global, mode: &Mode) -> Result<Mode, AllocError>
    ensures { IfOk result (λ same. same ≡ mode.now) }
{
    Ok(Mode {
        known: Seq::of(copied_all(alloc, mode.known.list())?),
    })
}
