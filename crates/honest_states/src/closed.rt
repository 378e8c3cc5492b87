//! Whether a table can be met wherever its front is.

ghost use Rattle.std.specs.Prelude.{◌≡◌, ◌<◌, ℕ, true, Some, slice_get, Option, IsTrue};
ghost use Rattle.dp_model.specs.declared.parts.PlainState.{PlainState};
ghost use Rattle.dp_model.specs.declared.parts.PlainValue.{PlainValue};
ghost use Rattle.poly_terms.specs.declared.table.Atom.{Atom};
ghost use Rattle.poly_eval.specs.Shows.{Shows, ShowsValue};
ghost use Rattle.honest_states.specs.Symbols.{IsClosed, RestsOn, is_free_kind};

use dp_base::Seq;
use poly_eval::Symbol;
use poly_met::{defined_from, is_sum_below};
use poly_terms::{Atom, Term};

/// Whether an atom may have any value of its kind.
fn is_free(atom: &Atom) -> bool
    ensures { result ≡ is_free_kind atom.now }
{
    match atom {
        Atom::Bit => true,
        Atom::Number(_, _) => true,
        _ => false,
    }
}

/// Whether the first atoms of a table are free.
fn are_free(table: &[Atom], n: usize) -> bool
    ensures { IsTrue result → (k : ℕ) (atom : Atom) → k < n → slice_get table.now k ≡ Some atom → is_free_kind atom ≡ true }
{
    for (k, atom) in table.iter().enumerate() {
        if k < n && !is_free(atom) {
            return false;
        }
    }
    true
}

/// Whether bits name the first atoms alone.
fn are_bits_below(bits: &[Seq<Term>], n: usize) -> bool
    ensures { IsTrue result → (held : Option PlainValue) → RestsOn n (λ v. ShowsValue v (Symbol.Members bits.now) held) }
{
    for bit in bits {
        if !is_sum_below(bit.list(), n) {
            return false;
        }
    }
    true
}

/// Whether a symbol names the first atoms alone.
fn is_symbol_below(symbol: &Symbol, n: usize) -> bool
    ensures { IsTrue result → (held : Option PlainValue) → RestsOn n (λ v. ShowsValue v symbol.now held) }
{
    match symbol {
        Symbol::Number(sum) => is_sum_below(sum.list(), n),
        Symbol::Members(bits) => are_bits_below(bits.list(), n),
    }
}

/// Whether symbols name the first atoms alone.
fn are_symbols_below(symbols: &[Symbol], n: usize) -> bool
    ensures { IsTrue result → (s : PlainState) → RestsOn n (λ v. Shows v symbols.now s) }
{
    for symbol in symbols {
        if !is_symbol_below(symbol, n) {
            return false;
        }
    }
    true
}

/// Whether the first atoms are free, each later one is defined by those before it, and symbols name the first alone: no
/// state that the symbols show is lost by a table that has grown.
pub fn is_closed(table: &[Atom], free: usize, symbols: &[Symbol]) -> bool
    ensures { IsTrue result → IsClosed table.now free symbols.now }
{
    if !are_free(table, free) || !defined_from(table, free) {
        return false;
    }
    are_symbols_below(symbols, free)
}
