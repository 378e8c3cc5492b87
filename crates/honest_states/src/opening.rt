//! The symbols that stand for every state of a mode.

ghost use Rattle.std.specs.Prelude.{◌≡◌, ◌∷◌, ◌++◌, [], ℕ, ℤ, Bool, true, length, Some, Option, IfOk, IfSome, OnOk};
ghost use Rattle.dp_model.specs.declared.parts.PlainState.{PlainState};
ghost use Rattle.dp_model.specs.declared.parts.PlainValue.{PlainValue};
ghost use Rattle.poly_terms.specs.Worth.{worth, as_bit};
ghost use Rattle.poly_eval.specs.Shows.{ShowsValue};
ghost use Rattle.honest_states.specs.Modes.{is_between, is_so, is_known, in_mode};
ghost use Rattle.honest_states.specs.Symbols.{AreFree, CanShow, Opens, is_free_kind};

use crate::mode::{Known, Mode};
use dp_base::Seq;
use poly_eval::Symbol;
use poly_terms::{Atom, Span, Term, atom_alone, constant};
use std::alloc::{AllocError, Global};

/// A symbol for each variable, over a table of atoms that stand for what is not known.
#[derive(Debug, Drop)]
pub struct Symbolic {
    pub table: Vec<Atom>,
    pub symbols: Vec<Symbol>,
}

/// Puts one more atom into a table, and answers it as a sum.
fn opened(alloc: Global, table: &mut Vec<Atom>, atom: Atom) -> Result<Option<Vec<Term>>, AllocError>
    ensures free { OnOk result (is_free_kind atom ≡ true → AreFree table.old.items → AreFree table.new.items) }
    ensures last { IfOk result (λ answer. IfSome answer (λ p. (table.new.items ≡ table.old.items ++ atom ∷ []) × ((v : ℕ → ℤ) → worth v p.items ≡ v (length table.old.items)))) }
{
    match u32::try_from(table.len()) {
        Ok(number) => {
            table.push(atom)?;
            Ok(Some(atom_alone(alloc, number)?))
        }
        Err(_) => Ok(None),
    }
}

/// A number between these ends as a sum.
fn number_of(
    alloc: Global,
    table: &mut Vec<Atom>,
    span: Span,
) -> Result<Option<Vec<Term>>, AllocError>
    ensures free { OnOk result (AreFree table.old.items → AreFree table.new.items) }
    ensures shows { IfOk result (λ answer. IfSome answer (λ p. (x : ℤ) → is_between span x ≡ true → Opens table.old.items table.new.items (λ v. x ≡ worth v p.items))) }
{
    match (span.low, span.high) {
        (Some(low), Some(high)) if low == high => Ok(Some(constant(alloc, low)?)),
        _ => opened(alloc, table, Atom::Number(span.low, span.high)),
    }
}

/// A member that is in a set or not as is known, as a bit.
fn bit_of(
    alloc: Global,
    table: &mut Vec<Atom>,
    known: Option<bool>,
) -> Result<Option<Vec<Term>>, AllocError>
    ensures free { OnOk result (AreFree table.old.items → AreFree table.new.items) }
    ensures shows { IfOk result (λ answer. IfSome answer (λ p. (b : Bool) → is_so known b ≡ true → Opens table.old.items table.new.items (λ v. as_bit b ≡ worth v p.items))) }
{
    match known {
        Some(true) => Ok(Some(constant(alloc, 1)?)),
        Some(false) => Ok(Some(constant(alloc, 0)?)),
        None => opened(alloc, table, Atom::Bit),
    }
}

/// A bit for each member of an object type.
fn bits_of(
    alloc: Global,
    table: &mut Vec<Atom>,
    members: &[Option<bool>],
) -> Result<Option<Vec<Seq<Term>>>, AllocError>
    ensures free { OnOk result (AreFree table.old.items → AreFree table.new.items) }
    ensures shows { IfOk result (λ answer. IfSome answer (λ bits. (held : Option PlainValue) → is_known (Known.Members members.now) held ≡ true → Opens table.old.items table.new.items (λ v. ShowsValue v (Symbol.Members bits.items) held))) }
{
    let mut bits = Vec::new(alloc);
    for known in members {
        let Some(bit) = bit_of(alloc, table, *known)? else {
            return Ok(None);
        };
        bits.push(Seq::of(bit))?;
    }
    Ok(Some(bits))
}

/// The symbol of a variable.
fn symbol_of(
    alloc: Global,
    table: &mut Vec<Atom>,
    known: &Known,
) -> Result<Option<Symbol>, AllocError>
    ensures free { OnOk result (AreFree table.old.items → AreFree table.new.items) }
    ensures shows { IfOk result (λ answer. IfSome answer (λ x. (held : Option PlainValue) → is_known known.now held ≡ true → Opens table.old.items table.new.items (λ v. ShowsValue v x held))) }
{
    match known {
        Known::Number(span) => match number_of(alloc, table, *span)? {
            Some(sum) => Ok(Some(Symbol::Number(Seq::of(sum)))),
            None => Ok(None),
        },
        Known::Members(members) => match bits_of(alloc, table, members.list())? {
            Some(bits) => Ok(Some(Symbol::Members(Seq::of(bits)))),
            None => Ok(None),
        },
    }
}

/// Symbols that stand for every state of a mode: a number or a member of which all is known is a constant, and any
/// other one an atom of its own. `None` where the atoms are too many.
pub fn symbols_of(alloc: Global, mode: &Mode) -> Result<Option<Symbolic>, AllocError>
    ensures free { IfOk result (λ answer. IfSome answer (λ x. AreFree x.table.items)) }
    ensures shows { IfOk result (λ answer. IfSome answer (λ x. (s : PlainState) → in_mode mode.now s ≡ true → CanShow x.table.items x.symbols.items s)) }
{
    let mut table = Vec::new(alloc);
    let mut symbols = Vec::new(alloc);
    for known in mode.known.list() {
        let Some(symbol) = symbol_of(alloc, &mut table, known)? else {
            return Ok(None);
        };
        symbols.push(symbol)?;
    }
    Ok(Some(Symbolic { table, symbols }))
}
