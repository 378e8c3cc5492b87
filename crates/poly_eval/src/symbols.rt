//! Symbolic states.

ghost use Rattle.std.specs.Prelude.{◌≡◌, ℕ, ℤ, pos, length, slice_index, IfOk, IfSome, IsTrue, Option, Some, ◌++◌, ◌∷◌, []};
ghost use Rattle.std.specs.List.{range_with_len};
ghost use Rattle.dp_model.specs.Typing.{is_state, kind_at};
ghost use Rattle.dp_model.specs.Evaluation.{number_in, number_held, has, set_in, set_held, count_of, kind_of, object_of_kind, range_of};
ghost use Rattle.dp_model.specs.declared.parts.PlainState.{PlainState};
ghost use Rattle.dp_model.specs.declared.parts.PlainValue.{PlainValue};
ghost use Rattle.poly_terms.specs.Worth.{worth};
ghost use Rattle.poly_eval.specs.Shows.{Shows, ShowsValue, AreBits};
ghost use Rattle.poly_eval.specs.Bits.{Tells};

use crate::operations::same_sum;
use crate::rows::{full_row, same_row};
use crate::tables::count_of;
use crate::untold::Untold;
use dp_base::Seq;
use dp_model::{Model, Over, VarKind};
use poly_terms::{Term, constant};
use std::alloc::Global;

/// What is known of a variable's value: a polynomial, or a bit for each member of its object type.
#[derive(Debug, Drop)]
pub enum Symbol {
    Number(Seq<Term>),
    Members(Seq<Seq<Term>>),
}

/// The number that a symbol stands for.
fn number_of(alloc: Global, symbol: &Symbol) -> Result<Vec<Term>, Untold>
    ensures { IfOk result (λ p. (v : ℕ → ℤ) (held : Option PlainValue) → ShowsValue v symbol.now held → number_held held ≡ worth v p.items) }
{
    match symbol {
        Symbol::Number(p) => same_sum(alloc, p.list()),
        Symbol::Members(_) => Err(Untold::Form),
    }
}

/// A variable's number.
pub fn variable(alloc: Global, symbols: &[Symbol], place: u32) -> Result<Vec<Term>, Untold>
    ensures { IfOk result (λ p. (v : ℕ → ℤ) (s : PlainState) → Shows v symbols.now s → number_in s place ≡ worth v p.items) }
{
    match symbols.get(place as usize) {
        Some(symbol) => number_of(alloc, symbol),
        None => Err(Untold::Form),
    }
}

/// A parameter's value.
pub fn parameter(alloc: Global, given: &[u32], place: u32) -> Result<Vec<Term>, Untold>
    ensures { IfOk result (λ p. (v : ℕ → ℤ) → worth v p.items ≡ pos (slice_index given.now place)) }
{
    let at = place as usize;
    if at < given.len() {
        Ok(constant(alloc, i64::from(given[at]))?)
    } else {
        Err(Untold::Form)
    }
}

/// The object type of a set variable.
fn set_object(model: &Model, place: u32) -> Option<u32>
    ensures { IfSome result (λ object. kind_at model.now.variables place ≡ Some (VarKind.Set object)) }
{
    match model.variables.list().get(place as usize)?.kind {
        VarKind::Set(object) => Some(object),
        VarKind::Element(_) | VarKind::Integer => None,
    }
}

/// The row that a symbol has.
fn row_of_symbol(alloc: Global, symbol: &Symbol) -> Result<Vec<Seq<Term>>, Untold>
    ensures { IfOk result (λ row. (v : ℕ → ℤ) (held : Option PlainValue) → ShowsValue v symbol.now held → Tells v row.items (has (set_held held))) }
{
    match symbol {
        Symbol::Members(row) => same_row(alloc, row.list()),
        Symbol::Number(_) => Err(Untold::Form),
    }
}

/// The row of a set variable.
fn variable_row(alloc: Global, symbols: &[Symbol], place: u32) -> Result<Vec<Seq<Term>>, Untold>
    ensures { IfOk result (λ row. (v : ℕ → ℤ) (s : PlainState) → Shows v symbols.now s → Tells v row.items (has (set_in s place))) }
{
    match symbols.get(place as usize) {
        Some(symbol) => row_of_symbol(alloc, symbol),
        None => Err(Untold::Form),
    }
}

/// The bits of a set variable.
pub fn set_variable(
    alloc: Global,
    model: &Model,
    symbols: &[Symbol],
    place: u32,
) -> Result<Vec<Seq<Term>>, Untold>
    ensures many { IfOk result (λ row. length row.items ≡ count_of model.now (object_of_kind (kind_of model.now place))) }
    ensures bits { IfOk result (λ row. (v : ℕ → ℤ) (s : PlainState) → IsTrue (is_state model.now.objects model.now.variables s) → Shows v symbols.now s → AreBits v row.items (set_in s place)) }
{
    let Some(object) = set_object(model, place) else {
        return Err(Untold::Form);
    };
    let row = variable_row(alloc, symbols, place)?;
    if row.len() == count_of(model, object) as usize {
        Ok(row)
    } else {
        Err(Untold::Form)
    }
}

/// The bits of what a `forall` ranges over.
pub fn range_row(
    alloc: Global,
    model: &Model,
    symbols: &[Symbol],
    over: Over,
) -> Result<Vec<Seq<Term>>, Untold>
    ensures { IfOk result (λ row. (v : ℕ → ℤ) (s : PlainState) → IsTrue (is_state model.now.objects model.now.variables s) → Shows v symbols.now s → AreBits v row.items (range_of model.now s over)) }
{
    match over {
        Over::Object(object) => object_row(alloc, model, object),
        Over::Members(place) => set_variable(alloc, model, symbols, place),
    }
}

/// The bits of all members of an object type.
fn object_row(alloc: Global, model: &Model, object: u32) -> Result<Vec<Seq<Term>>, Untold>
    ensures { IfOk result (λ row. (v : ℕ → ℤ) → AreBits v row.items (range_with_len 0 (count_of model.now object))) }
{
    full_row(alloc, count_of(model, object))
}

/// The values of parameters with one more.
pub fn with_more(alloc: Global, given: &[u32], member: usize) -> Result<Vec<u32>, Untold>
    ensures { IfOk result (λ more. more.items ≡ given.now ++ member ∷ []) }
{
    let mut more = Vec::new(alloc);
    more.extend_from_slice(given)?;
    more.push(u32::try_from(member).map_err(|_| Untold::Form)?)?;
    Ok(more)
}
