//! Cells of tables at arguments that are numbers.

ghost use Rattle.std.specs.Prelude.{◌≡◌, ℕ, ℤ, length, IfOk, IfSome};
ghost use Rattle.dp_model.specs.Evaluation.{count_of, cells_of, cells_object, number_cell, truth_cell, set_cell, place_from, place_in, table_counts};
ghost use Rattle.poly_terms.specs.Worth.{worth, as_bit};
ghost use Rattle.wide_values.specs.Wide.{wide_member, wide_members};
ghost use Rattle.poly_eval.specs.Shows.{AreBits};

use crate::bits::truth;
use crate::rows::row_of;
use crate::tables::{number_at, numbers_in, set_at, table_counts, truth_at};
use crate::untold::Untold;
use dp_base::Seq;
use dp_model::Model;
use poly_terms::{Term, constant};
use std::alloc::Global;

/// A number as a member of an object type with this count.
fn member_of(n: i64, count: u32) -> Option<u32>
    ensures { IfSome result (λ k. wide_member n ≡ k) }
{
    let member = u32::try_from(n).ok()?;
    if member < count { Some(member) } else { None }
}

/// The place of the cell at these arguments, where `place` is that which the arguments before them lead to.
fn place_from(place: usize, counts: &[u32], numbers: &[i64]) -> Option<usize>
    ensures { IfSome result (λ end. place_from place counts.now (wide_members counts.now numbers.now) ≡ end) }
{
    let [count, counts @ ..] = counts else {
        return Some(place);
    };
    let [n, numbers @ ..] = numbers else {
        return Some(place);
    };
    let member = member_of(*n, *count)?;
    let next = place
        .checked_mul(*count as usize)?
        .checked_add(member as usize)?;
    place_from(next, counts, numbers)
}

/// The place of a table's cell at these arguments.
fn place_in(alloc: Global, model: &Model, t: u32, numbers: &[i64]) -> Result<usize, Untold>
    ensures { IfOk result (λ place. place_in model.now t (wide_members (table_counts model.now t) numbers.now) ≡ place) }
{
    let counts = table_counts(alloc, model, t)?;
    place_from(0, &counts, numbers).ok_or(Untold::Form)
}

/// The cell of a table of numbers.
pub fn number_cell(
    alloc: Global,
    model: &Model,
    t: u32,
    numbers: Vec<i64>,
) -> Result<Vec<Term>, Untold>
    ensures { IfOk result (λ p. (v : ℕ → ℤ) → number_cell (cells_of model.now t) (place_in model.now t (wide_members (table_counts model.now t) numbers.items)) ≡ worth v p.items) }
{
    let place = place_in(alloc, model, t, &numbers)?;
    let cell = number_at(numbers_in(model, t), place).ok_or(Untold::Form)?;
    Ok(constant(alloc, cell)?)
}

/// The cell of a table of truth values.
pub fn truth_cell(
    alloc: Global,
    model: &Model,
    t: u32,
    numbers: Vec<i64>,
) -> Result<Vec<Term>, Untold>
    ensures { IfOk result (λ p. (v : ℕ → ℤ) → as_bit (truth_cell (cells_of model.now t) (place_in model.now t (wide_members (table_counts model.now t) numbers.items))) ≡ worth v p.items) }
{
    let place = place_in(alloc, model, t, &numbers)?;
    let cell = truth_at(model, t, place).ok_or(Untold::Form)?;
    Ok(truth(alloc, cell)?)
}

/// The cell of a table of sets, as bits.
pub fn set_cell(
    alloc: Global,
    model: &Model,
    t: u32,
    numbers: Vec<i64>,
) -> Result<Vec<Seq<Term>>, Untold>
    ensures many { IfOk result (λ row. length row.items ≡ count_of model.now (cells_object (cells_of model.now t))) }
    ensures bits { IfOk result (λ row. (v : ℕ → ℤ) → AreBits v row.items (set_cell (cells_of model.now t) (place_in model.now t (wide_members (table_counts model.now t) numbers.items)))) }
{
    let place = place_in(alloc, model, t, &numbers)?;
    let (count, set) = set_at(model, t, place).ok_or(Untold::Form)?;
    row_of(alloc, set.list(), count)
}
