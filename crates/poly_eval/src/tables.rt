//! What a model says of the number of a name, and the cells of its tables.

ghost use Rattle.std.specs.Prelude.{◌≡◌, ℕ, ◌<◌, [], pos, false, Option, Some, unwrap_or, slice_get, IfOk, IfSome, IsTrue};
ghost use Rattle.std.specs.Option.{option_copied};
ghost use Rattle.dp_model.specs.Typing.{is_set_below};
ghost use Rattle.dp_model.specs.Evaluation.{count_of, counts_of, table_counts, cells_of, cells_object, number_cell, truth_cell, set_cell};

use crate::untold::Untold;
use dp_base::Seq;
use dp_model::{Cells, Model, TableData};
use std::alloc::{AllocError, Global};

/// How many members an object type has.
pub fn count_of(model: &Model, object: u32) -> u32
    ensures { result ≡ count_of model.now object }
{
    match model.objects.list().get(object as usize) {
        Some(object) => object.count,
        None => 0,
    }
}

fn table_data<'m>(model: &'m Model, t: u32) -> Option<&'m TableData>
    ensures { option_copied result ≡ slice_get model.now.tables t }
{
    model.tables.list().get(t as usize)
}

/// The object types of a table's arguments.
fn arguments(model: &Model, t: u32) -> &[u32]
    ensures { counts_of model.now result.now ≡ table_counts model.now t }
{
    match table_data(model, t) {
        Some(table) => table.args.list(),
        None => &[],
    }
}

/// How many members the object type of each argument of a table has.
pub fn table_counts(alloc: Global, model: &Model, t: u32) -> Result<Vec<u32>, AllocError>
    ensures { IfOk result (λ counts. counts.items ≡ table_counts model.now t) }
{
    let mut counts = Vec::new(alloc);
    for object in arguments(model, t) {
        counts.push(count_of(model, *object))?;
    }
    Ok(counts)
}

fn cells(model: &Model, t: u32) -> Option<&Cells>
    ensures { unwrap_or (option_copied result) (Cells.Numbers []) ≡ cells_of model.now t }
{
    match table_data(model, t) {
        Some(table) => Some(&table.cells),
        None => None,
    }
}

/// The cells of a table of numbers; none of another table.
pub fn numbers_in(model: &Model, t: u32) -> &[i64]
    ensures { (place : ℕ) → number_cell (cells_of model.now t) place
        ≡ unwrap_or (slice_get result.now place) (pos 0) }
{
    match cells(model, t) {
        Some(Cells::Numbers(xs)) => xs.list(),
        _ => &[],
    }
}

/// The cells of a table of truth values; none of another table.
fn truths_in(model: &Model, t: u32) -> &[bool]
    ensures { (place : ℕ) → truth_cell (cells_of model.now t) place
        ≡ unwrap_or (slice_get result.now place) false }
{
    match cells(model, t) {
        Some(Cells::Truths(xs)) => xs.list(),
        _ => &[],
    }
}

/// The cells of a table of sets; none of another table.
fn sets_in(model: &Model, t: u32) -> &[Seq<u32>]
    ensures { (place : ℕ) → set_cell (cells_of model.now t) place
        ≡ unwrap_or (slice_get result.now place) [] }
{
    match cells(model, t) {
        Some(Cells::Sets(_, xs)) => xs.list(),
        _ => &[],
    }
}

/// The object type of a table's sets.
fn cells_object(model: &Model, t: u32) -> u32
    ensures { result ≡ cells_object (cells_of model.now t) }
{
    match cells(model, t) {
        Some(Cells::Sets(object, _)) => *object,
        _ => 0,
    }
}

/// The number at a place, if it is there.
pub fn number_at(xs: &[i64], place: usize) -> Option<i64>
    ensures { IfSome result (λ n. unwrap_or (slice_get xs.now place) (pos 0) ≡ n) }
{
    xs.get(place).copied()
}

/// The truth value of a table at a place, if it is there.
pub fn truth_at(model: &Model, t: u32, place: usize) -> Option<bool>
    ensures { IfSome result (λ held. truth_cell (cells_of model.now t) place ≡ held) }
{
    truths_in(model, t).get(place).copied()
}

/// The set of a table at a place, if it is there, with how many members its object type has.
pub fn set_at(model: &Model, t: u32, place: usize) -> Option<(u32, &Seq<u32>)>
    ensures { IfSome result (λ found. (found.0 ≡ count_of model.now (cells_object (cells_of model.now t))) × (set_cell (cells_of model.now t) place ≡ found.1.now)) }
{
    let set = sets_in(model, t).get(place)?;
    Some((count_of(model, cells_object(model, t)), set))
}
