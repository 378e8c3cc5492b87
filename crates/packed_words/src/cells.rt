//! The cells of a model's tables.

ghost use Rattle.std.specs.Prelude.{◌≡◌, ◌≤◌, ℕ, [], pos, false, drop, min, length, unwrap_or, slice_get, slice_index, Result, List, ℤ};
ghost use Rattle.std.specs.Option.{option_copied};
ghost use Rattle.bit_sets.specs.Sets.{members_of};
ghost use Rattle.dp_model.specs.declared.answers.FaultKind.{FaultKind as Fault};
ghost use Rattle.dp_model.specs.Evaluation.{count_of, table_counts, cells_of, cells_object, number_cell, truth_cell, set_cell};
ghost use Rattle.state_layout.specs.Signatures.{word_count};
ghost use Rattle.packed_words.specs.Operands.{at_operands};
ghost use Rattle.packed_words.specs.Places.{most, advanced, member_on, placed_at};
ghost use Rattle.packed_words.specs.Sets.{IsClean, one_word};
ghost use Rattle.packed_words.specs.Tables.{shape_in, cell_in};

use crate::numbers::member_of;
use crate::scene::Scene;
use crate::steps::count_of;
use crate::tables::{Shape, Tables};
use dp_base::Seq;
use dp_model::{Cells, FaultKind, Model, TableData};

/// What is kept of a table.
fn shape<'a>(at: &Scene<'a>, t: u32) -> Option<&'a Shape>
    ensures { option_copied result ≡ shape_in at.now.model.now t }
{
    shape_at(at.tables, t)
}

fn shape_at(tables: &Tables, t: u32) -> Option<&Shape>
    ensures { option_copied result ≡ slice_get tables.now.shapes t }
{
    tables.shapes.list().get(t as usize)
}

/// How many members the object type of each argument of a table has.
pub fn counts<'a>(at: &Scene<'a>, t: u32) -> &'a [u32]
    ensures { result.now ≡ table_counts at.now.model.now t }
{
    match shape(at, t) {
        Some(shape) => shape.counts.list(),
        None => &[],
    }
}

/// How many members the object type of a table's sets has.
pub fn cell_count(at: &Scene<'_>, t: u32) -> u32
    ensures value { result ≡ count_of at.now.model.now (cells_object (cells_of at.now.model.now t)) }
    ensures few { result ≤ 4096 }
{
    match shape(at, t) {
        Some(shape) => shape.members,
        None => count_of(at.model, 0),
    }
}

/// The words of the set in a table's cell. The last word stands for the places that have no word.
fn set_at<'a>(at: &Scene<'a>, t: u32, place: usize) -> Option<&'a Seq<u64>>
    ensures { (p : ℕ) → place ≡ min most p → option_copied result ≡ cell_in at.now.model.now t p }
{
    match shape(at, t) {
        Some(shape) => set_in_shape(shape, place),
        None => None,
    }
}

fn set_in_shape(shape: &Shape, place: usize) -> Option<&Seq<u64>>
    ensures { (p : ℕ) → place ≡ min most p → option_copied result ≡ slice_get shape.now.sets p }
{
    let sets = shape.sets.list();
    if place < sets.len() {
        Some(&sets[place])
    } else {
        None
    }
}

/// Writes the set in a table's cell.
pub fn copy_cell(at: &Scene<'_>, t: u32, place: usize, out: &mut [u64])
    requires { length out.old ≡ word_count (count_of at.now.model.now (cells_object (cells_of at.now.model.now t))) }
    ensures len { length out.new ≡ length out.old }
    ensures members { (p : ℕ) → place ≡ min most p → members_of out.new ≡ set_cell (cells_of at.now.model.now t) p }
    ensures clean { (p : ℕ) → place ≡ min most p → IsClean (count_of at.now.model.now (cells_object (cells_of at.now.model.now t))) out.new }
{
    match set_at(at, t, place) {
        Some(words) => copy_words(words.list(), out),
        None => clear(out),
    }
}

/// Writes as many of the words as there is room for, and 0 where they end.
fn copy_words(words: &[u64], out: &mut [u64])
    ensures len { length out.new ≡ length out.old }
    ensures same { length words.now ≡ length out.old → out.new ≡ words.now }
{
    for k in 0..out.len() {
        out[k] = if k < words.len() { words[k] } else { 0 };
    }
}

/// Writes the empty set.
fn clear(out: &mut [u64])
    ensures len { length out.new ≡ length out.old }
    ensures members { members_of out.new ≡ [] }
    ensures clean { (count : ℕ) → IsClean count out.new }
{
    for k in 0..out.len() {
        out[k] = 0;
    }
}

/// The set in a table's cell, in one word.
pub fn cell_word(at: &Scene<'_>, t: u32, place: usize) -> u64
    requires { count_of at.now.model.now (cells_object (cells_of at.now.model.now t)) ≤ 64 }
    ensures members { (p : ℕ) → place ≡ min most p → members_of (one_word result) ≡ set_cell (cells_of at.now.model.now t) p }
    ensures clean { (p : ℕ) → place ≡ min most p → IsClean (count_of at.now.model.now (cells_object (cells_of at.now.model.now t))) (one_word result) }
{
    match set_at(at, t, place) {
        Some(words) => first_word(words.list()),
        None => 0,
    }
}

fn first_word(words: &[u64]) -> u64
    ensures { result ≡ slice_index words.now 0 }
{
    if words.len() > 0 { words[0] } else { 0 }
}

/// A table of a model.
fn table<'m>(model: &'m Model, t: u32) -> Option<&'m TableData>
    ensures { option_copied result ≡ slice_get model.now.tables t }
{
    model.tables.list().get(t as usize)
}

/// The cells of a table of numbers; none of another table.
pub fn numbers_in(model: &Model, t: u32) -> &[i64]
    ensures { (place : ℕ) → number_cell (cells_of model.now t) place
        ≡ unwrap_or (slice_get result.now place) (pos 0) }
{
    match table(model, t) {
        Some(table) => match &table.cells {
            Cells::Numbers(xs) => xs.list(),
            _ => &[],
        },
        None => &[],
    }
}

/// The cells of a table of truth values; none of another table.
fn truths_in(model: &Model, t: u32) -> &[bool]
    ensures { (place : ℕ) → truth_cell (cells_of model.now t) place
        ≡ unwrap_or (slice_get result.now place) false }
{
    match table(model, t) {
        Some(table) => match &table.cells {
            Cells::Truths(xs) => xs.list(),
            _ => &[],
        },
        None => &[],
    }
}

/// The number at a place, or 0 past the end. The last word stands for the places that have no word.
pub fn number_at(xs: &[i64], at: usize) -> i64
    ensures { (place : ℕ) → at ≡ min most place
        → result ≡ unwrap_or (slice_get xs.now place) (pos 0) }
{
    if at < xs.len() { xs[at] } else { 0 }
}

fn truth_at(xs: &[bool], at: usize) -> bool
    ensures { (place : ℕ) → at ≡ min most place
        → result ≡ unwrap_or (slice_get xs.now place) false }
{
    if at < xs.len() { xs[at] } else { false }
}

/// The number in a table's cell.
fn number_cell(model: &Model, t: u32, at: usize) -> i64
    ensures { (place : ℕ) → at ≡ min most place → result ≡ number_cell (cells_of model.now t) place }
{
    number_at(numbers_in(model, t), at)
}

/// The truth value in a table's cell.
fn truth_cell(model: &Model, t: u32, at: usize) -> bool
    ensures { (place : ℕ) → at ≡ min most place → result ≡ truth_cell (cells_of model.now t) place }
{
    truth_at(truths_in(model, t), at)
}

/// The counts behind the first.
pub fn after_first(counts: &[u32]) -> &[u32]
    ensures { result.now ≡ drop 1 counts.now }
{
    match counts {
        [_, rest @ ..] => rest,
        [] => counts,
    }
}

fn next_place(at: usize, count: u32, member: u32) -> usize
    ensures { result ≡ advanced at count member }
{
    at.saturating_mul(count as usize)
        .saturating_add(member as usize)
}

/// The place with one more argument, whose count comes first. A fault of an argument before it stays.
pub fn member_on(counts: &[u32], led: Result<usize, FaultKind>, z: i64) -> Result<usize, FaultKind>
    ensures { result ≡ member_on counts.now led z }
{
    match counts {
        [count, ..] => {
            let place = led?;
            let member = member_of(*count, z)?;
            Ok(next_place(place, *count, member))
        }
        [] => led,
    }
}

/// The number in a table's cell at the place of its arguments, which may be a fault.
pub fn number_placed(
    model: &Model,
    t: u32,
    placed: Result<usize, FaultKind>,
) -> Result<i64, FaultKind>
    ensures { (operands : Result (List ℤ) Fault) → placed ≡ placed_at (table_counts model.now t) operands
        → result ≡ at_operands model.now t (number_cell (cells_of model.now t)) operands }
{
    match placed {
        Ok(place) => Ok(number_cell(model, t, place)),
        Err(kind) => Err(kind),
    }
}

/// The truth value in a table's cell at the place of its arguments, which may be a fault.
pub fn truth_placed(
    model: &Model,
    t: u32,
    placed: Result<usize, FaultKind>,
) -> Result<bool, FaultKind>
    ensures { (operands : Result (List ℤ) Fault) → placed ≡ placed_at (table_counts model.now t) operands
        → result ≡ at_operands model.now t (truth_cell (cells_of model.now t)) operands }
{
    match placed {
        Ok(place) => Ok(truth_cell(model, t, place)),
        Err(kind) => Err(kind),
    }
}
