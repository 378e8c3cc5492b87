//! What a model says of the number of a name, and the cells of its tables.

ghost use Rattle.std.specs.Prelude.{◌≡◌, ◌+◌, ◌*◌, ℕ, [], pos, false, Option, Some, unwrap_or, option_and_then, slice_get, IfOk};
ghost use Rattle.std.specs.Option.{option_copied};
ghost use Rattle.dp_model.specs.declared.parts.TableData.{TableData};
ghost use Rattle.dp_model.specs.Evaluation.{count_of, counts_of, kind_of, object_of_kind, number_in, set_in, number_held, set_held, members_of, table_counts, cells_of, cells_object, place_from, place_in, number_cell, truth_cell, set_cell};
ghost use Rattle.dp_eval.specs.Answers.{Answers, AnswersBy};
ghost use Rattle.dp_eval.specs.Places.{IsPlace, LeadsTo};
ghost use Rattle.dp_eval.specs.Terms.{at_members};

use crate::ends::EvalEnd;
use crate::members::Members;
use crate::numbers::member_of;
use crate::sets::CountedSet;
use dp_model::{Cells, FaultKind, Model, PlainState, PlainValue, Seq, TableData, VarKind};
use std::alloc::{AllocError, Global};

/// How many members an object type has.
pub fn count_of(model: &Model, object: u32) -> u32
    ensures { result ≡ count_of model.now object }
{
    match model.objects.list().get(object as usize) {
        Some(object) => object.count,
        None => 0,
    }
}

/// The object type of what a variable holds.
pub fn variable_object(model: &Model, v: u32) -> u32
    ensures { result ≡ object_of_kind (kind_of model.now v) }
{
    match model.variables.list().get(v as usize) {
        Some(variable) => match variable.kind {
            VarKind::Element(object) | VarKind::Set(object) => object,
            VarKind::Integer => 0,
        },
        None => 0,
    }
}

/// The number that a variable has in a state.
pub fn number_in(s: &PlainState, v: u32) -> i64
    ensures { result ≡ number_in s.now v }
{
    match s.values.list().get(v as usize) {
        Some(PlainValue::Number(n)) => *n,
        Some(PlainValue::Members(_)) | None => 0,
    }
}

/// The members of the set that a variable has in a state, which lends them.
pub fn set_lent<'s>(alloc: Global, s: &'s PlainState, v: u32) -> Members<'s>
    ensures { result ≡ set_in s.now v }
{
    match s.values.list().get(v as usize) {
        Some(PlainValue::Members(set)) => Members::lent(set),
        Some(PlainValue::Number(_)) | None => Members::own(Seq::of(Vec::new(alloc))),
    }
}

fn table<'m>(model: &'m Model, t: u32) -> Option<&'m TableData>
    ensures { option_copied result ≡ slice_get model.now.tables t }
{
    model.tables.list().get(t as usize)
}

/// The object types of a table's arguments.
fn arguments(model: &Model, t: u32) -> &[u32]
    ensures { counts_of model.now result.now ≡ table_counts model.now t }
{
    match table(model, t) {
        Some(table) => table.args.list(),
        None => &[],
    }
}

/// How many members the object type of each argument of a table has.
pub fn table_counts(alloc: Global, model: &Model, t: u32) -> Result<Vec<u32>, AllocError>
    ensures { IfOk result (λ counts. counts.items ≡ table_counts model.now t) }
{
    let mut counts = Vec::new(alloc);
    for object in arguments(model, t) {
        counts.push(count_of(model, *object))?;
    }
    Ok(counts)
}

/// The place of a cell whose first arguments lead to a place, and whose next argument is this member.
pub fn next_place(at: Option<usize>, count: u32, member: u32) -> Option<usize>
    ensures { (place : ℕ) → IsPlace place at → IsPlace (place * count + member) result }
{
    if count == 0 {
        return Some(member as usize);
    }
    at?.checked_mul(count as usize)?
        .checked_add(member as usize)
}

/// The place of the cell at these arguments, each tested in order, where `at` is the place that the arguments before
/// them lead to.
fn place_from(
    model: &Model,
    at: Option<usize>,
    objects: &[u32],
    numbers: &[i64],
) -> Result<Option<usize>, FaultKind>
    ensures { (place : ℕ) → IsPlace place at
        → LeadsTo result (members_of (counts_of model.now objects.now) numbers.now)
        (place_from place (counts_of model.now objects.now)) }
{
    let [object, objects @ ..] = objects else {
        return Ok(at);
    };
    let [n, numbers @ ..] = numbers else {
        return Ok(at);
    };
    let count = count_of(model, *object);
    let next = next_place(at, count, member_of(count, *n)?);
    place_from(model, next, objects, numbers)
}

/// The place of a table's cell at these arguments, each tested in order.
fn place_in(model: &Model, t: u32, numbers: &[i64]) -> Result<Option<usize>, FaultKind>
    ensures { LeadsTo result (members_of (table_counts model.now t) numbers.now)
        (place_in model.now t) }
{
    place_from(model, Some(0), arguments(model, t), numbers)
}

fn cells(model: &Model, t: u32) -> Option<&Cells>
    ensures { unwrap_or (option_copied result) (Cells.Numbers []) ≡ cells_of model.now t }
{
    match table(model, t) {
        Some(table) => Some(&table.cells),
        None => None,
    }
}

/// The number at a place, or 0 past the end.
pub fn number_at(xs: &[i64], at: Option<usize>) -> i64
    ensures { (place : ℕ) → IsPlace place at
        → result ≡ unwrap_or (slice_get xs.now place) (pos 0) }
{
    match at {
        Some(i) if i < xs.len() => xs[i],
        _ => 0,
    }
}

fn truth_at(xs: &[bool], at: Option<usize>) -> bool
    ensures { (place : ℕ) → IsPlace place at
        → result ≡ unwrap_or (slice_get xs.now place) false }
{
    match at {
        Some(i) if i < xs.len() => xs[i],
        _ => false,
    }
}

fn set_at<'m>(alloc: Global, xs: &'m [Seq<u32>], at: Option<usize>) -> Members<'m>
    ensures { (place : ℕ) → IsPlace place at
        → result ≡ unwrap_or (slice_get xs.now place) [] }
{
    match at {
        Some(i) if i < xs.len() => Members::lent(&xs[i]),
        _ => Members::own(Seq::of(Vec::new(alloc))),
    }
}

/// The cells of a table of numbers; none of another table.
pub fn numbers_in(model: &Model, t: u32) -> &[i64]
    ensures { (place : ℕ) → number_cell (cells_of model.now t) place
        ≡ unwrap_or (slice_get result.now place) (pos 0) }
{
    match cells(model, t) {
        Some(Cells::Numbers(xs)) => xs.list(),
        _ => &[],
    }
}

/// The cells of a table of truth values; none of another table.
fn truths_in(model: &Model, t: u32) -> &[bool]
    ensures { (place : ℕ) → truth_cell (cells_of model.now t) place
        ≡ unwrap_or (slice_get result.now place) false }
{
    match cells(model, t) {
        Some(Cells::Truths(xs)) => xs.list(),
        _ => &[],
    }
}

/// The cells of a table of sets; none of another table.
fn sets_in(model: &Model, t: u32) -> &[Seq<u32>]
    ensures { (place : ℕ) → set_cell (cells_of model.now t) place
        ≡ unwrap_or (slice_get result.now place) [] }
{
    match cells(model, t) {
        Some(Cells::Sets(_, xs)) => xs.list(),
        _ => &[],
    }
}

/// The cell of a table of numbers at these arguments.
#[inline(never)]
pub fn number_cell(model: &Model, t: u32, numbers: &[i64]) -> Result<i64, EvalEnd>
    ensures { Answers result
        (at_members model.now t (number_cell (cells_of model.now t)) numbers.now) }
{
    let place = place_in(model, t, numbers)?;
    Ok(number_at(numbers_in(model, t), place))
}

/// The cell of a table of truth values at these arguments.
#[inline(never)]
pub fn truth_cell(model: &Model, t: u32, numbers: &[i64]) -> Result<bool, EvalEnd>
    ensures { Answers result
        (at_members model.now t (truth_cell (cells_of model.now t)) numbers.now) }
{
    let place = place_in(model, t, numbers)?;
    Ok(truth_at(truths_in(model, t), place))
}

/// The cell of a table of sets at these arguments, which the table lends.
#[inline(never)]
pub fn set_cell<'m>(
    alloc: Global,
    model: &'m Model,
    t: u32,
    numbers: &[i64],
) -> Result<CountedSet<'m>, EvalEnd>
    ensures count { IfOk result
        (λ set. set.count ≡ count_of model.now (cells_object (cells_of model.now t))) }
    ensures members { AnswersBy (λ (set : CountedSet). set.members) result
        (at_members model.now t (set_cell (cells_of model.now t)) numbers.now) }
{
    let place = place_in(model, t, numbers)?;
    let members = set_at(alloc, sets_in(model, t), place);
    let count = count_of(model, cells_object(model, t));
    Ok(CountedSet { count, members })
}

/// The object type of a table's sets.
pub fn cells_object(model: &Model, t: u32) -> u32
    ensures { result ≡ cells_object (cells_of model.now t) }
{
    match cells(model, t) {
        Some(Cells::Sets(object, _)) => *object,
        _ => 0,
    }
}
