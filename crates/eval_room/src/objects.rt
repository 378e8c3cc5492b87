//! Object types of sets, kinds of variables, and sums of needs.

ghost use Rattle.std.specs.Prelude.{◌≡◌, ◌≤◌, ◌+◌, ◌^◌, ◌==◌, ◌∷◌, true, max, drop, slice_get, IfNone, IfSome};
ghost use Rattle.std.specs.Option.{option_copied};
ghost use Rattle.dp_model.specs.Typing.{is_number_kind, is_set_kind, kind_at};
ghost use Rattle.dp_model.specs.Evaluation.{count_of, counts_of, kind_of, object_of_kind, table_counts, cells_of, cells_object};
ghost use Rattle.state_layout.specs.Signatures.{word_count};
ghost use Rattle.packed_words.specs.Ranges.{over_fits};
ghost use Rattle.eval_room.specs.Fits.{set_fits};

use dp_model::{Cells, Model, Over, SetEx, TableData, VarKind};
use packed_words::{count_of, words_for};

/// The object type of a set expression.
pub fn set_object(model: &Model, e: &SetEx) -> u32
    ensures { result ≡ (set_fits model.now e.now).0 }
{
    match e {
        SetEx::Var(v) => variable_object(model, *v),
        SetEx::Cell(t, _) => cells_object(model, *t),
        SetEx::Op(_, a, _) => set_object(model, a.get()),
        SetEx::Not(a) => set_object(model, a.get()),
        SetEx::With(_, a) => set_object(model, a.get()),
        SetEx::Without(_, a) => set_object(model, a.get()),
        SetEx::If(_, a, _) => set_object(model, a.get()),
    }
}

/// How many members that object type has.
pub fn set_count(model: &Model, e: &SetEx) -> u32
    ensures value { result ≡ count_of model.now (set_fits model.now e.now).0 }
    ensures few { result ≤ 4096 }
{
    count_of(model, set_object(model, e))
}

/// The object type of what a variable holds.
pub fn variable_object(model: &Model, v: u32) -> u32
    ensures { result ≡ object_of_kind (kind_of model.now v) }
{
    match model.variables.list().get(v as usize) {
        Some(variable) => match variable.kind {
            VarKind::Element(object) | VarKind::Set(object) => object,
            VarKind::Integer => 0,
        },
        None => 0,
    }
}

fn table<'m>(model: &'m Model, t: u32) -> Option<&'m TableData>
    ensures { option_copied result ≡ slice_get model.now.tables t }
{
    model.tables.list().get(t as usize)
}

/// The object type of a table's sets.
fn cells_object(model: &Model, t: u32) -> u32
    ensures { result ≡ cells_object (cells_of model.now t) }
{
    match table(model, t) {
        Some(table) => match &table.cells {
            Cells::Sets(object, _) => *object,
            _ => 0,
        },
        None => 0,
    }
}

/// The object types of a table's arguments.
pub fn arguments(model: &Model, t: u32) -> &[u32]
    ensures { counts_of model.now result.now ≡ table_counts model.now t }
{
    match table(model, t) {
        Some(table) => table.args.list(),
        None => &[],
    }
}

/// Whether a variable holds a number.
pub fn is_number(model: &Model, v: u32) -> bool
    ensures { result ≡ is_number_kind (kind_at model.now.variables v) }
{
    match model.variables.list().get(v as usize) {
        Some(variable) => !matches!(variable.kind, VarKind::Set(_)),
        None => false,
    }
}

/// Whether a variable holds a set.
pub fn is_set(model: &Model, v: u32) -> bool
    ensures { result ≡ is_set_kind (kind_at model.now.variables v) }
{
    match model.variables.list().get(v as usize) {
        Some(variable) => matches!(variable.kind, VarKind::Set(_)),
        None => false,
    }
}

/// Whether a variable that a parameter ranges over holds a set.
pub fn is_over(model: &Model, over: Over) -> bool
    ensures { result ≡ over_fits model.now over }
{
    match over {
        Over::Object(_) => true,
        Over::Members(v) => is_set(model, v),
    }
}

/// Whether two sets have one object type.
pub fn same_object(model: &Model, a: &SetEx, b: &SetEx) -> bool
    ensures { result ≡ ((set_fits model.now a.now).0 == (set_fits model.now b.now).0) }
{
    set_object(model, a) == set_object(model, b)
}

/// How many members the first of these object types has.
pub fn first_count(model: &Model, objects: &[u32]) -> Option<u32>
    ensures value { IfSome result (λ count. counts_of model.now objects.now ≡ count ∷ counts_of model.now (drop 1 objects.now)) }
    ensures few { IfSome result (λ count. count ≤ 4096) }
{
    match objects {
        [object, ..] => Some(count_of(model, *object)),
        [] => None,
    }
}

/// The room that two sets of one object type need with the words that they are written to, of which the first, of an object
/// type with so many members, is held.
pub fn pair_of(same: bool, count: u32, x: usize, y: usize) -> Option<usize>
    ensures same { IfSome result (λ n. same ≡ true) }
    ensures value { IfSome result (λ n. n ≡ max x (word_count count + y)) }
{
    if same {
        let both = sum(words_for(count), y)?;
        Some(x.max(both))
    } else {
        None
    }
}

/// The sum, if a word holds it.
pub fn sum(a: usize, b: usize) -> Option<usize>
    ensures some { IfSome result (λ n. n ≡ a + b) }
    ensures none { IfNone result (2 ^ 64 ≤ a + b) }
{
    a.checked_add(b)
}
