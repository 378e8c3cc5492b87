//! Rows of ground transitions that want one variable to have one number after another: a look at the variable leaves one of them.

ghost use Rattle.std.specs.Prelude.{◌≡◌, ℕ, ◌+◌, ◌<◌, ◌≤◌, ◌^◌, true, false, Some, Ok, List, length, slice_get, replicate, IfOk, IfSome, None, pos, ◌+ℤ◌};
ghost use Rattle.dp_model.specs.Evaluation.{num_value, number_in};
ghost use Rattle.dp_model.specs.StepTexts.{ground_of};
ghost use Rattle.dp_model.specs.Typing.{is_number_kind, kind_at};
ghost use Rattle.dp_model.specs.declared.parts.PlainState.{PlainState};
ghost use Rattle.dp_model.specs.declared.trees.Compare.{Compare};
ghost use Rattle.dp_model.specs.declared.whole.Model.{Model as DpModel};
ghost use Rattle.state_layout.specs.Packing.{state_in};
ghost use Rattle.cert_check.specs.Wants.{AreRows, FailsElse, IsRow, LeavesOne, Wants};

use dp_model::{Compare, Cond, Model, Num, Transition, VarKind};
use packed_words::{Scene, number_in};
use std::alloc::{AllocError, Global};

/// A number that a variable has in each state in which a ground transition is enabled.
#[derive(Clone, Copy)]
pub struct Wanted {
    pub variable: u32,
    pub number: i64,
}

/// From its own ground transition on, so many want the variable to have a number: the first wants this one, the next one wants the
/// number after it, and so on. A row of none says nothing of any.
#[derive(Clone, Copy)]
pub struct Row {
    pub variable: u32,
    pub number: i64,
    pub count: u32,
}

/// Which ground transition has to be tested next, if one has, and the one from which on to go on. Those between are not enabled.
#[derive(Clone, Copy)]
pub struct Leap {
    pub pick: Option<usize>,
    pub next: usize,
}

/// The number that an expression is in each state, with these values of parameters, where that is seen at once.
fn constant(e: &Num, args: &[u32]) -> Option<i64>
    ensures { IfSome result (λ n. (m : DpModel) (s : PlainState) → num_value m s e.now args.now ≡ Ok n) }
{
    match e {
        Num::Fixed(number) => Some(*number),
        Num::Param(place) => match args.get(*place as usize) {
            Some(value) => Some(i64::from(*value)),
            None => None,
        },
        _ => None,
    }
}

/// The variable that an expression is, where it is one.
fn variable_of(e: &Num) -> Option<u32>
    ensures { IfSome result (λ v. (m : DpModel) (s : PlainState) (given : List ℕ) → num_value m s e.now given ≡ Ok (number_in s v)) }
{
    match e {
        Num::Var(variable) => Some(*variable),
        _ => None,
    }
}

/// The first expression as a variable, and the second one as the number that it is compared with, where they are.
fn wanted_of(a: &Num, b: &Num, args: &[u32]) -> Option<Wanted>
    ensures variable { IfSome result (λ w. (m : DpModel) (s : PlainState) (given : List ℕ) → num_value m s a.now given ≡ Ok (number_in s w.variable)) }
    ensures number { IfSome result (λ w. (m : DpModel) (s : PlainState) → num_value m s b.now args.now ≡ Ok w.number) }
{
    match (variable_of(a), constant(b, args)) {
        (Some(variable), Some(number)) => Some(Wanted { variable, number }),
        _ => None,
    }
}

fn is_same(op: Compare) -> bool
    ensures { result ≡ true → op ≡ Compare.Same }
{
    match op {
        Compare::Same => true,
        _ => false,
    }
}

/// The number that a variable has wherever the condition holds.
fn wanted_in(condition: &Cond, args: &[u32]) -> Option<Wanted>
    ensures { IfSome result (λ w. FailsElse condition.now args.now w.variable w.number) }
{
    match condition {
        Cond::Numbers(op, a, b) if is_same(*op) => match wanted_of(a, b, args) {
            Some(wanted) => Some(wanted),
            None => wanted_of(b, a, args),
        },
        _ => None,
    }
}

/// Whether a variable holds a number.
fn holds_number(model: &Model, variable: u32) -> bool
    ensures { result ≡ true → is_number_kind (kind_at model.now.variables variable) ≡ true }
{
    match model.variables().list().get(variable as usize) {
        Some(x) => match x.kind() {
            VarKind::Element(_) | VarKind::Integer => true,
            VarKind::Set(_) => false,
        },
        None => false,
    }
}

/// What the first precondition of a transition wants.
fn wanted_first(transition: &Transition, args: &[u32]) -> Option<Wanted>
    ensures { IfSome result (λ w. (g : ℕ) (m : DpModel) → ground_of m g ≡ Some (transition.now, args.now) → Wants m w.variable w.number g) }
{
    match transition.preconditions.list().first() {
        Some(condition) => wanted_in(condition, args),
        None => None,
    }
}

/// What a ground transition wants.
fn wanted_by(model: &Model, number: u32) -> Option<Wanted>
    ensures kind { IfSome result (λ w. is_number_kind (kind_at model.now.variables w.variable) ≡ true) }
    ensures wants { IfSome result (λ w. Wants model.now w.variable w.number number) }
{
    match model.step(number) {
        Some((transition, args)) => match wanted_first(transition, args.list()) {
            Some(wanted) if holds_number(model, wanted.variable) => Some(wanted),
            _ => None,
        },
        None => None,
    }
}

/// A row of none.
fn no_row() -> Row
    ensures { result.count ≡ 0 }
{
    Row {
        variable: 0,
        number: 0,
        count: 0,
    }
}

/// Whether a row goes on with what is wanted in front of it.
fn goes_on(wanted: Wanted, row: Row) -> bool
    ensures { result ≡ true → (0 < row.count) × (row.count + 1 < 2 ^ 32) × (wanted.variable ≡ row.variable) × (wanted.number +ℤ pos 1 ≡ row.number) }
{
    0 < row.count
        && row.count < u32::MAX
        && wanted.variable == row.variable
        && wanted.number.checked_add(1) == Some(row.number)
}

/// The row of a ground transition that wants something, in front of the row of the one behind it.
fn row_with(wanted: Wanted, behind: Row) -> Row
    ensures { (m : DpModel) (place : ℕ) → place < length m.dp_ground → is_number_kind (kind_at m.variables wanted.variable) ≡ true → Wants m wanted.variable wanted.number place → IsRow m (place + 1) behind → IsRow m place result }
{
    if goes_on(wanted, behind) {
        return Row {
            variable: wanted.variable,
            number: wanted.number,
            count: behind.count + 1,
        };
    }
    Row {
        variable: wanted.variable,
        number: wanted.number,
        count: 1,
    }
}

/// The row of a ground transition, in front of the row of the one behind it.
#[tactic(auto, using(spot_eval::proofs::Limits::few_grounds))]
fn row_of(model: &Model, place: usize, behind: Row) -> Row
    requires there { place < length model.now.dp_ground }
    requires behind { IsRow model.now (place + 1) behind }
    ensures { IsRow model.now place result }
{
    match wanted_by(model, place as u32) {
        Some(wanted) => row_with(wanted, behind),
        None => no_row(),
    }
}

/// The rows of all ground transitions, each at its own place.
pub(crate) fn rows_of(alloc: Global, model: &Model) -> Result<Vec<Row>, AllocError>
    ensures { IfOk result (λ rows. AreRows model.now rows.items) }
{
    let count = model.ground().list().len();
    let mut rows = vec![in alloc; no_row(); count]?;
    let mut behind = no_row();
    for done in 0..count {
        let place = count - 1 - done;
        behind = row_of(model, place, behind);
        rows[place] = behind;
    }
    Ok(rows)
}

/// The one of a row that wants the number that is held, where one does. The row is that of this place.
fn picked(row: Row, held: i64, place: usize) -> Option<usize>
    requires { place + row.count < 2 ^ 64 }
    ensures found { IfSome result (λ k. (j : ℕ) × (j < row.count) × (k ≡ place + j) × (held ≡ row.number +ℤ pos j)) }
    ensures none { result ≡ None → (j : ℕ) → j < row.count → held ≡ row.number +ℤ pos j → ⊥ }
{
    match held.checked_sub(row.number) {
        Some(ahead) if 0 <= ahead && ahead < i64::from(row.count) => Some(place + ahead as usize),
        _ => None,
    }
}

/// What a row that is not empty leaves in the state of a scene.
fn leap_over(at: &Scene<'_>, row: Row, place: usize) -> Leap
    requires some { 0 < row.count }
    requires row { IsRow at.now.model.now place row }
    ensures { LeavesOne at.now.model.now (state_in at.now.words.now) place result }
{
    let held = number_in(at, row.variable);
    Leap {
        pick: picked(row, held, place),
        next: place + row.count as usize,
    }
}

/// Which of the ground transitions from a place on has to be tested next in the state of a scene.
pub(crate) fn leap_at(at: &Scene<'_>, rows: &[Row], place: usize) -> Leap
    requires rows { AreRows at.now.model.now rows.now }
    requires there { place < length at.now.model.now.dp_ground }
    ensures { LeavesOne at.now.model.now (state_in at.now.words.now) place result }
{
    if rows[place].count > 0 {
        return leap_over(at, rows[place], place);
    }
    Leap {
        pick: Some(place),
        next: place + 1,
    }
}
