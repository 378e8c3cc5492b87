//! Rows of candidates that want one variable to have one number after another: a look at the variable leaves one of them.

ghost use Rattle.std.specs.Prelude.{◌≡◌, ℕ, ◌+◌, ◌<◌, ◌≤◌, ◌^◌, true, false, Some, Ok, List, length, slice_get, IfOk, IfSome, OnOk, None, pos, ◌+ℤ◌};
ghost use Rattle.dp_model.specs.Evaluation.{num_value, number_in};
ghost use Rattle.dp_model.specs.StepTexts.{ground_of};
ghost use Rattle.dp_model.specs.Typing.{is_number_kind, kind_at};
ghost use Rattle.dp_model.specs.declared.parts.PlainState.{PlainState};
ghost use Rattle.dp_model.specs.declared.trees.Compare.{Compare};
ghost use Rattle.dp_model.specs.declared.whole.Model.{Model as DpModel};
ghost use Rattle.spot_eval.specs.Moves.{number_enabled, others_of};
ghost use Rattle.state_layout.specs.Packing.{state_in};
ghost use Rattle.successors.specs.Switches.{FailsElse, IsCase, IsSwitch, AreSwitches, LeavesOne};

use dp_model::{Compare, Cond, Model, Num, Transition, VarKind};
use packed_words::{Scene, number_in};
use std::alloc::{AllocError, Global};

/// A number that a variable has in each state in which a ground transition is enabled.
#[derive(Clone, Copy)]
pub struct Wanted {
    pub variable: u32,
    pub number: i64,
}

/// From its place among the candidates on, so many are its cases: the first is enabled only where the variable has the number, the next
/// one only where it has the number after that, and so on. A switch without cases says nothing of any candidate.
#[derive(Clone, Copy)]
pub struct Switch {
    pub variable: u32,
    pub number: i64,
    pub count: u32,
}

/// Which candidate has to be tested next, if one has, and the place from which on to go on. Those between are not enabled.
#[derive(Clone, Copy)]
pub(crate) struct Case {
    pub(crate) pick: Option<usize>,
    pub(crate) next: usize,
}

/// The number that an expression is in each state, with these values of parameters, where that is seen at once.
fn constant(e: &Num, args: &[u32]) -> Option<i64>
    ensures { IfSome result (λ n. (m : DpModel) (s : PlainState) → num_value m s e.now args.now ≡ Ok n) }
{
    match e {
        Num::Fixed(number) => Some(*number),
        Num::Param(place) => match args.get(*place as usize) {
            Some(value) => Some(i64::from(*value)),
            None => None,
        },
        _ => None,
    }
}

/// The variable that an expression is, where it is one.
fn variable_of(e: &Num) -> Option<u32>
    ensures { IfSome result (λ v. (m : DpModel) (s : PlainState) (given : List ℕ) → num_value m s e.now given ≡ Ok (number_in s v)) }
{
    match e {
        Num::Var(variable) => Some(*variable),
        _ => None,
    }
}

/// The first expression as a variable, and the second one as the number that it is compared with, where they are.
fn wanted_of(a: &Num, b: &Num, args: &[u32]) -> Option<Wanted>
    ensures variable { IfSome result (λ w. (m : DpModel) (s : PlainState) (given : List ℕ) → num_value m s a.now given ≡ Ok (number_in s w.variable)) }
    ensures number { IfSome result (λ w. (m : DpModel) (s : PlainState) → num_value m s b.now args.now ≡ Ok w.number) }
{
    match (variable_of(a), constant(b, args)) {
        (Some(variable), Some(number)) => Some(Wanted { variable, number }),
        _ => None,
    }
}

fn is_same(op: Compare) -> bool
    ensures { result ≡ true → op ≡ Compare.Same }
{
    match op {
        Compare::Same => true,
        _ => false,
    }
}

/// The number that a variable has wherever the condition holds.
fn wanted_in(condition: &Cond, args: &[u32]) -> Option<Wanted>
    ensures { IfSome result (λ w. FailsElse condition.now args.now w.variable w.number) }
{
    match condition {
        Cond::Numbers(op, a, b) if is_same(*op) => match wanted_of(a, b, args) {
            Some(wanted) => Some(wanted),
            None => wanted_of(b, a, args),
        },
        _ => None,
    }
}

/// Whether a variable holds a number.
fn holds_number(model: &Model, variable: u32) -> bool
    ensures { result ≡ true → is_number_kind (kind_at model.now.variables variable) ≡ true }
{
    match model.variables().list().get(variable as usize) {
        Some(x) => match x.kind() {
            VarKind::Element(_) | VarKind::Integer => true,
            VarKind::Set(_) => false,
        },
        None => false,
    }
}

/// What the first precondition of a transition wants.
fn wanted_first(transition: &Transition, args: &[u32]) -> Option<Wanted>
    ensures { IfSome result (λ w. (g : ℕ) (m : DpModel) → ground_of m g ≡ Some (transition.now, args.now) → IsCase m w.variable w.number g) }
{
    match transition.preconditions.list().first() {
        Some(condition) => wanted_in(condition, args),
        None => None,
    }
}

/// What a ground transition wants.
fn wanted_by(model: &Model, number: u32) -> Option<Wanted>
    ensures kind { IfSome result (λ w. is_number_kind (kind_at model.now.variables w.variable) ≡ true) }
    ensures case { IfSome result (λ w. IsCase model.now w.variable w.number number) }
{
    match model.step(number) {
        Some((transition, args)) => match wanted_first(transition, args.list()) {
            Some(wanted) if holds_number(model, wanted.variable) => Some(wanted),
            _ => None,
        },
        None => None,
    }
}

/// Whether what is wanted, so many places behind a switch, is its next case.
fn is_next(switch: Switch, ahead: usize, wanted: Wanted) -> bool
    ensures { result ≡ true → (0 < switch.count) × (switch.count + 1 < 2 ^ 32) × (ahead ≡ switch.count) × (switch.variable ≡ wanted.variable) × (switch.number +ℤ pos switch.count ≡ wanted.number) }
{
    0 < switch.count
        && switch.count < u32::MAX
        && ahead == switch.count as usize
        && switch.variable == wanted.variable
        && switch.number.checked_add(i64::from(switch.count)) == Some(wanted.number)
}

/// Puts the switch of one candidate behind the others, and makes the candidate one more case of the switch at `head`, where it is the
/// next one. Returns the place of the switch whose next case the candidate behind it may be.
fn push_switch(switches: &mut Vec<Switch>, head: usize, wanted: Wanted) -> Result<usize, AllocError>
    ensures switches { (m : DpModel) (numbers : List ℕ) (g : ℕ) → AreSwitches m numbers switches.old.items → slice_get numbers (length switches.old.items) ≡ Some g → is_number_kind (kind_at m.variables wanted.variable) ≡ true → IsCase m wanted.variable wanted.number g → OnOk result (AreSwitches m numbers switches.new.items) }
    ensures long { OnOk result (length switches.new.items ≡ length switches.old.items + 1) }
{
    let place = switches.len();
    switches.push(Switch {
        variable: wanted.variable,
        number: wanted.number,
        count: 1,
    })?;
    if head < place && is_next(switches[head], place - head, wanted) {
        switches[head].count += 1;
        return Ok(head);
    }
    Ok(place)
}

/// Puts a switch without cases behind the others.
fn push_none(switches: &mut Vec<Switch>) -> Result<(), AllocError>
    ensures switches { (m : DpModel) (numbers : List ℕ) → AreSwitches m numbers switches.old.items → length switches.old.items < length numbers → OnOk result (AreSwitches m numbers switches.new.items) }
    ensures long { OnOk result (length switches.new.items ≡ length switches.old.items + 1) }
{
    switches.push(Switch {
        variable: 0,
        number: 0,
        count: 0,
    })?;
    Ok(())
}

/// The one or the other, by what the candidate wants.
fn push_next(
    switches: &mut Vec<Switch>,
    head: usize,
    wanted: Option<Wanted>,
) -> Result<usize, AllocError>
    ensures switches { (m : DpModel) (numbers : List ℕ) (g : ℕ) → AreSwitches m numbers switches.old.items → slice_get numbers (length switches.old.items) ≡ Some g → IfSome wanted (λ w. is_number_kind (kind_at m.variables w.variable) ≡ true) → IfSome wanted (λ w. IsCase m w.variable w.number g) → OnOk result (AreSwitches m numbers switches.new.items) }
    ensures long { OnOk result (length switches.new.items ≡ length switches.old.items + 1) }
{
    match wanted {
        Some(wanted) => push_switch(switches, head, wanted),
        None => {
            push_none(switches)?;
            Ok(head)
        }
    }
}

/// Whether a switch has cases.
fn has_some(switches: &[Switch]) -> bool {
    for switch in switches {
        if switch.count > 0 {
            return true;
        }
    }
    false
}

/// The switches of the ground transitions that are not forced. There are none where none has cases, so that no visit looks at them.
pub(crate) fn switches_of(alloc: Global, model: &Model) -> Result<Vec<Switch>, AllocError>
    ensures { IfOk result (λ switches. AreSwitches model.now (others_of model.now) switches.items) }
{
    let numbers = spot_eval::others_of(alloc, model)?;
    let mut switches = Vec::with_capacity(alloc, numbers.len())?;
    let mut head = 0;
    for number in &numbers {
        head = push_next(&mut switches, head, wanted_by(model, *number))?;
    }
    if has_some(&switches) {
        return Ok(switches);
    }
    Ok(Vec::new(alloc))
}

/// The candidate that is the case of a number, where the switch has one for it and stands at this place.
#[inline(always)]
fn picked(switch: Switch, held: i64, place: usize) -> Option<usize>
    requires { place + switch.count < 2 ^ 64 }
    ensures found { IfSome result (λ k. (j : ℕ) × (j < switch.count) × (k ≡ place + j) × (held ≡ switch.number +ℤ pos j)) }
    ensures none { result ≡ None → (j : ℕ) → j < switch.count → held ≡ switch.number +ℤ pos j → ⊥ }
{
    match held.checked_sub(switch.number) {
        Some(ahead) if 0 <= ahead && ahead < i64::from(switch.count) => {
            Some(place + ahead as usize)
        }
        _ => None,
    }
}

/// The same in the state of a scene, and where to go on.
#[inline(always)]
fn case_of(at: &Scene<'_>, switch: Switch, place: usize) -> Case
    requires some { 0 < switch.count }
    requires switch { (numbers : List ℕ) × IsSwitch at.now.model.now numbers place switch × (length numbers ≤ 65536) }
    ensures { (numbers : List ℕ) → IsSwitch at.now.model.now numbers place switch → LeavesOne at.now.model.now (state_in at.now.words.now) numbers place result }
{
    let held = number_in(at, switch.variable);
    Case {
        pick: picked(switch, held, place),
        next: place + switch.count as usize,
    }
}

/// Which of the candidates from a place on has to be tested next in the state of a scene.
#[inline(always)]
pub(crate) fn case_at(at: &Scene<'_>, switches: &[Switch], place: usize) -> Case
    requires { (numbers : List ℕ) × AreSwitches at.now.model.now numbers switches.now × (place < length numbers) × (length numbers ≤ 65536) }
    ensures { (numbers : List ℕ) → AreSwitches at.now.model.now numbers switches.now → place < length numbers → LeavesOne at.now.model.now (state_in at.now.words.now) numbers place result }
{
    if place < switches.len() && switches[place].count > 0 {
        return case_of(at, switches[place], place);
    }
    Case {
        pick: Some(place),
        next: place + 1,
    }
}
