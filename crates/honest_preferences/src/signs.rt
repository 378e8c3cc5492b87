//! How numbers change where the resources of a state are better: which fall, which rise, and how far.

ghost use Rattle.std.specs.Prelude.{◌≡◌, ℕ, true, ◌⊎◌, [], pos, neg_ℤ, ◌+ℤ◌, ◌-ℤ◌, ◌*ℤ◌, ◌≤ℤ◌, IfSome, IsTrue, Some, slice_get, unwrap_or};
ghost use Rattle.dp_model.specs.Costs.{greatest};
ghost use Rattle.std.specs.Int.{int_max, int_min};
ghost use Rattle.std.specs.Option.{option_copied};
ghost use Rattle.dp_model.specs.Evaluation.{cells_of, number_cell};
ghost use Rattle.dp_model.specs.declared.parts.Variable.{Variable};
ghost use Rattle.honest_preferences.specs.Leaving.{is_kept};
ghost use Rattle.honest_preferences.specs.Sides.{HoldsNoLess, HoldsNoMore, IsHigh, IsHighEnd, IsLow, IsLowEnd, IsNoGreater, IsNoLess, IsRanged, is_tested};
ghost use Rattle.honest_preferences.specs.Signs.{Falls, Rises};

use crate::leaving::{is_kept, leaves_cond, leaves_num};
use dp_model::{Cells, Model, Num, NumOp, Preference};

/// The greatest number of a model, 2^62 - 1; the least is its negative.
const GREATEST: i64 = 4_611_686_018_427_387_903;

/// A model, which of its preferences are kept, and the ends of the kept resources: one of each for each variable.
/// An end is a lower end where less is preferred, and an upper end where more is.
#[derive(Clone, Copy)]
pub struct Signs<'a> {
    pub model: &'a Model,
    pub kept: &'a [bool],
    pub ends: &'a [i64],
}

/// A sum of two ends, where it is not below the least number.
fn low_sum(a: i64, b: i64) -> Option<i64>
    ensures { IfSome result (λ low. (low ≡ a +ℤ b) × (neg_ℤ greatest ≤ℤ low)) }
{
    let low = a.checked_add(b)?;
    if low >= -GREATEST { Some(low) } else { None }
}

/// A difference of two ends, where it is not below the least number.
fn low_difference(a: i64, b: i64) -> Option<i64>
    ensures { IfSome result (λ low. (low ≡ a -ℤ b) × (neg_ℤ greatest ≤ℤ low)) }
{
    let low = a.checked_sub(b)?;
    if low >= -GREATEST { Some(low) } else { None }
}

/// A sum of two ends, where it is not above the greatest number.
fn high_sum(a: i64, b: i64) -> Option<i64>
    ensures { IfSome result (λ high. (high ≡ a +ℤ b) × (high ≤ℤ greatest)) }
{
    let high = a.checked_add(b)?;
    if high <= GREATEST { Some(high) } else { None }
}

/// A difference of two ends, where it is not above the greatest number.
fn high_difference(a: i64, b: i64) -> Option<i64>
    ensures { IfSome result (λ high. (high ≡ a -ℤ b) × (high ≤ℤ greatest)) }
{
    let high = a.checked_sub(b)?;
    if high <= GREATEST { Some(high) } else { None }
}

/// 0 as the end of a product of two numbers, where neither is below 0.
fn low_product(a: i64, b: i64) -> Option<i64>
    ensures { IfSome result (λ low. (low ≡ pos 0) × (pos 0 ≤ℤ a) × (pos 0 ≤ℤ b)) }
{
    if a >= 0 && b >= 0 { Some(0) } else { None }
}

/// The end of a product of two numbers, of which the first lies between two ends from 0 on, and the second is at most an end from 0 on.
fn high_product(low: i64, high: i64, end: i64) -> Option<i64>
    ensures { IfSome result (λ most. (most ≡ high *ℤ end) × (most ≤ℤ greatest) × (pos 0 ≤ℤ low) × (pos 0 ≤ℤ end)) }
{
    if low < 0 || end < 0 {
        return None;
    }
    let most = high.checked_mul(end)?;
    if most <= GREATEST { Some(most) } else { None }
}

/// The cells of a table, if there are some.
fn cells(model: &Model, t: u32) -> Option<&Cells>
    ensures { unwrap_or (option_copied result) (Cells.Numbers []) ≡ cells_of model.now t }
{
    match model.tables().list().get(t as usize) {
        Some(table) => Some(table.cells()),
        None => None,
    }
}

/// The cells of a table of numbers; none of another table.
fn numbers_in(model: &Model, t: u32) -> &[i64]
    ensures { (at : ℕ) → number_cell (cells_of model.now t) at ≡ unwrap_or (slice_get result.now at) (pos 0) }
{
    match cells(model, t) {
        Some(Cells::Numbers(numbers)) => numbers.list(),
        _ => &[],
    }
}

/// A number that none of some numbers lies below: 0 or the least of them.
fn least(numbers: &[i64]) -> i64
    ensures { (at : ℕ) → result ≤ℤ unwrap_or (slice_get numbers.now at) (pos 0) }
{
    let mut least = 0;
    for n in numbers {
        least = (*n).min(least);
    }
    least
}

/// A number that none of some numbers lies above: 0 or the greatest of them.
fn greatest(numbers: &[i64]) -> i64
    ensures { (at : ℕ) → unwrap_or (slice_get numbers.now at) (pos 0) ≤ℤ result }
{
    let mut greatest = 0;
    for n in numbers {
        greatest = (*n).max(greatest);
    }
    greatest
}

/// Whether less is preferred of a variable.
pub fn prefers_less(model: &Model, v: u32) -> bool
    ensures { IsTrue result → (x : Variable) × (slice_get model.now.variables v ≡ Some x) × (x.preference ≡ Preference.Less) }
{
    match model.variables().list().get(v as usize) {
        Some(variable) => match variable.preference() {
            Preference::Less => true,
            Preference::Greater | Preference::Without => false,
        },
        None => false,
    }
}

/// Whether more is preferred of a variable.
pub fn prefers_greater(model: &Model, v: u32) -> bool
    ensures { IsTrue result → (x : Variable) × (slice_get model.now.variables v ≡ Some x) × (x.preference ≡ Preference.Greater) }
{
    match model.variables().list().get(v as usize) {
        Some(variable) => match variable.preference() {
            Preference::Greater => true,
            Preference::Less | Preference::Without => false,
        },
        None => false,
    }
}

/// Whether a variable holds no more in the better state: its preference is not kept, or less of it is preferred.
fn holds_no_more(at: &Signs<'_>, v: u32) -> bool
    ensures { IsTrue result → HoldsNoMore at.now.model.now at.now.kept.now at.now.ends.now v }
{
    if is_kept(at.kept, v) {
        prefers_less(at.model, v)
    } else {
        true
    }
}

/// Whether a variable holds no less in the better state.
fn holds_no_less(at: &Signs<'_>, v: u32) -> bool
    ensures { IsTrue result → HoldsNoLess at.now.model.now at.now.kept.now at.now.ends.now v }
{
    if is_kept(at.kept, v) {
        prefers_greater(at.model, v)
    } else {
        true
    }
}

/// The end of a variable, where it is kept and preferred on the end's side.
fn kept_end(at: &Signs<'_>, v: u32, prefers: bool) -> Option<i64>
    ensures { IfSome result (λ end. IsTrue prefers × (is_kept at.now.kept.now v ≡ true) × (slice_get at.now.ends.now v ≡ Some end)) }
{
    let keeps = prefers && is_kept(at.kept, v);
    match at.ends.get(v as usize) {
        Some(end) if keeps => Some(*end),
        _ => None,
    }
}

/// What a variable holds at least: its end where less of it is preferred, else the least number.
pub fn low_end(at: &Signs<'_>, v: u32) -> i64
    ensures { IsLowEnd at.now.model.now at.now.kept.now at.now.ends.now v result }
{
    match kept_end(at, v, prefers_less(at.model, v)) {
        Some(end) => end,
        None => -GREATEST,
    }
}

/// What a variable holds at most: its end where more of it is preferred, else the greatest number.
pub fn high_end(at: &Signs<'_>, v: u32) -> i64
    ensures { IsHighEnd at.now.model.now at.now.kept.now at.now.ends.now v result }
{
    match kept_end(at, v, prefers_greater(at.model, v)) {
        Some(end) => end,
        None => GREATEST,
    }
}

/// The lower end of a variable, where it holds no more in the better state.
fn falls_held(at: &Signs<'_>, v: u32) -> Option<i64>
    ensures { IfSome result (λ low. HoldsNoMore at.now.model.now at.now.kept.now at.now.ends.now v × IsLowEnd at.now.model.now at.now.kept.now at.now.ends.now v low) }
{
    if holds_no_more(at, v) {
        Some(low_end(at, v))
    } else {
        None
    }
}

/// The upper end of a variable, where it holds no less in the better state.
fn rises_held(at: &Signs<'_>, v: u32) -> Option<i64>
    ensures { IfSome result (λ high. HoldsNoLess at.now.model.now at.now.kept.now at.now.ends.now v × IsHighEnd at.now.model.now at.now.kept.now at.now.ends.now v high) }
{
    if holds_no_less(at, v) {
        Some(high_end(at, v))
    } else {
        None
    }
}

/// Whether the results of an operation are tested to be in range.
fn is_tested(op: NumOp) -> bool
    ensures { result ≡ is_tested op }
{
    match op {
        NumOp::Plus | NumOp::Minus | NumOp::Times | NumOp::Over | NumOp::Rest => true,
        NumOp::Most | NumOp::Least => false,
    }
}

/// Whether each value of a number is in range, by its outermost form.
fn is_ranged(e: &Num) -> bool
    ensures { IsTrue result → IsRanged e.now }
{
    match e {
        Num::Sum(_, _) => true,
        Num::Op(op, _, _) => is_tested(*op),
        _ => false,
    }
}

/// 0 where a table has no negative cell, else the least number.
fn low_total(numbers: &[i64]) -> i64
    ensures { (result ≡ neg_ℤ greatest) ⊎ ((result ≡ pos 0) × ((at : ℕ) → pos 0 ≤ℤ unwrap_or (slice_get numbers.now at) (pos 0))) }
{
    if least(numbers) >= 0 { 0 } else { -GREATEST }
}

/// A number that no value of an expression lies below, by its outermost form.
fn lowest(model: &Model, e: &Num) -> Option<i64>
    ensures { IfSome result (IsLow model.now e.now) }
{
    match e {
        Num::Cell(t, _) => Some(least(numbers_in(model, *t))),
        Num::Sum(t, _) => Some(low_total(numbers_in(model, *t))),
        Num::Size(_) => Some(0),
        _ => { if is_ranged(e) { Some(-GREATEST) } else { None } }
    }
}

/// A number that no value of an expression lies above, by its outermost form.
fn highest(model: &Model, e: &Num) -> Option<i64>
    ensures { IfSome result (IsHigh model.now e.now) }
{
    match e {
        Num::Cell(t, _) => Some(greatest(numbers_in(model, *t))),
        _ => { if is_ranged(e) { Some(GREATEST) } else { None } }
    }
}

/// The lower end of a number that is the same in both states.
fn falls_same(at: &Signs<'_>, e: &Num) -> Option<i64>
    ensures { IfSome result (Falls at.now.model.now at.now.kept.now at.now.ends.now e.now) }
{
    if leaves_num(at.kept, e) {
        lowest(at.model, e)
    } else {
        None
    }
}

/// The upper end of a number that is the same in both states.
fn rises_same(at: &Signs<'_>, e: &Num) -> Option<i64>
    ensures { IfSome result (Rises at.now.model.now at.now.kept.now at.now.ends.now e.now) }
{
    if leaves_num(at.kept, e) {
        highest(at.model, e)
    } else {
        None
    }
}

/// The greater of two ends.
fn greater_end(a: i64, b: i64) -> Option<i64>
    ensures { IfSome result (λ x. x ≡ int_max a b) }
{
    Some(a.max(b))
}

/// The lesser of two ends.
fn lesser_end(a: i64, b: i64) -> Option<i64>
    ensures { IfSome result (λ x. x ≡ int_min a b) }
{
    Some(a.min(b))
}

/// The end that a number without operands which change does not fall below.
fn falls_alone(at: &Signs<'_>, e: &Num) -> Option<i64>
    ensures { IfSome result (Falls at.now.model.now at.now.kept.now at.now.ends.now e.now) }
{
    match e {
        Num::Fixed(n) => Some(*n),
        Num::Param(_) => Some(0),
        Num::Var(v) => falls_held(at, *v),
        _ => falls_same(at, e),
    }
}

/// Whether a number falls where the resources are better, and which end it does not fall below.
#[cycle(signs)]
pub fn falls(at: &Signs<'_>, e: &Num) -> Option<i64>
    ensures { IfSome result (Falls at.now.model.now at.now.kept.now at.now.ends.now e.now) }
{
    match e {
        Num::Op(NumOp::Plus, a, b) => {
            let x = falls(at, a.get())?;
            let y = falls(at, b.get())?;
            low_sum(x, y)
        }
        Num::Op(NumOp::Minus, a, b) => {
            let x = falls(at, a.get())?;
            let y = rises(at, b.get())?;
            low_difference(x, y)
        }
        Num::Op(NumOp::Times, a, b) => {
            let x = falls(at, a.get())?;
            let y = falls(at, b.get())?;
            low_product(x, y)
        }
        Num::Op(NumOp::Most, a, b) => {
            let x = falls(at, a.get())?;
            let y = falls(at, b.get())?;
            greater_end(x, y)
        }
        Num::Op(NumOp::Least, a, b) => {
            let x = falls(at, a.get())?;
            let y = falls(at, b.get())?;
            lesser_end(x, y)
        }
        Num::If(c, a, b) => {
            if !leaves_cond(at.kept, c.get()) {
                return None;
            }
            let x = falls(at, a.get())?;
            let y = falls(at, b.get())?;
            lesser_end(x, y)
        }
        _ => falls_alone(at, e),
    }
}

/// The end that a number without operands which change does not rise above.
fn rises_alone(at: &Signs<'_>, e: &Num) -> Option<i64>
    ensures { IfSome result (Rises at.now.model.now at.now.kept.now at.now.ends.now e.now) }
{
    match e {
        Num::Fixed(n) => Some(*n),
        Num::Var(v) => rises_held(at, *v),
        _ => rises_same(at, e),
    }
}

/// Whether a number rises where the resources are better, and which end it does not rise above.
#[cycle(signs)]
pub fn rises(at: &Signs<'_>, e: &Num) -> Option<i64>
    ensures { IfSome result (Rises at.now.model.now at.now.kept.now at.now.ends.now e.now) }
{
    match e {
        Num::Op(NumOp::Plus, a, b) => {
            let x = rises(at, a.get())?;
            let y = rises(at, b.get())?;
            high_sum(x, y)
        }
        Num::Op(NumOp::Minus, a, b) => {
            let x = rises(at, a.get())?;
            let y = falls(at, b.get())?;
            high_difference(x, y)
        }
        Num::Op(NumOp::Times, a, b) => {
            let a = a.get();
            let b = b.get();
            if leaves_num(at.kept, a) {
                let low_a = falls(at, a)?;
                let high_a = rises(at, a)?;
                let end_b = rises(at, b)?;
                high_product(low_a, high_a, end_b)
            } else if leaves_num(at.kept, b) {
                let low_b = falls(at, b)?;
                let high_b = rises(at, b)?;
                let end_a = rises(at, a)?;
                high_product(low_b, high_b, end_a)
            } else {
                None
            }
        }
        Num::Op(NumOp::Most, a, b) => {
            let x = rises(at, a.get())?;
            let y = rises(at, b.get())?;
            greater_end(x, y)
        }
        Num::Op(NumOp::Least, a, b) => {
            let x = rises(at, a.get())?;
            let y = rises(at, b.get())?;
            lesser_end(x, y)
        }
        Num::If(c, a, b) => {
            if !leaves_cond(at.kept, c.get()) {
                return None;
            }
            let x = rises(at, a.get())?;
            let y = rises(at, b.get())?;
            greater_end(x, y)
        }
        _ => rises_alone(at, e),
    }
}

/// Whether a number is no greater where the resources are better: it is the same there, or it falls.
pub fn is_no_greater(at: &Signs<'_>, e: &Num) -> bool
    ensures { IsTrue result → IsNoGreater at.now.model.now at.now.kept.now at.now.ends.now e.now }
{
    if leaves_num(at.kept, e) {
        return true;
    }
    match falls(at, e) {
        Some(_) => true,
        None => false,
    }
}

/// Whether a number is no less where the resources are better: it is the same there, or it rises.
pub fn is_no_less(at: &Signs<'_>, e: &Num) -> bool
    ensures { IsTrue result → IsNoLess at.now.model.now at.now.kept.now at.now.ends.now e.now }
{
    if leaves_num(at.kept, e) {
        return true;
    }
    match rises(at, e) {
        Some(_) => true,
        None => false,
    }
}
