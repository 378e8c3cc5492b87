//! Expressions of few parts, which need no stack: numbers that are written, those of variables and parameters, cells whose
//! arguments are such, and one operation on such sets, or on such a set and a number. `None` stands for an expression that
//! has more parts and for a fault: it is evaluated as any other.

ghost use Rattle.std.specs.Prelude.{◌≡◌, ◌≤◌, ◌∷◌, [], ℕ, length, Ok, IfSome, IsTrue};
ghost use Rattle.bit_sets.specs.Sets.{members_of};
ghost use Rattle.dp_model.specs.Evaluation.{count_of, table_counts, cells_of, cells_object, number_cell, set_cell, num_value, set_value};
ghost use Rattle.state_layout.specs.Packing.{state_in};
ghost use Rattle.eval_room.specs.Fits.{num_fits, set_fits, all_fit};
ghost use Rattle.packed_words.specs.Operands.{at_operands, num_values, is_empty, both_within};
ghost use Rattle.packed_words.specs.Places.{placed_at};
ghost use Rattle.packed_words.specs.Sets.{IsClean, one_word};
ghost use Rattle.packed_eval.specs.Plain.{compared_by, with_by, without_by};

use crate::cells::word_placed;
use crate::places::{place_of_one, place_of_two};
use dp_base::Seq;
use dp_model::{Compare, Num, SetEx};
use packed_words::{
    Scene, cell_count, compares, counts, is_empty_word, is_within_word, member_of, number_in,
    number_placed, operate_words, parameter, set_slot, word_of, word_with, word_without,
};

/// The value of a number that is written, a variable's or a parameter's. `None` stands for a number that has parts.
#[inline(always)]
pub fn plain(at: &Scene<'_>, e: &Num) -> Option<i64>
    requires { (room : ℕ) × IsTrue (num_fits at.now.model.now e.now (length at.now.args.now) room) }
    ensures { IfSome result (λ z. num_value at.now.model.now (state_in at.now.words.now) e.now at.now.args.now ≡ Ok z) }
{
    match e {
        Num::Fixed(n) => Some(*n),
        Num::Var(v) => Some(number_in(at, *v)),
        Num::Param(p) => Some(parameter(at, *p)),
        _ => None,
    }
}

/// The place of a table's cell of one argument.
#[inline(always)]
fn plain_place_of_one(at: &Scene<'_>, t: u32, n: &Num) -> Option<usize>
    requires { (room : ℕ) × IsTrue (num_fits at.now.model.now n.now (length at.now.args.now) room) }
    ensures { IfSome result (λ place. placed_at (table_counts at.now.model.now t)
        (num_values at.now.model.now (state_in at.now.words.now) (n.now ∷ []) at.now.args.now) ≡ Ok place) }
{
    let z = plain(at, n)?;
    place_of_one(counts(at, t), z).ok()
}

/// The place of a table's cell of two arguments.
#[inline(always)]
fn plain_place_of_two(at: &Scene<'_>, t: u32, n: &Num, more: &Num) -> Option<usize>
    requires first { (room : ℕ) × IsTrue (num_fits at.now.model.now n.now (length at.now.args.now) room) }
    requires last { (room : ℕ) × IsTrue (num_fits at.now.model.now more.now (length at.now.args.now) room) }
    ensures { IfSome result (λ place. placed_at (table_counts at.now.model.now t)
        (num_values at.now.model.now (state_in at.now.words.now) (n.now ∷ more.now ∷ []) at.now.args.now) ≡ Ok place) }
{
    let y = plain(at, n)?;
    let z = plain(at, more)?;
    place_of_two(counts(at, t), y, z).ok()
}

/// The place of a table's cell, whose arguments have no parts and are at most two. `None` stands also for a fault.
#[inline(always)]
fn plain_place(at: &Scene<'_>, t: u32, ns: &Seq<Num>) -> Option<usize>
    requires { (room : ℕ) × IsTrue (all_fit at.now.model.now ns.now (length at.now.args.now) room) }
    ensures { IfSome result (λ place. placed_at (table_counts at.now.model.now t)
        (num_values at.now.model.now (state_in at.now.words.now) ns.now at.now.args.now) ≡ Ok place) }
{
    match ns.list().as_slice() {
        [] => Some(0),
        [n] => plain_place_of_one(at, t, n),
        [n, more] => plain_place_of_two(at, t, n, more),
        _ => None,
    }
}

/// The number in a table's cell, whose arguments have no parts. `None` stands also for a fault.
#[inline(never)]
pub fn plain_number(at: &Scene<'_>, t: u32, ns: &Seq<Num>) -> Option<i64>
    requires { (room : ℕ) × IsTrue (all_fit at.now.model.now ns.now (length at.now.args.now) room) }
    ensures { IfSome result (λ z. at_operands at.now.model.now t (number_cell (cells_of at.now.model.now t))
        (num_values at.now.model.now (state_in at.now.words.now) ns.now at.now.args.now) ≡ Ok z) }
{
    let place = plain_place(at, t, ns)?;
    number_placed(at.model, t, Ok(place)).ok()
}

/// The set in a table's cell of one argument, in one word.
#[inline(always)]
fn plain_word_of_one(at: &Scene<'_>, t: u32, n: &Num) -> Option<u64>
    requires few { count_of at.now.model.now (cells_object (cells_of at.now.model.now t)) ≤ 64 }
    requires fits { (room : ℕ) × IsTrue (num_fits at.now.model.now n.now (length at.now.args.now) room) }
    ensures members { IfSome result (λ w. at_operands at.now.model.now t (set_cell (cells_of at.now.model.now t))
        (num_values at.now.model.now (state_in at.now.words.now) (n.now ∷ []) at.now.args.now) ≡ Ok (members_of (one_word w))) }
    ensures clean { IfSome result (λ w. IsClean (count_of at.now.model.now (cells_object (cells_of at.now.model.now t))) (one_word w)) }
{
    let place = plain_place_of_one(at, t, n)?;
    word_placed(at, t, Ok(place)).ok()
}

/// The set in a table's cell, in one word, whose arguments have no parts. `None` stands also for a fault.
#[inline(never)]
pub fn plain_word(at: &Scene<'_>, t: u32, ns: &Seq<Num>) -> Option<u64>
    requires few { count_of at.now.model.now (cells_object (cells_of at.now.model.now t)) ≤ 64 }
    requires fits { (room : ℕ) × IsTrue (all_fit at.now.model.now ns.now (length at.now.args.now) room) }
    ensures members { IfSome result (λ w. at_operands at.now.model.now t (set_cell (cells_of at.now.model.now t))
        (num_values at.now.model.now (state_in at.now.words.now) ns.now at.now.args.now) ≡ Ok (members_of (one_word w))) }
    ensures clean { IfSome result (λ w. IsClean (count_of at.now.model.now (cells_object (cells_of at.now.model.now t))) (one_word w)) }
{
    match ns.list().as_slice() {
        [n] => plain_word_of_one(at, t, n),
        _ => {
            let place = plain_place(at, t, ns)?;
            word_placed(at, t, Ok(place)).ok()
        }
    }
}

/// Whether two numbers that have no parts compare so.
#[inline(always)]
pub fn plain_compared(at: &Scene<'_>, op: Compare, a: &Num, b: &Num) -> Option<bool>
    requires left { (room : ℕ) × IsTrue (num_fits at.now.model.now a.now (length at.now.args.now) room) }
    requires right { (room : ℕ) × IsTrue (num_fits at.now.model.now b.now (length at.now.args.now) room) }
    ensures { IfSome result (λ held. compared_by op (num_value at.now.model.now (state_in at.now.words.now) a.now at.now.args.now) (num_value at.now.model.now (state_in at.now.words.now) b.now at.now.args.now) ≡ Ok held) }
{
    let x = plain(at, a)?;
    let y = plain(at, b)?;
    Some(compares(op, x, y))
}

/// How many members the object type of a variable's set has, or of a cell's.
#[inline(always)]
fn count_held(at: &Scene<'_>, e: &SetEx) -> Option<u32>
    requires { (room : ℕ) × IsTrue ((set_fits at.now.model.now e.now).1 (length at.now.args.now) room) }
    ensures { IfSome result (λ count. count ≡ count_of at.now.model.now (set_fits at.now.model.now e.now).0) }
{
    match e {
        SetEx::Var(v) => Some(set_slot(at, *v).count),
        SetEx::Cell(t, _) => Some(cell_count(at, *t)),
        _ => None,
    }
}

/// How many members the object type of a set of few parts has, if they are at most 64.
#[inline(always)]
fn few_count(at: &Scene<'_>, e: &SetEx) -> Option<u32>
    requires { (room : ℕ) × IsTrue ((set_fits at.now.model.now e.now).1 (length at.now.args.now) room) }
    ensures { IfSome result (λ count. (count ≡ count_of at.now.model.now (set_fits at.now.model.now e.now).0) × (count ≤ 64)) }
{
    let count = match e {
        SetEx::Op(_, a, _) => count_held(at, a.get())?,
        _ => count_held(at, e)?,
    };
    if count <= 64 { Some(count) } else { None }
}

/// The set of a variable or of a cell, in one word.
#[inline(always)]
fn word_held(at: &Scene<'_>, e: &SetEx, count: u32) -> Option<u64>
    requires fits { (room : ℕ) × IsTrue ((set_fits at.now.model.now e.now).1 (length at.now.args.now) room) }
    requires count { count ≡ count_of at.now.model.now (set_fits at.now.model.now e.now).0 }
    requires few { count ≤ 64 }
    ensures members { IfSome result (λ w. (set_value at.now.model.now (state_in at.now.words.now) e.now).1 at.now.args.now ≡ Ok (members_of (one_word w))) }
    ensures clean { IfSome result (λ w. IsClean count (one_word w)) }
{
    match e {
        SetEx::Var(v) => Some(word_of(at, *v)),
        SetEx::Cell(t, ns) => plain_word(at, *t, ns),
        _ => None,
    }
}

/// A set of few parts with one member more.
#[inline(always)]
fn quick_with(at: &Scene<'_>, n: &Num, a: &SetEx, count: u32) -> Option<u64>
    requires number { (room : ℕ) × IsTrue (num_fits at.now.model.now n.now (length at.now.args.now) room) }
    requires fits { (room : ℕ) × IsTrue ((set_fits at.now.model.now a.now).1 (length at.now.args.now) room) }
    requires count { count ≡ count_of at.now.model.now (set_fits at.now.model.now a.now).0 }
    requires few { count ≤ 64 }
    ensures members { IfSome result (λ w. with_by count (num_value at.now.model.now (state_in at.now.words.now) n.now at.now.args.now) ((set_value at.now.model.now (state_in at.now.words.now) a.now).1 at.now.args.now) ≡ Ok (members_of (one_word w))) }
    ensures clean { IfSome result (λ w. IsClean count (one_word w)) }
{
    let z = plain(at, n)?;
    let word = word_held(at, a, count)?;
    let member = member_of(count, z).ok()?;
    Some(word_with(count, word, member))
}

/// A set of few parts without one member.
#[inline(always)]
fn quick_without(at: &Scene<'_>, n: &Num, a: &SetEx, count: u32) -> Option<u64>
    requires number { (room : ℕ) × IsTrue (num_fits at.now.model.now n.now (length at.now.args.now) room) }
    requires fits { (room : ℕ) × IsTrue ((set_fits at.now.model.now a.now).1 (length at.now.args.now) room) }
    requires count { count ≡ count_of at.now.model.now (set_fits at.now.model.now a.now).0 }
    requires few { count ≤ 64 }
    ensures members { IfSome result (λ w. without_by count (num_value at.now.model.now (state_in at.now.words.now) n.now at.now.args.now) ((set_value at.now.model.now (state_in at.now.words.now) a.now).1 at.now.args.now) ≡ Ok (members_of (one_word w))) }
    ensures clean { IfSome result (λ w. IsClean count (one_word w)) }
{
    let z = plain(at, n)?;
    let word = word_held(at, a, count)?;
    let member = member_of(count, z).ok()?;
    Some(word_without(count, word, member))
}

/// A set of few parts, in one word.
#[inline(always)]
fn quick_word(at: &Scene<'_>, e: &SetEx, count: u32) -> Option<u64>
    requires fits { (room : ℕ) × IsTrue ((set_fits at.now.model.now e.now).1 (length at.now.args.now) room) }
    requires count { count ≡ count_of at.now.model.now (set_fits at.now.model.now e.now).0 }
    requires few { count ≤ 64 }
    ensures members { IfSome result (λ w. (set_value at.now.model.now (state_in at.now.words.now) e.now).1 at.now.args.now ≡ Ok (members_of (one_word w))) }
    ensures clean { IfSome result (λ w. IsClean count (one_word w)) }
{
    match e {
        SetEx::Op(op, a, b) => {
            let x = word_held(at, a.get(), count)?;
            let y = word_held(at, b.get(), count)?;
            Some(operate_words(*op, count, x, y))
        }
        SetEx::With(n, a) => quick_with(at, n.get(), a.get(), count),
        SetEx::Without(n, a) => quick_without(at, n.get(), a.get(), count),
        _ => word_held(at, e, count),
    }
}

/// The same in one call.
#[inline(never)]
pub fn quick_set(at: &Scene<'_>, e: &SetEx, count: u32) -> Option<u64>
    requires fits { (room : ℕ) × IsTrue ((set_fits at.now.model.now e.now).1 (length at.now.args.now) room) }
    requires count { count ≡ count_of at.now.model.now (set_fits at.now.model.now e.now).0 }
    requires few { count ≤ 64 }
    ensures members { IfSome result (λ w. (set_value at.now.model.now (state_in at.now.words.now) e.now).1 at.now.args.now ≡ Ok (members_of (one_word w))) }
    ensures clean { IfSome result (λ w. IsClean count (one_word w)) }
{
    quick_word(at, e, count)
}

/// Whether a set of few parts has no members.
#[inline(never)]
pub fn quick_empty(at: &Scene<'_>, a: &SetEx) -> Option<bool>
    requires { (room : ℕ) × IsTrue ((set_fits at.now.model.now a.now).1 (length at.now.args.now) room) }
    ensures { IfSome result (λ held. is_empty ((set_value at.now.model.now (state_in at.now.words.now) a.now).1 at.now.args.now) ≡ Ok held) }
{
    let count = few_count(at, a)?;
    let word = quick_word(at, a, count)?;
    Some(is_empty_word(word))
}

/// Whether each member of a set of few parts is one of another.
#[inline(never)]
pub fn quick_within(at: &Scene<'_>, a: &SetEx, b: &SetEx) -> Option<bool>
    requires left { (room : ℕ) × IsTrue ((set_fits at.now.model.now a.now).1 (length at.now.args.now) room) }
    requires right { (room : ℕ) × IsTrue ((set_fits at.now.model.now b.now).1 (length at.now.args.now) room) }
    requires same { (set_fits at.now.model.now a.now).0 ≡ (set_fits at.now.model.now b.now).0 }
    ensures { IfSome result (λ held. both_within ((set_value at.now.model.now (state_in at.now.words.now) a.now).1 at.now.args.now) ((set_value at.now.model.now (state_in at.now.words.now) b.now).1 at.now.args.now) ≡ Ok held) }
{
    let count = few_count(at, a)?;
    let x = quick_word(at, a, count)?;
    let y = quick_word(at, b, count)?;
    Some(is_within_word(x, y))
}
