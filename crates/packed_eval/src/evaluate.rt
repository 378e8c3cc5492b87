//! The evaluators, one arm for each form of expression. Operands are evaluated from left to right, and then the
//! operation is tested. Sets of at most 64 members are one word; larger ones that an operation needs at once lie one behind
//! another in a stack of words.

ghost use Rattle.std.specs.Prelude.{◌≡◌, ◌≤◌, ◌+◌, ◌-◌, ◌∷◌, ◌++◌, [], length, take, drop, IfOk, OnOk, IsTrue};
ghost use Rattle.dp_model.specs.Evaluation.{count_of, table_counts, cells_of, cells_object, number_cell, truth_cell, set_cell, each_holds, num_value, set_value, cond_value};
ghost use Rattle.bit_sets.specs.Sets.{members_of};
ghost use Rattle.state_layout.specs.Signatures.{word_count};
ghost use Rattle.state_layout.specs.Packing.{state_in};
ghost use Rattle.eval_room.specs.Fits.{num_fits, set_fits, cond_fits, arg_fits, operand_fits, all_fit, more_fits, terms_fit, term_room};
ghost use Rattle.packed_words.specs.Sets.{IsClean, one_word};
ghost use Rattle.packed_words.specs.Operands.{Tells, at_operands, operated_by, with_in, without_in, is_within, is_same_as, is_member_in, is_empty, size_of, num_values};
ghost use Rattle.packed_words.specs.Places.{placed_at};
ghost use Rattle.packed_words.specs.Totals.{arg_value, sum_value};
ghost use Rattle.packed_eval.specs.Held.{held_in};
ghost use Rattle.packed_eval.specs.Plain.{denied};
ghost use Rattle.packed_eval.specs.Sums.{Termed, term_value};
ghost use Rattle.packed_words.specs.Ranges.{range_members, IsRange};

use crate::cells::{
    count_in, is_empty_var, is_in_var, member_at, member_in, set_placed, size_in, word_member,
    word_placed, word_size_in, write_word,
};
use crate::places::{place_of_one, place_of_two};
use crate::quick::{plain, plain_compared, plain_number, plain_word, quick_empty, quick_within};
use crate::rows::held_along;
use crate::sums::{Term, first_of, one_member, sum_at, sum_held, sum_of_two, sum_word};
use dp_base::Seq;
use dp_model::{Arg, Cond, FaultKind, Num, SetEx, SetOp};
use packed_words::{
    Range, Scene, after_first, compares, copy_set, counts, is_empty as is_empty_set, is_empty_word,
    is_same, is_same_word, is_subset, is_within_word, member_of, member_on, next_of, number_in,
    number_placed, operate, operate_into, operate_words, other_word, others, parameter, range_of,
    start_more, truth_placed, with, without, word_of, word_with, word_without, words_for,
    write_more,
};

/// The value of a number expression. Numbers, variables and parameters are read where it stands, and a cell is one call.
#[cycle(eval)]
#[inline(always)]
pub fn number(at: &Scene<'_>, e: &Num, stack: &mut [u64]) -> Result<i64, FaultKind>
    requires { IsTrue (num_fits at.now.model.now e.now (length at.now.args.now) (length stack.old)) }
    ensures { result ≡ num_value at.now.model.now (state_in at.now.words.now) e.now at.now.args.now }
{
    match e {
        Num::Fixed(n) => Ok(*n),
        Num::Var(v) => Ok(number_in(at, *v)),
        Num::Param(p) => Ok(parameter(at, *p)),
        Num::Cell(t, ns) => match plain_number(at, *t, ns) {
            Some(z) => Ok(z),
            None => number_cell(at, *t, ns, stack),
        },
        _ => composed(at, e, stack),
    }
}

/// The value of a number expression that has parts.
#[cycle(eval)]
#[inline(never)]
fn composed(at: &Scene<'_>, e: &Num, stack: &mut [u64]) -> Result<i64, FaultKind>
    requires { IsTrue (num_fits at.now.model.now e.now (length at.now.args.now) (length stack.old)) }
    ensures { result ≡ num_value at.now.model.now (state_in at.now.words.now) e.now at.now.args.now }
{
    match e {
        Num::Fixed(n) => Ok(*n),
        Num::Var(v) => Ok(number_in(at, *v)),
        Num::Param(p) => Ok(parameter(at, *p)),
        Num::Cell(t, ns) => number_cell(at, *t, ns, stack),
        Num::Sum(t, terms) => sum(at, *t, terms, stack),
        Num::Size(a) => size_of(at, a.get(), stack),
        Num::Op(op, a, b) => {
            let x = number(at, a.get(), stack)?;
            let y = number(at, b.get(), stack)?;
            operate(*op, x, y)
        }
        Num::If(c, a, b) => {
            if holds(at, c.get(), stack)? {
                number(at, a.get(), stack)
            } else {
                number(at, b.get(), stack)
            }
        }
    }
}

/// The number in a table's cell.
#[cycle(eval)]
#[inline(never)]
fn number_cell(at: &Scene<'_>, t: u32, ns: &Seq<Num>, stack: &mut [u64]) -> Result<i64, FaultKind>
    requires { IsTrue (all_fit at.now.model.now ns.now (length at.now.args.now) (length stack.old)) }
    ensures { result ≡ at_operands at.now.model.now t (number_cell (cells_of at.now.model.now t)) (num_values at.now.model.now (state_in at.now.words.now) ns.now at.now.args.now) }
{
    number_placed(at.model, t, place_of(at, t, ns, stack))
}

/// The truth value in a table's cell.
#[cycle(eval)]
#[inline(never)]
fn truth_cell(at: &Scene<'_>, t: u32, ns: &Seq<Num>, stack: &mut [u64]) -> Result<bool, FaultKind>
    requires { IsTrue (all_fit at.now.model.now ns.now (length at.now.args.now) (length stack.old)) }
    ensures { result ≡ at_operands at.now.model.now t (truth_cell (cells_of at.now.model.now t)) (num_values at.now.model.now (state_in at.now.words.now) ns.now at.now.args.now) }
{
    truth_placed(at.model, t, place_of(at, t, ns, stack))
}

/// The set in a table's cell, in one word.
#[cycle(eval)]
#[inline(never)]
fn cell_in_word(at: &Scene<'_>, t: u32, ns: &Seq<Num>, stack: &mut [u64]) -> Result<u64, FaultKind>
    requires few { count_of at.now.model.now (cells_object (cells_of at.now.model.now t)) ≤ 64 }
    requires fits { IsTrue (all_fit at.now.model.now ns.now (length at.now.args.now) (length stack.old)) }
    ensures members { Tells (λ w. members_of (one_word w)) result (at_operands at.now.model.now t (set_cell (cells_of at.now.model.now t)) (num_values at.now.model.now (state_in at.now.words.now) ns.now at.now.args.now)) }
    ensures clean { IfOk result (λ w. IsClean (count_of at.now.model.now (cells_object (cells_of at.now.model.now t))) (one_word w)) }
{
    word_placed(at, t, place_of(at, t, ns, stack))
}

/// The place of a table's cell, whose arguments are evaluated in order. A fault of a member waits until all are.
#[cycle(eval)]
#[inline(always)]
fn place_of(at: &Scene<'_>, t: u32, ns: &Seq<Num>, stack: &mut [u64]) -> Result<usize, FaultKind>
    requires { IsTrue (all_fit at.now.model.now ns.now (length at.now.args.now) (length stack.old)) }
    ensures { result ≡ placed_at (table_counts at.now.model.now t)
        (num_values at.now.model.now (state_in at.now.words.now) ns.now at.now.args.now) }
{
    match ns.list().as_slice() {
        [] => Ok(0),
        [n] => {
            let z = number(at, n, stack)?;
            place_of_one(counts(at, t), z)
        }
        [n, more] => {
            let y = number(at, n, stack)?;
            let z = number(at, more, stack)?;
            place_of_two(counts(at, t), y, z)
        }
        _ => place_of_all(at, t, ns, stack),
    }
}

/// The same of any number of arguments.
#[cycle(eval)]
#[inline(never)]
fn place_of_all(
    at: &Scene<'_>,
    t: u32,
    ns: &Seq<Num>,
    stack: &mut [u64],
) -> Result<usize, FaultKind>
    requires { IsTrue (all_fit at.now.model.now ns.now (length at.now.args.now) (length stack.old)) }
    ensures { result ≡ placed_at (table_counts at.now.model.now t)
        (num_values at.now.model.now (state_in at.now.words.now) ns.now at.now.args.now) }
{
    let mut led = Ok(0);
    let mut left = counts(at, t);
    for n in ns.list() {
        let z = number(at, n, stack)?;
        led = member_on(left, led, z);
        left = after_first(left);
    }
    led
}

/// Writes the members of a set expression, whose object type has so many.
#[cycle(eval)]
#[inline(never)]
pub fn set_into(
    at: &Scene<'_>,
    e: &SetEx,
    count: u32,
    out: &mut [u64],
    stack: &mut [u64],
) -> Result<(), FaultKind>
    requires fits { IsTrue ((set_fits at.now.model.now e.now).1 (length at.now.args.now) (length stack.old)) }
    requires count { count ≡ count_of at.now.model.now (set_fits at.now.model.now e.now).0 }
    requires length { length out.old ≡ word_count count }
    ensures members { Tells (λ _. members_of out.new) result
        ((set_value at.now.model.now (state_in at.now.words.now) e.now).1 at.now.args.now) }
    ensures clean { OnOk result (IsClean count out.new) }
{
    if count <= 64 {
        let word = set_word(at, e, count, stack)?;
        write_word(count, word, out);
        Ok(())
    } else {
        set_wide(at, e, count, out, stack)
    }
}

/// The members of a set expression, whose object type has so many and at most 64, in one word. A variable is read where it
/// stands, and a cell is one call.
#[cycle(eval)]
#[inline(always)]
fn set_word(at: &Scene<'_>, e: &SetEx, count: u32, stack: &mut [u64]) -> Result<u64, FaultKind>
    requires fits { IsTrue ((set_fits at.now.model.now e.now).1 (length at.now.args.now) (length stack.old)) }
    requires count { count ≡ count_of at.now.model.now (set_fits at.now.model.now e.now).0 }
    requires few { count ≤ 64 }
    ensures members { Tells (λ w. members_of (one_word w)) result
        ((set_value at.now.model.now (state_in at.now.words.now) e.now).1 at.now.args.now) }
    ensures clean { IfOk result (λ w. IsClean count (one_word w)) }
{
    match e {
        SetEx::Var(v) => Ok(word_of(at, *v)),
        SetEx::Cell(t, ns) => match plain_word(at, *t, ns) {
            Some(word) => Ok(word),
            None => cell_in_word(at, *t, ns, stack),
        },
        _ => composed_word(at, e, count, stack),
    }
}

/// The members of a set expression that has parts, in one word.
#[cycle(eval)]
#[inline(never)]
fn composed_word(at: &Scene<'_>, e: &SetEx, count: u32, stack: &mut [u64]) -> Result<u64, FaultKind>
    requires fits { IsTrue ((set_fits at.now.model.now e.now).1 (length at.now.args.now) (length stack.old)) }
    requires count { count ≡ count_of at.now.model.now (set_fits at.now.model.now e.now).0 }
    requires few { count ≤ 64 }
    ensures members { Tells (λ w. members_of (one_word w)) result
        ((set_value at.now.model.now (state_in at.now.words.now) e.now).1 at.now.args.now) }
    ensures clean { IfOk result (λ w. IsClean count (one_word w)) }
{
    match e {
        SetEx::Var(v) => Ok(word_of(at, *v)),
        SetEx::Cell(t, ns) => cell_in_word(at, *t, ns, stack),
        SetEx::Op(op, a, b) => {
            let word = set_word(at, a.get(), count, stack)?;
            operated_word(at, *op, count, word, b.get(), stack)
        }
        SetEx::Not(a) => {
            let word = set_word(at, a.get(), count, stack)?;
            Ok(other_word(count, word))
        }
        SetEx::With(n, a) => {
            let z = number(at, n.get(), stack)?;
            word_with_member(at, z, a.get(), count, stack)
        }
        SetEx::Without(n, a) => {
            let z = number(at, n.get(), stack)?;
            word_without_member(at, z, a.get(), count, stack)
        }
        SetEx::If(c, a, b) => {
            if holds(at, c.get(), stack)? {
                set_word(at, a.get(), count, stack)
            } else {
                set_word(at, b.get(), count, stack)
            }
        }
    }
}

/// The members of a set, in one word, behind the words that it would be written to.
#[cycle(eval)]
#[inline(always)]
pub(crate) fn operand_word(
    at: &Scene<'_>,
    e: &SetEx,
    count: u32,
    stack: &mut [u64],
) -> Result<u64, FaultKind>
    requires fits { IsTrue (operand_fits at.now.model.now (set_fits at.now.model.now e.now) (length at.now.args.now) (length stack.old)) }
    requires count { count ≡ count_of at.now.model.now (set_fits at.now.model.now e.now).0 }
    requires few { count ≤ 64 }
    ensures members { Tells (λ w. members_of (one_word w)) result
        ((set_value at.now.model.now (state_in at.now.words.now) e.now).1 at.now.args.now) }
    ensures clean { IfOk result (λ w. IsClean count (one_word w)) }
{
    match e {
        SetEx::Var(v) => Ok(word_of(at, *v)),
        _ => {
            let (_, rest) = stack.split_at_mut(words_for(count));
            set_word(at, e, count, rest)
        }
    }
}

/// A set operation on a set in one word and its second operand.
#[cycle(eval)]
#[inline]
fn operated_word(
    at: &Scene<'_>,
    op: SetOp,
    count: u32,
    word: u64,
    b: &SetEx,
    stack: &mut [u64],
) -> Result<u64, FaultKind>
    requires fits { IsTrue (operand_fits at.now.model.now (set_fits at.now.model.now b.now) (length at.now.args.now) (length stack.old)) }
    requires count { count ≡ count_of at.now.model.now (set_fits at.now.model.now b.now).0 }
    requires few { count ≤ 64 }
    requires clean { IsClean count (one_word word) }
    ensures members { Tells (λ w. members_of (one_word w)) result
        (operated_by op count (members_of (one_word word)) ((set_value at.now.model.now (state_in at.now.words.now) b.now).1 at.now.args.now)) }
    ensures clean { IfOk result (λ w. IsClean count (one_word w)) }
{
    let other = operand_word(at, b, count, stack)?;
    Ok(operate_words(op, count, word, other))
}

/// A set in one word with the member of its object type that a number is.
#[cycle(eval)]
#[inline]
fn word_with_member(
    at: &Scene<'_>,
    z: i64,
    a: &SetEx,
    count: u32,
    stack: &mut [u64],
) -> Result<u64, FaultKind>
    requires fits { IsTrue ((set_fits at.now.model.now a.now).1 (length at.now.args.now) (length stack.old)) }
    requires count { count ≡ count_of at.now.model.now (set_fits at.now.model.now a.now).0 }
    requires few { count ≤ 64 }
    ensures members { Tells (λ w. members_of (one_word w)) result
        (with_in count z ((set_value at.now.model.now (state_in at.now.words.now) a.now).1 at.now.args.now)) }
    ensures clean { IfOk result (λ w. IsClean count (one_word w)) }
{
    let word = set_word(at, a, count, stack)?;
    let member = member_of(count, z)?;
    Ok(word_with(count, word, member))
}

/// A set in one word without the member of its object type that a number is.
#[cycle(eval)]
#[inline]
fn word_without_member(
    at: &Scene<'_>,
    z: i64,
    a: &SetEx,
    count: u32,
    stack: &mut [u64],
) -> Result<u64, FaultKind>
    requires fits { IsTrue ((set_fits at.now.model.now a.now).1 (length at.now.args.now) (length stack.old)) }
    requires count { count ≡ count_of at.now.model.now (set_fits at.now.model.now a.now).0 }
    requires few { count ≤ 64 }
    ensures members { Tells (λ w. members_of (one_word w)) result
        (without_in count z ((set_value at.now.model.now (state_in at.now.words.now) a.now).1 at.now.args.now)) }
    ensures clean { IfOk result (λ w. IsClean count (one_word w)) }
{
    let word = set_word(at, a, count, stack)?;
    let member = member_of(count, z)?;
    Ok(word_without(count, word, member))
}

/// Writes the members of a set expression, whose object type has so many, word by word.
#[cycle(eval)]
#[inline(never)]
fn set_wide(
    at: &Scene<'_>,
    e: &SetEx,
    count: u32,
    out: &mut [u64],
    stack: &mut [u64],
) -> Result<(), FaultKind>
    requires fits { IsTrue ((set_fits at.now.model.now e.now).1 (length at.now.args.now) (length stack.old)) }
    requires count { count ≡ count_of at.now.model.now (set_fits at.now.model.now e.now).0 }
    requires length { length out.old ≡ word_count count }
    ensures members { Tells (λ _. members_of out.new) result
        ((set_value at.now.model.now (state_in at.now.words.now) e.now).1 at.now.args.now) }
    ensures clean { OnOk result (IsClean count out.new) }
{
    match e {
        SetEx::Var(v) => {
            copy_set(at, *v, out);
            Ok(())
        }
        SetEx::Cell(t, ns) => set_placed(at, *t, place_of(at, *t, ns, stack), out),
        SetEx::Op(op, a, b) => {
            set_wide(at, a.get(), count, out, stack)?;
            operated(at, *op, count, out, b.get(), stack)
        }
        SetEx::Not(a) => {
            set_wide(at, a.get(), count, out, stack)?;
            others(count, out);
            Ok(())
        }
        SetEx::With(n, a) => {
            let z = number(at, n.get(), stack)?;
            with_member(at, z, a.get(), count, out, stack)
        }
        SetEx::Without(n, a) => {
            let z = number(at, n.get(), stack)?;
            without_member(at, z, a.get(), count, out, stack)
        }
        SetEx::If(c, a, b) => {
            if holds(at, c.get(), stack)? {
                set_wide(at, a.get(), count, out, stack)
            } else {
                set_wide(at, b.get(), count, out, stack)
            }
        }
    }
}

/// A set operation on a set and its second operand.
#[cycle(eval)]
#[inline(never)]
fn operated(
    at: &Scene<'_>,
    op: SetOp,
    count: u32,
    out: &mut [u64],
    b: &SetEx,
    stack: &mut [u64],
) -> Result<(), FaultKind>
    requires fits { IsTrue (operand_fits at.now.model.now (set_fits at.now.model.now b.now) (length at.now.args.now) (length stack.old)) }
    requires count { count ≡ count_of at.now.model.now (set_fits at.now.model.now b.now).0 }
    requires length { length out.old ≡ word_count count }
    requires clean { IsClean count out.old }
    ensures members { Tells (λ _. members_of out.new) result
        (operated_by op count (members_of out.old) ((set_value at.now.model.now (state_in at.now.words.now) b.now).1 at.now.args.now)) }
    ensures clean { OnOk result (IsClean count out.new) }
{
    let (mine, rest) = stack.split_at_mut(words_for(count));
    set_wide(at, b, count, mine, rest)?;
    operate_into(op, count, out, mine);
    Ok(())
}

/// Whether a condition holds. Each form is one call, and what has no parts is read where it stands.
#[cycle(eval)]
#[inline(never)]
pub fn holds(at: &Scene<'_>, e: &Cond, stack: &mut [u64]) -> Result<bool, FaultKind>
    requires { IsTrue (cond_fits at.now.model.now e.now (length at.now.args.now) (length stack.old)) }
    ensures { result ≡ cond_value at.now.model.now (state_in at.now.words.now) e.now at.now.args.now }
{
    match e {
        Cond::Fixed(b) => Ok(*b),
        Cond::Numbers(op, a, b) => match plain_compared(at, *op, a, b) {
            Some(held) => Ok(held),
            None => composed_cond(at, e, stack),
        },
        Cond::IsIn(n, a) => match plain(at, n) {
            Some(z) => is_in(at, z, a, stack),
            None => composed_cond(at, e, stack),
        },
        Cond::Empty(a) => is_empty(at, a, stack),
        Cond::Not(c) => fails(at, c.get(), stack),
        Cond::And(_, _) | Cond::Or(_, _) => joined(at, e, stack),
        Cond::Subset(_, _) => within(at, e, stack),
        _ => composed_cond(at, e, stack),
    }
}

/// Whether a condition fails.
#[cycle(eval)]
#[inline(never)]
fn fails(at: &Scene<'_>, e: &Cond, stack: &mut [u64]) -> Result<bool, FaultKind>
    requires { IsTrue (cond_fits at.now.model.now e.now (length at.now.args.now) (length stack.old)) }
    ensures { result ≡ denied (cond_value at.now.model.now (state_in at.now.words.now) e.now at.now.args.now) }
{
    Ok(!holds(at, e, stack)?)
}

/// Whether a condition that joins two others holds.
#[cycle(eval)]
#[inline(never)]
fn joined(at: &Scene<'_>, e: &Cond, stack: &mut [u64]) -> Result<bool, FaultKind>
    requires { IsTrue (cond_fits at.now.model.now e.now (length at.now.args.now) (length stack.old)) }
    ensures { result ≡ cond_value at.now.model.now (state_in at.now.words.now) e.now at.now.args.now }
{
    match e {
        Cond::And(a, b) => {
            if holds(at, a.get(), stack)? {
                holds(at, b.get(), stack)
            } else {
                Ok(false)
            }
        }
        Cond::Or(a, b) => {
            if holds(at, a.get(), stack)? {
                Ok(true)
            } else {
                holds(at, b.get(), stack)
            }
        }
        _ => composed_cond(at, e, stack),
    }
}

/// Whether a condition that compares two sets holds.
#[cycle(eval)]
#[inline(never)]
fn within(at: &Scene<'_>, e: &Cond, stack: &mut [u64]) -> Result<bool, FaultKind>
    requires { IsTrue (cond_fits at.now.model.now e.now (length at.now.args.now) (length stack.old)) }
    ensures { result ≡ cond_value at.now.model.now (state_in at.now.words.now) e.now at.now.args.now }
{
    match e {
        Cond::Subset(a, b) => match quick_within(at, a, b) {
            Some(held) => Ok(held),
            None => composed_cond(at, e, stack),
        },
        _ => composed_cond(at, e, stack),
    }
}

/// Whether a condition of any form holds.
#[cycle(eval)]
#[inline(never)]
fn composed_cond(at: &Scene<'_>, e: &Cond, stack: &mut [u64]) -> Result<bool, FaultKind>
    requires { IsTrue (cond_fits at.now.model.now e.now (length at.now.args.now) (length stack.old)) }
    ensures { result ≡ cond_value at.now.model.now (state_in at.now.words.now) e.now at.now.args.now }
{
    match e {
        Cond::Fixed(b) => Ok(*b),
        Cond::Cell(t, ns) => truth_cell(at, *t, ns, stack),
        Cond::Numbers(op, a, b) => {
            let x = number(at, a, stack)?;
            let y = number(at, b, stack)?;
            Ok(compares(*op, x, y))
        }
        Cond::SameSet(a, b) => {
            let count = count_in(at, a, stack);
            let first = first_set(at, a, count, stack)?;
            is_same_of(at, first, count, b, stack)
        }
        Cond::OtherSet(a, b) => {
            let count = count_in(at, a, stack);
            let first = first_set(at, a, count, stack)?;
            Ok(!is_same_of(at, first, count, b, stack)?)
        }
        Cond::IsIn(n, a) => {
            let z = number(at, n, stack)?;
            is_in(at, z, a, stack)
        }
        Cond::Subset(a, b) => {
            let count = count_in(at, a, stack);
            let first = first_set(at, a, count, stack)?;
            is_within_of(at, first, count, b, stack)
        }
        Cond::Empty(a) => is_empty(at, a, stack),
        Cond::Not(c) => Ok(!holds(at, c.get(), stack)?),
        Cond::And(a, b) => {
            if holds(at, a.get(), stack)? {
                holds(at, b.get(), stack)
            } else {
                Ok(false)
            }
        }
        Cond::Or(a, b) => {
            if holds(at, a.get(), stack)? {
                Ok(true)
            } else {
                holds(at, b.get(), stack)
            }
        }
        Cond::If(c, a, b) => {
            if holds(at, c.get(), stack)? {
                holds(at, a.get(), stack)
            } else {
                holds(at, b.get(), stack)
            }
        }
        Cond::All(over, c) => all_hold(at, range_of(at, *over), c.get(), stack),
    }
}

/// Whether a condition holds with each of these members as one more parameter, up to the first where it does not.
#[cycle(eval)]
#[inline(never)]
fn all_hold(at: &Scene<'_>, range: Range, c: &Cond, stack: &mut [u64]) -> Result<bool, FaultKind>
    requires words { IsRange at.now.model.now range }
    requires fits { IsTrue (more_fits (cond_fits at.now.model.now c.now) (length at.now.args.now) (length stack.old)) }
    ensures { result ≡ each_holds
        (λ k. cond_value at.now.model.now (state_in at.now.words.now) c.now (at.now.args.now ++ k ∷ []))
        (range_members (state_in at.now.words.now) range) }
{
    match held_along(at, range, c) {
        Some(held) => Ok(held),
        None => all_in_turn(at, range, c, stack),
    }
}

/// The same, where the members are tested one after another.
#[cycle(eval)]
#[inline(never)]
fn all_in_turn(at: &Scene<'_>, range: Range, c: &Cond, stack: &mut [u64]) -> Result<bool, FaultKind>
    requires words { IsRange at.now.model.now range }
    requires fits { IsTrue (more_fits (cond_fits at.now.model.now c.now) (length at.now.args.now) (length stack.old)) }
    ensures { result ≡ each_holds
        (λ k. cond_value at.now.model.now (state_in at.now.words.now) c.now (at.now.args.now ++ k ∷ []))
        (range_members (state_in at.now.words.now) range) }
{
    let (mine, rest) = stack.split_at_mut(at.args.len() + 1);
    start_more(at.args, mine);
    let mut from = 0;
    while let Some(member) = next_of(at, range, from) {
        write_more(at.args, member, mine);
        let there = Scene {
            model: at.model,
            tables: at.tables,
            slots: at.slots,
            words: at.words,
            args: mine,
        };
        if !holds(&there, c, rest)? {
            return Ok(false);
        }
        from = member + 1;
    }
    Ok(true)
}

/// Whether a number is a member of a set.
#[cycle(eval)]
#[inline(never)]
fn is_in(at: &Scene<'_>, z: i64, a: &SetEx, stack: &mut [u64]) -> Result<bool, FaultKind>
    requires { IsTrue (operand_fits at.now.model.now (set_fits at.now.model.now a.now) (length at.now.args.now) (length stack.old)) }
    ensures { result ≡ is_member_in (count_of at.now.model.now (set_fits at.now.model.now a.now).0) z
        ((set_value at.now.model.now (state_in at.now.words.now) a.now).1 at.now.args.now) }
{
    match a {
        SetEx::Var(v) => is_in_var(at, *v, z),
        _ => is_in_composed(at, z, a, stack),
    }
}

/// Whether a number is a member of a set that has parts.
#[cycle(eval)]
#[inline(never)]
fn is_in_composed(at: &Scene<'_>, z: i64, a: &SetEx, stack: &mut [u64]) -> Result<bool, FaultKind>
    requires { IsTrue (operand_fits at.now.model.now (set_fits at.now.model.now a.now) (length at.now.args.now) (length stack.old)) }
    ensures { result ≡ is_member_in (count_of at.now.model.now (set_fits at.now.model.now a.now).0) z
        ((set_value at.now.model.now (state_in at.now.words.now) a.now).1 at.now.args.now) }
{
    let count = count_in(at, a, stack);
    if count <= 64 {
        let word = operand_word(at, a, count, stack)?;
        word_member(count, word, z)
    } else {
        is_in_wide(at, z, a, count, stack)
    }
}

/// Whether a number is a member of a set, which is written word by word. A variable is asked where it stands.
#[cycle(eval)]
#[inline(never)]
fn is_in_wide(
    at: &Scene<'_>,
    z: i64,
    a: &SetEx,
    count: u32,
    stack: &mut [u64],
) -> Result<bool, FaultKind>
    requires fits { IsTrue (operand_fits at.now.model.now (set_fits at.now.model.now a.now) (length at.now.args.now) (length stack.old)) }
    requires count { count ≡ count_of at.now.model.now (set_fits at.now.model.now a.now).0 }
    ensures { result ≡ is_member_in count z ((set_value at.now.model.now (state_in at.now.words.now) a.now).1 at.now.args.now) }
{
    if let SetEx::Var(v) = a {
        return member_at(at, *v, count, z);
    }
    let (mine, rest) = stack.split_at_mut(words_for(count));
    set_wide(at, a, count, mine, rest)?;
    member_in(count, mine, z)
}

/// A set with the member of its object type that a number is.
#[cycle(eval)]
#[inline(never)]
fn with_member(
    at: &Scene<'_>,
    z: i64,
    a: &SetEx,
    count: u32,
    out: &mut [u64],
    stack: &mut [u64],
) -> Result<(), FaultKind>
    requires fits { IsTrue ((set_fits at.now.model.now a.now).1 (length at.now.args.now) (length stack.old)) }
    requires count { count ≡ count_of at.now.model.now (set_fits at.now.model.now a.now).0 }
    requires length { length out.old ≡ word_count count }
    ensures members { Tells (λ _. members_of out.new) result
        (with_in count z ((set_value at.now.model.now (state_in at.now.words.now) a.now).1 at.now.args.now)) }
    ensures clean { OnOk result (IsClean count out.new) }
{
    set_wide(at, a, count, out, stack)?;
    let member = member_of(count, z)?;
    with(count, out, member);
    Ok(())
}

/// A set without the member of its object type that a number is.
#[cycle(eval)]
#[inline(never)]
fn without_member(
    at: &Scene<'_>,
    z: i64,
    a: &SetEx,
    count: u32,
    out: &mut [u64],
    stack: &mut [u64],
) -> Result<(), FaultKind>
    requires fits { IsTrue ((set_fits at.now.model.now a.now).1 (length at.now.args.now) (length stack.old)) }
    requires count { count ≡ count_of at.now.model.now (set_fits at.now.model.now a.now).0 }
    requires length { length out.old ≡ word_count count }
    ensures members { Tells (λ _. members_of out.new) result
        (without_in count z ((set_value at.now.model.now (state_in at.now.words.now) a.now).1 at.now.args.now)) }
    ensures clean { OnOk result (IsClean count out.new) }
{
    set_wide(at, a, count, out, stack)?;
    let member = member_of(count, z)?;
    without(count, out, member);
    Ok(())
}

/// Whether a set has no members.
#[cycle(eval)]
#[inline(never)]
fn is_empty(at: &Scene<'_>, a: &SetEx, stack: &mut [u64]) -> Result<bool, FaultKind>
    requires { IsTrue (operand_fits at.now.model.now (set_fits at.now.model.now a.now) (length at.now.args.now) (length stack.old)) }
    ensures { result ≡ is_empty ((set_value at.now.model.now (state_in at.now.words.now) a.now).1 at.now.args.now) }
{
    match a {
        SetEx::Var(v) => Ok(is_empty_var(at, *v)),
        _ => is_empty_quick(at, a, stack),
    }
}

/// Whether a set has no members, which may have few parts.
#[cycle(eval)]
#[inline(never)]
fn is_empty_quick(at: &Scene<'_>, a: &SetEx, stack: &mut [u64]) -> Result<bool, FaultKind>
    requires { IsTrue (operand_fits at.now.model.now (set_fits at.now.model.now a.now) (length at.now.args.now) (length stack.old)) }
    ensures { result ≡ is_empty ((set_value at.now.model.now (state_in at.now.words.now) a.now).1 at.now.args.now) }
{
    match quick_empty(at, a) {
        Some(held) => Ok(held),
        None => is_empty_composed(at, a, stack),
    }
}

/// Whether a set that has parts has no members.
#[cycle(eval)]
#[inline(never)]
fn is_empty_composed(at: &Scene<'_>, a: &SetEx, stack: &mut [u64]) -> Result<bool, FaultKind>
    requires { IsTrue (operand_fits at.now.model.now (set_fits at.now.model.now a.now) (length at.now.args.now) (length stack.old)) }
    ensures { result ≡ is_empty ((set_value at.now.model.now (state_in at.now.words.now) a.now).1 at.now.args.now) }
{
    let count = count_in(at, a, stack);
    if count <= 64 {
        let word = operand_word(at, a, count, stack)?;
        Ok(is_empty_word(word))
    } else {
        is_empty_wide(at, a, count, stack)
    }
}

/// Whether a set has no members, which is written word by word.
#[cycle(eval)]
#[inline(never)]
fn is_empty_wide(
    at: &Scene<'_>,
    a: &SetEx,
    count: u32,
    stack: &mut [u64],
) -> Result<bool, FaultKind>
    requires fits { IsTrue (operand_fits at.now.model.now (set_fits at.now.model.now a.now) (length at.now.args.now) (length stack.old)) }
    requires count { count ≡ count_of at.now.model.now (set_fits at.now.model.now a.now).0 }
    requires most { count ≤ 4096 }
    ensures { result ≡ is_empty ((set_value at.now.model.now (state_in at.now.words.now) a.now).1 at.now.args.now) }
{
    let (mine, rest) = stack.split_at_mut(words_for(count));
    set_wide(at, a, count, mine, rest)?;
    Ok(is_empty_set(count, mine))
}

/// How many members a set has.
#[cycle(eval)]
#[inline(never)]
fn size_of(at: &Scene<'_>, a: &SetEx, stack: &mut [u64]) -> Result<i64, FaultKind>
    requires { IsTrue (operand_fits at.now.model.now (set_fits at.now.model.now a.now) (length at.now.args.now) (length stack.old)) }
    ensures { result ≡ size_of ((set_value at.now.model.now (state_in at.now.words.now) a.now).1 at.now.args.now) }
{
    let count = count_in(at, a, stack);
    if count <= 64 {
        let word = operand_word(at, a, count, stack)?;
        Ok(word_size_in(word))
    } else {
        size_of_wide(at, a, count, stack)
    }
}

/// How many members a set has, which is written word by word.
#[cycle(eval)]
#[inline(never)]
fn size_of_wide(at: &Scene<'_>, a: &SetEx, count: u32, stack: &mut [u64]) -> Result<i64, FaultKind>
    requires fits { IsTrue (operand_fits at.now.model.now (set_fits at.now.model.now a.now) (length at.now.args.now) (length stack.old)) }
    requires count { count ≡ count_of at.now.model.now (set_fits at.now.model.now a.now).0 }
    requires most { count ≤ 4096 }
    ensures { result ≡ size_of ((set_value at.now.model.now (state_in at.now.words.now) a.now).1 at.now.args.now) }
{
    let (mine, rest) = stack.split_at_mut(words_for(count));
    set_wide(at, a, count, mine, rest)?;
    Ok(size_in(count, mine))
}

/// The first of two sets that meet: in one word that comes back, or at the front of the stack.
#[cycle(eval)]
#[inline(always)]
fn first_set(at: &Scene<'_>, a: &SetEx, count: u32, stack: &mut [u64]) -> Result<u64, FaultKind>
    requires fits { IsTrue (operand_fits at.now.model.now (set_fits at.now.model.now a.now) (length at.now.args.now) (length stack.old)) }
    requires count { count ≡ count_of at.now.model.now (set_fits at.now.model.now a.now).0 }
    ensures { Tells (λ w. members_of (held_in count w stack.new)) result
        ((set_value at.now.model.now (state_in at.now.words.now) a.now).1 at.now.args.now) }
{
    if count <= 64 {
        operand_word(at, a, count, stack)
    } else {
        first_wide(at, a, count, stack)
    }
}

/// The first of two sets that meet, which is written word by word at the front of the stack.
#[cycle(eval)]
#[inline(never)]
fn first_wide(at: &Scene<'_>, a: &SetEx, count: u32, stack: &mut [u64]) -> Result<u64, FaultKind>
    requires fits { IsTrue (operand_fits at.now.model.now (set_fits at.now.model.now a.now) (length at.now.args.now) (length stack.old)) }
    requires count { count ≡ count_of at.now.model.now (set_fits at.now.model.now a.now).0 }
    ensures { Tells (λ w. members_of (take (word_count count) stack.new)) result
        ((set_value at.now.model.now (state_in at.now.words.now) a.now).1 at.now.args.now) }
{
    let (mine, rest) = stack.split_at_mut(words_for(count));
    set_wide(at, a, count, mine, rest)?;
    Ok(0)
}

/// Whether each member of a set that is held is one of another.
#[cycle(eval)]
#[inline(always)]
fn is_within_of(
    at: &Scene<'_>,
    first: u64,
    count: u32,
    b: &SetEx,
    stack: &mut [u64],
) -> Result<bool, FaultKind>
    requires room { word_count count ≤ length stack.old }
    requires fits { IsTrue (operand_fits at.now.model.now (set_fits at.now.model.now b.now) (length at.now.args.now) (length stack.old - word_count count)) }
    requires count { count ≡ count_of at.now.model.now (set_fits at.now.model.now b.now).0 }
    ensures { result ≡ is_within (members_of (held_in count first stack.old)) ((set_value at.now.model.now (state_in at.now.words.now) b.now).1 at.now.args.now) }
{
    let (held, rest) = stack.split_at_mut(words_for(count));
    if count <= 64 {
        let other = operand_word(at, b, count, rest)?;
        Ok(is_within_word(first, other))
    } else {
        is_within_wide(at, held, count, b, rest)
    }
}

/// Whether each member of a set in words is one of another, which is written word by word.
#[cycle(eval)]
#[inline(never)]
fn is_within_wide(
    at: &Scene<'_>,
    held: &[u64],
    count: u32,
    b: &SetEx,
    stack: &mut [u64],
) -> Result<bool, FaultKind>
    requires fits { IsTrue (operand_fits at.now.model.now (set_fits at.now.model.now b.now) (length at.now.args.now) (length stack.old)) }
    requires count { count ≡ count_of at.now.model.now (set_fits at.now.model.now b.now).0 }
    requires length { length held.now ≡ word_count count }
    ensures { result ≡ is_within (members_of held.now) ((set_value at.now.model.now (state_in at.now.words.now) b.now).1 at.now.args.now) }
{
    let (mine, rest) = stack.split_at_mut(words_for(count));
    set_wide(at, b, count, mine, rest)?;
    Ok(is_subset(held, mine))
}

/// Whether a set that is held has the members of another.
#[cycle(eval)]
#[inline(always)]
fn is_same_of(
    at: &Scene<'_>,
    first: u64,
    count: u32,
    b: &SetEx,
    stack: &mut [u64],
) -> Result<bool, FaultKind>
    requires room { word_count count ≤ length stack.old }
    requires fits { IsTrue (operand_fits at.now.model.now (set_fits at.now.model.now b.now) (length at.now.args.now) (length stack.old - word_count count)) }
    requires count { count ≡ count_of at.now.model.now (set_fits at.now.model.now b.now).0 }
    ensures { result ≡ is_same_as (members_of (held_in count first stack.old)) ((set_value at.now.model.now (state_in at.now.words.now) b.now).1 at.now.args.now) }
{
    let (held, rest) = stack.split_at_mut(words_for(count));
    if count <= 64 {
        let other = operand_word(at, b, count, rest)?;
        Ok(is_same_word(first, other))
    } else {
        is_same_wide(at, held, count, b, rest)
    }
}

/// Whether a set in words has the members of another, which is written word by word.
#[cycle(eval)]
#[inline(never)]
fn is_same_wide(
    at: &Scene<'_>,
    held: &[u64],
    count: u32,
    b: &SetEx,
    stack: &mut [u64],
) -> Result<bool, FaultKind>
    requires fits { IsTrue (operand_fits at.now.model.now (set_fits at.now.model.now b.now) (length at.now.args.now) (length stack.old)) }
    requires count { count ≡ count_of at.now.model.now (set_fits at.now.model.now b.now).0 }
    requires length { length held.now ≡ word_count count }
    ensures { result ≡ is_same_as (members_of held.now) ((set_value at.now.model.now (state_in at.now.words.now) b.now).1 at.now.args.now) }
{
    let (mine, rest) = stack.split_at_mut(words_for(count));
    set_wide(at, b, count, mine, rest)?;
    Ok(is_same(held, mine))
}

/// The sum of a table's cells over the members of each set argument.
#[cycle(eval)]
#[inline(never)]
fn sum(at: &Scene<'_>, t: u32, terms: &Seq<Arg>, stack: &mut [u64]) -> Result<i64, FaultKind>
    requires { IsTrue (terms_fit at.now.model.now (table_counts at.now.model.now t) terms.now (length at.now.args.now) (length stack.old)) }
    ensures { result ≡ sum_value at.now.model.now (state_in at.now.words.now) t terms.now at.now.args.now }
{
    let count = first_of(counts(at, t));
    if count <= 64 {
        if let [e] = terms.list().as_slice() {
            return sum_one(at, t, count, e, stack);
        }
    }
    match counts(at, t) {
        [count, last] => sum_two(at, t, *count, *last, terms, stack),
        _ => sum_all(at, t, terms, stack),
    }
}

/// The sum of a table's cells over its two arguments, whose object types have so many members. If they are at most 64,
/// both arguments are held in one word each.
#[cycle(eval)]
#[inline(always)]
fn sum_two(
    at: &Scene<'_>,
    t: u32,
    count: u32,
    last: u32,
    terms: &Seq<Arg>,
    stack: &mut [u64],
) -> Result<i64, FaultKind>
    requires counts { table_counts at.now.model.now t ≡ count ∷ last ∷ [] }
    requires fits { IsTrue (terms_fit at.now.model.now (table_counts at.now.model.now t) terms.now (length at.now.args.now) (length stack.old)) }
    ensures { result ≡ sum_value at.now.model.now (state_in at.now.words.now) t terms.now at.now.args.now }
{
    if count <= 64 && last <= 64 {
        if let [e, more] = terms.list().as_slice() {
            let (_, rest) = stack.split_at_mut(words_for(count));
            let first = term_of(at, e, count, rest)?;
            let (_, behind) = rest.split_at_mut(words_for(last));
            let second = term_of(at, more, last, behind)?;
            return sum_of_two(at.model, t, count, last, first, second);
        }
    }
    sum_all(at, t, terms, stack)
}

/// The value of an argument of a sum, whose object type has so many members and at most 64.
#[cycle(eval)]
#[inline(always)]
fn term_of(at: &Scene<'_>, e: &Arg, count: u32, stack: &mut [u64]) -> Result<Term, FaultKind>
    requires few { count ≤ 64 }
    requires fits { IsTrue (term_room at.now.model.now (arg_fits at.now.model.now e.now) count (length at.now.args.now) (length stack.old)) }
    ensures { Tells (λ term. term_value term) result (arg_value at.now.model.now (state_in at.now.words.now) e.now at.now.args.now) }
{
    match e {
        Arg::One(n) => {
            let z = number(at, n, stack)?;
            Ok(Term::One(z))
        }
        Arg::Many(set) => {
            let word = set_word(at, set, count, stack)?;
            Ok(Term::Many(word))
        }
    }
}

/// The sum of a table's cells over its one argument, whose object type has so many members and at most 64.
#[cycle(eval)]
#[inline(always)]
fn sum_one(at: &Scene<'_>, t: u32, count: u32, e: &Arg, stack: &mut [u64]) -> Result<i64, FaultKind>
    requires few { count ≤ 64 }
    requires counts { table_counts at.now.model.now t ≡ count ∷ [] }
    requires room { word_count count ≤ length stack.old }
    requires fits { IsTrue (term_room at.now.model.now (arg_fits at.now.model.now e.now) count (length at.now.args.now) (length stack.old - word_count count)) }
    ensures { result ≡ sum_value at.now.model.now (state_in at.now.words.now) t (e.now ∷ []) at.now.args.now }
{
    let (_, rest) = stack.split_at_mut(words_for(count));
    match e {
        Arg::One(n) => {
            let z = number(at, n, rest)?;
            sum_at(at.model, t, count, z)
        }
        Arg::Many(set) => {
            let word = set_word(at, set, count, rest)?;
            sum_word(at.model, t, word)
        }
    }
}

/// The same of any number of arguments. They are written as sets, one behind another,
/// while those behind them are evaluated; a fault of a member waits until all are.
#[cycle(eval)]
#[inline(never)]
fn sum_all(at: &Scene<'_>, t: u32, terms: &Seq<Arg>, stack: &mut [u64]) -> Result<i64, FaultKind>
    requires { IsTrue (terms_fit at.now.model.now (table_counts at.now.model.now t) terms.now (length at.now.args.now) (length stack.old)) }
    ensures { result ≡ sum_value at.now.model.now (state_in at.now.words.now) t terms.now at.now.args.now }
{
    let mut left = counts(at, t);
    let mut used = 0;
    let mut waits = None;
    for e in terms.list() {
        let count = first_of(left);
        waits = term_into(at, e, count, waits, used, stack)?;
        used += words_for(count);
        left = after_first(left);
    }
    match waits {
        Some(kind) => Err(kind),
        None => sum_held(at.model, t, counts(at, t), &stack[..used]),
    }
}

/// Writes an argument of a sum as a set, behind so many words that are held. What comes back is the fault of a member that
/// waits.
#[cycle(eval)]
#[inline(never)]
fn term_into(
    at: &Scene<'_>,
    e: &Arg,
    count: u32,
    waits: Option<FaultKind>,
    used: usize,
    stack: &mut [u64],
) -> Result<Option<FaultKind>, FaultKind>
    requires room { used + word_count count ≤ length stack.old }
    requires fits { IsTrue (term_room at.now.model.now (arg_fits at.now.model.now e.now) count (length at.now.args.now) (length stack.old - used - word_count count)) }
    ensures held { take used stack.new ≡ take used stack.old }
    ensures value { Termed count waits (members_of (take (word_count count) (drop used stack.new))) result
        (arg_value at.now.model.now (state_in at.now.words.now) e.now at.now.args.now) }
{
    let (_, behind) = stack.split_at_mut(used);
    let (mine, rest) = behind.split_at_mut(words_for(count));
    match e {
        Arg::One(n) => {
            let z = number(at, n, rest)?;
            Ok(one_member(count, waits, z, mine))
        }
        Arg::Many(set) => {
            set_into(at, set, count, mine, rest)?;
            Ok(waits)
        }
    }
}
