//! The evaluators, one arm for each form of expression. Operands are evaluated from left to right, and then the
//! operation is tested.

ghost use Rattle.std.specs.Prelude.{◌≡◌, ◌∷◌, ◌++◌, [], map, IfOk, ℤ};
ghost use Rattle.dp_model.specs.declared.whole.Model.{Model};
ghost use Rattle.dp_model.specs.declared.parts.PlainState.{PlainState};
ghost use Rattle.dp_model.specs.Evaluation.{count_of, cells_of, cells_object, number_cell, truth_cell, set_cell, each_holds, num_value, set_value, cond_value};
ghost use Rattle.dp_eval.specs.Answers.{Answers, AnswersBy};
ghost use Rattle.dp_eval.specs.Operands.{operated_by, complement_of, with_in, without_in, is_same_as, is_within, is_member_in, is_empty};
ghost use Rattle.dp_eval.specs.Terms.{at_operands, num_values, term_value, arg_value, term_values};
ghost use Rattle.smallvec.specs.SmallVec.{SmallVec as Small};

use crate::ends::EvalEnd;
use crate::numbers::{compares, member_of, operate};
use crate::objects::set_count;
use crate::parameters::{parameter, range_of, with_more, write_more};
use crate::sets::{CountedSet, has, is_subset, others, same_members, set_operation, with, without};
use crate::sums::{Term, sum_of};
use crate::tables::{number_cell, number_in, set_cell, set_lent, truth_cell};
use dp_model::{Arg, Cond, Model, Num, PlainState, Seq, SetEx, SetOp};
use smallvec::SmallVec;
use std::alloc::Global;

/// What expressions are evaluated in: a state of a model, with these values of the parameters.
#[derive(Clone, Copy)]
struct Scene<'a> {
    alloc: Global,
    model: &'a Model,
    args: &'a Seq<u32>,
    s: &'a PlainState,
}

/// The value of a number expression in a state, with these values of the parameters, or the fault that it meets.
pub fn eval_num(
    alloc: Global,
    model: &Model,
    e: &Num,
    args: &Seq<u32>,
    s: &PlainState,
) -> Result<i64, EvalEnd>
    ensures { Answers result (num_value model.now s.now e.now args.now) }
{
    number(
        &Scene {
            alloc,
            model,
            args,
            s,
        },
        e,
    )
}

/// The members of a set expression in a state, with these values of the parameters, or the fault that it meets.
pub fn eval_set(
    alloc: Global,
    model: &Model,
    e: &SetEx,
    args: &Seq<u32>,
    s: &PlainState,
) -> Result<Seq<u32>, EvalEnd>
    ensures { Answers result ((set_value model.now s.now e.now).1 args.now) }
{
    let CountedSet { members, .. } = counted(
        &Scene {
            alloc,
            model,
            args,
            s,
        },
        e,
    )?;
    Ok(members.into_own(alloc)?)
}

/// Whether a condition holds in a state, with these values of the parameters, or the fault that it meets. `and`,
/// `or` and `if` evaluate only what decides them.
pub fn eval_cond(
    alloc: Global,
    model: &Model,
    e: &Cond,
    args: &Seq<u32>,
    s: &PlainState,
) -> Result<bool, EvalEnd>
    ensures { Answers result (cond_value model.now s.now e.now args.now) }
{
    holds(
        &Scene {
            alloc,
            model,
            args,
            s,
        },
        e,
    )
}

/// The value of a number expression.
#[cycle(eval)]
#[inline(never)]
fn number(at: &Scene<'_>, e: &Num) -> Result<i64, EvalEnd>
    ensures { Answers result (num_value at.now.model.now at.now.s.now e.now at.now.args.now) }
{
    match e {
        Num::Fixed(n) => Ok(*n),
        Num::Var(v) => Ok(number_in(at.s, *v)),
        Num::Param(p) => Ok(i64::from(parameter(at.args, *p))),
        Num::Cell(t, ns) => number_in_cell(at, *t, ns),
        Num::Sum(t, ts) => {
            let values = terms(at, ts)?;
            sum_of(at.alloc, at.model, *t, values.list())
        }
        Num::Size(set) => Ok(counted(at, set.get())?.members.list().len() as i64),
        Num::Op(op, a, b) => Ok(operate(*op, number(at, a.get())?, number(at, b.get())?)?),
        Num::If(c, a, b) => {
            if holds(at, c.get())? {
                number(at, a.get())
            } else {
                number(at, b.get())
            }
        }
    }
}

/// The members of a set expression, with the count of its object type, so that no operator has to look for it.
#[cycle(eval)]
#[inline(never)]
fn counted<'a>(at: &Scene<'a>, e: &SetEx) -> Result<CountedSet<'a>, EvalEnd>
    ensures count { IfOk result
        (λ set. set.count ≡ count_of at.now.model.now (set_value at.now.model.now at.now.s.now e.now).0) }
    ensures members { AnswersBy (λ (set : CountedSet). set.members) result
        ((set_value at.now.model.now at.now.s.now e.now).1 at.now.args.now) }
{
    match e {
        SetEx::Var(v) => {
            let count = set_count(at.model, e, at.s);
            let members = set_lent(at.alloc, at.s, *v);
            Ok(CountedSet { count, members })
        }
        SetEx::Cell(t, ns) => set_in_cell(at, *t, ns),
        SetEx::Op(op, a, b) => {
            let x = counted(at, a.get())?;
            operated(at, *op, &x, b.get())
        }
        SetEx::Not(a) => complement(at, a.get()),
        SetEx::With(n, a) => {
            let z = number(at, n.get())?;
            with_member(at, z, a.get())
        }
        SetEx::Without(n, a) => {
            let z = number(at, n.get())?;
            without_member(at, z, a.get())
        }
        SetEx::If(c, a, b) => {
            if holds(at, c.get())? {
                counted(at, a.get())
            } else {
                counted_as(at, set_count(at.model, e, at.s), b.get())
            }
        }
    }
}

/// A set operation on a set and its second operand.
#[cycle(eval)]
#[inline(never)]
fn operated<'a>(
    at: &Scene<'a>,
    op: SetOp,
    x: &CountedSet<'_>,
    b: &SetEx,
) -> Result<CountedSet<'a>, EvalEnd>
    ensures count { IfOk result (λ set. set.count ≡ x.now.count) }
    ensures members { AnswersBy (λ (set : CountedSet). set.members) result
        (operated_by op x.now.count x.now.members ((set_value at.now.model.now at.now.s.now b.now).1 at.now.args.now)) }
{
    let y = counted(at, b)?;
    Ok(set_operation(at.alloc, op, x, &y)?)
}

/// The members of the object type that a set lacks.
#[cycle(eval)]
#[inline(never)]
fn complement<'a>(at: &Scene<'a>, a: &SetEx) -> Result<CountedSet<'a>, EvalEnd>
    ensures count { IfOk result (λ set. set.count ≡ (count_of at.now.model.now (set_value at.now.model.now at.now.s.now a.now).0)) }
    ensures members { AnswersBy (λ (set : CountedSet). set.members) result
        (complement_of (count_of at.now.model.now (set_value at.now.model.now at.now.s.now a.now).0) ((set_value at.now.model.now at.now.s.now a.now).1 at.now.args.now)) }
{
    let x = counted(at, a)?;
    Ok(others(at.alloc, &x)?)
}

/// A set with the member of its object type that a number is.
#[cycle(eval)]
#[inline(never)]
fn with_member<'a>(at: &Scene<'a>, z: i64, a: &SetEx) -> Result<CountedSet<'a>, EvalEnd>
    ensures count { IfOk result (λ set. set.count ≡ (count_of at.now.model.now (set_value at.now.model.now at.now.s.now a.now).0)) }
    ensures members { AnswersBy (λ (set : CountedSet). set.members) result
        (with_in (count_of at.now.model.now (set_value at.now.model.now at.now.s.now a.now).0) z ((set_value at.now.model.now at.now.s.now a.now).1 at.now.args.now)) }
{
    let x = counted(at, a)?;
    Ok(with(at.alloc, &x, member_of(x.count, z)?)?)
}

/// A set without the member of its object type that a number is.
#[cycle(eval)]
#[inline(never)]
fn without_member<'a>(at: &Scene<'a>, z: i64, a: &SetEx) -> Result<CountedSet<'a>, EvalEnd>
    ensures count { IfOk result (λ set. set.count ≡ (count_of at.now.model.now (set_value at.now.model.now at.now.s.now a.now).0)) }
    ensures members { AnswersBy (λ (set : CountedSet). set.members) result
        (without_in (count_of at.now.model.now (set_value at.now.model.now at.now.s.now a.now).0) z ((set_value at.now.model.now at.now.s.now a.now).1 at.now.args.now)) }
{
    let x = counted(at, a)?;
    Ok(without(at.alloc, &x, member_of(x.count, z)?)?)
}

/// A set as one of an object type with this count.
#[cycle(eval)]
#[inline(never)]
fn counted_as<'a>(at: &Scene<'a>, count: u32, b: &SetEx) -> Result<CountedSet<'a>, EvalEnd>
    ensures count { IfOk result (λ set. set.count ≡ count) }
    ensures members { AnswersBy (λ (set : CountedSet). set.members) result
        (((set_value at.now.model.now at.now.s.now b.now).1 at.now.args.now)) }
{
    let CountedSet { members, .. } = counted(at, b)?;
    Ok(CountedSet { count, members })
}

/// Whether a condition holds.
#[cycle(eval)]
#[inline(never)]
fn holds(at: &Scene<'_>, e: &Cond) -> Result<bool, EvalEnd>
    ensures { Answers result (cond_value at.now.model.now at.now.s.now e.now at.now.args.now) }
{
    match e {
        Cond::Fixed(b) => Ok(*b),
        Cond::Cell(t, ns) => truth_in_cell(at, *t, ns),
        Cond::Numbers(op, a, b) => Ok(compares(*op, number(at, a)?, number(at, b)?)),
        Cond::SameSet(a, b) => {
            let x = counted(at, a)?;
            is_same(at, &x, b)
        }
        Cond::OtherSet(a, b) => {
            let x = counted(at, a)?;
            Ok(!is_same(at, &x, b)?)
        }
        Cond::IsIn(n, a) => {
            let z = number(at, n)?;
            is_in(at, z, a)
        }
        Cond::Subset(a, b) => {
            let x = counted(at, a)?;
            is_within(at, &x, b)
        }
        Cond::Empty(a) => is_empty(at, a),
        Cond::Not(c) => Ok(!holds(at, c.get())?),
        Cond::And(a, b) => Ok(holds(at, a.get())? && holds(at, b.get())?),
        Cond::Or(a, b) => Ok(holds(at, a.get())? || holds(at, b.get())?),
        Cond::If(c, a, b) => {
            let decided = holds(at, c.get())?;
            holds(at, if decided { a.get() } else { b.get() })
        }
        Cond::All(over, c) => {
            let members = range_of(at.alloc, at.model, at.s, *over)?;
            all_hold(at, c.get(), members.list())
        }
    }
}

/// Whether a set has the members of another.
#[cycle(eval)]
#[inline(never)]
fn is_same(at: &Scene<'_>, x: &CountedSet<'_>, b: &SetEx) -> Result<bool, EvalEnd>
    ensures { Answers result (is_same_as x.now.members ((set_value at.now.model.now at.now.s.now b.now).1 at.now.args.now)) }
{
    let y = counted(at, b)?;
    Ok(same_members(x, &y))
}

/// Whether each member of a set is one of another.
#[cycle(eval)]
#[inline(never)]
fn is_within(at: &Scene<'_>, x: &CountedSet<'_>, b: &SetEx) -> Result<bool, EvalEnd>
    ensures { Answers result (is_within x.now.members ((set_value at.now.model.now at.now.s.now b.now).1 at.now.args.now)) }
{
    let y = counted(at, b)?;
    Ok(is_subset(at.alloc, x, &y)?)
}

/// Whether a number is a member of a set.
#[cycle(eval)]
#[inline(never)]
fn is_in(at: &Scene<'_>, z: i64, a: &SetEx) -> Result<bool, EvalEnd>
    ensures { Answers result (is_member_in (count_of at.now.model.now (set_value at.now.model.now at.now.s.now a.now).0) z ((set_value at.now.model.now at.now.s.now a.now).1 at.now.args.now)) }
{
    let x = counted(at, a)?;
    Ok(has(x.members.list(), member_of(x.count, z)?))
}

/// Whether a set has no members.
#[cycle(eval)]
#[inline(never)]
fn is_empty(at: &Scene<'_>, a: &SetEx) -> Result<bool, EvalEnd>
    ensures { Answers result (is_empty ((set_value at.now.model.now at.now.s.now a.now).1 at.now.args.now)) }
{
    let x = counted(at, a)?;
    Ok(x.members.list().is_empty())
}

/// Whether a condition holds with each of these members as one more parameter, up to the first where it does not.
#[cycle(eval)]
#[inline(never)]
fn all_hold(at: &Scene<'_>, c: &Cond, members: &[u32]) -> Result<bool, EvalEnd>
    ensures { Answers result (each_holds
        (λ k. cond_value at.now.model.now at.now.s.now c.now (at.now.args.now ++ k ∷ [])) members.now) }
{
    let mut more = with_more(at.alloc, at.args, 0)?;
    for member in members {
        write_more(at.args, *member, &mut more);
        let there = Scene {
            alloc: at.alloc,
            model: at.model,
            args: &more,
            s: at.s,
        };
        if !holds(&there, c)? {
            return Ok(false);
        }
    }
    Ok(true)
}

/// The values of number expressions, in order. Those of a table's arguments are few, and need no allocation.
#[cycle(eval)]
#[inline(always)]
fn numbers(at: &Scene<'_>, ns: &Seq<Num>) -> Result<SmallVec<i64, 4>, EvalEnd>
    ensures { AnswersBy (λ (values : Small ℤ). values.items) result
        (num_values at.now.model.now at.now.s.now ns.now at.now.args.now) }
{
    let mut values = SmallVec::new(at.alloc);
    for n in ns.list() {
        values.push(number(at, n)?)?;
    }
    Ok(values)
}

/// The number in a table's cell, whose arguments are evaluated first.
#[cycle(eval)]
#[inline(never)]
fn number_in_cell(at: &Scene<'_>, t: u32, ns: &Seq<Num>) -> Result<i64, EvalEnd>
    ensures { Answers result (at_operands at.now.model.now t (number_cell (cells_of at.now.model.now t))
        (num_values at.now.model.now at.now.s.now ns.now at.now.args.now)) }
{
    let values = numbers(at, ns)?;
    number_cell(at.model, t, values.as_slice())
}

/// The truth value in a table's cell, whose arguments are evaluated first.
#[cycle(eval)]
#[inline(never)]
fn truth_in_cell(at: &Scene<'_>, t: u32, ns: &Seq<Num>) -> Result<bool, EvalEnd>
    ensures { Answers result (at_operands at.now.model.now t (truth_cell (cells_of at.now.model.now t))
        (num_values at.now.model.now at.now.s.now ns.now at.now.args.now)) }
{
    let values = numbers(at, ns)?;
    truth_cell(at.model, t, values.as_slice())
}

/// The set in a table's cell, whose arguments are evaluated first.
#[cycle(eval)]
#[inline(never)]
fn set_in_cell<'a>(at: &Scene<'a>, t: u32, ns: &Seq<Num>) -> Result<CountedSet<'a>, EvalEnd>
    ensures count { IfOk result
        (λ set. set.count ≡ count_of at.now.model.now (cells_object (cells_of at.now.model.now t))) }
    ensures members { AnswersBy (λ (set : CountedSet). set.members) result
        (at_operands at.now.model.now t (set_cell (cells_of at.now.model.now t))
        (num_values at.now.model.now at.now.s.now ns.now at.now.args.now)) }
{
    let values = numbers(at, ns)?;
    set_cell(at.alloc, at.model, t, values.as_slice())
}

/// An argument of a `sum`.
#[cycle(eval)]
fn term(at: &Scene<'_>, e: &Arg) -> Result<Term, EvalEnd>
    ensures { AnswersBy term_value result (arg_value at.now.model.now at.now.s.now e.now at.now.args.now) }
{
    match e {
        Arg::One(n) => Ok(Term::Number(number(at, n)?)),
        Arg::Many(set) => {
            let CountedSet { members, .. } = counted(at, set)?;
            Ok(Term::Members(members.into_own(at.alloc)?))
        }
    }
}

/// The arguments of a `sum`, in order.
#[cycle(eval)]
#[inline(never)]
fn terms(at: &Scene<'_>, es: &Seq<Arg>) -> Result<Seq<Term>, EvalEnd>
    ensures { AnswersBy (map term_value) result (term_values at.now.model.now at.now.s.now es.now at.now.args.now) }
{
    let mut values = Vec::new(at.alloc);
    for e in es.list() {
        values.push(term(at, e)?)?;
    }
    Ok(Seq::of(values))
}
