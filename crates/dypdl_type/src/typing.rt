//! The typing of an expression in each place. Operands are typed in order, and a form answers the first refusal of its
//! operands. `levels` says how many levels the tree may have; where they run out the answer is want of memory.

ghost use Rattle.std.specs.Prelude.{◌≡◌, Some, length};
ghost use Rattle.dp_base.specs.Results.{Answers, in_turn};
ghost use Rattle.dypdl_words.specs.Ends.{told};
ghost use Rattle.dypdl_type.specs.Forms.{typings};
ghost use Rattle.dypdl_type.specs.Typing.{Typing, typing, terms, term, set_operation_of, set_pair};

use crate::forms::{
    ConditionForm, MembersForm, NumberForm, condition_form, members_form, number_form,
};
use crate::levels::levels_below;
use crate::set_kind::holds_set;
use dp_base::Seq;
use dp_model::{Arg, Cond, Num, SetEx, SetOp};
use dypdl_expr::Expr;
use dypdl_words::{
    Scope, TypeEnd, change_of, comparison, complement, condition_cell, condition_choice,
    condition_word, connection, emptiness, members_word, membership, negation, number_cell,
    number_choice, number_word, operation, set_cell, set_choice, set_operation, set_pair,
    set_relation, size, sum,
};
use std::alloc::Global;

/// The tree of an expression where a number is wanted.
#[cycle(typing)]
pub(crate) fn number(
    alloc: Global,
    scope: &Scope<'_>,
    levels: u32,
    e: &Expr,
) -> Result<Num, TypeEnd>
    ensures { Answers told result (typing scope.now e.now).number }
{
    let Some(below) = levels_below(levels, e) else {
        return Err(TypeEnd::Memory);
    };
    match number_form(&*scope, e)? {
        NumberForm::Word(at, word) => number_word(alloc, at, word),
        NumberForm::Size(set) => size(alloc, members(alloc, &*scope, below, None, set)),
        NumberForm::Operation(op, first, more) => operation(
            alloc,
            op,
            number(alloc, &*scope, below, first),
            numbers(alloc, &*scope, below, more),
        ),
        NumberForm::Choice(c, a, b) => number_choice(
            alloc,
            condition(alloc, &*scope, below, c),
            number(alloc, &*scope, below, a),
            number(alloc, &*scope, below, b),
        ),
        NumberForm::Cell(t, operands) => number_cell(t, numbers(alloc, &*scope, below, operands)),
        NumberForm::Sum(t, objects, operands) => {
            sum(t, terms(alloc, &*scope, below, objects, operands))
        }
    }
}

/// The trees of expressions where numbers are wanted, in order.
#[cycle(typing)]
fn numbers(alloc: Global, scope: &Scope<'_>, levels: u32, es: &[Expr]) -> Result<Seq<Num>, TypeEnd>
    ensures { Answers told result (in_turn (λ (e : Typing). e.number) (typings scope.now es.now)) }
{
    let mut trees = Vec::new(alloc);
    for e in es {
        trees.push(number(alloc, scope, levels, e)?)?;
    }
    Ok(Seq::of(trees))
}

/// The trees of the arguments of a `sum`, of these object types.
#[cycle(typing)]
fn terms(
    alloc: Global,
    scope: &Scope<'_>,
    levels: u32,
    objects: &[u32],
    es: &[Expr],
) -> Result<Seq<Arg>, TypeEnd>
    requires { length es.now ≡ length objects.now }
    ensures { Answers told result (terms objects.now (typings scope.now es.now)) }
{
    let mut trees = Vec::new(alloc);
    for (at, e) in es.iter().enumerate() {
        trees.push(term(alloc, scope, levels, objects[at], e)?)?;
    }
    Ok(Seq::of(trees))
}

/// The tree of an argument of a `sum`, of this object type.
#[cycle(typing)]
fn term(
    alloc: Global,
    scope: &Scope<'_>,
    levels: u32,
    object: u32,
    e: &Expr,
) -> Result<Arg, TypeEnd>
    ensures { Answers told result (term object (typing scope.now e.now)) }
{
    if holds_set(scope, e) {
        let (_, set) = members(alloc, scope, levels, Some(object), e)?;
        Ok(Arg::Many(set))
    } else {
        Ok(Arg::One(number(alloc, scope, levels, e)?))
    }
}

/// The tree of an expression where a set is wanted, of this object type if any, with its object type.
#[cycle(typing)]
pub(crate) fn members(
    alloc: Global,
    scope: &Scope<'_>,
    levels: u32,
    wanted: Option<u32>,
    e: &Expr,
) -> Result<(u32, SetEx), TypeEnd>
    ensures { Answers told result ((typing scope.now e.now).members wanted) }
{
    let Some(below) = levels_below(levels, e) else {
        return Err(TypeEnd::Memory);
    };
    match members_form(&*scope, wanted, e)? {
        MembersForm::Word(at, word) => members_word(alloc, at, wanted, word),
        MembersForm::Operation(op, first, more) => {
            sets_joined(alloc, &*scope, below, wanted, op, first, more)
        }
        MembersForm::Complement(e) => complement(alloc, members(alloc, &*scope, below, wanted, e)),
        MembersForm::Change(change, n, e) => change_of(
            alloc,
            change,
            number(alloc, &*scope, below, n),
            members(alloc, &*scope, below, wanted, e),
        ),
        MembersForm::Choice(c, a, b) => set_choice(
            alloc,
            condition(alloc, &*scope, below, c),
            two_sets(alloc, &*scope, below, wanted, a, b),
        ),
        MembersForm::Cell(object, t, operands) => {
            set_cell(object, t, numbers(alloc, &*scope, below, operands))
        }
    }
}

/// A union, an intersection or a difference, folded from the left.
#[cycle(typing)]
fn sets_joined(
    alloc: Global,
    scope: &Scope<'_>,
    levels: u32,
    wanted: Option<u32>,
    op: SetOp,
    first: &Expr,
    more: &[Expr],
) -> Result<(u32, SetEx), TypeEnd>
    ensures { Answers told result (set_operation_of wanted op (typing scope.now first.now) (typings scope.now more.now)) }
{
    let (object, first) = members(alloc, scope, levels, wanted, first)?;
    set_operation(
        alloc,
        object,
        op,
        first,
        sets(alloc, scope, levels, object, more),
    )
}

/// Two sets of one object type, with their object type.
#[cycle(typing)]
fn two_sets(
    alloc: Global,
    scope: &Scope<'_>,
    levels: u32,
    wanted: Option<u32>,
    a: &Expr,
    b: &Expr,
) -> Result<(u32, (SetEx, SetEx)), TypeEnd>
    ensures { Answers told result (set_pair wanted (typing scope.now a.now) (typing scope.now b.now)) }
{
    let (object, a) = members(alloc, scope, levels, wanted, a)?;
    set_pair(object, a, members(alloc, scope, levels, Some(object), b))
}

/// The trees of expressions where sets of this object type are wanted, in order.
#[cycle(typing)]
fn sets(
    alloc: Global,
    scope: &Scope<'_>,
    levels: u32,
    object: u32,
    es: &[Expr],
) -> Result<Seq<(u32, SetEx)>, TypeEnd>
    ensures { Answers told result (in_turn (λ (e : Typing). e.members (Some object)) (typings scope.now es.now)) }
{
    let mut trees = Vec::new(alloc);
    for e in es {
        trees.push(members(alloc, scope, levels, Some(object), e)?)?;
    }
    Ok(Seq::of(trees))
}

/// The tree of an expression where a condition is wanted.
#[cycle(typing)]
pub(crate) fn condition(
    alloc: Global,
    scope: &Scope<'_>,
    levels: u32,
    e: &Expr,
) -> Result<Cond, TypeEnd>
    ensures { Answers told result (typing scope.now e.now).condition }
{
    let Some(below) = levels_below(levels, e) else {
        return Err(TypeEnd::Memory);
    };
    match condition_form(&*scope, e)? {
        ConditionForm::Word(at, word) => condition_word(alloc, at, word),
        ConditionForm::Numbers(op, a, b) => comparison(
            op,
            number(alloc, &*scope, below, a),
            number(alloc, &*scope, below, b),
        ),
        ConditionForm::Sets(relation, a, b) => {
            set_relation(relation, two_sets(alloc, &*scope, below, None, a, b))
        }
        ConditionForm::IsIn(n, e) => membership(
            number(alloc, &*scope, below, n),
            members(alloc, &*scope, below, None, e),
        ),
        ConditionForm::IsEmpty(e) => emptiness(members(alloc, &*scope, below, None, e)),
        ConditionForm::Not(c) => negation(alloc, condition(alloc, &*scope, below, c)),
        ConditionForm::Connection(op, first, more) => connection(
            alloc,
            op,
            condition(alloc, &*scope, below, first),
            conditions(alloc, &*scope, below, more),
        ),
        ConditionForm::Choice(c, a, b) => condition_choice(
            alloc,
            condition(alloc, &*scope, below, c),
            condition(alloc, &*scope, below, a),
            condition(alloc, &*scope, below, b),
        ),
        ConditionForm::Cell(t, operands) => {
            condition_cell(t, numbers(alloc, &*scope, below, operands))
        }
    }
}

/// The trees of expressions where conditions are wanted, in order.
#[cycle(typing)]
fn conditions(
    alloc: Global,
    scope: &Scope<'_>,
    levels: u32,
    es: &[Expr],
) -> Result<Seq<Cond>, TypeEnd>
    ensures { Answers told result (in_turn (λ (e : Typing). e.condition) (typings scope.now es.now)) }
{
    let mut trees = Vec::new(alloc);
    for e in es {
        trees.push(condition(alloc, scope, levels, e)?)?;
    }
    Ok(Seq::of(trees))
}
