//! Trees made of trees. Operands are folded from the left.

ghost use Rattle.std.specs.Prelude.{◌≡◌, IfOk, Ok};
ghost use Rattle.dp_base.specs.Results.{Answers};
ghost use Rattle.dypdl_words.specs.Ends.{told};
ghost use Rattle.dypdl_words.specs.Folding.{folded_numbers, folded_sets, connect, connected, changed_set, related};
ghost use Rattle.dp_model.specs.declared.trees.Num.TheVariants as num;
ghost use Rattle.dp_model.specs.declared.trees.SetEx.TheVariants as set;
ghost use Rattle.dp_model.specs.declared.trees.Cond.TheVariants as cond;

use crate::ends::TypeEnd;
use crate::words::{Change, Connective};
use dp_base::{Boxed, Seq};
use dp_model::{Cond, Num, NumOp, SetEx, SetOp};
use std::alloc::{AllocError, Global};

/// How two sets of one object type are compared.
#[derive(Debug, Clone, Copy)]
pub enum SetRelation {
    Same,
    Other,
    Within,
}

fn boxed_two<A: Drop, B: Drop>(
    alloc: Global,
    a: A,
    b: B,
) -> Result<(Boxed<A>, Boxed<B>), AllocError>
    ensures first { IfOk result (λ p. p.0 ≡ a) }
    ensures second { IfOk result (λ p. p.1 ≡ b) }
{
    let a = Boxed::new(alloc, a)?;
    let b = Boxed::new(alloc, b)?;
    Ok((a, b))
}

/// A condition, and what is chosen by it.
fn boxed_three<C: Drop, T: Drop>(
    alloc: Global,
    c: C,
    a: T,
    b: T,
) -> Result<(Boxed<C>, Boxed<T>, Boxed<T>), AllocError>
    ensures condition { IfOk result (λ p. p.0 ≡ c) }
    ensures first { IfOk result (λ p. p.1 ≡ a) }
    ensures second { IfOk result (λ p. p.2 ≡ b) }
{
    let c = Boxed::new(alloc, c)?;
    let (a, b) = boxed_two(alloc, a, b)?;
    Ok((c, a, b))
}

pub(crate) fn folded_numbers(
    alloc: Global,
    op: NumOp,
    first: Num,
    more: Seq<Num>,
) -> Result<Num, TypeEnd>
    ensures { Answers told result (Ok (folded_numbers op first more)) }
{
    let mut folded = first;
    for n in more.into_list() {
        let (a, b) = boxed_two(alloc, folded, n)?;
        folded = Num::Op(op, a, b);
    }
    Ok(folded)
}

/// Sets of this object type.
pub(crate) fn folded_sets(
    alloc: Global,
    object: u32,
    op: SetOp,
    first: SetEx,
    more: Seq<(u32, SetEx)>,
) -> Result<(u32, SetEx), TypeEnd>
    ensures { Answers told result (Ok (object, folded_sets op first more)) }
{
    let mut folded = first;
    for (_, set) in more.into_list() {
        let (a, b) = boxed_two(alloc, folded, set)?;
        folded = SetEx::Op(op, a, b);
    }
    Ok((object, folded))
}

fn connect(alloc: Global, op: Connective, a: Cond, b: Cond) -> Result<Cond, TypeEnd>
    ensures { Answers told result (Ok (connect op a b)) }
{
    let (a, b) = boxed_two(alloc, a, b)?;
    Ok(match op {
        Connective::And => Cond::And(a, b),
        Connective::Or => Cond::Or(a, b),
    })
}

pub(crate) fn connected(
    alloc: Global,
    op: Connective,
    first: Cond,
    more: Seq<Cond>,
) -> Result<Cond, TypeEnd>
    ensures { Answers told result (Ok (connected op first more)) }
{
    let mut folded = first;
    for c in more.into_list() {
        folded = connect(alloc, op, folded, c)?;
    }
    Ok(folded)
}

/// A set of this object type with a member, or without it.
pub(crate) fn changed_set(
    alloc: Global,
    object: u32,
    change: Change,
    n: Num,
    set: SetEx,
) -> Result<(u32, SetEx), TypeEnd>
    ensures { Answers told result (Ok (object, changed_set change n set)) }
{
    let (n, set) = boxed_two(alloc, n, set)?;
    Ok((
        object,
        match change {
            Change::Add => SetEx::With(n, set),
            Change::Remove => SetEx::Without(n, set),
        },
    ))
}

pub(crate) fn chosen_number(alloc: Global, c: Cond, a: Num, b: Num) -> Result<Num, TypeEnd>
    ensures { Answers told result (Ok (num.If c a b)) }
{
    let (c, a, b) = boxed_three(alloc, c, a, b)?;
    Ok(Num::If(c, a, b))
}

/// A choice between two sets of this object type.
pub(crate) fn chosen_set(
    alloc: Global,
    object: u32,
    c: Cond,
    a: SetEx,
    b: SetEx,
) -> Result<(u32, SetEx), TypeEnd>
    ensures { Answers told result (Ok (object, set.If c a b)) }
{
    let (c, a, b) = boxed_three(alloc, c, a, b)?;
    Ok((object, SetEx::If(c, a, b)))
}

pub(crate) fn chosen_condition(alloc: Global, c: Cond, a: Cond, b: Cond) -> Result<Cond, TypeEnd>
    ensures { Answers told result (Ok (cond.If c a b)) }
{
    let (c, a, b) = boxed_three(alloc, c, a, b)?;
    Ok(Cond::If(c, a, b))
}

pub(crate) fn related(relation: SetRelation, a: SetEx, b: SetEx) -> Cond
    ensures { result ≡ related relation a b }
{
    match relation {
        SetRelation::Same => Cond::SameSet(a, b),
        SetRelation::Other => Cond::OtherSet(a, b),
        SetRelation::Within => Cond::Subset(a, b),
    }
}
