//! Trees of operands that are typed. Each answers the first refusal of its operands, where one is refused.

ghost use Rattle.std.specs.Prelude.{◌≡◌, ℕ, List, Result};
ghost use Rattle.dp_base.specs.Results.{Answers};
ghost use Rattle.dp_model.specs.declared.trees.Arg.{Arg as ArgSeen};
ghost use Rattle.dp_model.specs.declared.trees.Num.{Num as NumSeen};
ghost use Rattle.dp_model.specs.declared.trees.SetEx.{SetEx as SetSeen};
ghost use Rattle.dp_model.specs.declared.trees.Cond.{Cond as CondSeen};
ghost use Rattle.dypdl_words.specs.declared.ends.TypeEnd.{TypeEnd as EndSeen};
ghost use Rattle.dypdl_words.specs.Ends.{told};
ghost use Rattle.dypdl_words.specs.Trees.{Numbered, Membered, Held, both, size, operation, number_choice, number_cell, sum, complement, change_of, set_operation, set_pair, set_choice, set_cell, comparison, set_relation, membership, emptiness, negation, connection, condition_choice, condition_cell};

use crate::ends::TypeEnd;
use crate::folding::{
    SetRelation, changed_set, chosen_condition, chosen_number, chosen_set, connected,
    folded_numbers, folded_sets, related,
};
use crate::words::{Change, Connective};
use dp_base::{Boxed, Seq};
use dp_model::{Arg, Compare, Cond, Num, NumOp, SetEx, SetOp};
use std::alloc::Global;

/// A set with the number of its object type.
type Members = (u32, SetEx);

fn both<A: Drop, B: Drop>(a: Result<A, TypeEnd>, b: Result<B, TypeEnd>) -> Result<(A, B), TypeEnd>
    ensures { (x : Result A EndSeen) (y : Result B EndSeen) → Answers told a x → Answers told b y
        → Answers told result (both x y) }
{
    let a = a?;
    let b = b?;
    Ok((a, b))
}

/// The number of a set's members.
pub fn size(alloc: Global, set: Result<Members, TypeEnd>) -> Result<Num, TypeEnd>
    ensures { (x : Membered) → Answers told set x → Answers told result (size x) }
{
    let (_, set) = set?;
    Ok(Num::Size(Boxed::new(alloc, set)?))
}

/// An operation on numbers, folded from the left.
pub fn operation(
    alloc: Global,
    op: NumOp,
    first: Result<Num, TypeEnd>,
    more: Result<Seq<Num>, TypeEnd>,
) -> Result<Num, TypeEnd>
    ensures { (x : Numbered) (xs : Result (List NumSeen) EndSeen) → Answers told first x
        → Answers told more xs → Answers told result (operation op x xs) }
{
    let (first, more) = both(first, more)?;
    folded_numbers(alloc, op, first, more)
}

/// A choice between two numbers.
pub fn number_choice(
    alloc: Global,
    c: Result<Cond, TypeEnd>,
    a: Result<Num, TypeEnd>,
    b: Result<Num, TypeEnd>,
) -> Result<Num, TypeEnd>
    ensures { (x : Held) (y z : Numbered) → Answers told c x → Answers told a y → Answers told b z
        → Answers told result (number_choice x y z) }
{
    let (c, (a, b)) = both(c, both(a, b))?;
    chosen_number(alloc, c, a, b)
}

/// A cell of a table of numbers.
pub fn number_cell(t: u32, numbers: Result<Seq<Num>, TypeEnd>) -> Result<Num, TypeEnd>
    ensures { (xs : Result (List NumSeen) EndSeen) → Answers told numbers xs
        → Answers told result (number_cell t xs) }
{
    Ok(Num::Cell(t, numbers?))
}

/// A sum over a table.
pub fn sum(t: u32, terms: Result<Seq<Arg>, TypeEnd>) -> Result<Num, TypeEnd>
    ensures { (xs : Result (List ArgSeen) EndSeen) → Answers told terms xs
        → Answers told result (sum t xs) }
{
    Ok(Num::Sum(t, terms?))
}

/// The members that a set lacks.
pub fn complement(alloc: Global, set: Result<Members, TypeEnd>) -> Result<Members, TypeEnd>
    ensures { (x : Membered) → Answers told set x → Answers told result (complement x) }
{
    let (object, set) = set?;
    Ok((object, SetEx::Not(Boxed::new(alloc, set)?)))
}

/// A set with a member, or without it.
pub fn change_of(
    alloc: Global,
    change: Change,
    n: Result<Num, TypeEnd>,
    set: Result<Members, TypeEnd>,
) -> Result<Members, TypeEnd>
    ensures { (x : Numbered) (y : Membered) → Answers told n x → Answers told set y
        → Answers told result (change_of change x y) }
{
    let (n, (object, set)) = both(n, set)?;
    changed_set(alloc, object, change, n, set)
}

/// A union, an intersection or a difference of sets of this object type, folded from the left.
pub fn set_operation(
    alloc: Global,
    object: u32,
    op: SetOp,
    first: SetEx,
    more: Result<Seq<Members>, TypeEnd>,
) -> Result<Members, TypeEnd>
    ensures { (xs : Result (List (ℕ × SetSeen)) EndSeen) → Answers told more xs
        → Answers told result (set_operation object op first xs) }
{
    let more = more?;
    folded_sets(alloc, object, op, first, more)
}

/// A set of this object type, and another one.
pub fn set_pair(
    object: u32,
    a: SetEx,
    b: Result<Members, TypeEnd>,
) -> Result<(u32, (SetEx, SetEx)), TypeEnd>
    ensures { (x : Membered) → Answers told b x → Answers told result (set_pair object a x) }
{
    let (_, b) = b?;
    Ok((object, (a, b)))
}

/// A choice between two sets of one object type.
pub fn set_choice(
    alloc: Global,
    c: Result<Cond, TypeEnd>,
    sets: Result<(u32, (SetEx, SetEx)), TypeEnd>,
) -> Result<Members, TypeEnd>
    ensures { (x : Held) (y : Result (ℕ × (SetSeen × SetSeen)) EndSeen) → Answers told c x → Answers told sets y
        → Answers told result (set_choice x y) }
{
    let (c, (object, (a, b))) = both(c, sets)?;
    chosen_set(alloc, object, c, a, b)
}

/// A cell of a table of sets of this object type.
pub fn set_cell(object: u32, t: u32, numbers: Result<Seq<Num>, TypeEnd>) -> Result<Members, TypeEnd>
    ensures { (xs : Result (List NumSeen) EndSeen) → Answers told numbers xs
        → Answers told result (set_cell object t xs) }
{
    Ok((object, SetEx::Cell(t, numbers?)))
}

/// A comparison of two numbers.
pub fn comparison(
    op: Compare,
    a: Result<Num, TypeEnd>,
    b: Result<Num, TypeEnd>,
) -> Result<Cond, TypeEnd>
    ensures { (x y : Numbered) → Answers told a x → Answers told b y → Answers told result (comparison op x y) }
{
    let (a, b) = both(a, b)?;
    Ok(Cond::Numbers(op, a, b))
}

/// A comparison of two sets of one object type.
pub fn set_relation(
    relation: SetRelation,
    sets: Result<(u32, (SetEx, SetEx)), TypeEnd>,
) -> Result<Cond, TypeEnd>
    ensures { (x : Result (ℕ × (SetSeen × SetSeen)) EndSeen) → Answers told sets x
        → Answers told result (set_relation relation x) }
{
    let (_, (a, b)) = sets?;
    Ok(related(relation, a, b))
}

/// Whether a number is in a set.
pub fn membership(n: Result<Num, TypeEnd>, set: Result<Members, TypeEnd>) -> Result<Cond, TypeEnd>
    ensures { (x : Numbered) (y : Membered) → Answers told n x → Answers told set y
        → Answers told result (membership x y) }
{
    let (n, (_, set)) = both(n, set)?;
    Ok(Cond::IsIn(n, set))
}

/// Whether a set is empty.
pub fn emptiness(set: Result<Members, TypeEnd>) -> Result<Cond, TypeEnd>
    ensures { (x : Membered) → Answers told set x → Answers told result (emptiness x) }
{
    let (_, set) = set?;
    Ok(Cond::Empty(set))
}

/// Whether a condition does not hold.
pub fn negation(alloc: Global, c: Result<Cond, TypeEnd>) -> Result<Cond, TypeEnd>
    ensures { (x : Held) → Answers told c x → Answers told result (negation x) }
{
    let c = c?;
    Ok(Cond::Not(Boxed::new(alloc, c)?))
}

/// `and` or `or` of conditions, folded from the left.
pub fn connection(
    alloc: Global,
    op: Connective,
    first: Result<Cond, TypeEnd>,
    more: Result<Seq<Cond>, TypeEnd>,
) -> Result<Cond, TypeEnd>
    ensures { (x : Held) (xs : Result (List CondSeen) EndSeen) → Answers told first x
        → Answers told more xs → Answers told result (connection op x xs) }
{
    let (first, more) = both(first, more)?;
    connected(alloc, op, first, more)
}

/// A choice between two conditions.
pub fn condition_choice(
    alloc: Global,
    c: Result<Cond, TypeEnd>,
    a: Result<Cond, TypeEnd>,
    b: Result<Cond, TypeEnd>,
) -> Result<Cond, TypeEnd>
    ensures { (x y z : Held) → Answers told c x → Answers told a y → Answers told b z
        → Answers told result (condition_choice x y z) }
{
    let (c, (a, b)) = both(c, both(a, b))?;
    chosen_condition(alloc, c, a, b)
}

/// A cell of a table of truth values.
pub fn condition_cell(t: u32, numbers: Result<Seq<Num>, TypeEnd>) -> Result<Cond, TypeEnd>
    ensures { (xs : Result (List NumSeen) EndSeen) → Answers told numbers xs
        → Answers told result (condition_cell t xs) }
{
    Ok(Cond::Cell(t, numbers?))
}
