//! The arguments of a `sum`, and the total of the cells at each way to choose one member for each argument.

ghost use Rattle.std.specs.Prelude.{◌≡◌, ℕ, ◌+ℤ◌, map, drop, IfOk};
ghost use Rattle.dp_model.specs.Evaluation.{choices_of, ways, total_of};
ghost use Rattle.dp_eval.specs.Answers.{Answers, Pushes};
ghost use Rattle.dp_eval.specs.Places.{IsPlace};
ghost use Rattle.dp_eval.specs.Terms.{term_value, choice_of, sum_value};
ghost use Rattle.dp_eval.specs.Totals.{place_after, total_at};

use crate::ends::EvalEnd;
use crate::members::copied;
use crate::numbers::{member_of, ranged};
use crate::tables::{next_place, number_at, numbers_in, table_counts};
use dp_model::{Model, Seq};
use std::alloc::{AllocError, Global};

/// An argument of a `sum` that was evaluated: a number, or the members of a set.
#[derive(Debug, Drop)]
pub enum Term {
    Number(i64),
    Members(Seq<u32>),
}

/// The choices for one argument: a number as the one member, or each member of the set.
fn choice_of(alloc: Global, count: u32, term: &Term) -> Result<Seq<u32>, EvalEnd>
    ensures { Answers result (choice_of count (term_value term.now)) }
{
    match term {
        Term::Number(n) => {
            let member = member_of(count, *n)?;
            let mut one = Vec::new(alloc);
            one.push(member)?;
            Ok(Seq::of(one))
        }
        Term::Members(set) => Ok(copied(alloc, set)?),
    }
}

/// Pushes the choices for the arguments that are left, tested in order.
fn push_choices(
    alloc: Global,
    counts: &[u32],
    terms: &[Term],
    choices: &mut Vec<Seq<u32>>,
) -> Result<(), EvalEnd>
    ensures { Pushes result choices.old.items
        (choices_of counts.now (map term_value terms.now)) choices.new.items }
{
    let [count, counts @ ..] = counts else {
        return Ok(());
    };
    let [term, terms @ ..] = terms else {
        return Ok(());
    };
    choices.push(choice_of(alloc, *count, term)?)?;
    push_choices(alloc, counts, terms, choices)
}

/// The total with one more. An `i128` has room for the cells of 2^64 choices, which no call lives to add.
fn added(total: i128, more: i128) -> Result<i128, AllocError>
    ensures { IfOk result (λ sum. sum ≡ total +ℤ more) }
{
    total.checked_add(more).ok_or(AllocError)
}

/// The place with one more argument, where counts are left for it and those after it.
fn place_after(at: Option<usize>, counts: &[u32], member: u32) -> Option<usize>
    ensures { (place : ℕ) → IsPlace place at
        → IsPlace (place_after place counts.now member) result }
{
    match counts {
        [count, ..] => next_place(at, *count, member),
        [] => at,
    }
}

fn after_first(counts: &[u32]) -> &[u32]
    ensures { result.now ≡ drop 1 counts.now }
{
    match counts {
        [_, rest @ ..] => rest,
        [] => counts,
    }
}

/// The total of the cells behind a place, at each way to choose one member for each argument that is left.
fn total_from(
    cells: &[i64],
    at: Option<usize>,
    counts: &[u32],
    choices: &[Seq<u32>],
) -> Result<i128, AllocError>
    ensures { (place : ℕ) → IsPlace place at
        → IfOk result (λ total. total ≡ total_at cells.now place counts.now (ways choices.now)) }
{
    let [set, choices @ ..] = choices else {
        return Ok(i128::from(number_at(cells, at)));
    };
    let rest = after_first(counts);
    let mut total = 0;
    for member in set.list() {
        let next = place_after(at, counts, *member);
        total = added(total, total_from(cells, next, rest, choices)?)?;
    }
    Ok(total)
}

/// The total of the cells of a table at each way to choose one member for each argument.
fn total_of(alloc: Global, model: &Model, t: u32, choices: &[Seq<u32>]) -> Result<i128, AllocError>
    ensures { IfOk result (λ total. total ≡ total_of model.now t (ways choices.now)) }
{
    let counts = table_counts(alloc, model, t)?;
    total_from(numbers_in(model, t), Some(0), &counts, choices)
}

/// The sum of a table over its evaluated arguments, which is tested once, on its whole total.
#[inline(never)]
pub fn sum_of(alloc: Global, model: &Model, t: u32, terms: &[Term]) -> Result<i64, EvalEnd>
    ensures { Answers result (sum_value model.now t (map term_value terms.now)) }
{
    let counts = table_counts(alloc, model, t)?;
    let mut choices = Vec::new(alloc);
    push_choices(alloc, &counts, terms, &mut choices)?;
    let total = total_of(alloc, model, t, &choices)?;
    Ok(ranged(total)?)
}
