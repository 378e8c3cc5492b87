//! The room that an expression needs, one arm for each form; none where it is not well typed, or where no word holds the
//! number.

ghost use Rattle.std.specs.Prelude.{IfSome};
ghost use Rattle.dp_model.specs.Evaluation.{counts_of};
ghost use Rattle.eval_room.specs.Fits.{num_fits, set_fits, cond_fits, all_fit, terms_fit, term_room, operand_fits, arg_fits};
ghost use Rattle.eval_room.specs.Needs.{Serves};

use crate::objects::{
    arguments, first_count, is_number, is_over, is_set, pair_of, same_object, set_count, sum,
};
use dp_base::Seq;
use dp_model::{Arg, Cond, Model, Num, SetEx};
use packed_words::{after_first, words_for};

/// The room that a number expression needs, with so many parameters in force.
#[cycle(need)]
pub fn num_need(model: &Model, e: &Num, given: usize) -> Option<usize>
    ensures { IfSome result (Serves (num_fits model.now e.now given)) }
{
    match e {
        Num::Fixed(_) => Some(0),
        Num::Var(v) => { if is_number(model, *v) { Some(0) } else { None } }
        Num::Param(p) => { if (*p as usize) < given { Some(0) } else { None } }
        Num::Cell(_, ns) => all_need(model, ns, given),
        Num::Sum(t, terms) => terms_need(model, arguments(model, *t), terms, given),
        Num::Size(a) => operand_need(model, a.get(), given),
        Num::Op(_, a, b) => {
            let x = num_need(model, a.get(), given)?;
            let y = num_need(model, b.get(), given)?;
            Some(x.max(y))
        }
        Num::If(c, a, b) => {
            let x = cond_need(model, c.get(), given)?;
            let y = num_need(model, a.get(), given)?;
            let z = num_need(model, b.get(), given)?;
            Some(x.max(y.max(z)))
        }
    }
}

/// The room that each of some numbers needs.
#[cycle(need)]
fn all_need(model: &Model, ns: &Seq<Num>, given: usize) -> Option<usize>
    ensures { IfSome result (Serves (all_fit model.now ns.now given)) }
{
    let mut most = 0;
    for n in ns.list() {
        let need = num_need(model, n, given)?;
        most = need.max(most);
    }
    Some(most)
}

/// The room that the arguments of a `sum` need, each held as a set while those behind it are evaluated. There are as many as
/// the table has.
#[cycle(need)]
fn terms_need(model: &Model, objects: &[u32], terms: &Seq<Arg>, given: usize) -> Option<usize>
    ensures { IfSome result (Serves (terms_fit model.now (counts_of model.now objects.now) terms.now given)) }
{
    let mut most = 0;
    let mut used = 0;
    let mut left = objects;
    for e in terms.list() {
        let count = first_count(model, left)?;
        used = sum(used, words_for(count))?;
        let need = term_need(model, e, count, given)?;
        most = sum(used, need)?.max(most);
        left = after_first(left);
    }
    if left.is_empty() { Some(most) } else { None }
}

/// The room that an argument of a `sum` needs, where the table's argument may have so many members.
#[cycle(need)]
fn term_need(model: &Model, e: &Arg, count: u32, given: usize) -> Option<usize>
    ensures { IfSome result (Serves (term_room model.now (arg_fits model.now e.now) count given)) }
{
    match e {
        Arg::One(n) => num_need(model, n, given),
        Arg::Many(set) => {
            if set_count(model, set) == count {
                set_need(model, set, given)
            } else {
                None
            }
        }
    }
}

/// The room that a set expression needs, beside the words that it is written to.
#[cycle(need)]
pub fn set_need(model: &Model, e: &SetEx, given: usize) -> Option<usize>
    ensures { IfSome result (Serves ((set_fits model.now e.now).1 given)) }
{
    match e {
        SetEx::Var(v) => { if is_set(model, *v) { Some(0) } else { None } }
        SetEx::Cell(_, ns) => all_need(model, ns, given),
        SetEx::Op(_, a, b) => {
            let x = set_need(model, a.get(), given)?;
            let y = operand_need(model, b.get(), given)?;
            if same_object(model, a.get(), b.get()) {
                Some(x.max(y))
            } else {
                None
            }
        }
        SetEx::Not(a) => set_need(model, a.get(), given),
        SetEx::With(n, a) => {
            let x = num_need(model, n.get(), given)?;
            let y = set_need(model, a.get(), given)?;
            Some(x.max(y))
        }
        SetEx::Without(n, a) => {
            let x = num_need(model, n.get(), given)?;
            let y = set_need(model, a.get(), given)?;
            Some(x.max(y))
        }
        SetEx::If(c, a, b) => {
            let x = cond_need(model, c.get(), given)?;
            let y = set_need(model, a.get(), given)?;
            let z = set_need(model, b.get(), given)?;
            let either = y.max(z);
            let most = x.max(either);
            if same_object(model, a.get(), b.get()) {
                Some(most)
            } else {
                None
            }
        }
    }
}

/// The room that a set needs with the words that it is written to.
#[cycle(need)]
pub fn operand_need(model: &Model, a: &SetEx, given: usize) -> Option<usize>
    ensures { IfSome result (Serves (operand_fits model.now (set_fits model.now a.now) given)) }
{
    let need = set_need(model, a, given)?;
    sum(words_for(set_count(model, a)), need)
}

/// The room that a condition needs.
#[cycle(need)]
pub fn cond_need(model: &Model, e: &Cond, given: usize) -> Option<usize>
    ensures { IfSome result (Serves (cond_fits model.now e.now given)) }
{
    match e {
        Cond::Fixed(_) => Some(0),
        Cond::Cell(_, ns) => all_need(model, ns, given),
        Cond::Numbers(_, a, b) => {
            let x = num_need(model, a, given)?;
            let y = num_need(model, b, given)?;
            Some(x.max(y))
        }
        Cond::SameSet(a, b) => {
            let x = operand_need(model, a, given)?;
            let y = operand_need(model, b, given)?;
            pair_of(same_object(model, a, b), set_count(model, a), x, y)
        }
        Cond::OtherSet(a, b) => {
            let x = operand_need(model, a, given)?;
            let y = operand_need(model, b, given)?;
            pair_of(same_object(model, a, b), set_count(model, a), x, y)
        }
        Cond::Subset(a, b) => {
            let x = operand_need(model, a, given)?;
            let y = operand_need(model, b, given)?;
            pair_of(same_object(model, a, b), set_count(model, a), x, y)
        }
        Cond::IsIn(n, a) => {
            let x = num_need(model, n, given)?;
            let y = operand_need(model, a, given)?;
            Some(x.max(y))
        }
        Cond::Empty(a) => operand_need(model, a, given),
        Cond::Not(c) => cond_need(model, c.get(), given),
        Cond::And(a, b) => {
            let x = cond_need(model, a.get(), given)?;
            let y = cond_need(model, b.get(), given)?;
            Some(x.max(y))
        }
        Cond::Or(a, b) => {
            let x = cond_need(model, a.get(), given)?;
            let y = cond_need(model, b.get(), given)?;
            Some(x.max(y))
        }
        Cond::If(c, a, b) => {
            let x = cond_need(model, c.get(), given)?;
            let y = cond_need(model, a.get(), given)?;
            let z = cond_need(model, b.get(), given)?;
            Some(x.max(y.max(z)))
        }
        Cond::All(over, c) => {
            let more = sum(given, 1)?;
            let need = cond_need(model, c.get(), more)?;
            if is_over(model, *over) {
                sum(more, need)
            } else {
                None
            }
        }
    }
}
