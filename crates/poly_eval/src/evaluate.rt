//! Expressions as polynomials, one arm for each form.

ghost use Rattle.std.specs.Prelude.{◌≡◌, IfOk, length};
ghost use Rattle.dp_model.specs.Evaluation.{table_counts};
ghost use Rattle.poly_eval.specs.Shows.{Extends, IsSet, IsTruth, IsValue};
ghost use Rattle.poly_eval.specs.Parts.{AreFailures, AreNumbers, AreRows, IsChoice, IsFailure, IsTruthUnless, IsValueUnless};

use crate::bits::{chosen_sum, compared, is_one, is_zero, negated, truth};
use crate::cells::{number_cell, set_cell, truth_cell};
use crate::junctions::{Junction, joined};
use crate::operations::{known_number, operate};
use crate::rows::{both, either};
use crate::sets::{
    chosen_set, complement, is_empty, is_in, is_other, is_same, is_within, no_failure,
    operated_set, single_set, size_of, with_member, without_member,
};
use crate::sums::sum_of;
use crate::symbols::{Symbol, parameter, range_row, set_variable, variable, with_more};
use crate::tables::table_counts;
use crate::untold::Untold;
use dp_base::Seq;
use dp_model::{Arg, Cond, Model, Num, SetEx};
use poly_terms::{Atom, Term, constant};
use std::alloc::Global;

/// What expressions are told over: symbols for the variables of a model, and values of the parameters.
#[derive(Clone, Copy)]
pub struct Scene<'a> {
    pub alloc: Global,
    pub model: &'a Model,
    pub symbols: &'a [Symbol],
    pub given: &'a [u32],
}

/// A number expression as a polynomial.
#[cycle(evaluation)]
pub fn number(at: &Scene<'_>, table: &mut Vec<Atom>, e: &Num) -> Result<Vec<Term>, Untold>
    ensures value { IfOk result (λ p. IsValue at.now.model.now table.new.items at.now.symbols.now at.now.given.now e.now p.items) }
    ensures grows { Extends table.old.items table.new.items }
{
    match e {
        Num::Fixed(n) => Ok(constant(at.alloc, *n)?),
        Num::Var(v) => variable(at.alloc, at.symbols, *v),
        Num::Param(p) => parameter(at.alloc, at.given, *p),
        Num::Cell(t, ns) => {
            let values = numbers(at, table, ns)?;
            number_cell(at.alloc, at.model, *t, values)
        }
        Num::Sum(t, terms) => {
            let rows = choices(at, table, *t, terms)?;
            sum_of(at.alloc, at.model, table, *t, rows)
        }
        Num::Size(set) => {
            let row = members(at, table, set.get())?;
            size_of(at.alloc, row)
        }
        Num::Op(op, a, b) => {
            let x = number(at, table, a.get())?;
            let y = number(at, table, b.get())?;
            operate(at.alloc, table, *op, x, y)
        }
        Num::If(c, a, b) => {
            let held = condition(at, table, c.get())?;
            let x = number_unless(at, table, is_zero(&held), a.get())?;
            let y = number_unless(at, table, is_one(&held), b.get())?;
            chosen_sum(at.alloc, table, held, x, y)
        }
    }
}

/// A number expression as a polynomial, or 0 where it does not count.
#[cycle(evaluation)]
fn number_unless(
    at: &Scene<'_>,
    table: &mut Vec<Atom>,
    skipped: bool,
    e: &Num,
) -> Result<Vec<Term>, Untold>
    ensures value { IfOk result (λ p. IsValueUnless skipped at.now.model.now table.new.items at.now.symbols.now at.now.given.now e.now p.items) }
    ensures grows { Extends table.old.items table.new.items }
{
    if skipped {
        Ok(constant(at.alloc, 0)?)
    } else {
        number(at, table, e)
    }
}

/// A condition as a bit.
#[cycle(evaluation)]
pub fn condition(at: &Scene<'_>, table: &mut Vec<Atom>, e: &Cond) -> Result<Vec<Term>, Untold>
    ensures value { IfOk result (λ p. IsTruth at.now.model.now table.new.items at.now.symbols.now at.now.given.now e.now p.items) }
    ensures grows { Extends table.old.items table.new.items }
{
    match e {
        Cond::Fixed(held) => Ok(truth(at.alloc, *held)?),
        Cond::Cell(t, ns) => {
            let values = numbers(at, table, ns)?;
            truth_cell(at.alloc, at.model, *t, values)
        }
        Cond::Numbers(op, a, b) => {
            let x = number(at, table, a)?;
            let y = number(at, table, b)?;
            compared(at.alloc, table, *op, x, y)
        }
        Cond::SameSet(a, b) => {
            let x = members(at, table, a)?;
            let y = members(at, table, b)?;
            is_same(at.alloc, table, x, y)
        }
        Cond::OtherSet(a, b) => {
            let x = members(at, table, a)?;
            let y = members(at, table, b)?;
            is_other(at.alloc, table, x, y)
        }
        Cond::IsIn(n, a) => {
            let x = number(at, table, n)?;
            let row = members(at, table, a)?;
            is_in(at.alloc, x, row)
        }
        Cond::Subset(a, b) => {
            let x = members(at, table, a)?;
            let y = members(at, table, b)?;
            is_within(at.alloc, table, x, y)
        }
        Cond::Empty(a) => {
            let row = members(at, table, a)?;
            is_empty(at.alloc, table, row)
        }
        Cond::Not(c) => {
            let x = condition(at, table, c.get())?;
            negated(at.alloc, &x)
        }
        Cond::And(a, b) => {
            let x = condition(at, table, a.get())?;
            let y = condition_unless(at, table, is_zero(&x), b.get())?;
            both(at.alloc, table, x, y)
        }
        Cond::Or(a, b) => {
            let x = condition(at, table, a.get())?;
            let y = condition_unless(at, table, is_one(&x), b.get())?;
            either(at.alloc, table, x, y)
        }
        Cond::If(c, a, b) => {
            let held = condition(at, table, c.get())?;
            let x = condition_unless(at, table, is_zero(&held), a.get())?;
            let y = condition_unless(at, table, is_one(&held), b.get())?;
            chosen_sum(at.alloc, table, held, x, y)
        }
        Cond::All(over, c) => {
            let guards = range_row(at.alloc, at.model, at.symbols, *over)?;
            let row = failures(at, table, guards, c.get())?;
            no_failure(at.alloc, table, row)
        }
    }
}

/// A condition as a bit, or 0 where it does not count.
#[cycle(evaluation)]
fn condition_unless(
    at: &Scene<'_>,
    table: &mut Vec<Atom>,
    skipped: bool,
    e: &Cond,
) -> Result<Vec<Term>, Untold>
    ensures value { IfOk result (λ p. IsTruthUnless skipped at.now.model.now table.new.items at.now.symbols.now at.now.given.now e.now p.items) }
    ensures grows { Extends table.old.items table.new.items }
{
    if skipped {
        Ok(constant(at.alloc, 0)?)
    } else {
        condition(at, table, e)
    }
}

/// A set expression as bits, one for each member of its object type.
#[cycle(evaluation)]
pub fn members(at: &Scene<'_>, table: &mut Vec<Atom>, e: &SetEx) -> Result<Vec<Seq<Term>>, Untold>
    ensures value { IfOk result (λ row. IsSet at.now.model.now table.new.items at.now.symbols.now at.now.given.now e.now row.items) }
    ensures grows { Extends table.old.items table.new.items }
{
    match e {
        SetEx::Var(v) => set_variable(at.alloc, at.model, at.symbols, *v),
        SetEx::Cell(t, ns) => {
            let values = numbers(at, table, ns)?;
            set_cell(at.alloc, at.model, *t, values)
        }
        SetEx::Op(op, a, b) => {
            let x = members(at, table, a.get())?;
            let y = members(at, table, b.get())?;
            operated_set(at.alloc, table, *op, x, y)
        }
        SetEx::Not(a) => {
            let x = members(at, table, a.get())?;
            complement(at.alloc, x)
        }
        SetEx::With(n, a) => {
            let x = number(at, table, n.get())?;
            let y = members(at, table, a.get())?;
            with_member(at.alloc, table, x, y)
        }
        SetEx::Without(n, a) => {
            let x = number(at, table, n.get())?;
            let y = members(at, table, a.get())?;
            without_member(at.alloc, table, x, y)
        }
        SetEx::If(c, a, b) => {
            let held = condition(at, table, c.get())?;
            let x = members(at, table, a.get())?;
            let y = members(at, table, b.get())?;
            chosen_set(at.alloc, table, held, x, y)
        }
    }
}

/// The numbers that expressions are, whatever the state: those of a table's arguments.
#[cycle(evaluation)]
fn numbers(at: &Scene<'_>, table: &mut Vec<Atom>, ns: &Seq<Num>) -> Result<Vec<i64>, Untold>
    ensures value { IfOk result (λ values. AreNumbers at.now.model.now table.new.items at.now.symbols.now at.now.given.now ns.now values.items) }
    ensures grows { Extends table.old.items table.new.items }
{
    let mut values = Vec::new(at.alloc);
    for n in ns.list() {
        let p = number(at, table, n)?;
        values.push(known_number(&p)?)?;
    }
    Ok(values)
}

/// The bit of a condition that does not hold, where another one does.
#[cycle(evaluation)]
fn failure(
    at: &Scene<'_>,
    table: &mut Vec<Atom>,
    guard: &[Term],
    c: &Cond,
) -> Result<Vec<Term>, Untold>
    ensures value { IfOk result (λ p. IsFailure at.now.model.now table.new.items at.now.symbols.now at.now.given.now c.now guard.now p.items) }
    ensures grows { Extends table.old.items table.new.items }
{
    if is_zero(guard) {
        return Ok(constant(at.alloc, 0)?);
    }
    let x = condition(at, table, c)?;
    joined(at.alloc, table, Junction::OnlyFirst, guard, &x)
}

/// For each member a bit: it is one that a `forall` ranges over, and its condition does not hold with it as one more
/// parameter.
#[cycle(evaluation)]
fn failures(
    at: &Scene<'_>,
    table: &mut Vec<Atom>,
    guards: Vec<Seq<Term>>,
    c: &Cond,
) -> Result<Vec<Seq<Term>>, Untold>
    ensures many { IfOk result (λ row. length row.items ≡ length guards.items) }
    ensures value { IfOk result (λ row. AreFailures at.now.model.now table.new.items at.now.symbols.now at.now.given.now c.now guards.items row.items) }
    ensures grows { Extends table.old.items table.new.items }
{
    let mut row = Vec::new(at.alloc);
    for k in 0..guards.len() {
        let more = with_more(at.alloc, at.given, k)?;
        let there = Scene {
            alloc: at.alloc,
            model: at.model,
            symbols: at.symbols,
            given: &more,
        };
        row.push(Seq::of(failure(&there, table, guards[k].list(), c)?))?;
    }
    Ok(row)
}

/// The bits of the choices for an argument of a `sum`, whose object type has this count.
#[cycle(evaluation)]
fn choice(
    at: &Scene<'_>,
    table: &mut Vec<Atom>,
    count: u32,
    e: &Arg,
) -> Result<Vec<Seq<Term>>, Untold>
    ensures value { IfOk result (λ row. IsChoice at.now.model.now table.new.items at.now.symbols.now at.now.given.now e.now row.items) }
    ensures grows { Extends table.old.items table.new.items }
{
    match e {
        Arg::One(n) => {
            let x = number(at, table, n)?;
            single_set(at.alloc, x, count)
        }
        Arg::Many(set) => members(at, table, set),
    }
}

/// The bits of the choices for each argument of a `sum`.
#[cycle(evaluation)]
fn choices(
    at: &Scene<'_>,
    table: &mut Vec<Atom>,
    t: u32,
    terms: &Seq<Arg>,
) -> Result<Vec<Seq<Seq<Term>>>, Untold>
    ensures many { IfOk result (λ rows. (length rows.items ≡ length terms.now) × (length terms.now ≡ length (table_counts at.now.model.now t))) }
    ensures value { IfOk result (λ rows. AreRows at.now.model.now table.new.items at.now.symbols.now at.now.given.now terms.now rows.items) }
    ensures grows { Extends table.old.items table.new.items }
{
    let counts = table_counts(at.alloc, at.model, t)?;
    let items = terms.list().as_slice();
    if counts.len() != items.len() {
        return Err(Untold::Form);
    }
    let mut rows = Vec::new(at.alloc);
    for i in 0..items.len() {
        let row = choice(at, table, counts[i], &items[i])?;
        rows.push(Seq::of(row))?;
    }
    Ok(rows)
}
