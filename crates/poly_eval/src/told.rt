//! Expressions of a model over a symbolic state, as polynomials.

ghost use Rattle.std.specs.Prelude.{◌≡◌, ℕ, ℤ, IfOk, IfSome, OnOk};
ghost use Rattle.poly_terms.specs.Worth.{worth};
ghost use Rattle.poly_terms.specs.Fits.{Fits};
ghost use Rattle.wide_values.specs.Wide.{wide_operation};
ghost use Rattle.poly_eval.specs.Shows.{Extends, IsValue, IsTruth, IsSet};

use crate::evaluate::{self, Scene};
use crate::operations::{operate, same_sum};
use crate::symbols::Symbol;
use crate::untold::Untold;
use dp_base::Seq;
use dp_model::{Cond, Model, Num, NumOp, SetEx};
use poly_terms::{Atom, Term};
use std::alloc::{AllocError, Global};

/// A number expression as a polynomial, with these values of the parameters. It is `None` where none is known.
pub fn number(
    alloc: Global,
    model: &Model,
    table: &mut Vec<Atom>,
    symbols: &[Symbol],
    given: &[u32],
    e: &Num,
) -> Result<Option<Vec<Term>>, AllocError>
    ensures value { IfOk result (λ answer. IfSome answer (λ p. IsValue model.now table.new.items symbols.now given.now e.now p.items)) }
    ensures grows { OnOk result (Extends table.old.items table.new.items) }
{
    let at = Scene {
        alloc,
        model,
        symbols,
        given,
    };
    match evaluate::number(&at, table, e) {
        Ok(p) => Ok(Some(p)),
        Err(Untold::Form) => Ok(None),
        Err(Untold::Memory) => Err(AllocError),
    }
}

/// A condition as a bit, with these values of the parameters. It is `None` where none is known.
pub fn condition(
    alloc: Global,
    model: &Model,
    table: &mut Vec<Atom>,
    symbols: &[Symbol],
    given: &[u32],
    e: &Cond,
) -> Result<Option<Vec<Term>>, AllocError>
    ensures value { IfOk result (λ answer. IfSome answer (λ p. IsTruth model.now table.new.items symbols.now given.now e.now p.items)) }
    ensures grows { OnOk result (Extends table.old.items table.new.items) }
{
    let at = Scene {
        alloc,
        model,
        symbols,
        given,
    };
    match evaluate::condition(&at, table, e) {
        Ok(p) => Ok(Some(p)),
        Err(Untold::Form) => Ok(None),
        Err(Untold::Memory) => Err(AllocError),
    }
}

/// A set expression as bits, one for each member of its object type, with these values of the parameters. It is `None`
/// where they are not known.
pub fn members(
    alloc: Global,
    model: &Model,
    table: &mut Vec<Atom>,
    symbols: &[Symbol],
    given: &[u32],
    e: &SetEx,
) -> Result<Option<Vec<Seq<Term>>>, AllocError>
    ensures value { IfOk result (λ answer. IfSome answer (λ bits. IsSet model.now table.new.items symbols.now given.now e.now bits.items)) }
    ensures grows { OnOk result (Extends table.old.items table.new.items) }
{
    let at = Scene {
        alloc,
        model,
        symbols,
        given,
    };
    match evaluate::members(&at, table, e) {
        Ok(row) => Ok(Some(row)),
        Err(Untold::Form) => Ok(None),
        Err(Untold::Memory) => Err(AllocError),
    }
}

/// An operation on two sums, as in expressions. It is `None` where no polynomial is known for it.
pub fn operated(
    alloc: Global,
    table: &mut Vec<Atom>,
    op: NumOp,
    a: &[Term],
    b: &[Term],
) -> Result<Option<Vec<Term>>, AllocError>
    ensures value { IfOk result (λ answer. IfSome answer (λ p. (v : ℕ → ℤ) → Fits table.new.items v → worth v p.items ≡ wide_operation op (worth v a.now) (worth v b.now))) }
    ensures grows { OnOk result (Extends table.old.items table.new.items) }
{
    match operated_once(alloc, table, op, a, b) {
        Ok(p) => Ok(Some(p)),
        Err(Untold::Form) => Ok(None),
        Err(Untold::Memory) => Err(AllocError),
    }
}

fn operated_once(
    alloc: Global,
    table: &mut Vec<Atom>,
    op: NumOp,
    a: &[Term],
    b: &[Term],
) -> Result<Vec<Term>, Untold>
    ensures value { IfOk result (λ p. (v : ℕ → ℤ) → Fits table.new.items v → worth v p.items ≡ wide_operation op (worth v a.now) (worth v b.now)) }
    ensures grows { Extends table.old.items table.new.items }
{
    let x = same_sum(alloc, a)?;
    let y = same_sum(alloc, b)?;
    operate(alloc, table, op, x, y)
}
