//! Costs as sums: joined with a weight, and compared with a bound.

ghost use Rattle.std.specs.Prelude.{◌≡◌, ℕ, ℤ, Option, ◌-ℤ◌, IfOk, IfSome, IsTrue, OnOk};
ghost use Rattle.dp_model.specs.Costs.{join_onto, operation};
ghost use Rattle.dp_claims.specs.Honest.{IsNotBetter};
ghost use Rattle.poly_terms.specs.Worth.{worth};
ghost use Rattle.poly_terms.specs.Fits.{Fits};
ghost use Rattle.poly_eval.specs.Shows.{Extends};
ghost use Rattle.wide_values.specs.Wide.{wide_operation};
ghost use Rattle.honest_steps.specs.Moves.{IsWeighed};
ghost use Rattle.honest_bounds.specs.Steps.{room_of};

use dp_base::Seq;
use dp_model::{JoinOp, Model, NumOp};
use poly_eval::operated;
use poly_pairs::never_negative;
use poly_terms::{Atom, Term, add_times};
use std::alloc::{AllocError, Global};

/// The operation by which costs are joined.
fn joining(join: JoinOp) -> NumOp
    ensures { (a b : ℤ) → wide_operation result a b ≡ operation join a b }
{
    match join {
        JoinOp::Plus => NumOp::Plus,
        JoinOp::Most => NumOp::Most,
        JoinOp::Least => NumOp::Least,
    }
}

/// A sum less another one.
fn difference(alloc: Global, a: &[Term], b: &[Term]) -> Result<Option<Vec<Term>>, AllocError>
    ensures { IfOk result (λ answer. IfSome answer (λ p. (v : ℕ → ℤ) → worth v p.items ≡ worth v a.now -ℤ worth v b.now)) }
{
    let mut sum = Vec::new(alloc);
    if add_times(&mut sum, 1, a)? && add_times(&mut sum, -1, b)? {
        Ok(Some(sum))
    } else {
        Ok(None)
    }
}

/// The same sum once more.
fn copied(alloc: Global, sum: &[Term]) -> Result<Option<Vec<Term>>, AllocError>
    ensures { IfOk result (λ answer. IfSome answer (λ p. (v : ℕ → ℤ) → worth v p.items ≡ worth v sum.now)) }
{
    let mut same = Vec::new(alloc);
    if add_times(&mut same, 1, sum)? {
        Ok(Some(same))
    } else {
        Ok(None)
    }
}

/// A weight, if there is one, joined onto a cost.
pub fn joined(
    alloc: Global,
    model: &Model,
    table: &mut Vec<Atom>,
    weight: &Option<Seq<Term>>,
    cost: &[Term],
) -> Result<Option<Vec<Term>>, AllocError>
    ensures value { IfOk result (λ answer. IfSome answer (λ p. (v : ℕ → ℤ) (w : Option ℤ) → Fits table.new.items v → IsWeighed v weight.now w → worth v p.items ≡ join_onto model.now.join w (worth v cost.now))) }
    ensures grows { OnOk result (Extends table.old.items table.new.items) }
{
    match weight {
        None => copied(alloc, cost),
        Some(sum) => operated(alloc, table, joining(model.join()), sum.list(), cost),
    }
}

/// How much a cost is worse than a bound: the cost less the bound, or the bound less the cost where the greater is better.
fn room(
    alloc: Global,
    model: &Model,
    cost: &[Term],
    bound: &[Term],
) -> Result<Option<Vec<Term>>, AllocError>
    ensures { IfOk result (λ answer. IfSome answer (λ p. (v : ℕ → ℤ) → worth v p.items ≡ room_of model.now.minimize (worth v cost.now) (worth v bound.now))) }
{
    if model.minimize() {
        difference(alloc, cost, bound)
    } else {
        difference(alloc, bound, cost)
    }
}

/// Whether a cost is never better than a bound. `false` says that the rules do not show it.
pub fn never_better(
    alloc: Global,
    model: &Model,
    table: &[Atom],
    cost: &[Term],
    bound: &[Term],
) -> Result<bool, AllocError>
    ensures { IfOk result (λ shown. IsTrue shown → (v : ℕ → ℤ) → Fits table.now v → IsNotBetter model.now (worth v cost.now) (worth v bound.now)) }
{
    match room(alloc, model, cost, bound)? {
        Some(sum) => never_negative(alloc, table, &sum),
        None => Ok(false),
    }
}
