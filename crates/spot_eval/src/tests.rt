//! Expressions at the spots of a model, and lists of conditions.

ghost use Rattle.std.specs.Prelude.{◌≡◌, ◌≤◌, length};
ghost use Rattle.dp_model.specs.Evaluation.{num_value, cond_value};
ghost use Rattle.spot_eval.specs.Answers.{Answers, at_spot};
ghost use Rattle.spot_eval.specs.Looks.{all_at, spot_of};

use crate::ends::{SpotEnd, SpotFault};
use dp_eval::{EvalEnd, eval_cond, eval_num};
use dp_model::{Cond, Model, Num, PlainState, Seq, Spot};
use std::alloc::Global;

/// Which conditions are tested: the constraints, those of a base case, or those of a ground transition.
#[derive(Clone, Copy, Debug, PartialEq, Eq)]
pub enum Tests {
    Constraints,
    BaseConditions(u32),
    Preconditions(u32),
}

/// The spot of the test at this place.
fn spot_of(tests: Tests, place: u32) -> Spot
    ensures { result ≡ spot_of tests place }
{
    match tests {
        Tests::Constraints => Spot::Constraint(place),
        Tests::BaseConditions(case) => Spot::BaseCondition(case, place),
        Tests::Preconditions(number) => Spot::Precondition(number, place),
    }
}

/// Whether a condition holds.
fn cond_at(
    alloc: Global,
    model: &Model,
    spot: Spot,
    e: &Cond,
    args: &Seq<u32>,
    s: &PlainState,
) -> Result<bool, SpotEnd>
    ensures { Answers result (at_spot spot (cond_value model.now s.now e.now args.now)) }
{
    match eval_cond(alloc, model, e, args, s) {
        Ok(held) => Ok(held),
        Err(EvalEnd::Fault(kind)) => Err(SpotEnd::Fault(SpotFault { spot, kind })),
        Err(EvalEnd::Memory) => Err(SpotEnd::Memory),
    }
}

/// The value of a number expression.
pub(crate) fn num_at(
    alloc: Global,
    model: &Model,
    spot: Spot,
    e: &Num,
    args: &Seq<u32>,
    s: &PlainState,
) -> Result<i64, SpotEnd>
    ensures { Answers result (at_spot spot (num_value model.now s.now e.now args.now)) }
{
    match eval_num(alloc, model, e, args, s) {
        Ok(value) => Ok(value),
        Err(EvalEnd::Fault(kind)) => Err(SpotEnd::Fault(SpotFault { spot, kind })),
        Err(EvalEnd::Memory) => Err(SpotEnd::Memory),
    }
}

/// Whether conditions hold, in order up to the first that does not.
pub(crate) fn all_at(
    alloc: Global,
    model: &Model,
    tests: Tests,
    conditions: &[Cond],
    args: &Seq<u32>,
    s: &PlainState,
) -> Result<bool, SpotEnd>
    requires { length conditions.now ≤ 65536 }
    ensures { Answers result (all_at model.now s.now tests args.now 0 conditions.now) }
{
    for (place, condition) in conditions.iter().enumerate() {
        let spot = spot_of(tests, place as u32);
        if !cond_at(alloc, model, spot, condition, args, s)? {
            return Ok(false);
        }
    }
    Ok(true)
}
