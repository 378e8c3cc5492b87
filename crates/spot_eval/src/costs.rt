//! The cost so far of a successor.

ghost use Rattle.std.specs.Prelude.{◌≡◌, Some, IfOk, IfSome};
ghost use Rattle.dp_model.specs.Costs.{InRange, join_onto, ranged};
ghost use Rattle.dp_model.specs.StepTexts.{ground_of};
ghost use Rattle.dp_steps.specs.States.{weight_of};
ghost use Rattle.cost_laws.specs.Orders.{IsLawOf};
ghost use Rattle.spot_eval.specs.Answers.{Answers, at_spot};
ghost use Rattle.spot_eval.specs.Moves.{cost_at};
ghost use Rattle.spot_eval.specs.Ranges.{IsStateIn};

use crate::ends::{SpotEnd, SpotFault};
use crate::tests::num_at;
use cost_laws::CostLaw;
use dp_model::{FaultKind, Model, PlainState, Seq, Spot, Transition};
use std::alloc::Global;

/// Every number of a model lies between the negative of this one and it.
const GREATEST: i64 = 4_611_686_018_427_387_903;

/// A cost so far joined with a number, tested for its range.
fn ranged_join<L: CostLaw>(cost: Option<i64>, n: i64) -> Result<i64, FaultKind>
    requires cost { IfSome cost InRange }
    requires number { InRange n }
    ensures value { result ≡ ranged (join_onto L.operator cost n) }
    ensures in_range { IfOk result InRange }
{
    match L::join(cost, Some(n)) {
        Some(total) if -GREATEST <= total && total <= GREATEST => Ok(total),
        _ => Err(FaultKind::Range),
    }
}

/// A cost so far joined with a weight or a base cost. Where it is out of range, the fault is met at this spot.
pub fn joined_at<L: CostLaw>(spot: Spot, cost: Option<i64>, n: i64) -> Result<i64, SpotFault>
    requires cost { IfSome cost InRange }
    requires number { InRange n }
    ensures value { result ≡ at_spot spot (ranged (join_onto L.operator cost n)) }
    ensures in_range { IfOk result InRange }
{
    match ranged_join::<L>(cost, n) {
        Ok(total) => Ok(total),
        Err(kind) => Err(SpotFault { spot, kind }),
    }
}

/// The weight of a transition, if it has one. In a state of the model it is in range.
fn weight_at(
    alloc: Global,
    model: &Model,
    number: u32,
    transition: &Transition,
    args: &Seq<u32>,
    s: &PlainState,
) -> Result<Option<i64>, SpotEnd>
    requires step { ground_of model.now number ≡ Some (transition.now, args.now) }
    requires state { IsStateIn model.now s.now }
    ensures weight { Answers result (at_spot (Spot.Weight number) (weight_of model.now s.now (transition.now, args.now))) }
    ensures in_range { IfOk result (λ weight. IfSome weight InRange) }
{
    match transition.weight() {
        Some(e) => Ok(Some(num_at(alloc, model, Spot::Weight(number), e, args, s)?)),
        None => Ok(None),
    }
}

/// The cost so far of the successor that a ground transition leads to: the cost so far joined with its weight, if it has
/// one, and tested for its range.
pub fn cost_at<L: CostLaw>(
    alloc: Global,
    model: &Model,
    number: u32,
    transition: &Transition,
    args: &Seq<u32>,
    s: &PlainState,
    cost: Option<i64>,
) -> Result<Option<i64>, SpotEnd>
    requires law { IsLawOf model.now L.minimize L.operator }
    requires step { ground_of model.now number ≡ Some (transition.now, args.now) }
    requires state { IsStateIn model.now s.now }
    requires cost { IfSome cost InRange }
    ensures cost { Answers result (cost_at model.now s.now cost number (transition.now, args.now)) }
    ensures in_range { IfOk result (λ next. IfSome next InRange) }
{
    match weight_at(alloc, model, number, transition, args, s)? {
        Some(weight) => Ok(Some(joined_at::<L>(Spot::Cost(number), cost, weight)?)),
        None => Ok(cost),
    }
}
