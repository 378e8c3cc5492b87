//! The cost so far of a successor.

ghost use Rattle.std.specs.Prelude.{◌≡◌, Some, length, IfOk, IfSome};
ghost use Rattle.dp_model.specs.Costs.{InRange};
ghost use Rattle.dp_model.specs.StepTexts.{ground_of};
ghost use Rattle.dp_steps.specs.States.{weight_of};
ghost use Rattle.cost_laws.specs.Orders.{IsLawOf};
ghost use Rattle.state_layout.specs.Packing.{state_in};
ghost use Rattle.eval_room.specs.Needs.{ServesModel};
ghost use Rattle.spot_eval.specs.Answers.{at_spot};
ghost use Rattle.spot_eval.specs.Moves.{cost_at};
ghost use Rattle.spot_eval.specs.Ranges.{IsStateIn};

use crate::tests::num_at;
use cost_laws::CostLaw;
use dp_model::{Spot, Transition};
use packed_words::Scene;
use spot_eval::{SpotFault, joined_at};

/// The weight of a transition, if it has one. In a state of the model it is in range.
#[tactic(auto, using(crate::proofs::Rooms::weight_room))]
#[inline(always)]
fn weight_at(
    at: &Scene<'_>,
    number: u32,
    transition: &Transition,
    stack: &mut [u64],
) -> Result<Option<i64>, SpotFault>
    requires step { ground_of at.now.model.now number ≡ Some (transition.now, at.now.args.now) }
    requires state { IsStateIn at.now.model.now (state_in at.now.words.now) }
    requires room { ServesModel at.now.model.now (length stack.old) }
    ensures weight { result ≡ at_spot (Spot.Weight number) (weight_of at.now.model.now (state_in at.now.words.now) (transition.now, at.now.args.now)) }
    ensures in_range { IfOk result (λ weight. IfSome weight InRange) }
{
    match transition.weight() {
        Some(e) => Ok(Some(num_at(at, Spot::Weight(number), e, stack)?)),
        None => Ok(None),
    }
}

/// The cost so far of the successor that a ground transition leads to: the cost so far joined with its weight, if it has
/// one, and tested for its range.
#[inline(always)]
pub fn cost_at<L: CostLaw>(
    at: &Scene<'_>,
    number: u32,
    transition: &Transition,
    cost: Option<i64>,
    stack: &mut [u64],
) -> Result<Option<i64>, SpotFault>
    requires law { IsLawOf at.now.model.now L.minimize L.operator }
    requires step { ground_of at.now.model.now number ≡ Some (transition.now, at.now.args.now) }
    requires state { IsStateIn at.now.model.now (state_in at.now.words.now) }
    requires cost { IfSome cost InRange }
    requires room { ServesModel at.now.model.now (length stack.old) }
    ensures cost { result ≡ cost_at at.now.model.now (state_in at.now.words.now) cost number (transition.now, at.now.args.now) }
    ensures in_range { IfOk result (λ next. IfSome next InRange) }
{
    match weight_at(at, number, transition, stack)? {
        Some(weight) => Ok(Some(joined_at::<L>(Spot::Cost(number), cost, weight)?)),
        None => Ok(cost),
    }
}
