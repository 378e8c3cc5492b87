//! Expressions at the spots of a model, and lists of conditions.

ghost use Rattle.std.specs.Prelude.{◌≡◌, ◌≤◌, length, IsTrue};
ghost use Rattle.dp_model.specs.Evaluation.{num_value};
ghost use Rattle.state_layout.specs.Packing.{state_in};
ghost use Rattle.eval_room.specs.Fits.{num_fits, cond_fits};
ghost use Rattle.eval_room.specs.Needs.{AllServe};
ghost use Rattle.spot_eval.specs.Answers.{at_spot};
ghost use Rattle.spot_eval.specs.Looks.{all_at, spot_of};

use dp_model::{Cond, Num, Seq, Spot};
use packed_eval::{holds, number};
use packed_words::Scene;
use spot_eval::{SpotFault, Tests};

/// The spot of the test at this place.
fn spot_of(tests: Tests, place: u32) -> Spot
    ensures { result ≡ spot_of tests place }
{
    match tests {
        Tests::Constraints => Spot::Constraint(place),
        Tests::BaseConditions(case) => Spot::BaseCondition(case, place),
        Tests::Preconditions(number) => Spot::Precondition(number, place),
    }
}

/// The value of a number expression.
#[inline(always)]
pub(crate) fn num_at(
    at: &Scene<'_>,
    spot: Spot,
    e: &Num,
    stack: &mut [u64],
) -> Result<i64, SpotFault>
    requires { IsTrue (num_fits at.now.model.now e.now (length at.now.args.now) (length stack.old)) }
    ensures { result ≡ at_spot spot (num_value at.now.model.now (state_in at.now.words.now) e.now at.now.args.now) }
{
    match number(at, e, stack) {
        Ok(value) => Ok(value),
        Err(kind) => Err(SpotFault { spot, kind }),
    }
}

/// Whether conditions hold, in order up to the first that does not.
#[inline(always)]
pub(crate) fn all_at(
    at: &Scene<'_>,
    tests: Tests,
    conditions: &Seq<Cond>,
    stack: &mut [u64],
) -> Result<bool, SpotFault>
    requires few { length conditions.now ≤ 65536 }
    requires fits { AllServe (λ c. cond_fits at.now.model.now c (length at.now.args.now)) conditions.now (length stack.old) }
    ensures { result ≡ all_at at.now.model.now (state_in at.now.words.now) tests at.now.args.now 0 conditions.now }
{
    for (place, condition) in conditions.list().iter().enumerate() {
        match holds(at, condition, stack) {
            Ok(true) => {}
            Ok(false) => return Ok(false),
            Err(kind) => {
                return Err(SpotFault {
                    spot: spot_of(tests, place as u32),
                    kind,
                });
            }
        }
    }
    Ok(true)
}
