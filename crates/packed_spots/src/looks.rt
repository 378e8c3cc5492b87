//! What a state turns out to be.

ghost use Rattle.std.specs.Prelude.{◌≡◌, ◌≤◌, [], length, IsTrue, IfOk, IfSome};
ghost use Rattle.dp_model.specs.Costs.{InRange};
ghost use Rattle.cost_laws.specs.Orders.{InWideRange, IsLawOf};
ghost use Rattle.state_layout.specs.Packing.{state_in};
ghost use Rattle.eval_room.specs.Fits.{num_fits};
ghost use Rattle.eval_room.specs.Needs.{ServesModel, ServesBaseCase};
ghost use Rattle.spot_eval.specs.Looks.{allowed_at, base_at, best_case, case_at, floor_at, looked_at, tightest_at, with_better};
ghost use Rattle.spot_eval.specs.Ranges.{IsStateIn, LookFits};

use crate::tests::{all_at, num_at};
use cost_laws::CostLaw;
use dp_model::{BaseCase, Spot};
use packed_words::Scene;
use spot_eval::{Look, SpotFault, Tests};

/// Whether the state is allowed: the constraints are tested in order up to the first that does not hold.
#[tactic(auto, using(spot_eval::proofs::Limits::few_constraints, crate::proofs::Rooms::constraints_room))]
#[inline(always)]
pub fn allowed(at: &Scene<'_>, stack: &mut [u64]) -> Result<bool, SpotFault>
    requires none { at.now.args.now ≡ [] }
    requires room { ServesModel at.now.model.now (length stack.old) }
    ensures { result ≡ allowed_at at.now.model.now (state_in at.now.words.now) }
{
    all_at(at, Tests::Constraints, &at.model.constraints, stack)
}

/// The better of two numbers, of which each may be missing.
#[inline(always)]
fn with_better(minimize: bool, best: Option<i64>, other: Option<i64>) -> Option<i64>
    ensures { result ≡ with_better minimize best other }
{
    match (best, other) {
        (Some(b), Some(c)) => Some(if minimize { b.min(c) } else { b.max(c) }),
        (Some(b), None) => Some(b),
        (None, c) => c,
    }
}

/// The cost of a base case, where all its conditions hold.
#[tactic(auto, using(crate::proofs::Rooms::base_cost_room))]
#[inline(always)]
fn case_at(
    at: &Scene<'_>,
    number: u32,
    case: &BaseCase,
    stack: &mut [u64],
) -> Result<Option<i64>, SpotFault>
    requires none { at.now.args.now ≡ [] }
    requires few { length case.now.conditions ≤ 65536 }
    requires room { ServesBaseCase at.now.model.now case.now (length stack.old) }
    ensures { result ≡ case_at at.now.model.now (state_in at.now.words.now) number case.now }
{
    let tests = Tests::BaseConditions(number);
    if !all_at(at, tests, &case.conditions, stack)? {
        return Ok(None);
    }
    let cost = num_at(at, Spot::BaseCost(number), &case.cost, stack)?;
    Ok(Some(cost))
}

/// The best cost of the satisfied base cases, if any is. All base cases are evaluated, in order. In a state of the model
/// the cost is in range.
#[tactic(auto, using(spot_eval::proofs::Limits::few_cases, spot_eval::proofs::Limits::few_conditions_at, spot_eval::proofs::Ranges::best_fits))]
#[inline(always)]
fn best_case(at: &Scene<'_>, stack: &mut [u64]) -> Result<Option<i64>, SpotFault>
    requires none { at.now.args.now ≡ [] }
    requires room { ServesModel at.now.model.now (length stack.old) }
    ensures cost { result ≡ best_case at.now.model.now (state_in at.now.words.now) 0 None at.now.model.now.base_cases }
    ensures in_range { IsStateIn at.now.model.now (state_in at.now.words.now) → IfOk result (λ cost. IfSome cost InRange) }
{
    let model = at.model;
    let mut best = None;
    for (number, case) in model.base_cases.list().iter().enumerate() {
        let cost = case_at(at, number as u32, case, stack)?;
        best = with_better(model.minimize(), best, cost);
    }
    Ok(best)
}

/// The base cost of a state that is allowed and base. `None` where the state is neither and meets no fault.
pub fn base_cost(at: &Scene<'_>, stack: &mut [u64]) -> Result<Option<i64>, SpotFault>
    requires none { at.now.args.now ≡ [] }
    requires room { ServesModel at.now.model.now (length stack.old) }
    ensures cost { result ≡ base_at at.now.model.now (state_in at.now.words.now) }
    ensures in_range { IsStateIn at.now.model.now (state_in at.now.words.now) → IfOk result (λ cost. IfSome cost InRange) }
{
    if !allowed(at, stack)? {
        return Ok(None);
    }
    best_case(at, stack)
}

/// The tightest dual bound: the greatest where the lesser cost is better, and else the least.
#[tactic(auto, using(crate::proofs::Rooms::bound_room, spot_eval::proofs::Limits::few_bounds, spot_eval::proofs::Ranges::tightest_fits))]
#[inline(always)]
fn tightest(at: &Scene<'_>, stack: &mut [u64]) -> Result<Option<i64>, SpotFault>
    requires none { at.now.args.now ≡ [] }
    requires room { ServesModel at.now.model.now (length stack.old) }
    ensures bound { result ≡ tightest_at at.now.model.now (state_in at.now.words.now) 0 None at.now.model.now.bounds }
    ensures in_range { IsStateIn at.now.model.now (state_in at.now.words.now) → IfOk result (λ bound. IfSome bound InRange) }
{
    let model = at.model;
    let mut best = None;
    for (place, bound) in model.bounds.list().iter().enumerate() {
        let value = num_at(at, Spot::Bound(place as u32), bound, stack)?;
        best = with_better(!model.minimize(), best, Some(value));
    }
    Ok(best)
}

/// The floor of an inner state with this cost so far: their join, which is not tested for its range. Dual bounds are
/// evaluated with pruning on alone.
#[inline(always)]
pub fn floor<L: CostLaw>(
    at: &Scene<'_>,
    prune: bool,
    cost: Option<i64>,
    stack: &mut [u64],
) -> Result<Option<i64>, SpotFault>
    requires law { IsLawOf at.now.model.now L.minimize L.operator }
    requires state { IsStateIn at.now.model.now (state_in at.now.words.now) }
    requires cost { IfSome cost InRange }
    requires none { at.now.args.now ≡ [] }
    requires room { ServesModel at.now.model.now (length stack.old) }
    ensures floor { result ≡ floor_at at.now.model.now prune (state_in at.now.words.now) cost }
    ensures wide { IfOk result (λ floor. IfSome floor InWideRange) }
{
    if !prune {
        return Ok(None);
    }
    match tightest(at, stack)? {
        Some(bound) => Ok(L::join(cost, Some(bound))),
        None => Ok(None),
    }
}

/// What the state turns out to be, with the cost so far of the path that leads to it: its constraints, its base cases and,
/// where it is neither forbidden nor base, with pruning on, its dual bounds are evaluated in this order.
#[inline(always)]
pub fn look_at<L: CostLaw>(
    at: &Scene<'_>,
    prune: bool,
    cost: Option<i64>,
    stack: &mut [u64],
) -> Result<Look, SpotFault>
    requires law { IsLawOf at.now.model.now L.minimize L.operator }
    requires state { IsStateIn at.now.model.now (state_in at.now.words.now) }
    requires cost { IfSome cost InRange }
    requires none { at.now.args.now ≡ [] }
    requires room { ServesModel at.now.model.now (length stack.old) }
    ensures look { result ≡ looked_at at.now.model.now prune (state_in at.now.words.now) cost }
    ensures fits { IfOk result LookFits }
{
    if !allowed(at, stack)? {
        return Ok(Look::NotAllowed);
    }
    match best_case(at, stack)? {
        Some(base) => Ok(Look::Base(base)),
        None => {
            let floor = floor::<L>(at, prune, cost, stack)?;
            Ok(Look::Open(floor))
        }
    }
}
