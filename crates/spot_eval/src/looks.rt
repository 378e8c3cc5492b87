//! What a state turns out to be.

ghost use Rattle.std.specs.Prelude.{◌≡◌, ◌≤◌, length, IfOk, IfSome};
ghost use Rattle.dp_model.specs.Costs.{InRange};
ghost use Rattle.cost_laws.specs.Orders.{InWideRange, IsLawOf};
ghost use Rattle.spot_eval.specs.Answers.{Answers};
ghost use Rattle.spot_eval.specs.Looks.{allowed_at, base_at, best_case, case_at, floor_at, looked_at, tightest_at, with_better};
ghost use Rattle.spot_eval.specs.Ranges.{IsStateIn, LookFits};

use crate::ends::SpotEnd;
use crate::tests::{Tests, all_at, num_at};
use cost_laws::CostLaw;
use dp_model::{BaseCase, Model, PlainState, Seq, Spot};
use std::alloc::Global;

/// A state that was looked at: not allowed, base with its base cost, or open, with its floor if it has one.
#[derive(Clone, Copy, Debug, PartialEq, Eq)]
pub enum Look {
    NotAllowed,
    Base(i64),
    Open(Option<i64>),
}

/// Whether the state is allowed: the constraints are tested in order up to the first that does not hold.
#[tactic(auto, using(crate::proofs::Limits::few_constraints))]
pub fn allowed(alloc: Global, model: &Model, s: &PlainState) -> Result<bool, SpotEnd>
    ensures { Answers result (allowed_at model.now s.now) }
{
    let given = Seq::of(Vec::new(alloc));
    let constraints = model.constraints().list();
    all_at(alloc, model, Tests::Constraints, constraints, &given, s)
}

/// The better of two numbers, of which each may be missing.
fn with_better(minimize: bool, best: Option<i64>, other: Option<i64>) -> Option<i64>
    ensures { result ≡ with_better minimize best other }
{
    match (best, other) {
        (Some(b), Some(c)) => Some(if minimize { b.min(c) } else { b.max(c) }),
        (Some(b), None) => Some(b),
        (None, c) => c,
    }
}

/// The cost of a base case, where all its conditions hold.
fn case_at(
    alloc: Global,
    model: &Model,
    number: u32,
    case: &BaseCase,
    s: &PlainState,
) -> Result<Option<i64>, SpotEnd>
    requires { length case.now.conditions ≤ 65536 }
    ensures { Answers result (case_at model.now s.now number case.now) }
{
    let given = Seq::of(Vec::new(alloc));
    let conditions = case.conditions().list();
    let tests = Tests::BaseConditions(number);
    if !all_at(alloc, model, tests, conditions, &given, s)? {
        return Ok(None);
    }
    let cost = num_at(alloc, model, Spot::BaseCost(number), case.cost(), &given, s)?;
    Ok(Some(cost))
}

/// The best cost of the satisfied base cases, if any is. All base cases are evaluated, in order. In a state of the model
/// the cost is in range.
#[tactic(auto, using(crate::proofs::Limits::few_cases, crate::proofs::Limits::few_conditions_at, crate::proofs::Ranges::best_fits))]
pub fn best_case(alloc: Global, model: &Model, s: &PlainState) -> Result<Option<i64>, SpotEnd>
    ensures cost { Answers result (best_case model.now s.now 0 None model.now.base_cases) }
    ensures in_range { IsStateIn model.now s.now → IfOk result (λ cost. IfSome cost InRange) }
{
    let mut best = None;
    for (number, case) in model.base_cases().list().iter().enumerate() {
        let cost = case_at(alloc, model, number as u32, case, s)?;
        best = with_better(model.minimize(), best, cost);
    }
    Ok(best)
}

/// The base cost of a state that is allowed and base. `None` where the state is neither and meets no fault.
pub fn base_cost(alloc: Global, model: &Model, s: &PlainState) -> Result<Option<i64>, SpotEnd>
    ensures cost { Answers result (base_at model.now s.now) }
    ensures in_range { IsStateIn model.now s.now → IfOk result (λ cost. IfSome cost InRange) }
{
    if !allowed(alloc, model, s)? {
        return Ok(None);
    }
    best_case(alloc, model, s)
}

/// The tightest dual bound: the greatest where the lesser cost is better, and else the least.
#[tactic(auto, using(crate::proofs::Limits::few_bounds, crate::proofs::Ranges::tightest_fits))]
fn tightest(alloc: Global, model: &Model, s: &PlainState) -> Result<Option<i64>, SpotEnd>
    ensures bound { Answers result (tightest_at model.now s.now 0 None model.now.bounds) }
    ensures in_range { IsStateIn model.now s.now → IfOk result (λ bound. IfSome bound InRange) }
{
    let given = Seq::of(Vec::new(alloc));
    let mut best = None;
    for (place, bound) in model.bounds().list().iter().enumerate() {
        let value = num_at(alloc, model, Spot::Bound(place as u32), bound, &given, s)?;
        best = with_better(!model.minimize(), best, Some(value));
    }
    Ok(best)
}

/// The floor of an inner state with this cost so far: their join, which is not tested for its range. Dual bounds are
/// evaluated with pruning on alone.
pub fn floor<L: CostLaw>(
    alloc: Global,
    model: &Model,
    prune: bool,
    s: &PlainState,
    cost: Option<i64>,
) -> Result<Option<i64>, SpotEnd>
    requires law { IsLawOf model.now L.minimize L.operator }
    requires state { IsStateIn model.now s.now }
    requires cost { IfSome cost InRange }
    ensures floor { Answers result (floor_at model.now prune s.now cost) }
    ensures wide { IfOk result (λ floor. IfSome floor InWideRange) }
{
    if !prune {
        return Ok(None);
    }
    match tightest(alloc, model, s)? {
        Some(bound) => Ok(L::join(cost, Some(bound))),
        None => Ok(None),
    }
}

/// What the state turns out to be, with the cost so far of the path that leads to it: its constraints, its base cases and,
/// where it is neither forbidden nor base, with pruning on, its dual bounds are evaluated in this order.
pub fn look_at<L: CostLaw>(
    alloc: Global,
    model: &Model,
    prune: bool,
    s: &PlainState,
    cost: Option<i64>,
) -> Result<Look, SpotEnd>
    requires law { IsLawOf model.now L.minimize L.operator }
    requires state { IsStateIn model.now s.now }
    requires cost { IfSome cost InRange }
    ensures look { Answers result (looked_at model.now prune s.now cost) }
    ensures fits { IfOk result LookFits }
{
    if !allowed(alloc, model, s)? {
        return Ok(Look::NotAllowed);
    }
    match best_case(alloc, model, s)? {
        Some(base) => Ok(Look::Base(base)),
        None => {
            let floor = floor::<L>(alloc, model, prune, s, cost)?;
            Ok(Look::Open(floor))
        }
    }
}
