//! The search: from the target's mode, over the steps of each mode, until no mode grows.

use crate::effort::{Effort, StepWork, Work, cost_of, effort_of};
use crate::keys::{are_told, keys_of, same_elements, same_mode_as};
use crate::target::{open_in, size_of, target_mode};
use crate::widening::{stops_of, widened};
use dp_model::Model;
use honest_states::{Mode, Narrowed, joined, mode_of};
use honest_steps::{View, entered, forced_steps, inner, moved, same_mode};
use std::alloc::{AllocError, Global};

/// How many modes there may be.
const MODES: u64 = 4096;

/// How many pairs of a mode and a ground transition there may be, counted once for each bound and once more.
const PAIRS: u64 = 400_000;

/// How many numbers and members a mode may tell of.
const SIZE: u64 = 1_000_000;

/// How many numbers and members all modes may tell of.
const PARTS: u64 = 16_000_000;

/// How much work a search may be, in terms that are looked at.
const SEARCH: u64 = 250_000_000;

/// How much work a proof may be of what is found.
const PROOF: u64 = 500_000_000;

/// How much work one step may be, since its terms stand in memory together.
const STEP: u64 = 5_000_000;

/// How often a mode grows before its ends go on to a stop.
const JOINS: u32 = 12;

/// A mode that was found, how often others were joined to it, whether its steps are still to be looked at, and how much work a
/// proof of them is.
#[derive(Drop)]
struct Found {
    mode: Mode,
    joins: u32,
    waits: bool,
    proof: u64,
}

/// What stays the same in a search.
#[derive(Drop)]
struct Plan {
    keys: Vec<usize>,
    stops: Vec<i64>,
    forced: Vec<u32>,
    effort: Effort,
    modes: u64,
}

/// The modes that were found, and how much work is left.
#[derive(Drop)]
struct Search {
    found: Vec<Found>,
    left: u64,
}

/// How much work the steps of a mode were, and a proof of them is.
#[derive(Clone, Copy)]
struct Cost {
    search: u64,
    proof: u64,
}

/// How many modes there may be that tell of so many numbers and members.
fn most_modes(model: &Model, effort: &Effort, size: u64) -> u64 {
    if size > SIZE {
        return 0;
    }
    let steps = (model.ground().list().len() as u64).saturating_mul(effort.bounds);
    MODES.min(PARTS / size.max(1)).min(PAIRS / steps.max(1))
}

/// Adds the price of some work, and answers whether so much is left.
fn pays(cost: &mut Cost, left: u64, price: u64, proof: u64) -> bool {
    cost.search = cost.search.saturating_add(price);
    cost.proof = cost.proof.saturating_add(proof);
    price <= STEP && cost.search <= left
}

/// Pays for seeing which states of a mode a step may leave.
fn pays_entering(cost: &mut Cost, left: u64, effort: &Effort, work: Work, mode: &Mode) -> bool {
    let price = cost_of(work, size_of(mode), open_in(mode));
    pays(cost, left, price, price.saturating_mul(effort.bounds))
}

/// Pays for seeing where the states lead.
fn pays_moving(cost: &mut Cost, left: u64, effort: &Effort, work: Work, mode: &Mode) -> bool {
    let price = cost_of(work, size_of(mode), open_in(mode));
    let proof = price
        .saturating_mul(2)
        .saturating_mul(effort.bounds)
        .saturating_add(effort.comparing);
    pays(cost, left, price, proof)
}

/// The place of a mode that waits, from a place on.
fn next_from(found: &[Found], from: usize) -> Option<usize> {
    for (k, one) in found.iter().enumerate() {
        if from <= k && one.waits {
            return Some(k);
        }
    }
    None
}

/// The place of the next mode that waits, in a circle.
fn next_of(found: &[Found], from: usize) -> Option<usize> {
    match next_from(found, from) {
        Some(place) => Some(place),
        None => next_from(found, 0),
    }
}

/// The place of the mode with the same elements.
fn place_of(keys: &[usize], found: &[Found], mode: &Mode) -> Option<usize> {
    for (k, one) in found.iter().enumerate() {
        if same_elements(keys, &one.mode, mode) {
            return Some(k);
        }
    }
    None
}

/// Joins a mode to one that was found.
fn grow(alloc: Global, stops: &[i64], one: &mut Found, mode: &Mode) -> Result<(), AllocError> {
    one.joins = one.joins.saturating_add(1);
    let both = joined(alloc, &one.mode, mode)?;
    if same_mode_as(&both, &one.mode) {
        return Ok(());
    }
    let next = if one.joins > JOINS {
        widened(alloc, stops, &one.mode, &both)?
    } else {
        both
    };
    one.mode = next;
    one.waits = true;
    Ok(())
}

/// Adds a mode to those that were found.
fn add(alloc: Global, plan: &Plan, found: &mut Vec<Found>, mode: Mode) -> Result<bool, AllocError> {
    match place_of(&plan.keys, found, &mode) {
        Some(place) => {
            if let Some(one) = found.get_mut(place) {
                grow(alloc, &plan.stops, one, &mode)?;
            }
            Ok(true)
        }
        None => {
            if found.len() as u64 >= plan.modes {
                return Ok(false);
            }
            found.push(Found {
                mode,
                joins: 0,
                waits: true,
                proof: 0,
            })?;
            Ok(true)
        }
    }
}

/// Adds the mode where a ground transition leads those states of a mode that it may leave.
fn follow(
    alloc: Global,
    model: &Model,
    plan: &Plan,
    found: &mut Vec<Found>,
    inside: &Mode,
    ground: u32,
) -> Result<bool, AllocError> {
    let Narrowed::To(before) = inner(alloc, model, inside, View::After(ground))? else {
        return Ok(true);
    };
    let Some(step) = moved(alloc, model, &before, ground)? else {
        return Ok(false);
    };
    let after = mode_of(alloc, &step.table, &step.after)?;
    if !are_told(model, &after) {
        return Ok(false);
    }
    add(alloc, plan, found, after)
}

/// The work of a step of a ground transition.
fn work_at(model: &Model, effort: &Effort, ground: u32) -> Option<StepWork> {
    let step = model.ground().list().get(ground as usize)?;
    effort.steps.get(step.transition() as usize).copied()
}

/// Looks at the steps of a mode by one ground transition.
fn look(
    alloc: Global,
    model: &Model,
    plan: &Plan,
    search: &mut Search,
    cost: &mut Cost,
    mode: &Mode,
    ground: u32,
) -> Result<bool, AllocError> {
    let Some(work) = work_at(model, &plan.effort, ground) else {
        return Ok(false);
    };
    if !pays_entering(cost, search.left, &plan.effort, work.entering, mode) {
        return Ok(false);
    }
    let Narrowed::To(inside) = entered(alloc, model, &plan.forced, mode, ground)? else {
        return Ok(true);
    };
    if !pays_moving(cost, search.left, &plan.effort, work.moving, &inside) {
        return Ok(false);
    }
    follow(alloc, model, plan, &mut search.found, &inside, ground)
}

/// Looks at all steps of a mode.
fn look_around(
    alloc: Global,
    model: &Model,
    plan: &Plan,
    search: &mut Search,
    cost: &mut Cost,
    mode: &Mode,
) -> Result<bool, AllocError> {
    for place in 0..model.ground().list().len() {
        let Ok(ground) = u32::try_from(place) else {
            return Ok(false);
        };
        if !look(alloc, model, plan, search, cost, mode, ground)? {
            return Ok(false);
        }
    }
    Ok(true)
}

/// The mode at a place, which no longer waits.
fn taken(alloc: Global, found: &mut Vec<Found>, place: usize) -> Result<Option<Mode>, AllocError> {
    match found.get_mut(place) {
        Some(one) => {
            one.waits = false;
            Ok(Some(same_mode(alloc, &one.mode)?))
        }
        None => Ok(None),
    }
}

/// Notes how much work the steps of the mode at a place were.
fn note(search: &mut Search, place: usize, cost: Cost) {
    search.left = search.left.saturating_sub(cost.search);
    if let Some(one) = search.found.get_mut(place) {
        one.proof = cost.proof;
    }
}

/// Looks at the steps of all inner states of a mode.
fn look_inside(
    alloc: Global,
    model: &Model,
    plan: &Plan,
    search: &mut Search,
    cost: &mut Cost,
    mode: &Mode,
) -> Result<bool, AllocError> {
    if !pays_entering(cost, search.left, &plan.effort, plan.effort.around, mode) {
        return Ok(false);
    }
    match inner(alloc, model, mode, View::Here)? {
        Narrowed::To(open) => look_around(alloc, model, plan, search, cost, &open),
        Narrowed::Never => Ok(true),
    }
}

/// Looks at the steps of the mode at a place.
fn visit(
    alloc: Global,
    model: &Model,
    plan: &Plan,
    search: &mut Search,
    place: usize,
) -> Result<bool, AllocError> {
    let Some(mode) = taken(alloc, &mut search.found, place)? else {
        return Ok(false);
    };
    let mut cost = Cost {
        search: 1,
        proof: 1,
    };
    let done = look_inside(alloc, model, plan, search, &mut cost, &mode)?;
    note(search, place, cost);
    Ok(done)
}

/// Visits modes until none waits.
fn run(alloc: Global, model: &Model, plan: &Plan, search: &mut Search) -> Result<bool, AllocError> {
    let mut place = 0;
    for _ in 0..SEARCH {
        match next_of(&search.found, place) {
            Some(next) => {
                if !visit(alloc, model, plan, search, next)? {
                    return Ok(false);
                }
                place = next;
            }
            None => return Ok(true),
        }
    }
    Ok(false)
}

/// How much work a proof of all modes is.
fn proof_of(found: &[Found]) -> u64 {
    let mut proof: u64 = 0;
    for one in found {
        proof = proof.saturating_add(one.proof);
    }
    proof
}

/// The modes alone.
fn modes_in(alloc: Global, found: Vec<Found>) -> Result<Vec<Mode>, AllocError> {
    let mut modes = Vec::new(alloc);
    for one in found {
        modes.push(one.mode)?;
    }
    Ok(modes)
}

/// What stays the same in a search from a mode.
fn plan_of(alloc: Global, model: &Model, target: &Mode) -> Result<Plan, AllocError> {
    let forced = forced_steps(alloc, model)?;
    let effort = effort_of(alloc, model, &forced)?;
    let modes = most_modes(model, &effort, size_of(target));
    Ok(Plan {
        keys: keys_of(alloc, model)?,
        stops: stops_of(alloc, model)?,
        forced,
        effort,
        modes,
    })
}

/// A search that begins with a mode.
fn search_from(alloc: Global, mode: Mode) -> Result<Search, AllocError> {
    let mut found = Vec::new(alloc);
    found.push(Found {
        mode,
        joins: 0,
        waits: true,
        proof: 0,
    })?;
    Ok(Search {
        found,
        left: SEARCH,
    })
}

/// Modes that each state belongs to that the steps of a model lead to, if the search comes to an end within its limits;
/// else none.
pub fn modes_of(alloc: Global, model: &Model) -> Result<Vec<Mode>, AllocError> {
    let target = target_mode(alloc, model)?;
    let plan = plan_of(alloc, model, &target)?;
    let mut search = search_from(alloc, target)?;
    if plan.modes > 0
        && run(alloc, model, &plan, &mut search)?
        && proof_of(&search.found) <= PROOF
    {
        modes_in(alloc, search.found)
    } else {
        Ok(Vec::new(alloc))
    }
}
