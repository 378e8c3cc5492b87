//! Dual bounds that are proved.

ghost use Rattle.std.specs.Prelude.{◌≡◌, ℕ, true, Some, length, slice_get, IfOk, IsTrue};
ghost use Rattle.dp_model.specs.declared.trees.Num.{Num};
ghost use Rattle.part_laws.specs.Laws.{IsProvedBound};
ghost use Rattle.honest_bounds.specs.Steps.{AreInvariant};

use crate::asking::{Asked, is_shown_of_all};
use dp_model::Model;
use honest_states::{Mode, is_in_some};
use honest_steps::forced_steps;
use std::alloc::{AllocError, Global};

/// How many pairs of a mode and a ground transition are looked at, over all bounds. A model with more has no bound proved.
const MOST_PAIRS: usize = 400_000;

/// Whether the pairs of a mode and a ground transition are few enough to be looked at once for each bound and once more.
fn are_few(model: &Model, modes: &[Mode]) -> bool {
    match modes.len().checked_mul(model.ground().list().len()) {
        Some(pairs) => match pairs.checked_mul(model.bounds().list().len()) {
            Some(all) => pairs <= MOST_PAIRS && all <= MOST_PAIRS - pairs,
            None => false,
        },
        None => false,
    }
}

/// Whether the target is in one of the modes, and each step to an inner state keeps them.
fn are_invariant(
    alloc: Global,
    model: &Model,
    forced: &[u32],
    modes: &[Mode],
) -> Result<bool, AllocError>
    ensures { IfOk result (λ shown. IsTrue shown → AreInvariant model.now modes.now) }
{
    if are_few(model, modes) && is_in_some(modes, model.target()) {
        is_shown_of_all(alloc, model, forced, modes, Asked::Stays)
    } else {
        Ok(false)
    }
}

/// Whether a dual bound is proved, by modes that steps keep or do not.
fn is_proved(
    alloc: Global,
    model: &Model,
    forced: &[u32],
    modes: &[Mode],
    invariant: bool,
    place: usize,
) -> Result<bool, AllocError>
    ensures { IfOk result (λ shown. IsTrue shown → (IsTrue invariant → AreInvariant model.now modes.now) → (e : Num) → slice_get model.now.bounds place ≡ Some e → IsProvedBound model.now e) }
{
    if !invariant {
        return Ok(false);
    }
    match u32::try_from(place) {
        Ok(number) => is_shown_of_all(alloc, model, forced, modes, Asked::Bound(number)),
        Err(_) => Ok(false),
    }
}

/// Which dual bounds are proved by these modes, for each whether it is. Where the target is in none of the modes, or the rules
/// do not show that steps keep them, none is.
pub fn proved_bounds(alloc: Global, model: &Model, modes: &[Mode]) -> Result<Vec<bool>, AllocError>
    ensures each { IfOk result (λ proved. length proved.items ≡ length model.now.bounds) }
    ensures proved { IfOk result (λ proved. (i : ℕ) (e : Num) → slice_get proved.items i ≡ Some true → slice_get model.now.bounds i ≡ Some e → IsProvedBound model.now e) }
{
    let forced = forced_steps(alloc, model)?;
    let invariant = are_invariant(alloc, model, &forced, modes)?;
    let mut proved = Vec::new(alloc);
    for place in 0..model.bounds().list().len() {
        proved.push(is_proved(alloc, model, &forced, modes, invariant, place)?)?;
    }
    Ok(proved)
}
