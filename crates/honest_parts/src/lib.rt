//! What is proved of a model's dual bounds and preferences.
#![tactic(auto)]

ghost use Rattle.std.specs.Prelude.{◌≡◌, ◌≤◌, ℕ, true, false, Some, length, slice_get, IfOk};
ghost use Rattle.dp_model.specs.Typing.{is_without};
ghost use Rattle.dp_model.specs.declared.parts.Variable.{Variable};
ghost use Rattle.kept_model.specs.Honesty.{AreHonest};
ghost use Rattle.honest_parts.specs.First.{AreFirst, KeepsNumbers};

use dp_base::Seq;
use dp_model::Model;
use honest_bounds::proved_bounds;
use honest_preferences::proved_preferences;
use honest_search::modes_of;
use kept_model::Kept;
use std::alloc::{AllocError, Global};

/// The dual bounds in front that are proved: a bound is kept where it and each one before it are.
fn first_ones(alloc: Global, proved: &[bool]) -> Result<Vec<bool>, AllocError>
    ensures each { IfOk result (λ kept. length kept.items ≡ length proved.now) }
    ensures only { IfOk result (λ kept. (i : ℕ) → slice_get kept.items i ≡ Some true → (j : ℕ) → j ≤ i → slice_get proved.now j ≡ Some true) }
    ensures all { IfOk result (λ kept. (i : ℕ) → ((j : ℕ) → j ≤ i → slice_get proved.now j ≡ Some true) → slice_get kept.items i ≡ Some true) }
    ensures first { IfOk result (λ kept. AreFirst kept.items) }
{
    let mut kept = Vec::new(alloc);
    let mut so_far = true;
    for one in proved {
        so_far = so_far && *one;
        kept.push(so_far)?;
    }
    Ok(kept)
}

/// The dual bounds and preferences of a model that are proved to be honest: no bound is tighter than the best completion of any
/// state that the search may look at, and what is preferred is never worse. It is a function of the model alone.
///
/// What is not proved may be honest too. A bound behind one that is not proved is not kept, so the number of a kept bound is its
/// number in the model. Preferences are kept of integer variables alone.
pub fn proved_parts(alloc: Global, model: &Model) -> Result<Kept, AllocError>
    ensures honest { IfOk result (λ kept. AreHonest model.now kept) }
    ensures bounds { IfOk result (λ kept. length kept.bounds ≡ length model.now.bounds) }
    ensures numbers { IfOk result (λ kept. KeepsNumbers model.now kept) }
    ensures preferences { IfOk result (λ kept. length kept.preferences ≡ length model.now.variables) }
    ensures named { IfOk result (λ kept. (i : ℕ) (v : Variable) → slice_get kept.preferences i ≡ Some true → slice_get model.now.variables i ≡ Some v → is_without v.preference ≡ false) }
{
    let modes = modes_of(alloc, model)?;
    let proved = proved_bounds(alloc, model, &modes)?;
    let bounds = first_ones(alloc, &proved)?;
    let preferences = proved_preferences(alloc, model)?;
    Ok(Kept {
        bounds: Seq::of(bounds),
        preferences: Seq::of(preferences),
    })
}
