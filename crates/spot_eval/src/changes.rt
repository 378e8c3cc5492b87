//! What changes in a state. Of its values only those are copied that stay.

ghost use Rattle.std.specs.Prelude.{◌≡◌, slice_set, IfOk};
ghost use Rattle.dp_steps.specs.States.{with_changes};
ghost use Rattle.spot_eval.specs.Changes.{is_changed, unchanged, unchanged_from};

use dp_model::{PlainState, PlainValue, Seq};
use std::alloc::{AllocError, Global};

fn copy_value(alloc: Global, value: &PlainValue) -> Result<PlainValue, AllocError>
    ensures { IfOk result (λ copy. copy ≡ value.now) }
{
    match value {
        PlainValue::Number(n) => Ok(PlainValue::Number(*n)),
        PlainValue::Members(set) => {
            let members = Vec::from_slice(alloc, set.list())?;
            Ok(PlainValue::Members(Seq::of(members)))
        }
    }
}

/// Whether one of the changes is of the variable at a place.
fn is_changed(changes: &[(u32, PlainValue)], place: usize) -> bool
    ensures { result ≡ is_changed changes.now place }
{
    for change in changes {
        if change.0 as usize == place {
            return true;
        }
    }
    false
}

/// A copy of a value, or 0 in its place where it is to be changed.
fn unchanged(alloc: Global, value: &PlainValue, changes: bool) -> Result<PlainValue, AllocError>
    ensures { IfOk result (λ copy. copy ≡ unchanged changes value.now) }
{
    if changes {
        Ok(PlainValue::Number(0))
    } else {
        copy_value(alloc, value)
    }
}

/// Copies of a state's values, but for those that are to be changed, which are not copied: 0 stands in their places.
fn unchanged_values(
    alloc: Global,
    s: &PlainState,
    changes: &[(u32, PlainValue)],
) -> Result<Vec<PlainValue>, AllocError>
    ensures { IfOk result (λ values. values.items ≡ unchanged_from changes.now 0 s.now.values) }
{
    let held = s.values().list();
    let mut values = Vec::with_capacity(alloc, held.len())?;
    for place in 0..held.len() {
        let changes = is_changed(changes, place);
        values.push(unchanged(alloc, &held[place], changes)?)?;
    }
    Ok(values)
}

/// Sets one variable, where it is there.
fn set_value(values: &mut Vec<PlainValue>, variable: u32, value: PlainValue)
    ensures { values.new.items ≡ slice_set values.old.items variable value }
{
    if let Some(held) = values.get_mut(variable as usize) {
        *held = value;
    }
}

/// Sets all these variables, which change together.
fn set_values(values: &mut Vec<PlainValue>, changes: Vec<(u32, PlainValue)>)
    ensures { values.new.items ≡ with_changes values.old.items changes.items }
{
    for (variable, value) in changes {
        set_value(values, variable, value);
    }
}

/// The values of a state after these changes, which take place together.
#[tactic(auto, using(crate::proofs::Overrides::changed_same))]
pub(crate) fn changed_values(
    alloc: Global,
    s: &PlainState,
    changes: Vec<(u32, PlainValue)>,
) -> Result<Vec<PlainValue>, AllocError>
    ensures { IfOk result (λ values. values.items ≡ with_changes s.now.values changes.items) }
{
    let mut values = unchanged_values(alloc, s, &changes)?;
    set_values(&mut values, changes);
    Ok(values)
}

/// The values of a state, once more.
pub fn copy_values(alloc: Global, s: &PlainState) -> Result<Vec<PlainValue>, AllocError>
    ensures { IfOk result (λ values. values.items ≡ s.now.values) }
{
    changed_values(alloc, s, Vec::new(alloc))
}
