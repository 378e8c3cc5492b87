//! The way to a step, read off the logs of all shards.

ghost use Rattle.std.specs.Prelude.{◌≡◌, List, ℕ, length, reverse, IsSome, IfOk};
ghost use Rattle.path_log.specs.Paths.{entry_at, LeadsBack};

use crate::logs::{Entry, PathLog, StepId};
use std::alloc::{AllocError, Global};

/// The transitions from the target to a step, in order: what was pushed with each step of the chain of parents that ends
/// there. The target's own entry gives none. The log at each place is that of the shard of this number.
///
/// It takes memory once, for a list of this length.
pub fn walk(alloc: Global, logs: &Vec<PathLog>, id: StepId) -> Result<Vec<u32>, AllocError>
    requires { (back : List ℕ) × LeadsBack logs.now.items id back }
    ensures { (back : List ℕ) → LeadsBack logs.now.items id back → IfOk result (λ steps. steps.items ≡ reverse back) }
{
    let count = depth(logs, id)?;
    let mut steps = vec![in alloc; 0; count]?;
    fill(logs, id, &mut steps);
    Ok(steps)
}

// How many transitions lead to a step. No list holds 2^64 - 1 of them.
fn depth(logs: &Vec<PathLog>, id: StepId) -> Result<usize, AllocError>
    requires { (back : List ℕ) × LeadsBack logs.now.items id back }
    ensures { (back : List ℕ) → LeadsBack logs.now.items id back → IfOk result (λ count. count ≡ length back) }
{
    let mut at = id;
    for count in 0..usize::MAX {
        let Some(parent) = step(logs, at).parent else {
            return Ok(count);
        };
        at = parent;
    }
    Err(AllocError)
}

// Writes the transitions that lead to a step, the last one first.
fn fill(logs: &Vec<PathLog>, id: StepId, steps: &mut [u32])
    requires { (back : List ℕ) × LeadsBack logs.now.items id back × (length back ≡ length steps.old) }
    ensures { (back : List ℕ) → LeadsBack logs.now.items id back → steps.new ≡ reverse back }
{
    let mut at = id;
    for place in (0..steps.len()).rev() {
        let found = step(logs, at);
        steps[place] = found.transition;
        if let Some(parent) = found.parent {
            at = parent;
        }
    }
}

// the step of this name
fn step(logs: &Vec<PathLog>, id: StepId) -> Entry
    requires { IsSome (entry_at logs.now.items id) }
    ensures { entry_at logs.now.items id ≡ Some result }
{
    logs[id.shard as usize].entry(id.place)
}
