//! The ground transitions of transitions.

ghost use Rattle.std.specs.Prelude.{◌≡◌, ◌≤◌, ◌<◌, ◌++◌, ℕ, length, map, IfOk, IfErr, OnOk};
ghost use Rattle.dp_base.specs.Results.{MemoryOr};
ghost use Rattle.dypdl_ground.specs.Grounds.{most_ground, argument_lists, ground_with, grounded, all_grounded, IsFirstPast};
ghost use Rattle.dypdl_ground.specs.Ends.{is_memory};
ghost use Rattle.dypdl_ground.specs.Counts.{product};
ghost use Rattle.dypdl_ground.specs.declared.ends.GroundEnd.TheVariants.{TooMany};

use crate::counts::{choice_counts, has_room};
use crate::ends::GroundEnd;
use crate::ways::ways;
use dp_model::{Ground, ObjectType, Seq, Transition, Variable};
use std::alloc::{AllocError, Global};

/// Pushes a ground transition for each argument list.
fn push_all(
    transition: u32,
    lists: Vec<Seq<u32>>,
    grounds: &mut Vec<Ground>,
) -> Result<(), AllocError>
    ensures { OnOk result (grounds.new.items ≡ grounds.old.items ++ map (ground_with transition) lists.items) }
{
    for args in lists {
        grounds.push(Ground { transition, args })?;
    }
    Ok(())
}

/// Pushes the ground transitions of a transition, where there are not too many with those that are there.
fn push_grounded(
    alloc: Global,
    objects: &Seq<ObjectType>,
    variables: &Seq<Variable>,
    transition: u32,
    t: &Transition,
    grounds: &mut Vec<Ground>,
) -> Result<(), GroundEnd>
    requires few { length grounds.old.items ≤ most_ground }
    ensures pushed { OnOk result (grounds.new.items ≡ grounds.old.items ++ grounded objects.now variables.now transition t.now) }
    ensures few { OnOk result (length grounds.new.items ≤ most_ground) }
    ensures too_many { IfErr result (MemoryOr is_memory (λ e. (e ≡ TooMany transition)
        × (most_ground < length (grounds.old.items ++ grounded objects.now variables.now transition t.now)))) }
{
    let counts = choice_counts(alloc, objects, variables, &t.params)?;
    if !has_room(grounds.len(), &counts) {
        return Err(GroundEnd::TooMany(transition));
    }
    push_all(transition, ways(alloc, &counts)?, grounds)?;
    Ok(())
}

/// The ground transitions of one transition, which has this number: all argument lists in ascending order, the first
/// parameter slowest. A parameter over a set variable ranges over that variable's object type.
///
/// # Errors
/// `TooMany` where there are more than 65,536; nothing is built then.
pub fn ground(
    alloc: Global,
    objects: &Seq<ObjectType>,
    variables: &Seq<Variable>,
    transition: u32,
    t: &Transition,
) -> Result<Seq<Ground>, GroundEnd>
    ensures all { IfOk result (λ all. all ≡ grounded objects.now variables.now transition t.now) }
    ensures few { IfOk result (λ all. length all ≤ most_ground) }
    ensures too_many { IfErr result (MemoryOr is_memory (λ e. (e ≡ TooMany transition)
        × (most_ground < length (grounded objects.now variables.now transition t.now)))) }
{
    let mut all = Vec::new(alloc);
    push_grounded(alloc, objects, variables, transition, t, &mut all)?;
    Ok(Seq::of(all))
}

/// The ground transitions of all transitions, in order of definition.
///
/// # Errors
/// `TooMany` with the number of the first transition with which there are more than 65,536.
pub fn ground_all(
    alloc: Global,
    objects: &Seq<ObjectType>,
    variables: &Seq<Variable>,
    ts: &Seq<Transition>,
) -> Result<Seq<Ground>, GroundEnd>
    requires { length ts.now ≤ 65536 }
    ensures all { IfOk result (λ all. all ≡ all_grounded objects.now variables.now ts.now) }
    ensures few { IfOk result (λ all. length all ≤ most_ground) }
    ensures too_many { IfErr result (MemoryOr is_memory (λ e. (i : ℕ) × (e ≡ TooMany i) × IsFirstPast objects.now variables.now ts.now i)) }
{
    let mut all = Vec::new(alloc);
    let transitions = ts.list();
    for i in 0..transitions.len() {
        push_grounded(
            alloc,
            objects,
            variables,
            i as u32,
            &transitions[i],
            &mut all,
        )?;
    }
    Ok(Seq::of(all))
}
