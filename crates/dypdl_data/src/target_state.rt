//! The target state.

ghost use Rattle.std.specs.Prelude.{◌≡◌, ◌<◌, IfOk, length, replicate, slice_get, option_map, None, []};
ghost use Rattle.dp_base.specs.Results.{Answers, AnswersBy, each};
ghost use Rattle.dypdl_nodes.specs.Reads.{told};
ghost use Rattle.dypdl_data.specs.Target.{value_of, value_at, target_step, held_step, target_of};

use crate::heads::type_count;
use crate::members::members_of;
use crate::state_variables::StateVariables;
use dp_base::{Place, Seq};
use dp_model::{ObjectType, PlainState, PlainValue, VarKind};
use dypdl_nodes::rules::BAD_TARGET;
use dypdl_nodes::{LoadEnd, entries_of, number_between, number_of, refused};
use std::alloc::{AllocError, Global};
use yaml_tree::{Pair, Tree};

/// The greatest value of an element variable.
const MOST_ELEMENT: i64 = 4_294_967_295;

/// A value that a variable of this kind may hold.
fn value_of(
    alloc: Global,
    objects: &Seq<ObjectType>,
    kind: VarKind,
    tree: &Tree,
) -> Result<PlainValue, LoadEnd>
    ensures { Answers told result (value_of objects.now kind tree.now) }
{
    match kind {
        VarKind::Integer => Ok(PlainValue::Number(number_of(tree)?)),
        VarKind::Element(_) => Ok(PlainValue::Number(number_between(0, MOST_ELEMENT, tree)?)),
        VarKind::Set(object) => {
            let count = type_count(objects, object);
            Ok(PlainValue::Members(members_of(alloc, count, tree)?))
        }
    }
}

fn take_value(
    alloc: Global,
    objects: &Seq<ObjectType>,
    variables: &StateVariables<'_>,
    held: &mut Vec<Option<PlainValue>>,
    pair: &Pair,
) -> Result<(), LoadEnd>
    requires { length held.old.items ≡ length variables.now.list }
    ensures value { AnswersBy told (λ _. held.new.items) result (target_step objects.now variables.now.list held.old.items pair.now) }
    ensures len { length held.new.items ≡ length held.old.items }
{
    let number = variables.names.known_key(BAD_TARGET, &pair.key)?;
    if let Some(variable) = variables.list.list().get(number) {
        held[number] = Some(value_of(alloc, objects, variable.kind, &pair.value)?);
    }
    Ok(())
}

fn none_held(alloc: Global, count: usize) -> Result<Vec<Option<PlainValue>>, AllocError>
    ensures { IfOk result (λ held. held.items ≡ replicate count None) }
{
    let mut held = Vec::with_capacity(alloc, count)?;
    for _ in 0..count {
        held.push(None)?;
    }
    Ok(held)
}

fn take_held(
    at: Place,
    values: &mut Vec<PlainValue>,
    held: Option<PlainValue>,
) -> Result<(), LoadEnd>
    ensures { AnswersBy told (λ _. values.new.items) result (held_step at values.old.items held) }
{
    match held {
        Some(value) => Ok(values.push(value)?),
        None => Err(refused(BAD_TARGET, at)),
    }
}

/// All of these values. `BAD_TARGET` where one is missing.
fn all_held(
    alloc: Global,
    at: Place,
    held: Vec<Option<PlainValue>>,
) -> Result<Vec<PlainValue>, LoadEnd>
    ensures { AnswersBy told (λ values. values.items) result (each (held_step at) [] held.items) }
{
    let mut values = Vec::with_capacity(alloc, held.len())?;
    for value in held {
        take_held(at, &mut values, value)?;
    }
    Ok(values)
}

/// The target, which gives each variable a value. `BAD_TARGET` at a key that is no variable's name, and at the place of the
/// target where a variable has no value.
pub fn target(
    alloc: Global,
    objects: &Seq<ObjectType>,
    variables: &StateVariables<'_>,
    tree: &Tree,
) -> Result<PlainState, LoadEnd>
    ensures { Answers told result (target_of objects.now variables.now.list tree.now) }
{
    let entries = entries_of(tree)?;
    let mut held = none_held(alloc, variables.list.list().len())?;
    for pair in entries {
        take_value(alloc, objects, variables, &mut held, pair)?;
    }
    let values = all_held(alloc, tree.place(), held)?;
    Ok(PlainState {
        values: Seq::of(values),
    })
}
