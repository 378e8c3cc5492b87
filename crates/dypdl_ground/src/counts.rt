//! How many values parameters have.

ghost use Rattle.std.specs.Prelude.{◌≡◌, ◌+◌, ◌≤◌, ◌<◌, map, IfOk, IsTrue, IsFalse};
ghost use Rattle.dypdl_ground.specs.Grounds.{most_ground, choice_count};
ghost use Rattle.dypdl_ground.specs.Counts.{product, capped};
ghost use Rattle.dp_model.specs.Typing.{over_object};

use dp_model::{ObjectType, Over, Seq, VarKind, Variable};
use std::alloc::{AllocError, Global};

/// How many ground transitions a model may have.
pub const MOST_GROUND: u64 = 65_536;

/// The object type that a parameter ranges over, or that of the set variable whose members it ranges over.
fn over_object(variables: &Seq<Variable>, over: Over) -> u32
    ensures { result ≡ over_object variables.now over }
{
    match over {
        Over::Object(object) => object,
        Over::Members(v) => match variables.list().get(v as usize) {
            Some(variable) => match variable.kind {
                VarKind::Element(object) | VarKind::Set(object) => object,
                VarKind::Integer => 0,
            },
            None => 0,
        },
    }
}

/// How many values a parameter has.
fn choice_count(objects: &Seq<ObjectType>, variables: &Seq<Variable>, over: Over) -> u32
    ensures { result ≡ choice_count objects.now variables.now over }
{
    match objects.list().get(over_object(variables, over) as usize) {
        Some(object) => object.count,
        None => 0,
    }
}

/// How many values each parameter has.
pub fn choice_counts(
    alloc: Global,
    objects: &Seq<ObjectType>,
    variables: &Seq<Variable>,
    params: &Seq<Over>,
) -> Result<Vec<u32>, AllocError>
    ensures { IfOk result (λ counts. counts.items ≡ map (choice_count objects.now variables.now) params.now) }
{
    let mut counts = Vec::new(alloc);
    for over in params.list() {
        counts.push(choice_count(objects, variables, *over))?;
    }
    Ok(counts)
}

/// So many, or one more than a model may have.
fn capped(n: u64) -> u64
    ensures { result ≡ capped n }
{
    n.min(MOST_GROUND + 1)
}

/// How many ways there are to choose a value for each parameter, counted up to one more than a model may have.
fn way_count(counts: &[u32]) -> u64
    ensures { result ≡ capped (product counts.now) }
{
    let [count, counts @ ..] = counts else {
        return 1;
    };
    capped(u64::from(*count) * way_count(counts))
}

/// Whether a model that has so many ground transitions may have one more for each way to choose these values.
pub fn has_room(have: usize, counts: &[u32]) -> bool
    requires { have ≤ most_ground }
    ensures room { IsTrue result → have + product counts.now ≤ most_ground }
    ensures full { IsFalse result → most_ground < have + product counts.now }
{
    have as u64 + way_count(counts) <= MOST_GROUND
}
