//! Each way to choose a value for each parameter.

ghost use Rattle.std.specs.Prelude.{◌≡◌, ◌∷◌, ◌++◌, map, IfOk, OnOk};
ghost use Rattle.std.specs.List.{flat_map};
ghost use Rattle.dp_model.specs.Evaluation.{ways};
ghost use Rattle.dypdl_ground.specs.Grounds.{members_below};

use dp_model::Seq;
use std::alloc::{AllocError, Global};

fn prefixed(alloc: Global, member: u32, members: &Seq<u32>) -> Result<Seq<u32>, AllocError>
    ensures { IfOk result (λ way. way ≡ member ∷ members.now) }
{
    let mut way = Vec::with_capacity(alloc, members.list().len().saturating_add(1))?;
    way.push(member)?;
    way.extend_from_slice(members.list())?;
    Ok(Seq::of(way))
}

/// Pushes each of the ways with a member before it.
fn push_prefixed(
    alloc: Global,
    member: u32,
    rest: &[Seq<u32>],
    ways: &mut Vec<Seq<u32>>,
) -> Result<(), AllocError>
    ensures { OnOk result
        (ways.new.items ≡ ways.old.items ++ map (λ members. member ∷ members) rest.now) }
{
    for members in rest {
        ways.push(prefixed(alloc, member, members)?)?;
    }
    Ok(())
}

/// Pushes each of the ways with each member below the count before it.
fn push_ways(
    alloc: Global,
    count: u32,
    rest: &[Seq<u32>],
    ways: &mut Vec<Seq<u32>>,
) -> Result<(), AllocError>
    ensures { OnOk result (ways.new.items ≡ ways.old.items
        ++ flat_map (λ k. map (λ members. k ∷ members) rest.now) (members_below count)) }
{
    for member in 0..count {
        push_prefixed(alloc, member, rest, ways)?;
    }
    Ok(())
}

/// Each way to choose a member below each count, in ascending order, the first slowest.
pub fn ways(alloc: Global, counts: &[u32]) -> Result<Vec<Seq<u32>>, AllocError>
    ensures { IfOk result (λ all. all.items ≡ ways (map members_below counts.now)) }
{
    let mut all = Vec::new(alloc);
    let [count, counts @ ..] = counts else {
        all.push(Seq::of(Vec::new(alloc)))?;
        return Ok(all);
    };
    let rest = ways(alloc, counts)?;
    push_ways(alloc, *count, &rest, &mut all)?;
    Ok(all)
}
