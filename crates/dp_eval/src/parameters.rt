//! The values of the parameters in force, and those that a `forall` gives one more.

ghost use Rattle.std.specs.Prelude.{◌≡◌, ℕ, ◌∷◌, ◌++◌, [], slice_index, IfOk};
ghost use Rattle.std.specs.List.{range_with_len};
ghost use Rattle.dp_model.specs.Evaluation.{range_of};

use crate::members::Members;
use crate::tables::{count_of, set_lent};
use dp_model::{Model, Over, PlainState, Seq};
use std::alloc::{AllocError, Global};

/// The value of a parameter.
pub fn parameter(args: &Seq<u32>, p: u32) -> u32
    ensures { result ≡ slice_index args.now p }
{
    match args.list().get(p as usize) {
        Some(k) => *k,
        None => 0,
    }
}

/// The values of the parameters, with one more.
#[inline(never)]
pub fn with_more(alloc: Global, args: &Seq<u32>, member: u32) -> Result<Seq<u32>, AllocError>
    ensures { IfOk result (λ more. more ≡ args.now ++ member ∷ []) }
{
    let mut more = Vec::from_slice(alloc, args.list())?;
    more.push(member)?;
    Ok(Seq::of(more))
}

/// Writes a member over the last of these values, which is one more than the parameters have.
#[tactic(auto, using(crate::proofs::Overwrites::last_set, crate::proofs::Overwrites::last_there))]
pub fn write_more(args: &Seq<u32>, member: u32, more: &mut Seq<u32>)
    requires { (k : ℕ) × (more.old ≡ args.now ++ k ∷ []) }
    ensures { more.new ≡ args.now ++ member ∷ [] }
{
    let last = args.list().len();
    more.list_mut()[last] = member;
}

/// The members that a `forall` ranges over, in ascending order.
#[inline(never)]
pub fn range_of<'s>(
    alloc: Global,
    model: &Model,
    s: &'s PlainState,
    over: Over,
) -> Result<Members<'s>, AllocError>
    ensures { IfOk result (λ members. members ≡ range_of model.now s.now over) }
{
    match over {
        Over::Object(object) => {
            let all = every_member(alloc, count_of(model, object))?;
            Ok(Members::own(Seq::of(all)))
        }
        Over::Members(v) => Ok(set_lent(alloc, s, v)),
    }
}

fn every_member(alloc: Global, count: u32) -> Result<Vec<u32>, AllocError>
    ensures { IfOk result (λ members. members.items ≡ range_with_len 0 count) }
{
    let mut members = Vec::new(alloc);
    for member in 0..count {
        members.push(member)?;
    }
    Ok(members)
}
