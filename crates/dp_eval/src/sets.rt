//! Sets, as ascending lists of the members of an object type with a count. An operation goes over the members of the
//! object type once, and over each of its lists once.

ghost use Rattle.std.specs.Prelude.{◌≡◌, ℕ, ◌<◌, ◌==◌, ◌&&◌, ◌||◌, not, false, slice_index_or, vec_len, IfOk};
ghost use Rattle.std.specs.List.{list_all};
ghost use Rattle.std.specs.Str.{bytes_eq};
ghost use Rattle.dp_model.specs.Evaluation.{has, members_where, set_operation};

use crate::members::Members;
use dp_model::{Seq, SetOp};
use std::alloc::{AllocError, Global};

/// The members of a set, and how many its object type has.
#[derive(Debug, Drop)]
pub struct CountedSet<'a> {
    pub count: u32,
    pub members: Members<'a>,
}

/// Whether a list has a member.
pub fn has(set: &[u32], member: u32) -> bool
    ensures { result ≡ has set.now member }
{
    set.iter().any(|k| member == *k)
}

/// For each number below the count, whether the list has it.
fn marked(alloc: Global, count: u32, set: &[u32]) -> Result<Vec<bool>, AllocError>
    ensures { IfOk result (λ marks. (k : ℕ) → k < vec_len marks
        → slice_index_or marks.items k false ≡ has set.now k) }
{
    let mut marks = vec![in alloc; false; count as usize]?;
    for member in set {
        let place = *member as usize;
        if place < marks.len() {
            marks[place] = true;
        }
    }
    Ok(marks)
}

/// A list in which a number below a count is found at once. Any other is looked for in the list.
#[derive(Drop)]
struct Marks<'s> {
    set: &'s [u32],
    marks: Vec<bool>,
    ghost right: { (k : ℕ) → k < vec_len marks → slice_index_or marks.items k false ≡ has set.now k },
}

impl<'s> Marks<'s> {
    fn of(alloc: Global, count: u32, set: &'s [u32]) -> Result<Marks<'s>, AllocError>
        ensures { IfOk result (λ marks. marks.set.now ≡ set.now) }
    {
        let marks = marked(alloc, count, set)?;
        Ok(Marks { set, marks })
    }

    fn has(&self, member: u32) -> bool
        ensures { result ≡ has self.now.set.now member }
    {
        let place = member as usize;
        if place < self.marks.len() {
            self.marks[place]
        } else {
            has(self.set, member)
        }
    }
}

/// Whether two sets have the same members.
#[inline(never)]
pub fn same_members(a: &CountedSet<'_>, b: &CountedSet<'_>) -> bool
    ensures { result ≡ bytes_eq a.now.members b.now.members }
{
    a.members.list() == b.members.list()
}

/// Whether each member of the first is one of the second.
#[inline(never)]
pub fn is_subset(alloc: Global, a: &CountedSet<'_>, b: &CountedSet<'_>) -> Result<bool, AllocError>
    ensures { IfOk result (λ held. held ≡ list_all (has b.now.members) a.now.members) }
{
    let in_b = Marks::of(alloc, b.count, b.members.list())?;
    Ok(a.members.list().iter().all(|k| in_b.has(*k)))
}

fn united(alloc: Global, count: u32, a: &Marks, b: &Marks) -> Result<Vec<u32>, AllocError>
    ensures { IfOk result (λ set. set.items
        ≡ members_where count (λ k. has a.now.set.now k || has b.now.set.now k)) }
{
    (0..count).filter(|k| a.has(*k) || b.has(*k)).collect(alloc)
}

fn shared(alloc: Global, count: u32, a: &Marks, b: &Marks) -> Result<Vec<u32>, AllocError>
    ensures { IfOk result (λ set. set.items
        ≡ members_where count (λ k. has a.now.set.now k && has b.now.set.now k)) }
{
    (0..count).filter(|k| a.has(*k) && b.has(*k)).collect(alloc)
}

fn lacking(alloc: Global, count: u32, a: &Marks, b: &Marks) -> Result<Vec<u32>, AllocError>
    ensures { IfOk result (λ set. set.items
        ≡ members_where count (λ k. has a.now.set.now k && not (has b.now.set.now k))) }
{
    (0..count)
        .filter(|k| a.has(*k) && !b.has(*k))
        .collect(alloc)
}

fn outside(alloc: Global, count: u32, set: &Marks) -> Result<Vec<u32>, AllocError>
    ensures { IfOk result (λ all. all.items
        ≡ members_where count (λ k. not (has set.now.set.now k))) }
{
    (0..count).filter(|k| !set.has(*k)).collect(alloc)
}

fn added(alloc: Global, count: u32, set: &Marks, member: u32) -> Result<Vec<u32>, AllocError>
    ensures { IfOk result (λ all. all.items
        ≡ members_where count (λ k. k == member || has set.now.set.now k)) }
{
    (0..count)
        .filter(|k| *k == member || set.has(*k))
        .collect(alloc)
}

fn removed(alloc: Global, count: u32, set: &Marks, member: u32) -> Result<Vec<u32>, AllocError>
    ensures { IfOk result (λ all. all.items
        ≡ members_where count (λ k. not (k == member) && has set.now.set.now k)) }
{
    (0..count)
        .filter(|k| *k != member && set.has(*k))
        .collect(alloc)
}

/// An operation on two sets of the first one's object type.
#[inline(never)]
pub fn set_operation(
    alloc: Global,
    op: SetOp,
    a: &CountedSet<'_>,
    b: &CountedSet<'_>,
) -> Result<CountedSet<'static>, AllocError>
    ensures count { IfOk result (λ set. set.count ≡ a.now.count) }
    ensures members { IfOk result
        (λ set. set.members ≡ set_operation op a.now.count a.now.members b.now.members) }
{
    let count = a.count;
    let in_a = Marks::of(alloc, count, a.members.list())?;
    let in_b = Marks::of(alloc, count, b.members.list())?;
    let members = match op {
        SetOp::Union => united(alloc, count, &in_a, &in_b)?,
        SetOp::Intersection => shared(alloc, count, &in_a, &in_b)?,
        SetOp::Difference => lacking(alloc, count, &in_a, &in_b)?,
    };
    let members = Members::own(Seq::of(members));
    Ok(CountedSet { count, members })
}

/// The members of its object type that a set lacks.
#[inline(never)]
pub fn others(alloc: Global, set: &CountedSet<'_>) -> Result<CountedSet<'static>, AllocError>
    ensures count { IfOk result (λ all. all.count ≡ set.now.count) }
    ensures members { IfOk result (λ all. all.members
        ≡ members_where set.now.count (λ k. not (has set.now.members k))) }
{
    let count = set.count;
    let inside = Marks::of(alloc, count, set.members.list())?;
    let members = Members::own(Seq::of(outside(alloc, count, &inside)?));
    Ok(CountedSet { count, members })
}

/// The set and one member more.
#[inline(never)]
pub fn with(
    alloc: Global,
    set: &CountedSet<'_>,
    member: u32,
) -> Result<CountedSet<'static>, AllocError>
    ensures count { IfOk result (λ all. all.count ≡ set.now.count) }
    ensures members { IfOk result (λ all. all.members
        ≡ members_where set.now.count (λ k. k == member || has set.now.members k)) }
{
    let count = set.count;
    let inside = Marks::of(alloc, count, set.members.list())?;
    let members = Members::own(Seq::of(added(alloc, count, &inside, member)?));
    Ok(CountedSet { count, members })
}

/// The set without one member.
#[inline(never)]
pub fn without(
    alloc: Global,
    set: &CountedSet<'_>,
    member: u32,
) -> Result<CountedSet<'static>, AllocError>
    ensures count { IfOk result (λ all. all.count ≡ set.now.count) }
    ensures members { IfOk result (λ all. all.members
        ≡ members_where set.now.count (λ k. not (k == member) && has set.now.members k)) }
{
    let count = set.count;
    let inside = Marks::of(alloc, count, set.members.list())?;
    let members = Members::own(Seq::of(removed(alloc, count, &inside, member)?));
    Ok(CountedSet { count, members })
}
