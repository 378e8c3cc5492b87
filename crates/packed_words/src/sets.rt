//! Sets of one object type, in words.

ghost use Rattle.std.specs.Prelude.{◌≡◌, ◌≤◌, ◌<◌, ◌==◌, ◌&&◌, ◌||◌, not, length};
ghost use Rattle.std.specs.List.{list_all};
ghost use Rattle.std.specs.Str.{bytes_eq};
ghost use Rattle.bit_sets.specs.Sets.{members_of};
ghost use Rattle.dp_model.specs.Evaluation.{has, members_where, set_operation};
ghost use Rattle.state_layout.specs.Signatures.{word_count};
ghost use Rattle.packed_words.specs.Sets.{IsClean};

use bit_sets::{complement, insert, meet_into, minus_into, remove, union_into};
use dp_model::SetOp;

/// How many words a set has whose object type has so many members.
pub fn words_for(count: u32) -> usize
    ensures { result ≡ word_count count }
{
    (count as usize).div_ceil(64)
}

/// An operation, whose result is written over the first set.
pub fn operate_into(op: SetOp, count: u32, a: &mut [u64], b: &[u64])
    requires left { length a.old ≡ word_count count }
    requires right { length b.now ≡ word_count count }
    requires clean { IsClean count a.old }
    requires clean_right { IsClean count b.now }
    ensures len { length a.new ≡ length a.old }
    ensures members { members_of a.new ≡ set_operation op count (members_of a.old) (members_of b.now) }
    ensures clean { IsClean count a.new }
{
    match op {
        SetOp::Union => united(count, a, b),
        SetOp::Intersection => shared(count, a, b),
        SetOp::Difference => lessened(count, a, b),
    }
}

fn united(count: u32, a: &mut [u64], b: &[u64])
    requires left { length a.old ≡ word_count count }
    requires right { length b.now ≡ word_count count }
    requires clean { IsClean count a.old }
    requires clean_right { IsClean count b.now }
    ensures len { length a.new ≡ length a.old }
    ensures members { members_of a.new ≡ members_where count (λ k. has (members_of a.old) k || has (members_of b.now) k) }
    ensures clean { IsClean count a.new }
{
    union_into(a, b);
}

fn shared(count: u32, a: &mut [u64], b: &[u64])
    requires left { length a.old ≡ word_count count }
    requires right { length b.now ≡ word_count count }
    requires clean { IsClean count a.old }
    ensures len { length a.new ≡ length a.old }
    ensures members { members_of a.new ≡ members_where count (λ k. has (members_of a.old) k && has (members_of b.now) k) }
    ensures clean { IsClean count a.new }
{
    meet_into(a, b);
}

fn lessened(count: u32, a: &mut [u64], b: &[u64])
    requires left { length a.old ≡ word_count count }
    requires right { length b.now ≡ word_count count }
    requires clean { IsClean count a.old }
    ensures len { length a.new ≡ length a.old }
    ensures members { members_of a.new ≡ members_where count (λ k. has (members_of a.old) k && not (has (members_of b.now) k)) }
    ensures clean { IsClean count a.new }
{
    minus_into(a, b);
}

/// The members of the object type that a set lacks, written over it.
pub fn others(count: u32, a: &mut [u64])
    requires { length a.old ≡ word_count count }
    ensures len { length a.new ≡ length a.old }
    ensures members { members_of a.new ≡ members_where count (λ k. not (has (members_of a.old) k)) }
    ensures clean { IsClean count a.new }
{
    complement(a, count);
}

/// One member more.
pub fn with(count: u32, a: &mut [u64], member: u32)
    requires len { length a.old ≡ word_count count }
    requires member { member < count }
    requires clean { IsClean count a.old }
    ensures len { length a.new ≡ length a.old }
    ensures members { members_of a.new ≡ members_where count (λ k. k == member || has (members_of a.old) k) }
    ensures clean { IsClean count a.new }
{
    insert(a, member);
}

/// Without one member.
pub fn without(count: u32, a: &mut [u64], member: u32)
    requires len { length a.old ≡ word_count count }
    requires member { member < count }
    requires clean { IsClean count a.old }
    ensures len { length a.new ≡ length a.old }
    ensures members { members_of a.new ≡ members_where count (λ k. not (k == member) && has (members_of a.old) k) }
    ensures clean { IsClean count a.new }
{
    remove(a, member);
}

/// Whether a set has a member of its object type.
pub fn has_member(count: u32, a: &[u64], member: u32) -> bool
    requires len { length a.now ≡ word_count count }
    requires member { member < count }
    ensures { result ≡ has (members_of a.now) member }
{
    bit_sets::has(a, member)
}

/// How many members a set has.
pub fn size(count: u32, a: &[u64]) -> u64
    requires len { length a.now ≡ word_count count }
    requires few { count ≤ 4096 }
    ensures { result ≡ length (members_of a.now) }
{
    bit_sets::size(a)
}

/// Whether a set has no members.
pub fn is_empty(count: u32, a: &[u64]) -> bool
    requires len { length a.now ≡ word_count count }
    requires few { count ≤ 4096 }
    ensures { result ≡ (length (members_of a.now) == 0) }
{
    size(count, a) == 0
}

/// Whether each member of a set is one of another.
pub fn is_subset(a: &[u64], b: &[u64]) -> bool
    requires { length a.now ≡ length b.now }
    ensures { result ≡ list_all (has (members_of b.now)) (members_of a.now) }
{
    bit_sets::subset(a, b)
}

/// Whether two sets have the same members.
pub fn is_same(a: &[u64], b: &[u64]) -> bool
    requires { length a.now ≡ length b.now }
    ensures { result ≡ bytes_eq (members_of a.now) (members_of b.now) }
{
    bit_sets::same(a, b)
}
