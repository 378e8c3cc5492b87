//! Sets of at most 64 members, each in one word.

ghost use Rattle.std.specs.Prelude.{◌≡◌, ◌≤◌, ◌<◌, ◌==◌, ◌&&◌, ◌||◌, ◌∷◌, not, length, slice_get, Some, IfSome};
ghost use Rattle.std.specs.List.{list_all};
ghost use Rattle.std.specs.Str.{bytes_eq};
ghost use Rattle.bit_sets.specs.Sets.{members_of, mask_of};
ghost use Rattle.dp_model.specs.Evaluation.{has, members_where, set_operation};
ghost use Rattle.packed_words.specs.Sets.{IsClean, one_word};

use dp_model::SetOp;

/// An operation on two sets.
pub fn operate_words(op: SetOp, count: u32, a: u64, b: u64) -> u64
    requires clean { IsClean count (one_word a) }
    requires clean_right { IsClean count (one_word b) }
    ensures members { members_of (one_word result) ≡ set_operation op count (members_of (one_word a)) (members_of (one_word b)) }
    ensures clean { IsClean count (one_word result) }
{
    match op {
        SetOp::Union => united_words(count, a, b),
        SetOp::Intersection => shared_words(count, a, b),
        SetOp::Difference => lessened_words(count, a, b),
    }
}

fn united_words(count: u32, a: u64, b: u64) -> u64
    requires clean { IsClean count (one_word a) }
    requires clean_right { IsClean count (one_word b) }
    ensures members { members_of (one_word result)
        ≡ members_where count (λ k. has (members_of (one_word a)) k || has (members_of (one_word b)) k) }
    ensures clean { IsClean count (one_word result) }
{
    a | b
}

fn shared_words(count: u32, a: u64, b: u64) -> u64
    requires clean { IsClean count (one_word a) }
    ensures members { members_of (one_word result)
        ≡ members_where count (λ k. has (members_of (one_word a)) k && has (members_of (one_word b)) k) }
    ensures clean { IsClean count (one_word result) }
{
    a & b
}

fn lessened_words(count: u32, a: u64, b: u64) -> u64
    requires clean { IsClean count (one_word a) }
    ensures members { members_of (one_word result)
        ≡ members_where count (λ k. has (members_of (one_word a)) k && not (has (members_of (one_word b)) k)) }
    ensures clean { IsClean count (one_word result) }
{
    a & !b
}

/// The members of the object type that a set lacks.
pub fn other_word(count: u32, a: u64) -> u64
    requires { count ≤ 64 }
    ensures members { members_of (one_word result) ≡ members_where count (λ k. not (has (members_of (one_word a)) k)) }
    ensures clean { IsClean count (one_word result) }
{
    !a & mask(count)
}

/// The bits of the numbers below the count.
fn mask(count: u32) -> u64
    requires { count ≤ 64 }
    ensures { result ≡ mask_of count 0 }
{
    if count / 64 > 0 {
        u64::MAX
    } else {
        (1 << (count % 64)) - 1
    }
}

/// One member more.
pub fn word_with(count: u32, a: u64, member: u32) -> u64
    requires few { count ≤ 64 }
    requires member { member < count }
    requires clean { IsClean count (one_word a) }
    ensures members { members_of (one_word result) ≡ members_where count (λ k. k == member || has (members_of (one_word a)) k) }
    ensures clean { IsClean count (one_word result) }
{
    a | (1 << member)
}

/// Without one member.
pub fn word_without(count: u32, a: u64, member: u32) -> u64
    requires few { count ≤ 64 }
    requires member { member < count }
    requires clean { IsClean count (one_word a) }
    ensures members { members_of (one_word result)
        ≡ members_where count (λ k. not (k == member) && has (members_of (one_word a)) k) }
    ensures clean { IsClean count (one_word result) }
{
    a & !(1 << member)
}

/// Whether a number is a member.
pub fn word_has(a: u64, member: u32) -> bool
    requires { member < 64 }
    ensures { result ≡ has (members_of (one_word a)) member }
{
    a >> member & 1 == 1
}

/// How many members a set has.
pub fn word_size(a: u64) -> u32
    ensures { result ≡ length (members_of (one_word a)) }
{
    a.count_ones()
}

/// Whether a set has no members.
pub fn is_empty_word(a: u64) -> bool
    ensures { result ≡ (length (members_of (one_word a)) == 0) }
{
    word_size(a) == 0
}

/// Whether each member of a set is one of another.
pub fn is_within_word(a: u64, b: u64) -> bool
    ensures { result ≡ list_all (has (members_of (one_word b))) (members_of (one_word a)) }
{
    a & !b == 0
}

/// Whether two sets have the same members.
pub fn is_same_word(a: u64, b: u64) -> bool
    ensures { result ≡ bytes_eq (members_of (one_word a)) (members_of (one_word b)) }
{
    a == b
}

/// The first member of a set.
#[inline(always)]
pub fn lowest(a: u64) -> Option<u32>
    ensures first { result ≡ slice_get (members_of (one_word a)) 0 }
    ensures below { IfSome result (λ k. k < 64) }
{
    if a == 0 {
        return None;
    }
    Some(a.trailing_zeros())
}

/// A set without its first member: the lowest bit is the one that a subtraction of 1 takes away, with no other above it.
#[inline(always)]
pub fn without_lowest(a: u64, first: u32) -> u64
    requires first { Some first ≡ slice_get (members_of (one_word a)) 0 }
    requires below { first < 64 }
    ensures { members_of (one_word a) ≡ first ∷ members_of (one_word result) }
{
    a & (a - 1)
}
