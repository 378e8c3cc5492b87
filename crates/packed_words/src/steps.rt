//! The members that a `forall` ranges over, one after another, and the parameters with one of them.

ghost use Rattle.std.specs.Prelude.{◌≡◌, ℕ, ◌+◌, ◌-◌, ◌<◌, ◌≤◌, ◌++◌, ◌∷◌, [], length, slice_get, IfSome, IsTrue};
ghost use Rattle.std.specs.List.{range_with_len};
ghost use Rattle.bit_sets.specs.Sets.{members_of};
ghost use Rattle.dp_model.specs.Evaluation.{count_of, range_of};
ghost use Rattle.state_layout.specs.Packing.{state_in};
ghost use Rattle.packed_words.specs.Ranges.{over_fits, range_members, IsRange};
ghost use Rattle.packed_words.specs.Sets.{one_word, members_from, IsNext};

use crate::ranges::Range;
use crate::scene::{Scene, next_in, set_slot, word_of};
use dp_model::{Model, Over};

/// How many members an object type has.
#[tactic(auto, using(crate::proofs::Shown::few_members))]
pub fn count_of(model: &Model, object: u32) -> u32
    ensures value { result ≡ count_of model.now object }
    ensures few { result ≤ 4096 }
{
    match model.objects.list().get(object as usize) {
        Some(object) => object.count,
        None => 0,
    }
}

/// The members that a `forall` ranges over.
pub fn range_of(at: &Scene<'_>, over: Over) -> Range
    requires { IsTrue (over_fits at.now.model.now over) }
    ensures value { range_members (state_in at.now.words.now) result ≡ range_of at.now.model.now (state_in at.now.words.now) over }
    ensures is { IsRange at.now.model.now result }
{
    match over {
        Over::Object(object) => Range::Whole(count_of(at.model, object)),
        Over::Members(v) => range_in(at, v),
    }
}

fn range_in(at: &Scene<'_>, v: u32) -> Range
    requires { IsTrue (over_fits at.now.model.now (Over.Members v)) }
    ensures value { range_members (state_in at.now.words.now) result ≡ range_of at.now.model.now (state_in at.now.words.now) (Over.Members v) }
    ensures is { IsRange at.now.model.now result }
{
    if set_slot(at, v).count <= 64 {
        Range::Word(word_of(at, v))
    } else {
        Range::Wide(v)
    }
}

/// The first member that is not below a number.
#[inline(always)]
pub fn next_of(at: &Scene<'_>, range: Range, from: u32) -> Option<u32>
    requires { IsRange at.now.model.now range }
    ensures value { IsNext result from (range_members (state_in at.now.words.now) range) }
    ensures below { IfSome result (λ k. (from ≤ k) × (k < 8192)) }
{
    match range {
        Range::Whole(count) => next_below(count, from),
        Range::Word(word) => next_bit(word, from),
        Range::Wide(v) => next_wide(at, v, from),
    }
}

fn next_below(count: u32, from: u32) -> Option<u32>
    requires { count ≤ 4096 }
    ensures value { IsNext result from (range_with_len 0 count) }
    ensures below { IfSome result (λ k. (from ≤ k) × (k < 8192)) }
{
    if from < count { Some(from) } else { None }
}

fn next_bit(word: u64, from: u32) -> Option<u32>
    ensures value { IsNext result from (members_of (one_word word)) }
    ensures below { IfSome result (λ k. (from ≤ k) × (k < 8192)) }
{
    first_bit(word, from)
}

/// The first member of a set in one word that is not below a number.
pub fn first_bit(word: u64, from: u32) -> Option<u32>
    ensures { result ≡ slice_get (members_from from (members_of (one_word word))) 0 }
{
    if from >= 64 {
        return None;
    }
    let rest = word >> from;
    if rest == 0 {
        return None;
    }
    Some(from + rest.trailing_zeros())
}

#[inline(never)]
fn next_wide(at: &Scene<'_>, v: u32, from: u32) -> Option<u32>
    requires { IsTrue (over_fits at.now.model.now (Over.Members v)) }
    ensures value { IsNext result from (range_members (state_in at.now.words.now) (Range.Wide v)) }
    ensures below { IfSome result (λ k. (from ≤ k) × (k < 8192)) }
{
    next_in(at, v, from)
}

/// The values of the parameters, and a place for one more.
pub fn start_more(args: &[u64], more: &mut [u64])
    requires { length more.old ≡ length args.now + 1 }
    ensures { more.new ≡ args.now ++ 0 ∷ [] }
{
    let last = args.len();
    more[..last].copy_from_slice(args);
    more[last] = 0;
}

/// Writes a member over the last of these values, which is one more than the parameters have.
pub fn write_more(args: &[u64], member: u32, more: &mut [u64])
    requires { (k : ℕ) × (more.old ≡ args.now ++ k ∷ []) }
    ensures { more.new ≡ args.now ++ member ∷ [] }
{
    let last = args.len();
    more[last] = u64::from(member);
}
