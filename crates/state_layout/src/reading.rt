//! The words of one variable of a state. No call takes memory.

ghost use Rattle.std.specs.Prelude.{◌≡◌, ℕ, ◌+◌, ◌*◌, ◌<◌, ◌≤◌, ◌==◌, ◌↔◌, true, false, IsTrue};
ghost use Rattle.std.specs.Int.{bit_at};
ghost use Rattle.bit_sets.specs.Sets.{has};
ghost use Rattle.dp_model.specs.Evaluation.{number_in, set_in};
ghost use Rattle.dp_model.specs.declared.parts.PlainValue.TheVariants.{Number};
ghost use Rattle.state_layout.specs.Signatures.{word_count};
ghost use Rattle.state_layout.specs.Packing.{count_in, holds_set, further_place, word_in, value_in, members_in, state_in, is_set, HasFirstRow};
ghost use Rattle.state_layout.specs.Forms.{HoldsSlot};

use crate::layout::Slot;
use dp_model::VarKind;

pub(crate) const MEMBERS_IN_WORD: u32 = 64;

/// Whether a variable of this kind holds a set.
pub(crate) fn is_set(kind: VarKind) -> bool
    ensures { result ≡ is_set kind }
{
    matches!(kind, VarKind::Set(_))
}

/// How many words a set has over so many members.
pub(crate) fn word_count(count: u32) -> u32
    ensures { result ≡ word_count count }
{
    count.div_ceil(MEMBERS_IN_WORD)
}

/// The word of the variable at a place, which holds a number, or the first word of its set. `count` is how many variables the
/// state has.
pub fn first_word(words: &[u64], count: usize, place: usize) -> u64
    requires count { count ≡ count_in words.now }
    requires few { count < 65536 }
    requires row { HasFirstRow words.now }
    requires place { place < count }
    ensures { result ≡ word_in words.now place 0 }
{
    words[(count + 79) / 64 + place]
}

/// The number that the variable at a place holds.
pub fn number_in(words: &[u64], count: usize, place: usize) -> i64
    requires count { count ≡ count_in words.now }
    requires few { count < 65536 }
    requires row { HasFirstRow words.now }
    requires place { place < count }
    requires kind { holds_set words.now place ≡ false }
    ensures value { value_in words.now place ≡ Number result }
    ensures number { result ≡ number_in (state_in words.now) place }
{
    first_word(words, count, place).cast_signed()
}

/// The word with a number of the set that the variable at a place holds: its bit k says whether 64 times the number and k is a
/// member.
pub fn word_in(words: &[u64], count: usize, place: usize, slot: Slot, number: u32) -> u64
    requires count { count ≡ count_in words.now }
    requires few { count < 65536 }
    requires held { HoldsSlot slot words.now place }
    requires kind { is_set slot.kind ≡ true }
    ensures word { result ≡ word_in words.now place number }
    ensures bits { (k : ℕ) → k < 64 → (bit_at result k == 1) ≡ has (set_in (state_in words.now) place) (64 * number + k) }
{
    if number == 0 {
        first_word(words, count, place)
    } else {
        further_word(words, count, place, slot, number)
    }
}

/// The same of a word that is not the first, and 0 past the end of the words.
fn further_word(words: &[u64], count: usize, place: usize, slot: Slot, number: u32) -> u64
    requires count { count ≡ count_in words.now }
    requires few { count < 65536 }
    requires held { HoldsSlot slot words.now place }
    requires kind { is_set slot.kind ≡ true }
    requires number { 1 ≤ number }
    ensures { result ≡ word_in words.now place number }
{
    let at = further_place(count, slot.sets, slot.rank, number);
    if at < words.len() { words[at] } else { 0 }
}

/// Where the word with a number stands of a set, from the second word on.
pub(crate) fn further_place(count: usize, sets: u32, rank: u32, number: u32) -> usize
    requires few { count < 65536 }
    requires number { 1 ≤ number }
    ensures { result ≡ further_place count sets rank number }
{
    (count + 79) / 64 + count + ((number - 1) as usize * sets as usize + rank as usize)
}

/// Whether two states hold the same set at a place.
pub(crate) fn are_same_sets(a: &[u64], b: &[u64], count: usize, place: usize, slot: Slot) -> bool
    requires count { (count ≡ count_in a.now) × (count ≡ count_in b.now) }
    requires few { count < 65536 }
    requires left { HoldsSlot slot a.now place }
    requires right { HoldsSlot slot b.now place }
    requires kind { is_set slot.kind ≡ true }
    ensures { IsTrue result ↔ (members_in a.now place ≡ members_in b.now place) }
{
    for number in 0..word_count(slot.count) {
        if word_in(a, count, place, slot, number) != word_in(b, count, place, slot, number) {
            return false;
        }
    }
    true
}
