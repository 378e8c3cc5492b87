//! Writes into the words of a state that is being made. No call takes memory.

ghost use Rattle.std.specs.Prelude.{◌≡◌, ℕ, ◌<◌, ◌≤◌, [], ◌∷◌, true, false, fold, length, slice_set, slice_index_or};
ghost use Rattle.bit_sets.specs.Sets.{has_bit, members_of};
ghost use Rattle.dp_model.specs.Typing.{is_set_below};
ghost use Rattle.dp_model.specs.declared.parts.PlainValue.TheVariants.{Number, Members};
ghost use Rattle.state_layout.specs.Signatures.{word_count, with_member, set_word};
ghost use Rattle.state_layout.specs.Packing.{count_in, rank_in, sets_in, further_place, word_place, is_set, state_in, HasFirstRow};
ghost use Rattle.state_layout.specs.Forms.{HasRoom, with_value};

use crate::layout::Slot;
use crate::reading::{MEMBERS_IN_WORD, further_place, word_count};

/// Writes the first word of a variable.
#[inline(always)]
fn put_first(words: &mut [u64], count: usize, place: usize, word: u64)
    requires count { count ≡ count_in words.old }
    requires few { count < 65536 }
    requires row { HasFirstRow words.old }
    requires place { place < count }
    ensures { words.new ≡ slice_set words.old (word_place words.old place 0) word }
{
    words[(count + 79) / 64 + place] = word;
}

/// Writes the word with a number of a set.
fn put_word(words: &mut [u64], count: usize, place: usize, slot: Slot, number: u32, word: u64)
    requires count { count ≡ count_in words.old }
    requires few { count < 65536 }
    requires row { HasFirstRow words.old }
    requires place { place < count }
    requires rank { slot.rank ≡ rank_in words.old place }
    requires sets { slot.sets ≡ sets_in words.old }
    requires room { 1 ≤ number → further_place count slot.sets slot.rank number < length words.old }
    ensures { words.new ≡ slice_set words.old (word_place words.old place number) word }
{
    if number == 0 {
        put_first(words, count, place, word);
    } else {
        put_further(words, count, place, slot, number, word);
    }
}

fn put_further(words: &mut [u64], count: usize, place: usize, slot: Slot, number: u32, word: u64)
    requires count { count ≡ count_in words.old }
    requires few { count < 65536 }
    requires rank { slot.rank ≡ rank_in words.old place }
    requires sets { slot.sets ≡ sets_in words.old }
    requires number { 1 ≤ number }
    requires room { further_place count slot.sets slot.rank number < length words.old }
    ensures { words.new ≡ slice_set words.old (word_place words.old place number) word }
{
    words[further_place(count, slot.sets, slot.rank, number)] = word;
}

/// Sets a variable that holds a number.
#[inline(always)]
pub(crate) fn set_number(slots: &[Slot], words: &mut [u64], place: usize, slot: Slot, number: i64)
    requires room { HasRoom slots.now words.old }
    requires place { place < length slots.now }
    requires slot { slot ≡ slice_index_or slots.now place slot }
    requires kind { is_set slot.kind ≡ false }
    ensures room { HasRoom slots.now words.new }
    ensures state { state_in words.new ≡ with_value (state_in words.old) place (Number number) }
{
    put_first(words, slots.len(), place, number.cast_unsigned());
}

/// Sets a variable that holds a set, to one in words.
pub(crate) fn set_members(slots: &[Slot], words: &mut [u64], place: usize, slot: Slot, set: &[u64])
    requires room { HasRoom slots.now words.old }
    requires place { place < length slots.now }
    requires slot { slot ≡ slice_index_or slots.now place slot }
    requires kind { is_set slot.kind ≡ true }
    requires len { length set.now ≡ word_count slot.count }
    requires below { (m : ℕ) → slot.count ≤ m → has_bit set.now m ≡ false }
    ensures room { HasRoom slots.now words.new }
    ensures state { state_in words.new ≡ with_value (state_in words.old) place (Members (members_of set.now)) }
{
    let count = slots.len();
    for number in 0..word_count(slot.count) {
        put_word(words, count, place, slot, number, set[number as usize]);
    }
}

/// Sets a variable that holds a set of one word, to one in a word.
#[inline(always)]
pub(crate) fn set_one(slots: &[Slot], words: &mut [u64], place: usize, slot: Slot, word: u64)
    requires room { HasRoom slots.now words.old }
    requires place { place < length slots.now }
    requires slot { slot ≡ slice_index_or slots.now place slot }
    requires kind { is_set slot.kind ≡ true }
    requires one { word_count slot.count ≡ 1 }
    requires below { (m : ℕ) → slot.count ≤ m → has_bit (word ∷ []) m ≡ false }
    ensures room { HasRoom slots.now words.new }
    ensures state { state_in words.new ≡ with_value (state_in words.old) place (Members (members_of (word ∷ []))) }
{
    put_first(words, slots.len(), place, word);
}

/// Sets a variable that holds a set, to one as a list.
pub(crate) fn set_list(slots: &[Slot], words: &mut [u64], place: usize, slot: Slot, set: &[u32])
    requires room { HasRoom slots.now words.old }
    requires place { place < length slots.now }
    requires slot { slot ≡ slice_index_or slots.now place slot }
    requires kind { is_set slot.kind ≡ true }
    requires below { is_set_below slot.count set.now ≡ true }
    ensures room { HasRoom slots.now words.new }
    ensures state { state_in words.new ≡ with_value (state_in words.old) place (Members set.now) }
{
    let count = slots.len();
    for number in 0..word_count(slot.count) {
        put_word(words, count, place, slot, number, set_word(set, number));
    }
}

// the word of this number of a set
#[tactic(auto, using(std::proofs::lemmas::List::Sums::fold_more))]
fn set_word(set: &[u32], number: u32) -> u64
    ensures { result ≡ set_word set.now number }
{
    let mut word = 0;
    for member in set {
        word = with_member(number, word, *member);
    }
    word
}

fn with_member(number: u32, word: u64, member: u32) -> u64
    ensures { result ≡ with_member number word member }
{
    if member / MEMBERS_IN_WORD == number {
        word | 1 << (member % MEMBERS_IN_WORD)
    } else {
        word
    }
}
