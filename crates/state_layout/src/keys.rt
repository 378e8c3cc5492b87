//! A key over the words of a state's values, for tables in memory. No call takes memory.

ghost use Rattle.std.specs.Prelude.{◌≡◌, ◌<◌, true, map};
ghost use Rattle.state_layout.specs.Packing.{count_in, value_in, members_in, state_in, is_set};
ghost use Rattle.state_layout.specs.Forms.{HoldsSlot, Fits};
ghost use Rattle.state_layout.specs.Signatures.{set_words, value_words, signature_in, without_preference};
ghost use Rattle.state_layout.specs.Keys.{key_step, key_onto, key_of};

use crate::layout::Slot;
use crate::reading::{first_word, is_set, word_count, word_in};
use crate::words::{is_without, without_preference};

// what the key of no words is
pub(crate) const KEY_START: u64 = 0x243f_6a88_85a3_08d3;

const KEY_FACTOR: u64 = 0x9e37_79b9_7f4a_7c15;

/// The key of the words of the values, in order.
#[inline(never)]
pub(crate) fn key_of(slots: &[Slot], words: &[u64]) -> u64
    requires { Fits slots.now words.now }
    ensures { result ≡ key_of (signature_in slots.now (state_in words.now).values) }
{
    let count = slots.len();
    let mut key = KEY_START;
    for place in 0..count {
        key = key_value(key, words, count, place, slots[place]);
    }
    key
}

/// The key of the words of the values, in order, those of resources too.
#[inline(never)]
pub(crate) fn whole_key_of(slots: &[Slot], words: &[u64]) -> u64
    requires { Fits slots.now words.now }
    ensures { result ≡ key_of (signature_in (map without_preference slots.now) (state_in words.now).values) }
{
    let count = slots.len();
    let mut key = KEY_START;
    for place in 0..count {
        key = key_value(key, words, count, place, without_preference(slots[place]));
    }
    key
}

fn key_value(key: u64, words: &[u64], count: usize, place: usize, slot: Slot) -> u64
    requires count { count ≡ count_in words.now }
    requires few { count < 65536 }
    requires held { HoldsSlot slot words.now place }
    ensures { result ≡ key_onto key (value_words slot (value_in words.now place)) }
{
    if is_set(slot.kind) {
        key_set(key, words, count, place, slot)
    } else if is_without(slot.preference) {
        key_step(key, first_word(words, count, place))
    } else {
        key
    }
}

fn key_set(key: u64, words: &[u64], count: usize, place: usize, slot: Slot) -> u64
    requires count { count ≡ count_in words.now }
    requires few { count < 65536 }
    requires held { HoldsSlot slot words.now place }
    requires kind { is_set slot.kind ≡ true }
    ensures { result ≡ key_onto key (set_words slot.count (members_in words.now place)) }
{
    let mut mixed = key;
    for number in 0..word_count(slot.count) {
        mixed = key_step(mixed, word_in(words, count, place, slot, number));
    }
    mixed
}

#[inline(always)]
pub(crate) fn key_step(key: u64, word: u64) -> u64
    ensures { result ≡ key_step key word }
{
    let product = (key ^ word).wrapping_mul(KEY_FACTOR);
    product ^ (product >> 32)
}
