//! Layouts in which each variable has one word, and the loops over these words. No call takes memory.

ghost use Rattle.std.specs.Prelude.{◌≡◌, ◌<◌, ◌↔◌, true, false, IsTrue, map};
ghost use Rattle.state_layout.specs.Packing.{count_in, value_in, state_in, is_set};
ghost use Rattle.state_layout.specs.Forms.{HoldsSlot, Fits};
ghost use Rattle.state_layout.specs.Flat.{IsFlat, HasNoResource};
ghost use Rattle.state_layout.specs.Signatures.{word_count, value_words, signature_in, without_preference, hash_of};
ghost use Rattle.state_layout.specs.Keys.{key_onto, key_of};
ghost use Rattle.state_layout.specs.Tests.{is_at_most, is_at_least, are_at_least};

use crate::keys::{KEY_START, key_step};
use crate::layout::Slot;
use crate::reading::{first_word, is_set, number_in, word_count};
use crate::words::{HASH_START, is_without};
use dp_model::Preference;
use word_hash::hash_word;

/// Whether each set has one word.
pub(crate) fn is_flat(slots: &[Slot]) -> bool
    ensures { IsTrue result ↔ IsFlat slots.now }
{
    for place in 0..slots.len() {
        if !has_one_word(slots[place]) {
            return false;
        }
    }
    true
}

fn has_one_word(slot: Slot) -> bool
    ensures { IsTrue result ↔ (is_set slot.kind ≡ true → word_count slot.count ≡ 1) }
{
    !is_set(slot.kind) || word_count(slot.count) == 1
}

/// Whether of any variable a lesser or a greater value is preferred.
pub(crate) fn has_resource(slots: &[Slot]) -> bool
    ensures { (result ≡ false) ↔ HasNoResource slots.now }
{
    for place in 0..slots.len() {
        if !is_without(slots[place].preference) {
            return true;
        }
    }
    false
}

/// The key of the words of the values, in order, those of resources too.
#[inline(always)]
pub(crate) fn flat_key_of(slots: &[Slot], words: &[u64]) -> u64
    requires fits { Fits slots.now words.now }
    requires flat { IsFlat slots.now }
    ensures { result ≡ key_of (signature_in (map without_preference slots.now) (state_in words.now).values) }
{
    let count = slots.len();
    let mut key = KEY_START;
    for place in 0..count {
        key = key_step(key, first_word(words, count, place));
    }
    key
}

/// The key of the words of the values, in order.
#[inline(always)]
pub(crate) fn flat_signature_key_of(slots: &[Slot], words: &[u64]) -> u64
    requires fits { Fits slots.now words.now }
    requires flat { IsFlat slots.now }
    ensures { result ≡ key_of (signature_in slots.now (state_in words.now).values) }
{
    let count = slots.len();
    let mut key = KEY_START;
    for place in 0..count {
        key = flat_key_value(key, words, count, place, slots[place]);
    }
    key
}

#[inline(always)]
fn flat_key_value(key: u64, words: &[u64], count: usize, place: usize, slot: Slot) -> u64
    requires count { count ≡ count_in words.now }
    requires few { count < 65536 }
    requires held { HoldsSlot slot words.now place }
    requires flat { is_set slot.kind ≡ true → word_count slot.count ≡ 1 }
    ensures { result ≡ key_onto key (value_words slot (value_in words.now place)) }
{
    if is_set(slot.kind) || is_without(slot.preference) {
        key_step(key, first_word(words, count, place))
    } else {
        key
    }
}

/// The hash over the words of all values, in order.
pub(crate) fn flat_hash_of(slots: &[Slot], words: &[u64]) -> u64
    requires fits { Fits slots.now words.now }
    requires flat { IsFlat slots.now }
    ensures { result ≡ hash_of (signature_in (map without_preference slots.now) (state_in words.now).values) }
{
    let count = slots.len();
    let mut hash = HASH_START;
    for place in 0..count {
        hash = hash_word(hash, first_word(words, count, place));
    }
    hash
}

/// Whether two states are the same.
#[inline(always)]
pub(crate) fn are_same_flat(slots: &[Slot], a: &[u64], b: &[u64]) -> bool
    requires left { Fits slots.now a.now }
    requires right { Fits slots.now b.now }
    requires flat { IsFlat slots.now }
    ensures { IsTrue result ↔ (state_in a.now ≡ state_in b.now) }
{
    let count = slots.len();
    for place in 0..count {
        if first_word(a, count, place) != first_word(b, count, place) {
            return false;
        }
    }
    true
}

/// Whether a state is at least as good as another on each variable.
#[inline(always)]
pub(crate) fn are_at_least_flat(slots: &[Slot], a: &[u64], b: &[u64]) -> bool
    requires left { Fits slots.now a.now }
    requires right { Fits slots.now b.now }
    requires flat { IsFlat slots.now }
    ensures { result ≡ are_at_least slots.now (state_in a.now).values (state_in b.now).values }
{
    let count = slots.len();
    for place in 0..count {
        if !is_at_least_flat(a, b, count, place, slots[place]) {
            return false;
        }
    }
    true
}

#[inline(always)]
fn is_at_least_flat(a: &[u64], b: &[u64], count: usize, place: usize, slot: Slot) -> bool
    requires count { (count ≡ count_in a.now) × (count ≡ count_in b.now) }
    requires few { count < 65536 }
    requires left { HoldsSlot slot a.now place }
    requires right { HoldsSlot slot b.now place }
    requires flat { is_set slot.kind ≡ true → word_count slot.count ≡ 1 }
    ensures { result ≡ is_at_least slot.preference (value_in a.now place) (value_in b.now place) }
{
    match slot.preference {
        Preference::Without => first_word(a, count, place) == first_word(b, count, place),
        Preference::Less => is_at_most_flat(a, b, count, place, slot),
        Preference::Greater => is_at_most_flat(b, a, count, place, slot),
    }
}

#[inline(always)]
fn is_at_most_flat(a: &[u64], b: &[u64], count: usize, place: usize, slot: Slot) -> bool
    requires count { (count ≡ count_in a.now) × (count ≡ count_in b.now) }
    requires few { count < 65536 }
    requires left { HoldsSlot slot a.now place }
    requires right { HoldsSlot slot b.now place }
    requires flat { is_set slot.kind ≡ true → word_count slot.count ≡ 1 }
    ensures { result ≡ is_at_most (value_in a.now place) (value_in b.now place) }
{
    if is_set(slot.kind) {
        first_word(a, count, place) == first_word(b, count, place)
    } else {
        number_in(a, count, place) <= number_in(b, count, place)
    }
}
