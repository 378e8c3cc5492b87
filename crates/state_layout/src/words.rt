//! The words of a state's values that are not resources, and the hash over them.

ghost use Rattle.std.specs.Prelude.{◌≡◌, ◌++◌, ◌<◌, true, OnOk, IfOk, map, fold};
ghost use Rattle.state_layout.specs.Packing.{count_in, value_in, members_in, state_in, is_set};
ghost use Rattle.state_layout.specs.Forms.{HoldsSlot, Fits};
ghost use Rattle.state_layout.specs.Signatures.{set_words, value_words, signature_in, without_preference, hash_byte, hash_onto, hash_of};
ghost use Rattle.dp_model.specs.Typing.{is_without};

use crate::layout::Slot;
use crate::reading::{first_word, is_set, word_count, word_in};
use dp_model::Preference;
use std::alloc::{AllocError, Global};
use word_hash::hash_word;

// what the hash over no bytes is
pub(crate) const HASH_START: u64 = 0xcbf2_9ce4_8422_2325;

/// The words of the values, in order.
pub(crate) fn words_of(alloc: Global, slots: &[Slot], words: &[u64]) -> Result<Vec<u64>, AllocError>
    requires { Fits slots.now words.now }
    ensures { IfOk result (λ signature. signature.items ≡ signature_in slots.now (state_in words.now).values) }
{
    let count = slots.len();
    let mut signature = Vec::with_capacity(alloc, count)?;
    for place in 0..count {
        push_words(&mut signature, words, count, place, slots[place])?;
    }
    Ok(signature)
}

fn push_words(
    signature: &mut Vec<u64>,
    words: &[u64],
    count: usize,
    place: usize,
    slot: Slot,
) -> Result<(), AllocError>
    requires count { count ≡ count_in words.now }
    requires few { count < 65536 }
    requires held { HoldsSlot slot words.now place }
    ensures { OnOk result (signature.new.items ≡ signature.old.items ++ value_words slot (value_in words.now place)) }
{
    if is_set(slot.kind) {
        push_set(signature, words, count, place, slot)?;
    } else if is_without(slot.preference) {
        signature.push(first_word(words, count, place))?;
    }
    Ok(())
}

fn push_set(
    signature: &mut Vec<u64>,
    words: &[u64],
    count: usize,
    place: usize,
    slot: Slot,
) -> Result<(), AllocError>
    requires count { count ≡ count_in words.now }
    requires few { count < 65536 }
    requires held { HoldsSlot slot words.now place }
    requires kind { is_set slot.kind ≡ true }
    ensures { OnOk result (signature.new.items ≡ signature.old.items ++ set_words slot.count (members_in words.now place)) }
{
    for number in 0..word_count(slot.count) {
        signature.push(word_in(words, count, place, slot, number))?;
    }
    Ok(())
}

/// The hash over the words of the values, in order.
pub(crate) fn hash_of(slots: &[Slot], words: &[u64]) -> u64
    requires { Fits slots.now words.now }
    ensures { result ≡ hash_of (signature_in slots.now (state_in words.now).values) }
{
    let count = slots.len();
    let mut hash = HASH_START;
    for place in 0..count {
        hash = hash_value(hash, words, count, place, slots[place]);
    }
    hash
}

/// The hash over the words of the values, in order, those of resources too.
pub(crate) fn whole_hash_of(slots: &[Slot], words: &[u64]) -> u64
    requires { Fits slots.now words.now }
    ensures { result ≡ hash_of (signature_in (map without_preference slots.now) (state_in words.now).values) }
{
    let count = slots.len();
    let mut hash = HASH_START;
    for place in 0..count {
        hash = hash_value(hash, words, count, place, without_preference(slots[place]));
    }
    hash
}

pub(crate) fn without_preference(slot: Slot) -> Slot
    ensures { result ≡ without_preference slot }
{
    Slot {
        preference: Preference::Without,
        ..slot
    }
}

fn hash_value(hash: u64, words: &[u64], count: usize, place: usize, slot: Slot) -> u64
    requires count { count ≡ count_in words.now }
    requires few { count < 65536 }
    requires held { HoldsSlot slot words.now place }
    ensures { result ≡ hash_onto hash (value_words slot (value_in words.now place)) }
{
    if is_set(slot.kind) {
        hash_set(hash, words, count, place, slot)
    } else if is_without(slot.preference) {
        hash_word(hash, first_word(words, count, place))
    } else {
        hash
    }
}

fn hash_set(hash: u64, words: &[u64], count: usize, place: usize, slot: Slot) -> u64
    requires count { count ≡ count_in words.now }
    requires few { count < 65536 }
    requires held { HoldsSlot slot words.now place }
    requires kind { is_set slot.kind ≡ true }
    ensures { result ≡ hash_onto hash (set_words slot.count (members_in words.now place)) }
{
    let mut hashed = hash;
    for number in 0..word_count(slot.count) {
        hashed = hash_word(hashed, word_in(words, count, place, slot, number));
    }
    hashed
}

pub(crate) fn is_without(preference: Preference) -> bool
    ensures { result ≡ is_without preference }
{
    preference == Preference::Without
}
