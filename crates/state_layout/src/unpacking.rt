//! The plain state of words.

ghost use Rattle.std.specs.Prelude.{◌≡◌, ◌+◌, ◌-◌, ◌^◌, ◌<◌, ◌≤◌, ◌==◌, ◌++◌, true, IfOk, OnOk};
ghost use Rattle.std.specs.Int.{bit_at};
ghost use Rattle.std.specs.List.{filter, range_with_len};
ghost use Rattle.dp_model.specs.declared.parts.PlainValue.TheVariants.{Members};
ghost use Rattle.state_layout.specs.Packing.{count_in, value_in, members_in, state_in, is_set};
ghost use Rattle.state_layout.specs.Forms.{HoldsSlot, Fits};

use crate::layout::Slot;
use crate::reading::{MEMBERS_IN_WORD, is_set, number_in, word_count, word_in};
use dp_base::Seq;
use dp_model::{PlainState, PlainValue};
use std::alloc::{AllocError, Global};

#[tactic(auto, using(crate::proofs::Decoding::values_more))]
pub(crate) fn state_of(
    alloc: Global,
    slots: &[Slot],
    words: &[u64],
) -> Result<PlainState, AllocError>
    requires { Fits slots.now words.now }
    ensures { IfOk result (λ s. s ≡ state_in words.now) }
{
    let count = slots.len();
    let mut values = Vec::with_capacity(alloc, count)?;
    for place in 0..count {
        values.push(value_of(alloc, words, count, place, slots[place])?)?;
    }
    Ok(PlainState {
        values: Seq::of(values),
    })
}

fn value_of(
    alloc: Global,
    words: &[u64],
    count: usize,
    place: usize,
    slot: Slot,
) -> Result<PlainValue, AllocError>
    requires count { count ≡ count_in words.now }
    requires few { count < 65536 }
    requires held { HoldsSlot slot words.now place }
    ensures { IfOk result (λ value. value ≡ value_in words.now place) }
{
    if is_set(slot.kind) {
        let members = members_of(alloc, words, count, place, slot)?;
        Ok(set_of(members))
    } else {
        Ok(PlainValue::Number(number_in(words, count, place)))
    }
}

fn set_of(members: Vec<u32>) -> PlainValue
    ensures { result ≡ Members members.items }
{
    PlainValue::Members(Seq::of(members))
}

fn members_of(
    alloc: Global,
    words: &[u64],
    count: usize,
    place: usize,
    slot: Slot,
) -> Result<Vec<u32>, AllocError>
    requires count { count ≡ count_in words.now }
    requires few { count < 65536 }
    requires held { HoldsSlot slot words.now place }
    requires kind { is_set slot.kind ≡ true }
    ensures { IfOk result (λ set. set.items ≡ members_in words.now place) }
{
    let mut members = Vec::new(alloc);
    for number in 0..word_count(slot.count) {
        let word = word_in(words, count, place, slot, number);
        push_word(&mut members, number * MEMBERS_IN_WORD, word)?;
    }
    Ok(members)
}

/// Adds the members of a word, the first of whose bits stands for a number.
fn push_word(members: &mut Vec<u32>, first: u32, word: u64) -> Result<(), AllocError>
    requires { first + 64 ≤ 2 ^ 32 }
    ensures { OnOk result (members.new.items ≡ members.old.items ++ filter (λ k. bit_at word (k - first) == 1) (range_with_len first 64)) }
{
    for bit in 0..MEMBERS_IN_WORD {
        push_bit(members, first, bit, word)?;
    }
    Ok(())
}

fn push_bit(members: &mut Vec<u32>, first: u32, bit: u32, word: u64) -> Result<(), AllocError>
    requires bit { bit < 64 }
    requires fits { first + bit < 2 ^ 32 }
    ensures { OnOk result (members.new.items ≡ members.old.items ++ filter (λ k. bit_at word (k - first) == 1) (range_with_len (first + bit) 1)) }
{
    if word >> bit & 1 == 1 {
        members.push(first + bit)?;
    }
    Ok(())
}
