//! The words of plain states.

ghost use Rattle.std.specs.Prelude.{◌≡◌, ◌<◌, true, IfOk, length, slice_index_or};
ghost use Rattle.state_layout.specs.Packing.{state_in, HasFirstRow};
ghost use Rattle.state_layout.specs.Forms.{HasRoom, AreHeld, holds_by, with_value};

use crate::layout::Slot;
use crate::packed::Words;
use crate::writing::{set_list, set_number};
use dp_model::{PlainState, PlainValue};
use smallvec::SmallVec;
use std::alloc::{AllocError, Global};

pub(crate) fn words_for(
    alloc: Global,
    slots: &[Slot],
    blank: &[u64],
    s: &PlainState,
) -> Result<Words, AllocError>
    requires blank { HasRoom slots.now blank.now }
    requires held { AreHeld slots.now s.now.values }
    ensures row { IfOk result (λ words. HasFirstRow words.items) }
    ensures state { IfOk result (λ words. state_in words.items ≡ s.now) }
{
    let mut words = SmallVec::from_slice(alloc, blank)?;
    fill(slots, words.as_mut_slice(), s.values().list());
    Ok(words)
}

fn fill(slots: &[Slot], words: &mut [u64], values: &[PlainValue])
    requires room { HasRoom slots.now words.old }
    requires held { AreHeld slots.now values.now }
    ensures row { HasFirstRow words.new }
    ensures values { (state_in words.new).values ≡ values.now }
{
    for place in 0..slots.len() {
        put_value(slots, words, place, slots[place], &values[place]);
    }
}

fn put_value(slots: &[Slot], words: &mut [u64], place: usize, slot: Slot, value: &PlainValue)
    requires room { HasRoom slots.now words.old }
    requires place { place < length slots.now }
    requires slot { slot ≡ slice_index_or slots.now place slot }
    requires held { holds_by slot value.now ≡ true }
    ensures room { HasRoom slots.now words.new }
    ensures state { state_in words.new ≡ with_value (state_in words.old) place value.now }
{
    match value {
        PlainValue::Number(n) => set_number(slots, words, place, slot, *n),
        PlainValue::Members(set) => set_list(slots, words, place, slot, set.list()),
    }
}
