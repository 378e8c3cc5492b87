//! The words of a state with nothing in it.

ghost use Rattle.std.specs.Prelude.{◌≡◌, ℕ, ◌+◌, ◌-◌, ◌*◌, ◌/◌, ◌%◌, ◌^◌, ◌<◌, ◌≤◌, if◌then◌else◌, bit_or, IfOk, length, max, slice_index, slice_set};
ghost use Rattle.state_layout.specs.Signatures.{word_count};
ghost use Rattle.state_layout.specs.Packing.{head_of, is_set};
ghost use Rattle.state_layout.specs.Forms.{AreRanked, HasRoom, HasRows, Marked, sets_before};

use crate::layout::Slot;
use crate::packed::IN_PLACE;
use crate::reading::{is_set, word_count};
use std::alloc::{AllocError, Global};

/// The words of a state whose numbers are 0 and whose sets are empty, with a place for each word of each variable.
pub(crate) fn blank_of(alloc: Global, slots: &[Slot]) -> Result<Vec<u64>, AllocError>
    requires few { length slots.now < 65536 }
    requires ranked { AreRanked slots.now }
    ensures { IfOk result (λ blank. HasRoom slots.now blank.items) }
{
    let len = blank_len(slots.len(), sets_of(slots), rows_of(slots));
    let mut blank = vec![in alloc; 0u64; len]?;
    mark_all(slots, blank.as_mut_slice());
    Ok(blank)
}

/// How many words they are: no fewer than stand in a state itself.
fn blank_len(count: usize, sets: u32, rows: u32) -> usize
    requires few { count < 65536 }
    requires rows { 1 ≤ rows }
    requires most { rows ≤ 67108864 }
    ensures { head_of count + count + (rows - 1) * sets ≤ result }
{
    let len = (count + 79) / 64 + count + (rows - 1) as usize * sets as usize;
    len.max(IN_PLACE)
}

/// How many variables hold sets.
fn sets_of(slots: &[Slot]) -> u32
    requires { AreRanked slots.now }
    ensures { result ≡ sets_before slots.now (length slots.now) }
{
    if slots.is_empty() {
        return 0;
    }
    slots[0].sets
}

/// How many rows the longest set takes.
fn rows_of(slots: &[Slot]) -> u32
    ensures { HasRows slots.now (length slots.now) result }
{
    let mut rows = 1;
    for place in 0..slots.len() {
        rows = with_rows(rows, slots[place]);
    }
    rows
}

fn with_rows(rows: u32, slot: Slot) -> u32
    requires { rows ≤ 67108864 }
    ensures value { result ≡ (if is_set slot.kind then max rows (word_count slot.count) else rows) }
    ensures few { result ≤ 67108864 }
{
    if is_set(slot.kind) {
        rows.max(rows_for(slot.count))
    } else {
        rows
    }
}

fn rows_for(count: u32) -> u32
    ensures value { result ≡ word_count count }
    ensures few { result ≤ 67108864 }
{
    word_count(count)
}

/// Writes the head.
fn mark_all(slots: &[Slot], words: &mut [u64])
    requires few { length slots.now < 65536 }
    requires zero { (k : ℕ) → slice_index words.old k ≡ 0 }
    requires room { head_of (length slots.now) ≤ length words.old }
    ensures len { length words.new ≡ length words.old }
    ensures marked { Marked slots.now (length slots.now) words.new }
{
    words[0] = slots.len() as u64;
    for place in 0..slots.len() {
        mark(words, place, slots[place]);
    }
}

fn mark(words: &mut [u64], place: usize, slot: Slot)
    requires few { place < 65536 }
    requires room { 16 + place < 64 * length words.old }
    ensures { words.new ≡ (if is_set slot.kind then slice_set words.old ((16 + place) / 64) (bit_or (slice_index words.old ((16 + place) / 64)) (1 * 2 ^ ((16 + place) % 64) % 2 ^ 64)) else words.old) }
{
    if is_set(slot.kind) {
        words[(16 + place) / 64] |= 1 << ((16 + place) % 64);
    }
}
