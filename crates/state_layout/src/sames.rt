//! Whether states are the same. No call takes memory.

ghost use Rattle.std.specs.Prelude.{◌≡◌, ◌<◌, ◌↔◌, IsTrue};
ghost use Rattle.state_layout.specs.Packing.{count_in, value_in, state_in};
ghost use Rattle.state_layout.specs.Forms.{HoldsSlot, Fits};

use crate::layout::Slot;
use crate::reading::{are_same_sets, is_set, number_in};

/// States of the same words are the same at once.
#[inline(never)]
pub(crate) fn are_same(slots: &[Slot], a: &[u64], b: &[u64]) -> bool
    requires left { Fits slots.now a.now }
    requires right { Fits slots.now b.now }
    ensures { IsTrue result ↔ (state_in a.now ≡ state_in b.now) }
{
    a == b || are_same_values(slots, a, b)
}

fn are_same_values(slots: &[Slot], a: &[u64], b: &[u64]) -> bool
    requires left { Fits slots.now a.now }
    requires right { Fits slots.now b.now }
    ensures { IsTrue result ↔ (state_in a.now ≡ state_in b.now) }
{
    let count = slots.len();
    for place in 0..count {
        if !is_same_value(a, b, count, place, slots[place]) {
            return false;
        }
    }
    true
}

pub(crate) fn is_same_value(a: &[u64], b: &[u64], count: usize, place: usize, slot: Slot) -> bool
    requires count { (count ≡ count_in a.now) × (count ≡ count_in b.now) }
    requires few { count < 65536 }
    requires left { HoldsSlot slot a.now place }
    requires right { HoldsSlot slot b.now place }
    ensures { IsTrue result ↔ (value_in a.now place ≡ value_in b.now place) }
{
    if is_set(slot.kind) {
        are_same_sets(a, b, count, place, slot)
    } else {
        number_in(a, count, place) == number_in(b, count, place)
    }
}
