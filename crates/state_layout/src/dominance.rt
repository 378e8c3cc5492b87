//! Whether a state is at least as good as another on each variable. No call takes memory.

ghost use Rattle.std.specs.Prelude.{◌≡◌, ◌<◌};
ghost use Rattle.state_layout.specs.Packing.{count_in, value_in, state_in};
ghost use Rattle.state_layout.specs.Forms.{HoldsSlot, Fits};
ghost use Rattle.state_layout.specs.Tests.{is_at_most, is_at_least, are_at_least};

use crate::layout::Slot;
use crate::reading::{are_same_sets, is_set, number_in};
use crate::sames::is_same_value;
use dp_model::Preference;

#[inline(never)]
pub(crate) fn are_at_least(slots: &[Slot], a: &[u64], b: &[u64]) -> bool
    requires left { Fits slots.now a.now }
    requires right { Fits slots.now b.now }
    ensures { result ≡ are_at_least slots.now (state_in a.now).values (state_in b.now).values }
{
    let count = slots.len();
    for place in 0..count {
        if !is_at_least(a, b, count, place, slots[place]) {
            return false;
        }
    }
    true
}

fn is_at_least(a: &[u64], b: &[u64], count: usize, place: usize, slot: Slot) -> bool
    requires count { (count ≡ count_in a.now) × (count ≡ count_in b.now) }
    requires few { count < 65536 }
    requires left { HoldsSlot slot a.now place }
    requires right { HoldsSlot slot b.now place }
    ensures { result ≡ is_at_least slot.preference (value_in a.now place) (value_in b.now place) }
{
    match slot.preference {
        Preference::Without => is_same_value(a, b, count, place, slot),
        Preference::Less => is_at_most(a, b, count, place, slot),
        Preference::Greater => is_at_most(b, a, count, place, slot),
    }
}

fn is_at_most(a: &[u64], b: &[u64], count: usize, place: usize, slot: Slot) -> bool
    requires count { (count ≡ count_in a.now) × (count ≡ count_in b.now) }
    requires few { count < 65536 }
    requires left { HoldsSlot slot a.now place }
    requires right { HoldsSlot slot b.now place }
    ensures { result ≡ is_at_most (value_in a.now place) (value_in b.now place) }
{
    if is_set(slot.kind) {
        are_same_sets(a, b, count, place, slot)
    } else {
        number_in(a, count, place) <= number_in(b, count, place)
    }
}
