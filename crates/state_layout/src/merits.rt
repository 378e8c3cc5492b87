//! How good a state is by its first resource. No call takes memory.

ghost use Rattle.std.specs.Prelude.{◌≡◌, ◌<◌};
ghost use Rattle.state_layout.specs.Packing.{count_in, value_in, state_in};
ghost use Rattle.state_layout.specs.Forms.{HoldsSlot, Fits};
ghost use Rattle.state_layout.specs.Merits.{value_merit, merit_in};
ghost use Rattle.dp_model.specs.declared.parts.PlainValue.TheVariants.{Number};

use crate::layout::Slot;
use crate::reading::{is_set, number_in};
use dp_model::Preference;

/// The merit of the first resource, and 0 where there is none.
#[inline(never)]
pub(crate) fn merit_in(slots: &[Slot], words: &[u64]) -> i64
    requires { Fits slots.now words.now }
    ensures { result ≡ merit_in slots.now (state_in words.now).values }
{
    let count = slots.len();
    for place in 0..count {
        if let Some(merit) = value_merit(words, count, place, slots[place]) {
            return merit;
        }
    }
    0
}

fn value_merit(words: &[u64], count: usize, place: usize, slot: Slot) -> Option<i64>
    requires count { count ≡ count_in words.now }
    requires few { count < 65536 }
    requires held { HoldsSlot slot words.now place }
    ensures { result ≡ value_merit slot.preference (value_in words.now place) }
{
    if is_set(slot.kind) {
        return None;
    }
    number_merit(slot.preference, number_in(words, count, place))
}

fn number_merit(preference: Preference, number: i64) -> Option<i64>
    ensures { result ≡ value_merit preference (Number number) }
{
    match preference {
        Preference::Without => None,
        Preference::Less => Some(-1 - number),
        Preference::Greater => Some(number),
    }
}
