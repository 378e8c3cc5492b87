//! What expressions are evaluated in, and what it has for variables and parameters.

ghost use Rattle.std.specs.Prelude.{◌≡◌, ◌≤◌, ◌<◌, ◌*◌, true, pos, slice_get, slice_index, length, nat_le, IsTrue};
ghost use Rattle.std.specs.List.{filter};
ghost use Rattle.bit_sets.specs.Sets.{members_of, has};
ghost use Rattle.dp_model.specs.Typing.{is_number_kind, is_set_kind, kind_at};
ghost use Rattle.dp_model.specs.Evaluation.{count_of, kind_of, object_of_kind, number_in, set_in};
ghost use Rattle.state_layout.specs.Signatures.{word_count};
ghost use Rattle.state_layout.specs.Packing.{is_set, state_in};
ghost use Rattle.state_layout.specs.Forms.{HoldsSlot};
ghost use Rattle.packed_words.specs.Scenes.{Shows, AreSmall};
ghost use Rattle.packed_words.specs.Tables.{AreTablesOf};
ghost use Rattle.packed_words.specs.Sets.{IsClean, one_word, members_from};

use crate::sets::words_for;
use crate::tables::Tables;
use dp_model::Model;
use state_layout::{Slot, first_word, word_in};

/// A state of a model in words, and the values of the parameters in force.
#[derive(Clone, Copy)]
pub struct Scene<'a> {
    pub model: &'a Model,
    pub tables: &'a Tables,
    pub slots: &'a [Slot],
    pub words: &'a [u64],
    pub args: &'a [u64],
    pub ghost flat: { AreTablesOf model.now tables.now },
    pub ghost shown: { Shows model.now slots.now words.now },
    pub ghost small: { AreSmall args.now },
}

/// The number that a variable holds.
pub fn number_in(at: &Scene<'_>, v: u32) -> i64
    requires { IsTrue (is_number_kind (kind_at at.now.model.now.variables v)) }
    ensures { result ≡ number_in (state_in at.now.words.now) v }
{
    state_layout::number_in(at.words, at.slots.len(), v as usize)
}

/// The value of a parameter.
pub fn parameter(at: &Scene<'_>, p: u32) -> i64
    requires { p < length at.now.args.now }
    ensures { result ≡ pos (slice_index at.now.args.now p) }
{
    at.args[p as usize] as i64
}

/// The slot of a variable that holds a set.
pub fn set_slot(at: &Scene<'_>, v: u32) -> Slot
    requires { IsTrue (is_set_kind (kind_at at.now.model.now.variables v)) }
    ensures held { HoldsSlot result at.now.words.now v }
    ensures kind { is_set result.kind ≡ true }
    ensures count { result.count ≡ count_of at.now.model.now (object_of_kind (kind_of at.now.model.now v)) }
    ensures few { result.count ≤ 4096 }
{
    at.slots[v as usize]
}

/// The one word of the set that a variable holds.
pub fn word_of(at: &Scene<'_>, v: u32) -> u64
    requires kind { IsTrue (is_set_kind (kind_at at.now.model.now.variables v)) }
    requires few { count_of at.now.model.now (object_of_kind (kind_of at.now.model.now v)) ≤ 64 }
    ensures members { members_of (one_word result) ≡ set_in (state_in at.now.words.now) v }
    ensures clean { IsClean (count_of at.now.model.now (object_of_kind (kind_of at.now.model.now v))) (one_word result) }
{
    first_word(at.words, at.slots.len(), v as usize)
}

/// Writes the set that a variable holds.
pub fn copy_set(at: &Scene<'_>, v: u32, out: &mut [u64])
    requires kind { IsTrue (is_set_kind (kind_at at.now.model.now.variables v)) }
    requires len { length out.old ≡ word_count (count_of at.now.model.now (object_of_kind (kind_of at.now.model.now v))) }
    ensures len { length out.new ≡ length out.old }
    ensures members { members_of out.new ≡ set_in (state_in at.now.words.now) v }
    ensures clean { IsClean (count_of at.now.model.now (object_of_kind (kind_of at.now.model.now v))) out.new }
{
    let slot = set_slot(at, v);
    for number in 0..out.len() {
        out[number] = word_in(at.words, at.slots.len(), v as usize, slot, number as u32);
    }
}

/// Whether the set that a variable holds has a member.
pub fn has_in(at: &Scene<'_>, v: u32, member: u32) -> bool
    requires { IsTrue (is_set_kind (kind_at at.now.model.now.variables v)) }
    ensures { result ≡ has (set_in (state_in at.now.words.now) v) member }
{
    let slot = set_slot(at, v);
    let word = word_in(at.words, at.slots.len(), v as usize, slot, member / 64);
    word >> (member % 64) & 1 == 1
}

/// The first member, not below a number, of the set that a variable holds.
pub fn next_in(at: &Scene<'_>, v: u32, from: u32) -> Option<u32>
    requires { IsTrue (is_set_kind (kind_at at.now.model.now.variables v)) }
    ensures { result ≡ slice_get (members_from from (set_in (state_in at.now.words.now) v)) 0 }
{
    let slot = set_slot(at, v);
    let number = from / 64;
    if number as usize >= words_for(slot.count) {
        return None;
    }
    let word = word_in(at.words, at.slots.len(), v as usize, slot, number);
    let rest = word >> (from % 64);
    if rest != 0 {
        return Some(from + rest.trailing_zeros());
    }
    first_after(at, v, slot, number + 1)
}

/// The first member in the words from one on.
fn first_after(at: &Scene<'_>, v: u32, slot: Slot, number: u32) -> Option<u32>
    requires held { HoldsSlot slot at.now.words.now v }
    requires kind { is_set slot.kind ≡ true }
    requires few { slot.count ≤ 4096 }
    ensures { result ≡ slice_get (members_from (64 * number) (set_in (state_in at.now.words.now) v)) 0 }
{
    for k in number..words_for(slot.count) as u32 {
        let word = word_in(at.words, at.slots.len(), v as usize, slot, k);
        if word != 0 {
            return Some(64 * k + word.trailing_zeros());
        }
    }
    None
}
