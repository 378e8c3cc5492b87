//! A state that is being made.

ghost use Rattle.std.specs.Prelude.{◌≡◌, ℕ, ◌<◌, ◌≤◌, [], ◌∷◌, true, false, IfOk, OnOk, OnErr, length, slice_index, slice_index_or};
ghost use Rattle.bit_sets.specs.Sets.{has_bit, members_of};
ghost use Rattle.dp_model.specs.declared.parts.PlainValue.TheVariants.{Number, Members};
ghost use Rattle.state_layout.specs.Signatures.{word_count};
ghost use Rattle.state_layout.specs.Packing.{state_in, is_set};
ghost use Rattle.state_layout.specs.Forms.{Fits, HasRoom, with_value};

use crate::layout::Slot;
use crate::packed::{IN_PLACE, Packed, Words, words_like};
use crate::writing;
use smallvec::SmallVec;
use std::alloc::{AllocError, Global};
use std::marker::Model;

/// A state that is being made: a copy of another, in which variables are set one by one. Contracts see the layout's slots and
/// the state so far.
#[derive(Drop)]
pub struct Draft<'l> {
    slots: &'l [Slot],
    words: Words,
}

impl<'l> Model for Draft<'l> {
    ghost use Rattle.state_layout.specs.Drafts.{DraftState};

    ghost Value = { DraftState };

    ghost use Rattle.state_layout.specs.Packing.{state_in};
    ghost use Rattle.state_layout.specs.Forms.{HasRoom};

    ghost view = { λ d. record { slots = d.slots.now; state = state_in d.words.items } };

    ghost invariant = { λ d. HasRoom d.slots.now d.words.items };
}

impl<'l> Draft<'l> {
    /// A copy of the state of the words.
    #[inline(never)]
    pub(crate) fn of(
        alloc: Global,
        slots: &'l [Slot],
        blank: &[u64],
        words: &[u64],
    ) -> Result<Draft<'l>, AllocError>
        requires blank { HasRoom slots.now blank.now }
        requires fits { Fits slots.now words.now }
        ensures { IfOk result (λ d. d ≡ record { slots = slots.now; state = state_in words.now }) }
    {
        Ok(Draft {
            slots,
            words: renewed(alloc, slots, blank, words)?,
        })
    }

    /// A draft of a state without variables, to be started. It takes no memory.
    #[inline(always)]
    #[tactic(auto, using(crate::proofs::Carrying::no_room))]
    pub(crate) fn nothing(alloc: Global) -> Draft<'l>
        ensures { result.slots ≡ [] }
    {
        Draft {
            slots: &[],
            words: SmallVec::from_buf(alloc, [0; IN_PLACE]),
        }
    }

    /// Becomes a copy of the state of the words, of the layout with these slots. Five words, as nearly every state has, are
    /// copied where they go. On `Err` memory ran out, and the draft is what it was.
    #[inline(always)]
    #[tactic(auto, using(crate::proofs::Carrying::whole_room, crate::proofs::Carrying::five))]
    pub(crate) fn start(
        &mut self,
        alloc: Global,
        slots: &'l [Slot],
        blank: &[u64],
        words: &[u64],
    ) -> Result<(), AllocError>
        requires blank { HasRoom slots.now blank.now }
        requires fits { Fits slots.now words.now }
        ensures started { OnOk result (self.new ≡ record { slots = slots.now; state = state_in words.now }) }
        ensures same { OnErr result (self.new ≡ self.old) }
    {
        if words.len() == 5 && blank.len() == 5 {
            let five = [words[0], words[1], words[2], words[3], words[4]];
            self.slots = slots;
            self.words = SmallVec::from_buf(alloc, five);
            return Ok(());
        }
        *self = Draft::of(alloc, slots, blank, words)?;
        Ok(())
    }

    /// Sets a variable that holds a number.
    #[inline(always)]
    pub fn set_number(&mut self, place: usize, number: i64)
        requires place { place < length self.old.slots }
        requires kind { (slot : Slot) → slot ≡ slice_index_or self.old.slots place slot → is_set slot.kind ≡ false }
        ensures { self.new ≡ record { slots = self.old.slots; state = with_value self.old.state place (Number number) } }
    {
        let slots = self.slots;
        writing::set_number(
            slots,
            self.words.as_mut_slice(),
            place,
            slots[place],
            number,
        );
    }

    /// Sets a variable that holds a set, to one in words.
    pub fn set_members(&mut self, place: usize, set: &[u64])
        requires place { place < length self.old.slots }
        requires kind { (slot : Slot) → slot ≡ slice_index_or self.old.slots place slot → is_set slot.kind ≡ true }
        requires len { (slot : Slot) → slot ≡ slice_index_or self.old.slots place slot → length set.now ≡ word_count slot.count }
        requires below { (slot : Slot) (m : ℕ) → slot ≡ slice_index_or self.old.slots place slot → slot.count ≤ m → has_bit set.now m ≡ false }
        ensures { self.new ≡ record { slots = self.old.slots; state = with_value self.old.state place (Members (members_of set.now)) } }
    {
        let slots = self.slots;
        writing::set_members(slots, self.words.as_mut_slice(), place, slots[place], set);
    }

    /// Sets a variable that holds a set over at most 64 members, to one in a word.
    #[inline(always)]
    pub fn set_word(&mut self, place: usize, set: u64)
        requires place { place < length self.old.slots }
        requires kind { (slot : Slot) → slot ≡ slice_index_or self.old.slots place slot → is_set slot.kind ≡ true }
        requires one { (slot : Slot) → slot ≡ slice_index_or self.old.slots place slot → word_count slot.count ≡ 1 }
        requires below { (slot : Slot) (m : ℕ) → slot ≡ slice_index_or self.old.slots place slot → slot.count ≤ m → has_bit (set ∷ []) m ≡ false }
        ensures { self.new ≡ record { slots = self.old.slots; state = with_value self.old.state place (Members (members_of (set ∷ []))) } }
    {
        let slots = self.slots;
        writing::set_one(slots, self.words.as_mut_slice(), place, slots[place], set);
    }

    /// The state that was made.
    #[inline(always)]
    pub fn done(self) -> Packed
        ensures { result ≡ self.entry.state }
    {
        let Draft { slots: _, words } = self;
        Packed::of(words)
    }
}

/// Words of the same state, with a place for each word of each variable. Nearly every state has as many words as the blank,
/// and is copied as it is.
#[inline(always)]
#[tactic(auto, using(crate::proofs::Carrying::whole_room))]
fn renewed(alloc: Global, slots: &[Slot], blank: &[u64], words: &[u64]) -> Result<Words, AllocError>
    requires blank { HasRoom slots.now blank.now }
    requires fits { Fits slots.now words.now }
    ensures room { IfOk result (λ new. HasRoom slots.now new.items) }
    ensures state { IfOk result (λ new. state_in new.items ≡ state_in words.now) }
{
    if words.len() == blank.len() {
        let new = words_like(alloc, words)?;
        Ok(new)
    } else {
        widened(alloc, slots, blank, words)
    }
}

/// The same, where there are more places than words.
#[inline(never)]
fn widened(alloc: Global, slots: &[Slot], blank: &[u64], words: &[u64]) -> Result<Words, AllocError>
    requires blank { HasRoom slots.now blank.now }
    requires fits { Fits slots.now words.now }
    ensures room { IfOk result (λ new. HasRoom slots.now new.items) }
    ensures state { IfOk result (λ new. state_in new.items ≡ state_in words.now) }
{
    let mut new = SmallVec::from_slice(alloc, blank)?;
    carry(slots, new.as_mut_slice(), words);
    Ok(new)
}

/// Copies the words that there is a place for.
fn carry(slots: &[Slot], new: &mut [u64], words: &[u64])
    requires room { HasRoom slots.now new.old }
    requires fits { Fits slots.now words.now }
    ensures room { HasRoom slots.now new.new }
    ensures state { state_in new.new ≡ state_in words.now }
{
    for place in 0..new.len() {
        new[place] = if place < words.len() { words[place] } else { 0 };
    }
}
