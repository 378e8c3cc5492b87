//! The layout of a model's states, and the calls that need it.

ghost use Rattle.std.specs.Prelude.{◌≡◌, ◌↔◌, ◌+◌, ◌<◌, ◌≤◌, [], IsTrue, IfOk, OnOk, OnErr, length};
ghost use Rattle.dp_model.specs.declared.whole.Model.{Model as DpModel};
ghost use Rattle.dp_model.specs.Typing.{type_count};
ghost use Rattle.dp_claims.specs.Dominance.{Dominates};
ghost use Rattle.state_layout.specs.Slots.{slot_of, sets_among, rank_after};
ghost use Rattle.state_layout.specs.Signatures.{signature_of, state_words, hash_of, owner_of};
ghost use Rattle.state_layout.specs.Keys.{key_of};
ghost use Rattle.state_layout.specs.Merits.{merit_of};
ghost use Rattle.state_layout.specs.Packing.{state_in, HasFirstRow};
ghost use Rattle.state_layout.specs.Forms.{Fits};
ghost use Rattle.state_layout.specs.Tests.{dominates_by};
ghost use Rattle.state_layout.specs.Conditions.{IsLayoutOf, IsStateOf, IsStateFor, IsPackedOf, IsPackedFor};

use crate::blank::blank_of;
use crate::dominance::are_at_least;
use crate::draft::Draft;
use crate::flat::{
    are_at_least_flat, are_same_flat, flat_hash_of, flat_key_of, flat_signature_key_of,
    has_resource, is_flat,
};
use crate::keys::{key_of, whole_key_of};
use crate::merits::merit_in;
use crate::packed::Packed;
use crate::packing::words_for;
use crate::reading::is_set;
use crate::sames::are_same;
use crate::unpacking::state_of;
use crate::words::{hash_of, whole_hash_of, words_of};
use dp_base::Seq;
use dp_model::{Model as DpModel, ObjectType, PlainState, Preference, VarKind, Variable};
use std::alloc::{AllocError, Global};
use std::marker::Model;

/// What a state keeps of a variable: its kind, how many members the object type has that the kind names (0 for an integer
/// variable), and which of its values dominate others; then how many variables before it hold sets, and how many of all do.
#[derive(Clone, Copy, Debug, PartialEq, Eq)]
pub struct Slot {
    pub kind: VarKind,
    pub count: u32,
    pub preference: Preference,
    pub rank: u32,
    pub sets: u32,
}

/// How the states of a model are packed: a slot for each variable, in order. It knows whether each set has one word, and
/// whether the model has a resource: the calls that a search makes of each state are quicker where sets have one word each, and
/// where there is no resource.
#[derive(Debug, Drop)]
pub struct Layout {
    slots: Vec<Slot>,
    blank: Vec<u64>,
    is_flat: bool,
    has_resource: bool,
}

impl Model for Layout {
    ghost use Rattle.std.specs.Prelude.{List};
    ghost use Rattle.state_layout.specs.declared.layout.Slot.{Slot};

    ghost Value = { List Slot };

    ghost view = { λ l. l.slots.items };

    ghost use Rattle.std.specs.Prelude.{◌≡◌, ◌↔◌, false, IsTrue};
    ghost use Rattle.state_layout.specs.Forms.{HasRoom};
    ghost use Rattle.state_layout.specs.Flat.{IsFlat, HasNoResource};

    ghost invariant = { λ l. HasRoom l.slots.items l.blank.items × (IsTrue l.is_flat ↔ IsFlat l.slots.items) × ((l.has_resource ≡ false) ↔ HasNoResource l.slots.items) };
}

impl Layout {
    /// The layout of a model.
    pub fn of(alloc: Global, model: &DpModel) -> Result<Layout, AllocError>
        ensures { IfOk result (λ layout. IsLayoutOf model.now layout) }
    {
        let slots = slots_for(alloc, model)?;
        let blank = blank_of(alloc, &slots)?;
        let is_flat = is_flat(&slots);
        let has_resource = has_resource(&slots);
        Ok(Layout {
            slots,
            blank,
            is_flat,
            has_resource,
        })
    }

    /// An equal layout.
    pub fn copy(&self, alloc: Global) -> Result<Layout, AllocError>
        ensures { IfOk result (λ layout. layout ≡ self.now) }
    {
        Ok(Layout {
            slots: Vec::from_slice(alloc, &self.slots)?,
            blank: Vec::from_slice(alloc, &self.blank)?,
            is_flat: self.is_flat,
            has_resource: self.has_resource,
        })
    }

    /// A state of the layout's model in packed form.
    pub fn pack(&self, alloc: Global, s: &PlainState) -> Result<Packed, AllocError>
        requires { IsStateFor self.now s.now }
        ensures state { IfOk result (λ p. p ≡ s.now) }
        ensures packed { (m : DpModel) → IsStateOf m s.now → IfOk result (λ p. IsPackedOf m p) }
    {
        Ok(Packed::of(words_for(alloc, &self.slots, &self.blank, s)?))
    }

    /// A draft without variables, in which copies of states may be started. It takes no memory.
    #[inline(always)]
    pub fn no_draft(&self, alloc: Global) -> Draft<'_>
        ensures { result.slots ≡ [] }
    {
        Draft::nothing(alloc)
    }

    /// Makes a draft, whatever it was, a copy of a packed state, in which variables may be set: the state is made where it stands, and
    /// is not handed back by value. On `Err` memory ran out, and the draft is what it was.
    #[inline(always)]
    pub fn start_draft<'l>(
        &'l self,
        alloc: Global,
        draft: &mut Draft<'l>,
        p: &Packed,
    ) -> Result<(), AllocError>
        requires { IsPackedFor self.now p.now }
        ensures started { OnOk result (draft.new ≡ record { slots = self.now; state = p.now }) }
        ensures same { OnErr result (draft.new ≡ draft.old) }
    {
        draft.start(alloc, &self.slots, &self.blank, self.words(p))
    }

    /// A copy of a packed state, in which variables may be set.
    pub fn draft(&self, alloc: Global, p: &Packed) -> Result<Draft<'_>, AllocError>
        requires { IsPackedFor self.now p.now }
        ensures { IfOk result (λ d. d ≡ record { slots = self.now; state = p.now }) }
    {
        Draft::of(alloc, &self.slots, &self.blank, self.words(p))
    }

    /// The slots of the variables.
    pub fn slots(&self) -> &[Slot]
        ensures { result.now ≡ self.now }
    {
        &self.slots
    }

    /// The words of a packed state.
    pub fn words<'p>(&self, p: &'p Packed) -> &'p [u64]
        requires { IsPackedFor self.now p.now }
        ensures state { state_in result.now ≡ p.now }
        ensures fits { Fits self.now result.now }
        ensures row { HasFirstRow result.now }
    {
        p.words()
    }

    /// The state that was packed.
    pub fn unpack(&self, alloc: Global, p: &Packed) -> Result<PlainState, AllocError>
        requires { IsPackedFor self.now p.now }
        ensures state { IfOk result (λ s. s ≡ p.now) }
        ensures unpacked { (m : DpModel) → IsPackedOf m p.now → IfOk result (λ s. IsStateOf m s) }
    {
        state_of(alloc, self.slots(), self.words(p))
    }

    /// Whether two packed states are the same state. It takes no memory.
    #[inline(always)]
    pub fn same(&self, a: &Packed, b: &Packed) -> bool
        requires left { IsPackedFor self.now a.now }
        requires right { IsPackedFor self.now b.now }
        ensures { IsTrue result ↔ (a.now ≡ b.now) }
    {
        if self.is_flat {
            are_same_flat(self.slots(), self.words(a), self.words(b))
        } else {
            are_same(self.slots(), self.words(a), self.words(b))
        }
    }

    /// The words of the values of all variables but the resources, in order of definition: one for an integer variable (in
    /// two's complement) or an element variable; for a set one for each 64 members of its object type, rounded up, with
    /// member m as bit m mod 64 of word m div 64. States of which one dominates the other have one signature.
    pub fn signature(&self, alloc: Global, p: &Packed) -> Result<Seq<u64>, AllocError>
        requires { IsPackedFor self.now p.now }
        ensures { IfOk result (λ words. words ≡ signature_of self.now p.now) }
    {
        Ok(Seq::of(words_of(alloc, self.slots(), self.words(p))?))
    }

    /// FNV-1a of 64 bits over the bytes of a state's signature, each word's low byte first. States of which one dominates the
    /// other have one such hash. It takes no memory.
    pub fn signature_hash(&self, p: &Packed) -> u64
        requires { IsPackedFor self.now p.now }
        ensures { result ≡ hash_of (signature_of self.now p.now) }
    {
        if self.has_resource {
            hash_of(self.slots(), self.words(p))
        } else {
            self.state_hash(p)
        }
    }

    /// The same over the words of all values, those of resources too. It takes no memory.
    pub fn state_hash(&self, p: &Packed) -> u64
        requires { IsPackedFor self.now p.now }
        ensures { result ≡ hash_of (state_words self.now p.now) }
    {
        if self.is_flat {
            flat_hash_of(self.slots(), self.words(p))
        } else {
            whole_hash_of(self.slots(), self.words(p))
        }
    }

    /// A key of a state's signature, cheaper than the hash over it. It takes no memory.
    #[inline(always)]
    pub fn signature_key(&self, p: &Packed) -> u64
        requires { IsPackedFor self.now p.now }
        ensures { result ≡ key_of (signature_of self.now p.now) }
    {
        if !self.has_resource {
            self.state_key(p)
        } else if self.is_flat {
            flat_signature_key_of(self.slots(), self.words(p))
        } else {
            key_of(self.slots(), self.words(p))
        }
    }

    /// The same of the words of all values. It takes no memory.
    #[inline(always)]
    pub fn state_key(&self, p: &Packed) -> u64
        requires { IsPackedFor self.now p.now }
        ensures { result ≡ key_of (state_words self.now p.now) }
    {
        if self.is_flat {
            flat_key_of(self.slots(), self.words(p))
        } else {
            whole_key_of(self.slots(), self.words(p))
        }
    }

    /// How good a state is by its first resource: the value of this variable, or -1 less it where less is better; 0 in a
    /// model without resources. A state that dominates another has no lesser merit. It takes no memory.
    #[inline(always)]
    pub fn merit(&self, p: &Packed) -> i64
        requires { IsPackedFor self.now p.now }
        ensures { result ≡ merit_of self.now p.now }
    {
        if self.has_resource {
            merit_in(self.slots(), self.words(p))
        } else {
            0
        }
    }

    /// Which of so many shards owns a state: the hash over its signature, modulo their number. It takes no memory.
    pub fn owner(&self, p: &Packed, shards: u32) -> u32
        requires packed { IsPackedFor self.now p.now }
        requires shards { 1 ≤ shards }
        ensures { result ≡ owner_of self.now p.now shards }
    {
        (self.signature_hash(p) % shards as u64) as u32
    }

    /// Whether a state dominates another: it has the same values on all variables but the resources, and is at least as
    /// good on each resource. Each state dominates itself. It takes no memory.
    #[inline(always)]
    pub fn dominates(&self, a: &Packed, b: &Packed) -> bool
        requires left { IsPackedFor self.now a.now }
        requires right { IsPackedFor self.now b.now }
        ensures test { result ≡ dominates_by self.now a.now b.now }
        ensures dominates { (m : DpModel) → IsLayoutOf m self.now → IsTrue result ↔ Dominates m a.now b.now }
    {
        if !self.has_resource {
            self.same(a, b)
        } else if self.is_flat {
            are_at_least_flat(self.slots(), self.words(a), self.words(b))
        } else {
            are_at_least(self.slots(), self.words(a), self.words(b))
        }
    }
}

/// A slot for each variable of a model, in order.
fn slots_for(alloc: Global, model: &DpModel) -> Result<Vec<Slot>, AllocError>
    ensures { IfOk result (λ slots. IsLayoutOf model.now slots.items) }
{
    let variables = model.variables().list();
    let sets = sets_among(variables);
    let mut slots = Vec::with_capacity(alloc, variables.len())?;
    let mut rank = 0;
    for variable in variables {
        let slot = slot_for(model.objects(), sets, rank, variable);
        rank = rank_after(rank, slot.kind);
        slots.push(slot)?;
    }
    Ok(slots)
}

/// How many of the variables hold sets.
fn sets_among(variables: &[Variable]) -> u32
    requires { length variables.now ≤ 1024 }
    ensures { result ≡ sets_among variables.now }
{
    let mut sets = 0;
    for variable in variables {
        sets = rank_after(sets, variable.kind());
    }
    sets
}

/// How many sets come before the next variable.
fn rank_after(rank: u32, kind: VarKind) -> u32
    requires { rank < 1024 }
    ensures value { result ≡ rank_after rank kind }
    ensures most { result ≤ rank + 1 }
{
    if is_set(kind) { rank + 1 } else { rank }
}

/// The slot of a variable, where so many variables hold sets and so many of these come before it.
fn slot_for(objects: &Seq<ObjectType>, sets: u32, rank: u32, variable: &Variable) -> Slot
    ensures { result ≡ slot_of objects.now sets rank variable.now }
{
    let kind = variable.kind();
    let count = match kind {
        VarKind::Element(object) | VarKind::Set(object) => member_count(objects, object),
        VarKind::Integer => 0,
    };
    Slot {
        kind,
        count,
        preference: variable.preference(),
        rank,
        sets,
    }
}

// how many members an object type has
fn member_count(objects: &Seq<ObjectType>, object: u32) -> u32
    ensures { result ≡ type_count objects.now object }
{
    match objects.list().get(object as usize) {
        Some(known) => known.count(),
        None => 0,
    }
}
