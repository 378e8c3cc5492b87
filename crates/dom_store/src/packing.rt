//! Places at which no node stands are taken away. The nodes stay in their order. No call takes memory.

ghost use Rattle.std.specs.Prelude.{◌≡◌, ℕ, ◌+◌, ◌<◌, ◌≤◌, false, length};
ghost use Rattle.std.specs.BinaryHeap.{heap_items, heap_capacity};
ghost use Rattle.state_layout.specs.declared.layout.Layout.{Layout};
ghost use Rattle.state_layout.specs.declared.node.Node.{Node};
ghost use Rattle.dom_store.specs.Chains.{row_in};
ghost use Rattle.dom_store.specs.Packing.{ComeFrom};
ghost use Rattle.dom_store.specs.Places.{nodes_of, StandsAt, IsKept};
ghost use Rattle.dom_store.specs.Staircases.{AreIndexed, AreStaircases};
ghost use Rattle.dom_store.specs.Waiting.{IsQueue};

use crate::chains::Chains;
use crate::covers::Covers;
use crate::glance::Glance;
use crate::queue::refill;
use crate::staircases::Staircases;
use state_layout::Node;
use std::cmp::Reverse;
use std::collections::BinaryHeap;

// of fewer places none are taken away
const FEW: usize = 64;

/// Whether it is worth to take empty places away: there is no room for one place more, and no more than half of the places have nodes.
pub(crate) fn is_sparse(places: &Vec<Option<Node>>, count: usize) -> bool {
    places.len() >= FEW && places.len() == places.capacity() && count <= places.len() / 2
}

/// Takes the empty places away. No row has steps then.
#[inline(never)]
pub(crate) fn pack_places<K: Covers>(
    chains: &mut Chains,
    staircases: &mut Staircases,
    places: &mut Vec<Option<Node>>,
    glances: &mut Vec<Glance>,
    queued: bool,
    queue: &mut BinaryHeap<Reverse<(u64, (u64, usize))>>,
)
    requires level { length glances.old.items ≡ length places.old.items }
    requires linked { length chains.old.links.items ≡ length places.old.items }
    requires index { AreIndexed (row_in staircases.old.chains.heads.items staircases.old.chains.links.items) (length staircases.old.chains.links.items) staircases.old.stairs.items }
    requires room { length (nodes_of places.old.items) ≤ heap_capacity queue.old }
    ensures kept { (layout : Layout) (count : ℕ) → IsKept K.prune K.minimize K.operator layout (row_in chains.old.heads.items chains.old.links.items) (length chains.old.links.items) places.old.items glances.old.items count
        → IsKept K.prune K.minimize K.operator layout (row_in chains.new.heads.items chains.new.links.items) (length chains.new.links.items) places.new.items glances.new.items count }
    ensures steps { (layout : Layout) → AreStaircases K.prune K.minimize K.operator layout (row_in staircases.new.chains.heads.items staircases.new.chains.links.items) (length staircases.new.chains.links.items) staircases.new.stairs.items places.new.items }
    ensures queue { IsQueue K.minimize K.operator queued (heap_items queue.new) places.new.items }
    ensures nodes { nodes_of places.new.items ≡ nodes_of places.old.items }
{
    let count = move_together(chains, places, glances);
    places.truncate(count);
    glances.truncate(count);
    chains.keep_first(count);
    staircases.clear();
    refill::<K>(queued, queue, places);
}

// moves the nodes, in their order, to the first places, and tells how many they are
fn move_together(
    chains: &mut Chains,
    places: &mut Vec<Option<Node>>,
    glances: &mut Vec<Glance>,
) -> usize
    requires level { length glances.old.items ≡ length places.old.items }
    requires linked { length chains.old.links.items ≡ length places.old.items }
    ensures nodes { nodes_of places.new.items ≡ nodes_of places.old.items }
    ensures from { ComeFrom places.old.items glances.old.items chains.old.links.items places.new.items glances.new.items chains.new.links.items }
    ensures within { result ≤ length places.new.items }
    ensures behind { (p : ℕ) (n : Node) → result ≤ p → StandsAt places.new.items p n → ⊥ }
    ensures level { length glances.new.items ≡ length places.new.items }
    ensures linked { length chains.new.links.items ≡ length places.new.items }
    ensures buckets { length chains.new.heads.items ≡ length chains.old.heads.items }
{
    let mut count = 0;
    for place in 0..places.len() {
        count = move_there(chains, places, glances, place, count);
    }
    count
}

// moves what stands at a place to another, behind which no node stands up to that place, if a node stands there; it tells behind which
// places none stands then
fn move_there(
    chains: &mut Chains,
    places: &mut Vec<Option<Node>>,
    glances: &mut Vec<Glance>,
    from: usize,
    to: usize,
) -> usize
    requires within { from < length places.old.items }
    requires low { to ≤ from }
    requires level { length glances.old.items ≡ length places.old.items }
    requires linked { length chains.old.links.items ≡ length places.old.items }
    requires empty { (p : ℕ) (n : Node) → to ≤ p → p < from → StandsAt places.old.items p n → ⊥ }
    ensures nodes { nodes_of places.new.items ≡ nodes_of places.old.items }
    ensures from { ComeFrom places.old.items glances.old.items chains.old.links.items places.new.items glances.new.items chains.new.links.items }
    ensures low { result ≤ from + 1 }
    ensures empty { (p : ℕ) (n : Node) → result ≤ p → p < from + 1 → StandsAt places.new.items p n → ⊥ }
    ensures long { length places.new.items ≡ length places.old.items }
    ensures level { length glances.new.items ≡ length glances.old.items }
    ensures linked { length chains.new.links.items ≡ length chains.old.links.items }
    ensures buckets { length chains.new.heads.items ≡ length chains.old.heads.items }
{
    if !is_there_at(places, from) {
        return to;
    }
    move_node(chains, places, glances, from, to);
    to + 1
}

// whether a node stands at a place
fn is_there_at(places: &[Option<Node>], place: usize) -> bool
    requires { place < length places.now }
    ensures { result ≡ false → (n : Node) → StandsAt places.now place n → ⊥ }
{
    match &places[place] {
        Some(_) => true,
        None => false,
    }
}

// moves what stands at a place, with its glance and its key, to another, behind which no node stands up to that place
fn move_node(
    chains: &mut Chains,
    places: &mut Vec<Option<Node>>,
    glances: &mut Vec<Glance>,
    from: usize,
    to: usize,
)
    requires within { from < length places.old.items }
    requires low { to ≤ from }
    requires level { length glances.old.items ≡ length places.old.items }
    requires linked { length chains.old.links.items ≡ length places.old.items }
    requires empty { (p : ℕ) (n : Node) → to ≤ p → p < from → StandsAt places.old.items p n → ⊥ }
    ensures nodes { nodes_of places.new.items ≡ nodes_of places.old.items }
    ensures from { ComeFrom places.old.items glances.old.items chains.old.links.items places.new.items glances.new.items chains.new.links.items }
    ensures empty { (p : ℕ) (n : Node) → to < p → p ≤ from → StandsAt places.new.items p n → ⊥ }
    ensures long { length places.new.items ≡ length places.old.items }
    ensures level { length glances.new.items ≡ length glances.old.items }
    ensures linked { length chains.new.links.items ≡ length chains.old.links.items }
    ensures buckets { length chains.new.heads.items ≡ length chains.old.heads.items }
{
    let node = places[from].take();
    places[to] = node;
    glances[to] = glances[from];
    chains.copy_key(from, to);
}
