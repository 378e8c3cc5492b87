//! The staircases of a past's long rows. A step here stands for all of its row that may cover no more than it may, and which rows have
//! steps is no matter of what a past covers.

ghost use Rattle.std.specs.Prelude.{◌≡◌, ℕ, ℤ, pos, true, length, slice_get, Some, IfSome};
ghost use Rattle.dp_claims.specs.Enough.{Has};
ghost use Rattle.dp_model.specs.Costs.{order_word};
ghost use Rattle.state_layout.specs.Conditions.{IsNodeFor};
ghost use Rattle.state_layout.specs.Merits.{merit_of};
ghost use Rattle.dom_store.specs.Chains.{has_key, row_in};
ghost use Rattle.dom_store.specs.Covering.{key_of};
ghost use Rattle.dom_store.specs.Past.{covers_past, is_past, IsPastFor, IsPastKept, AreUnder, ArePastStaircases};
ghost use Rattle.dom_store.specs.Stairs.{IsUnder};
ghost use Rattle.dom_store.specs.declared.past_node.PastNode.{PastNode as ThePastNode};

use crate::chains::Chains;
use crate::covers::Covers;
use crate::glance::Glance;
use crate::past::covers_at;
use crate::past_node::PastNode;
use crate::rising::is_long;
use crate::staircases::Staircases;
use crate::stairs::Stairs;
use state_layout::{Layout, Node};
use std::alloc::Global;

// it is asked for each so many that are kept whether the row at hand is long: an odd number, as in `rising`
const SPAN: usize = 7;

/// Whether one of those that are kept covers the node with this key, where the steps of the row of the key tell it.
pub(crate) fn told_by_steps<K: Covers>(
    layout: &Layout,
    stairs: &Stairs,
    kept: &[PastNode],
    node: &Node,
    key: u64,
) -> Option<bool>
    requires kept { (n : ThePastNode) → Has kept.now n → IsPastFor layout.now n }
    requires steps { AreUnder K.prune K.minimize K.operator layout.now stairs.now.row stairs.now.steps kept.now }
    requires node { IsNodeFor layout.now node.now }
    requires key { key ≡ key_of K.prune layout.now node.now }
    ensures { IfSome result (λ covered. covered ≡ is_past (covers_past K.prune K.minimize K.operator layout.now) kept.now node.now) }
{
    if !stairs.is_of(key) {
        return None;
    }
    let Some(place) = stairs.covering(K::glance(layout, node)) else {
        return Some(false);
    };
    if covers_at::<K>(layout, kept, place, node) {
        Some(true)
    } else {
        None
    }
}

/// Gives the row of a key steps, where it has none and is long, in a layout with one resource.
pub(crate) fn raise_past<K: Covers>(
    layout: &Layout,
    one_resource: bool,
    chains: &Chains,
    staircases: &mut Staircases,
    kept: &[PastNode],
    key: u64,
)
    requires kept { IsPastKept K.prune K.minimize K.operator layout.now (row_in chains.now.heads.items chains.now.links.items) (length chains.now.links.items) kept.now }
    requires steps { ArePastStaircases K.prune K.minimize K.operator layout.now (row_in staircases.old.chains.heads.items staircases.old.chains.links.items) (length staircases.old.chains.links.items) staircases.old.stairs.items kept.now }
    ensures { ArePastStaircases K.prune K.minimize K.operator layout.now (row_in staircases.new.chains.heads.items staircases.new.chains.links.items) (length staircases.new.chains.links.items) staircases.new.stairs.items kept.now }
{
    if !one_resource || kept.len() % SPAN != 0 {
        return;
    }
    if staircases.has(key) || !is_long(chains, key) {
        return;
    }
    let stairs = raised::<K>(layout, chains, staircases.allocator(), kept, key);
    if stairs.is_on() {
        staircases.push(key, stairs);
    }
}

// the steps of the row of a key, or steps of no row where memory ran out
fn raised<K: Covers>(
    layout: &Layout,
    chains: &Chains,
    alloc: Global,
    kept: &[PastNode],
    key: u64,
) -> Stairs
    requires kept { IsPastKept K.prune K.minimize K.operator layout.now (row_in chains.now.heads.items chains.now.links.items) (length chains.now.links.items) kept.now }
    ensures steps { AreUnder K.prune K.minimize K.operator layout.now result.row result.steps kept.now }
    ensures row { (k : ℕ) → result.row ≡ Some k → k ≡ key }
{
    let mut stairs = Stairs::new(alloc);
    stairs.begin(key);
    let mut next = chains.newest(key);
    while let Some(place) = next {
        put_kept::<K>(layout, chains, &mut stairs, kept, place, key);
        next = chains.older(place);
    }
    stairs
}

// has a step over what is kept at a place, if the place has this key, where the steps are of its row
fn put_kept<K: Covers>(
    layout: &Layout,
    chains: &Chains,
    stairs: &mut Stairs,
    kept: &[PastNode],
    place: usize,
    key: u64,
)
    requires kept { (n : ThePastNode) → Has kept.now n → IsPastFor layout.now n }
    ensures row { (k : ℕ) → stairs.new.row ≡ Some k → stairs.old.row ≡ Some k }
    ensures under { stairs.new.row ≡ Some key → has_key chains.now.links.items key place ≡ true → (n : ThePastNode) → slice_get kept.now place ≡ Some n → IsUnder stairs.new.steps (order_word K.minimize K.operator n.cost) (merit_of layout.now n.state) }
    ensures others { (k : ℕ) → stairs.new.row ≡ Some k → (word merit : ℤ) → IsUnder stairs.old.steps word merit → IsUnder stairs.new.steps word merit }
{
    if !chains.has(place, key) {
        return;
    }
    let Some(past) = kept.get(place) else {
        return;
    };
    stairs.put_over(key, past_glance::<K>(layout, past), place);
}

// the glance of what is kept of a node
fn past_glance<K: Covers>(layout: &Layout, past: &PastNode) -> Glance
    requires { IsPastFor layout.now past.now }
    ensures word { pos result.word ≡ order_word K.minimize K.operator past.now.cost }
    ensures merit { result.merit ≡ merit_of layout.now past.now.state }
{
    let word = K::word(past.cost);
    Glance {
        word,
        merit: layout.merit(&past.state),
        first: word,
    }
}
