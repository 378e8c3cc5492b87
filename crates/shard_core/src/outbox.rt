//! The states that are to be handed out.

ghost use Rattle.std.specs.Prelude.{◌≡◌, ◌+◌, ◌^◌, ◌++◌, ◌<◌, ◌≤◌, length, get_or, slice_set, OnOk};
ghost use Rattle.state_layout.specs.Conditions.{IsNodeFor};
ghost use Rattle.state_layout.specs.Signatures.{owner_of};

use crate::counts::raise;
use dp_model::Seq;
use state_layout::{Layout, Node, NodeBox};
use std::alloc::AllocError;
use std::collections::VecDeque;
use std::mem;

/// The shard that owns the state of a node. One shard owns all states, so that none is hashed then.
fn receiver(layout: &Layout, shards: u32, node: &Node) -> u32
    requires node { IsNodeFor layout.now node.now }
    requires some { 1 ≤ shards }
    ensures { result ≡ owner_of layout.now node.now.state shards }
{
    if shards == 1 {
        return 0;
    }
    layout.owner(&node.state, shards)
}

/// The shard that owns the state of a node, to which one more is handed out.
pub(crate) fn counted_receiver(
    layout: &Layout,
    shards: u32,
    sent: &mut Vec<u64>,
    node: &Node,
) -> u32
    requires node { IsNodeFor layout.now node.now }
    requires some { 1 ≤ shards }
    requires long { length sent.old.items ≡ shards }
    requires few { get_or sent.old.items (owner_of layout.now node.now.state shards) 0 + 1 < 2 ^ 64 }
    ensures to { result ≡ owner_of layout.now node.now.state shards }
    ensures sent { sent.new.items ≡ slice_set sent.old.items result (get_or sent.old.items result 0 + 1) }
{
    let to = receiver(layout, shards, node);
    raise(sent, to);
    to
}

/// Puts nodes behind the letters that are left, one by one. It hands back their list, empty, with its room.
#[inline(never)]
fn push_all(
    letters: &mut VecDeque<NodeBox>,
    nodes: Seq<NodeBox>,
) -> Result<Seq<NodeBox>, AllocError>
    ensures { OnOk result (letters.new.items ≡ letters.old.items ++ nodes) }
{
    let mut left = VecDeque::from_vec(nodes.into_list());
    while let Some(node) = left.pop_front() {
        letters.push_back(node)?;
    }
    Ok(Seq::of(left.into_vec()))
}

/// Puts nodes behind the letters. Where no letter is left their list takes the place of the letters', so that no node is moved.
/// It hands back an empty list with the room that it has.
pub(crate) fn send_all(
    letters: &mut VecDeque<NodeBox>,
    nodes: Seq<NodeBox>,
) -> Result<Seq<NodeBox>, AllocError>
    ensures { OnOk result (letters.new.items ≡ letters.old.items ++ nodes) }
{
    if !letters.is_empty() {
        return push_all(letters, nodes);
    }
    let emptied = mem::replace(letters, VecDeque::from_vec(nodes.into_list()));
    Ok(Seq::of(emptied.into_vec()))
}
