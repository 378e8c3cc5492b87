//! The letters that a visit makes.

ghost use Rattle.std.specs.Prelude.{◌≡◌, ◌++◌, ◌≤◌, map, OnOk};
ghost use Rattle.best_shard.specs.Outgoing.{addressed};
ghost use Rattle.dp_claims.specs.Enough.{Has};
ghost use Rattle.state_layout.specs.Conditions.{IsNodeFor};
ghost use Rattle.state_layout.specs.Signatures.{owner_of};
ghost use Rattle.state_layout.specs.declared.node.Node.{Node};

use best_ledger::{BestLetter, ToPost};
use dp_model::Seq;
use state_layout::{Layout, Node, NodeBox};
use std::alloc::AllocError;
use std::collections::VecDeque;

/// The shard that owns the state of a node. One shard owns all states, so that none is hashed then.
fn receiver(layout: &Layout, shards: u32, node: &Node) -> u32
    requires node { IsNodeFor layout.now node.now }
    requires some { 1 ≤ shards }
    ensures { result ≡ owner_of layout.now node.now.state shards }
{
    if shards == 1 {
        return 0;
    }
    layout.owner(&node.state, shards)
}

/// Puts the nodes that a visit made behind the letters that are left, each with its sender, the stamp of the visit and its receiver,
/// in their order. It hands back their list, empty, with its room.
pub(crate) fn send_all(
    layout: &Layout,
    shards: u32,
    letters: &mut VecDeque<ToPost>,
    from: u32,
    stamp: u64,
    nodes: Seq<NodeBox>,
) -> Result<Seq<NodeBox>, AllocError>
    requires nodes { (n : Node) → Has nodes n → IsNodeFor layout.now n }
    requires some { 1 ≤ shards }
    ensures { OnOk result (letters.new.items ≡ letters.old.items ++ map (addressed layout.now shards from stamp) nodes) }
{
    let mut left = VecDeque::from_vec(nodes.into_list());
    while let Some(node) = left.pop_front() {
        let to = receiver(layout, shards, node.get());
        letters.push_back(ToPost {
            to,
            letter: BestLetter { from, stamp, node },
        })?;
    }
    Ok(Seq::of(left.into_vec()))
}
