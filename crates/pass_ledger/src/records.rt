//! What a shard's pass was: the data of the definitions.

use crate::mail::Letter;
use dp_model::{FaultKind, Seq, Spot};
use path_log::StepId;
use state_layout::{Node, NodeBox};

/// A node that was pruned, and the best word that pruned it.
#[derive(Debug, Drop)]
pub struct PrunedAt {
    pub node: Node,
    pub best: u64,
}

/// A layer that a shard has closed.
#[derive(Debug, Drop)]
pub struct LedgerRow {
    pub kept: Seq<Node>,
    pub dropped: Seq<Node>,
}

/// A node that was visited, and its layer.
#[derive(Debug, Drop)]
pub struct Visit {
    pub layer: u64,
    pub node: Node,
}

/// A state that a visit made and that is still to be posted: its receiver, and its node.
#[derive(Debug, Drop)]
pub struct Unsent {
    pub to: u32,
    pub node: NodeBox,
}

/// A solution that is held: its cost, and the visit and the ground transition that led to its base state.
#[derive(Clone, Copy, Debug, PartialEq, Eq)]
pub struct Held {
    pub cost: i64,
    pub parent: StepId,
    pub transition: u32,
}

/// The fault that a visit met: in the visited node's state, or, where `last` is there, in the state that this ground
/// transition leads to.
#[derive(Clone, Copy, Debug, PartialEq, Eq)]
pub struct FaultHere {
    pub at: StepId,
    pub last: Option<u32>,
    pub spot: Spot,
    pub kind: FaultKind,
}

/// What a shard did in a pass so far. It is data of the definitions: a running shard keeps no past layer.
///
/// `start` is the target's node, in its owner. `received` has the letters taken of each sender, and `posted` those posted
/// to each shard. `rows` are the layers closed so far, from layer 0 on. `waiting` are the kept nodes of the last of them
/// that were neither visited nor pruned. `visits` is the log of visited nodes, and `unsent` what they made and is still to
/// be posted. `pruned` has what was pruned, before a visit or when it was made.
#[derive(Debug, Drop)]
pub struct ShardRecord {
    pub start: Option<Node>,
    pub received: Seq<Seq<Letter>>,
    pub rows: Seq<LedgerRow>,
    pub waiting: Seq<Node>,
    pub visits: Seq<Visit>,
    pub unsent: Seq<Unsent>,
    pub pruned: Seq<PrunedAt>,
    pub posted: Seq<Seq<Letter>>,
    pub held: Option<Held>,
    pub fault: Option<FaultHere>,
}
