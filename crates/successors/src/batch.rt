//! What a visit makes of a node.

ghost use Rattle.std.specs.Prelude.{◌≡◌, ◌∷◌, ◌++◌, [], OnOk};
ghost use Rattle.successors.specs.Batches.{empty_batch};

use dp_model::Seq;
use state_layout::{Node, NodeBox};
use std::alloc::{AllocError, Global};

/// A base successor: the cost of the list that leads to it, and the ground transition that made it.
#[derive(Clone, Copy, Debug, PartialEq, Eq)]
pub struct Offer {
    pub cost: i64,
    pub transition: u32,
}

/// The successors of a node, each kind in order of definition: those that are to be visited, those that are base, those
/// that the best cost prunes, and how many are not allowed. Those that are to be visited stand in boxes, so that they go on
/// as pointers.
#[derive(Debug, Drop)]
pub struct Batch {
    pub letters: Seq<NodeBox>,
    pub offers: Seq<Offer>,
    pub pruned: Seq<Node>,
    pub not_allowed: u64,
}

impl Batch {
    /// A batch without successors. It takes no memory.
    pub fn new(alloc: Global) -> Batch
        ensures { result ≡ empty_batch }
    {
        Batch {
            letters: Seq::of(Vec::new(alloc)),
            offers: Seq::of(Vec::new(alloc)),
            pruned: Seq::of(Vec::new(alloc)),
            not_allowed: 0,
        }
    }

    /// Lets go of all successors. The batch keeps its room.
    pub(crate) fn clear(&mut self)
        ensures { self.new ≡ empty_batch }
    {
        self.letters.list_mut().clear();
        self.offers.list_mut().clear();
        self.pruned.list_mut().clear();
        self.not_allowed = 0;
    }

    /// Adds an offer at the end.
    pub(crate) fn push_offer(&mut self, offer: Offer) -> Result<(), AllocError>
        ensures { OnOk result (self.new ≡ record self.old { offers = self.old.offers ++ offer ∷ [] }) }
    {
        self.offers.list_mut().push(offer)?;
        Ok(())
    }
}
