//! Boxes whose nodes are no longer needed, which are filled again.

ghost use Rattle.std.specs.Prelude.{◌≡◌, IfOk};

use state_layout::{Node, NodeBox};
use std::alloc::{AllocError, Global};

/// Boxes that are filled again. `asked` is how many boxes were asked for anew: no more are kept than these, so that boxes that come
/// from elsewhere do not gather where few are needed. `left` is how many were kept when boxes were last read ahead, and `seen` what was
/// read then: it says nothing, but stands for the reads, which are made so.
#[derive(Drop)]
pub(crate) struct Spares {
    boxes: Vec<NodeBox>,
    asked: u64,
    left: usize,
    seen: u64,
}

impl Spares {
    /// No boxes. It takes no memory.
    pub(crate) fn new(alloc: Global) -> Spares {
        Spares {
            boxes: Vec::new(alloc),
            asked: 0,
            left: 0,
            seen: 0,
        }
    }

    /// A node in a box: in a spare one, where there is one.
    #[inline(always)]
    pub(crate) fn boxed(&mut self, alloc: Global, node: Node) -> Result<NodeBox, AllocError>
        ensures { IfOk result (λ b. b ≡ node) }
    {
        match self.boxes.pop() {
            Some(mut held) => {
                held.put(node);
                Ok(held)
            }
            None => {
                self.asked = self.asked.saturating_add(1);
                NodeBox::new(alloc, node)
            }
        }
    }

    /// Reads the boxes that are filled next, so many as were filled since the last call. What stands in them is in no cache, or in that
    /// of another processor, and each would be waited for when it is filled; so the processor waits for all of them at once.
    pub(crate) fn read_ahead(&mut self) {
        let count = self.boxes.len();
        let next = self.left.saturating_sub(count).min(count);
        self.left = count;
        self.seen = self.seen ^ read_boxes(&self.boxes[count - next..]);
    }

    /// Keeps a box, if fewer are kept than were asked for, and there is memory to keep it; else it is let go.
    #[inline(always)]
    pub(crate) fn give_back(&mut self, held: NodeBox) {
        if (self.boxes.len() as u64) < self.asked {
            let _kept = self.boxes.push(held);
        }
    }

    /// Lets the kept boxes go, and the room for them. It takes no memory.
    pub(crate) fn let_go(&mut self) {
        let alloc = *self.boxes.allocator();
        self.boxes = Vec::new(alloc);
    }
}

fn read_boxes(boxes: &[NodeBox]) -> u64 {
    let mut seen = 0;
    for held in boxes {
        seen = seen ^ read_node(held.get());
    }
    seen
}

// a node's cost so far and its transition, which stand behind its state
#[inline(always)]
fn read_node(node: &Node) -> u64 {
    match node.cost {
        Some(cost) => cost.unsigned_abs() ^ node.transition as u64,
        None => node.transition as u64,
    }
}
