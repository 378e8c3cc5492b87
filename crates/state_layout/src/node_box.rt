//! A box with a node, which can be filled again.

ghost use Rattle.std.specs.Prelude.{◌≡◌, IfOk};

use crate::node::Node;
use std::alloc::{AllocError, Global};
use std::marker::Model;
use std::mem;

/// A node in a box, which contracts see as the node. It goes from hand to hand as a pointer, and is filled again where its
/// node is no longer needed.
#[derive(Debug, Drop)]
pub struct NodeBox {
    inner: Box<Node>,
}

impl Model for NodeBox {
    ghost use Rattle.state_layout.specs.declared.node.Node.{Node};

    ghost Value = { Node };

    ghost view = { λ b. b.inner.value };
}

impl NodeBox {
    /// A box of its own for the node.
    pub fn new(alloc: Global, node: Node) -> Result<NodeBox, AllocError>
        ensures { IfOk result (λ b. b ≡ node) }
    {
        Ok(NodeBox {
            inner: Box::new(alloc, node)?,
        })
    }

    /// The node in the box.
    #[inline(always)]
    pub fn get(&self) -> &Node
        ensures { result.now ≡ self.now }
    {
        &self.inner
    }

    /// Puts another node into the box. It takes no memory.
    #[inline(always)]
    pub fn put(&mut self, node: Node)
        ensures { self.new ≡ node }
    {
        *self.inner = node;
    }

    /// Takes the node out. What is left in the box says nothing, and is to be filled again. It takes no memory.
    #[inline(always)]
    pub fn take(&mut self, alloc: Global) -> Node
        ensures { result ≡ self.old }
    {
        mem::replace(&mut self.inner, Node::blank(alloc))
    }

    /// The node, without its box.
    #[inline(always)]
    pub fn into_inner(self) -> Node
        ensures { result ≡ self }
    {
        let NodeBox { inner } = self;
        Box::into_inner(inner)
    }
}
