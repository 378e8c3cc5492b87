//! What a search begins with.

use state_layout::Node;

/// What the target turns out to be: not allowed, base with its base cost, or a node.
#[derive(Debug, Drop)]
pub enum Start {
    NotAllowed,
    Base(i64),
    Open(Node),
}
