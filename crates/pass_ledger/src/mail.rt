//! Letters: states for the next layer, and the marks that end a layer.

use state_layout::NodeBox;

/// What a shard sends to a shard: the node of a state of a layer, or the mark that ends a layer. A mark tells how many
/// states of that layer were sent to its receiver, and how many to all shards.
#[derive(Debug, Drop)]
pub enum Letter {
    State {
        from: u32,
        layer: u64,
        node: NodeBox,
    },
    Mark {
        from: u32,
        layer: u64,
        to_you: u64,
        total: u64,
    },
}
