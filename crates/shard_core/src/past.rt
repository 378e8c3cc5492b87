//! What a shard keeps of its closed layers.

ghost use Rattle.std.specs.Prelude.{◌≡◌, ◌++◌, map, OnOk};
ghost use Rattle.dp_claims.specs.Enough.{Has};
ghost use Rattle.state_layout.specs.Conditions.{IsNodeFor};
ghost use Rattle.state_layout.specs.declared.node.Node.{Node};
ghost use Rattle.dom_store.specs.Past.{past_node};
ghost use Rattle.pass_ledger.specs.Past.{past_with};

use dom_store::{Covers, PastStore};
use dp_model::Keep;
use state_layout::{Layout, Node};
use std::alloc::AllocError;

/// Adds the kept nodes of a layer to the past, where they cover those of later layers. On `Err` memory ran out.
pub(crate) fn remember<K: Covers>(
    keep: Keep,
    layout: &Layout,
    past: &mut PastStore<K>,
    kept: &[Node],
) -> Result<(), AllocError>
    requires layout { past.old.layout ≡ layout.now }
    requires nodes { (n : Node) → Has kept.now n → IsNodeFor layout.now n }
    ensures nodes { OnOk result (past.new.nodes ≡ past.old.nodes ++ map past_node (past_with keep kept.now)) }
    ensures layout { past.new.layout ≡ past.old.layout }
{
    match keep {
        Keep::Layer => Ok(()),
        Keep::All => add_all(layout, past, kept),
    }
}

// adds nodes to the past, in their order
fn add_all<K: Covers>(
    layout: &Layout,
    past: &mut PastStore<K>,
    nodes: &[Node],
) -> Result<(), AllocError>
    requires layout { past.old.layout ≡ layout.now }
    requires nodes { (n : Node) → Has nodes.now n → IsNodeFor layout.now n }
    ensures nodes { OnOk result (past.new.nodes ≡ past.old.nodes ++ map past_node nodes.now) }
    ensures layout { past.new.layout ≡ past.old.layout }
{
    for node in nodes {
        past.add(layout, node)?;
    }
    Ok(())
}
