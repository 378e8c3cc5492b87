//! What is written of the nodes of a layer.

ghost use Rattle.std.specs.Prelude.{◌≡◌, ◌++◌, List, IfOk, OnOk};
ghost use Rattle.cert_rows.specs.Making.{node_for, nodes_for, step_for};

use cert_types::{CertNode, CertStep};
use state_layout::Node;
use std::alloc::{AllocError, Global};
use std::collections::VecDeque;

/// The step that made a node, where the visits of the layer before are those from `first` on. On `Err` its parent's place has no
/// number of 32 bits.
fn step_of(first: u64, node: &Node) -> Result<Option<CertStep>, AllocError>
    ensures { IfOk result (λ step. step ≡ step_for first node.now.parent node.now.transition) }
{
    let Some(id) = node.parent else {
        return Ok(None);
    };
    match u32::try_from(id.place.saturating_sub(first)) {
        Ok(parent) => Ok(Some(CertStep {
            parent,
            dp_ground: node.transition,
        })),
        Err(_) => Err(AllocError),
    }
}

/// What is written of a node that is visited.
fn node_of(first: u64, node: &Node) -> Result<CertNode, AllocError>
    ensures { IfOk result (λ written. written ≡ node_for first node.now) }
{
    Ok(CertNode {
        made: step_of(first, node)?,
        cut: false,
    })
}

/// Puts what is written of nodes behind others.
fn put_behind(written: &mut Vec<CertNode>, nodes: &[Node], first: u64) -> Result<(), AllocError>
    ensures { OnOk result (written.new.items ≡ written.old.items ++ nodes_for first nodes.now) }
{
    for node in nodes {
        written.push(node_of(first, node)?)?;
    }
    Ok(())
}

/// What is written of the nodes that wait, in their order.
pub(crate) fn nodes_of(
    alloc: Global,
    waiting: &VecDeque<Node>,
    first: u64,
) -> Result<Vec<CertNode>, AllocError>
    ensures { IfOk result (λ written. written.items ≡ nodes_for first waiting.now.items) }
{
    let mut written = Vec::new(alloc);
    let (front, back) = waiting.as_slices();
    put_behind(&mut written, front, first)?;
    put_behind(&mut written, back, first)?;
    Ok(written)
}
