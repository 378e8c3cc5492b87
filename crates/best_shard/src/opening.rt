//! The open nodes of a shard: the node that it starts with, and those that letters bring.

ghost use Rattle.std.specs.Prelude.{◌≡◌, [], IfErr, IfOk, IfSome, OnOk};
ghost use Rattle.best_ledger.specs.Events.{opens_with};
ghost use Rattle.best_shard.specs.Opening.{Opens};
ghost use Rattle.cost_laws.specs.Orders.{IsLawOf};
ghost use Rattle.dom_store.specs.Contents.{Apart};
ghost use Rattle.pass_ledger.specs.Passes.{Pass};
ghost use Rattle.state_layout.specs.Conditions.{IsLayoutOf, IsNodeFor};

use cost_laws::CostLaw;
use dom_store::{Covers, DomStore, PastStore};
use state_layout::{Layout, Node, NodeBox};
use std::alloc::{AllocError, Global};
use successors::Expander;

/// The open nodes of a shard that has taken no letter: the node that it starts with, or none.
pub(crate) fn first_open<K: Covers>(
    alloc: Global,
    layout: &Layout,
    start: Option<Node>,
) -> Result<DomStore<K>, AllocError>
    requires { IfSome start (IsNodeFor layout.now) }
    ensures layout { IfOk result (λ open_nodes. open_nodes.layout ≡ layout.now) }
    ensures nodes { IfOk result (λ open_nodes. open_nodes.nodes ≡ opens_with start) }
{
    let mut waiting = DomStore::queued(alloc, layout)?;
    let Some(node) = start else {
        return Ok(waiting);
    };
    let boxed = NodeBox::new(alloc, node)?;
    match waiting.add(layout, boxed) {
        Ok(_) => Ok(waiting),
        Err(_) => Err(AllocError),
    }
}

/// A node that came is open from now on, where neither a visited nor an open node covers it; the open ones that it covers go. On
/// `Err` memory ran out: the node comes back, and nothing changes.
pub(crate) fn take_in<'m, L: CostLaw, K: Covers>(
    layout: &Layout,
    past: &PastStore<K>,
    waiting: &mut DomStore<K>,
    expander: &mut Expander<'m, L>,
    node: NodeBox,
) -> Result<(), NodeBox>
    requires past { past.now.layout ≡ layout.now }
    requires layout { waiting.old.layout ≡ layout.now }
    requires node { IsNodeFor layout.now node }
    ensures opens { (p : Pass) → IsLayoutOf p.model layout.now → IsLawOf p.model K.minimize K.operator → K.prune ≡ p.prune → Apart p.model p.prune waiting.old.nodes → OnOk result (Opens p past.now.nodes waiting.old.nodes node waiting.new.nodes) }
    ensures err { IfErr result (λ back. (back ≡ node) × (waiting.new.nodes ≡ waiting.old.nodes)) }
    ensures layout { waiting.new.layout ≡ waiting.old.layout }
    ensures expander { expander.new ≡ expander.old }
{
    if past.covered(layout, node.get()) {
        expander.give_back(node);
        return Ok(());
    }
    add_new(layout, waiting, expander, node)
}

// the same of a node that no visited one covers
fn add_new<'m, L: CostLaw, K: Covers>(
    layout: &Layout,
    waiting: &mut DomStore<K>,
    expander: &mut Expander<'m, L>,
    node: NodeBox,
) -> Result<(), NodeBox>
    requires layout { waiting.old.layout ≡ layout.now }
    requires node { IsNodeFor layout.now node }
    ensures opens { (p : Pass) → IsLayoutOf p.model layout.now → IsLawOf p.model K.minimize K.operator → K.prune ≡ p.prune → OnOk result (Opens p [] waiting.old.nodes node waiting.new.nodes) }
    ensures err { IfErr result (λ back. (back ≡ node) × (waiting.new.nodes ≡ waiting.old.nodes)) }
    ensures layout { waiting.new.layout ≡ waiting.old.layout }
    ensures expander { expander.new ≡ expander.old }
{
    waiting.add(layout, node)?;
    give_spare(waiting, expander);
    Ok(())
}

// A box that the store no longer needs goes to the visits to come: a letter brings a box, and the store is done with it at once, so
// that the next visit fills it while it is in the processor's cache, and asks for no memory.
fn give_spare<'m, L: CostLaw, K: Covers>(waiting: &mut DomStore<K>, expander: &mut Expander<'m, L>)
    ensures waiting { waiting.new ≡ waiting.old }
    ensures expander { expander.new ≡ expander.old }
{
    if let Some(spare) = waiting.take_spare() {
        expander.give_back(spare);
    }
}
