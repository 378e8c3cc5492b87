//! The layers that are not closed, with the nodes that were received for them so far.

ghost use Rattle.std.specs.Prelude.{◌≡◌, ℕ, ◌+◌, ◌<◌, ◌≤◌, ◌↔◌, IsTrue, true, false, Bool, List, [], ◌∷◌, ◌++◌, length, option_to_list, IfOk, IfErr, OnErr, OnOk, IfSome, Option, Some, None};
ghost use Rattle.cost_laws.specs.Orders.{InWideRange, IsLawOf};
ghost use Rattle.dp_claims.specs.Enough.{Has};
ghost use Rattle.dp_model.specs.declared.whole.Model.{Model as DpModel};
ghost use Rattle.dom_store.specs.Contents.{with_added, IsCovered};
ghost use Rattle.dom_store.specs.Covering.{covers};
ghost use Rattle.dom_store.specs.Past.{covers_past, not_past};
ghost use Rattle.dom_store.specs.Taking.{with_dropped, AreShared};
ghost use Rattle.state_layout.specs.Conditions.{IsLayoutOf, IsNodeFor};
ghost use Rattle.state_layout.specs.declared.layout.Layout.{Layout};
ghost use Rattle.state_layout.specs.declared.node.Node.{Node};
ghost use Rattle.pass_ledger.specs.Passes.{Pass};
ghost use Rattle.shard_core.specs.Layers.{joined, joined_at, nodes_of, nodes_at, busy_at, IsOf, AreOf, Merges, Splits};

use cost_laws::CostLaw;
use dom_store::{Best, Covers, DomStore, PastStore};
use state_layout::{Layout, Node, NodeBox};
use std::alloc::{AllocError, Global};
use std::collections::VecDeque;

/// So many nodes are added to a layer together. What is read of memory for each of them is then waited for once; of more than these not
/// all would be in the processor's first cache when their turn comes.
const TOGETHER: usize = 16;

/// A store of fewer nodes stands in the processor's own cache, so that there is little to wait for: nodes that the shard sent to itself
/// are added as they come. One that another shard sent stands in the cache of another processor.
const WIDE: u64 = 4096;

/// A layer that is not closed.
#[derive(Drop)]
pub struct Layer<K: Covers> {
    pub nodes: DomStore<K>,
    /// The nodes that came last and are not yet in the store: fewer than are added together, but where memory ran out.
    pub pending: VecDeque<NodeBox>,
    /// Whether a mark told that some shard has states of the layer.
    pub busy: bool,
}

/// Puts a layer without nodes behind the others.
#[tactic(auto, using(crate::proofs::Rows::push_nodes, crate::proofs::Rows::push_joined, crate::proofs::Rows::push_busy))]
fn put_behind<K: Covers>(
    layers: &mut Vec<Layer<K>>,
    nodes: DomStore<K>,
    pending: VecDeque<NodeBox>,
) -> Result<(), AllocError>
    requires nodes { nodes.nodes ≡ [] }
    requires pending { pending.items ≡ [] }
    ensures layouts { (layout : Layout) → AreOf layout layers.old.items → nodes.layout ≡ layout → AreOf layout layers.new.items }
    ensures long { OnOk result (length layers.new.items ≡ length layers.old.items + 1) }
    ensures nodes { (d : ℕ) → nodes_at layers.new.items d ≡ nodes_at layers.old.items d }
    ensures joined { (test : Node → Node → Bool) (d : ℕ) → joined_at test layers.new.items d ≡ joined_at test layers.old.items d }
    ensures busy { (d : ℕ) → busy_at layers.new.items d ≡ busy_at layers.old.items d }
{
    layers.push(Layer {
        nodes,
        pending,
        busy: false,
    })?;
    Ok(())
}

/// Room for one more layer.
fn push_layer<K: Covers>(
    alloc: Global,
    layout: &Layout,
    layers: &mut Vec<Layer<K>>,
) -> Result<(), AllocError>
    requires { AreOf layout.now layers.old.items }
    ensures layouts { AreOf layout.now layers.new.items }
    ensures long { OnOk result (length layers.new.items ≡ length layers.old.items + 1) }
    ensures nodes { (d : ℕ) → nodes_at layers.new.items d ≡ nodes_at layers.old.items d }
    ensures joined { (test : Node → Node → Bool) (d : ℕ) → joined_at test layers.new.items d ≡ joined_at test layers.old.items d }
    ensures busy { (d : ℕ) → busy_at layers.new.items d ≡ busy_at layers.old.items d }
{
    let nodes = DomStore::new(alloc, layout)?;
    put_behind(layers, nodes, VecDeque::new(alloc))
}

/// Layers without nodes are put behind the others, up to the place.
#[inline(never)]
fn push_layers<K: Covers>(
    alloc: Global,
    layout: &Layout,
    layers: &mut Vec<Layer<K>>,
    place: u64,
) -> Result<(), AllocError>
    requires { AreOf layout.now layers.old.items }
    ensures layouts { AreOf layout.now layers.new.items }
    ensures long { OnOk result (place < length layers.new.items) }
    ensures nodes { (d : ℕ) → nodes_at layers.new.items d ≡ nodes_at layers.old.items d }
    ensures joined { (test : Node → Node → Bool) (d : ℕ) → joined_at test layers.new.items d ≡ joined_at test layers.old.items d }
    ensures busy { (d : ℕ) → busy_at layers.new.items d ≡ busy_at layers.old.items d }
{
    while layers.len() as u64 <= place {
        push_layer(alloc, layout, layers)?;
    }
    Ok(())
}

/// Room for the layer at a place. Nearly always there is some.
#[inline]
fn open_layers<K: Covers>(
    alloc: Global,
    layout: &Layout,
    layers: &mut Vec<Layer<K>>,
    place: u64,
) -> Result<(), AllocError>
    requires { AreOf layout.now layers.old.items }
    ensures layouts { AreOf layout.now layers.new.items }
    ensures long { OnOk result (place < length layers.new.items) }
    ensures nodes { (d : ℕ) → nodes_at layers.new.items d ≡ nodes_at layers.old.items d }
    ensures joined { (test : Node → Node → Bool) (d : ℕ) → joined_at test layers.new.items d ≡ joined_at test layers.old.items d }
    ensures busy { (d : ℕ) → busy_at layers.new.items d ≡ busy_at layers.old.items d }
{
    if place < layers.len() as u64 {
        return Ok(());
    }
    push_layers(alloc, layout, layers, place)
}

/// Adds a node to its layer; `is_own` is whether the shard itself sent it. On `Err` memory ran out, and the node comes back.
pub(crate) fn collect<K: Covers>(
    alloc: Global,
    layout: &Layout,
    layers: &mut Vec<Layer<K>>,
    place: u64,
    node: NodeBox,
    is_own: bool,
) -> Result<(), NodeBox>
    requires layouts { AreOf layout.now layers.old.items }
    requires node { IsNodeFor layout.now node }
    ensures layouts { AreOf layout.now layers.new.items }
    ensures merged { (p : Pass) → IsLayoutOf p.model layout.now → IsLawOf p.model K.minimize K.operator → K.prune ≡ p.prune → OnOk result (Merges p (nodes_at layers.old.items place) node (nodes_at layers.new.items place)) }
    ensures in_turn { OnOk result (joined_at (covers K.prune K.minimize K.operator layout.now) layers.new.items place ≡ with_added (covers K.prune K.minimize K.operator layout.now) (joined_at (covers K.prune K.minimize K.operator layout.now) layers.old.items place) node) }
    ensures others { (d : ℕ) → (d ≡ place → ⊥) → nodes_at layers.new.items d ≡ nodes_at layers.old.items d }
    ensures busy { (d : ℕ) → busy_at layers.new.items d ≡ busy_at layers.old.items d }
    ensures same { OnErr result ((d : ℕ) → nodes_at layers.new.items d ≡ nodes_at layers.old.items d) }
    ensures back { IfErr result (λ back. back ≡ node) }
{
    if open_layers(alloc, layout, layers, place).is_err() {
        return Err(node);
    }
    add_at(layout, layers, place, node, is_own)
}

// the nodes that wait go into the store; on `Err` memory ran out, and those that are left wait on
fn add_pending<K: Covers>(layout: &Layout, layer: &mut Layer<K>) -> Result<(), AllocError>
    requires { IsOf layout.now layer.old }
    ensures fits { IsOf layout.now layer.new }
    ensures from { (n : Node) → Has (nodes_of (Some layer.new)) n → Has (nodes_of (Some layer.old)) n }
    ensures covered { (m : DpModel) → IsLayoutOf m layout.now → IsLawOf m K.minimize K.operator → (n : Node) → IsCovered m K.prune (nodes_of (Some layer.old)) n → IsCovered m K.prune (nodes_of (Some layer.new)) n }
    ensures in_turn { joined (covers K.prune K.minimize K.operator layout.now) (Some layer.new) ≡ joined (covers K.prune K.minimize K.operator layout.now) (Some layer.old) }
    ensures busy { layer.new.busy ≡ layer.old.busy }
    ensures emptied { OnOk result (layer.new.pending.items ≡ []) }
{
    layer.nodes.add_all(layout, &mut layer.pending)?;
    Ok(())
}

// the same where as many wait as are added together; where memory ran out they wait on, and the next node of the layer comes back, or
// the layer's close says so
fn add_enough<K: Covers>(layout: &Layout, layer: &mut Layer<K>)
    requires { IsOf layout.now layer.old }
    ensures fits { IsOf layout.now layer.new }
    ensures from { (n : Node) → Has (nodes_of (Some layer.new)) n → Has (nodes_of (Some layer.old)) n }
    ensures covered { (m : DpModel) → IsLayoutOf m layout.now → IsLawOf m K.minimize K.operator → (n : Node) → IsCovered m K.prune (nodes_of (Some layer.old)) n → IsCovered m K.prune (nodes_of (Some layer.new)) n }
    ensures in_turn { joined (covers K.prune K.minimize K.operator layout.now) (Some layer.new) ≡ joined (covers K.prune K.minimize K.operator layout.now) (Some layer.old) }
    ensures busy { layer.new.busy ≡ layer.old.busy }
{
    if layer.pending.len() < TOGETHER {
        return;
    }
    let _ = add_pending(layout, layer);
}

// a node goes behind those that wait; nearly always there is room
#[inline(always)]
fn push_waiting(pending: &mut VecDeque<NodeBox>, node: NodeBox) -> Result<(), NodeBox>
    ensures items { OnOk result (pending.new.items ≡ pending.old.items ++ node ∷ []) }
    ensures same { OnErr result (pending.new.items ≡ pending.old.items) }
    ensures back { IfErr result (λ back. back ≡ node) }
{
    if pending.len() < pending.capacity() {
        pending.push_back_reserved(node);
        return Ok(());
    }
    push_growing(pending, node)
}

// the same where there is no room
#[inline(never)]
fn push_growing(pending: &mut VecDeque<NodeBox>, node: NodeBox) -> Result<(), NodeBox>
    ensures items { OnOk result (pending.new.items ≡ pending.old.items ++ node ∷ []) }
    ensures same { OnErr result (pending.new.items ≡ pending.old.items) }
    ensures back { IfErr result (λ back. back ≡ node) }
{
    match pending.push_back(node) {
        Ok(()) => Ok(()),
        Err(failed) => Err(failed.value),
    }
}

// a node is added to the store at once, where none waits; on `Err` memory ran out, and the node comes back
#[inline(always)]
fn add_now<K: Covers>(layout: &Layout, layer: &mut Layer<K>, node: NodeBox) -> Result<(), NodeBox>
    requires layer { IsOf layout.now layer.old }
    requires none { layer.old.pending.items ≡ [] }
    requires node { IsNodeFor layout.now node }
    ensures fits { IsOf layout.now layer.new }
    ensures merged { (p : Pass) → IsLayoutOf p.model layout.now → IsLawOf p.model K.minimize K.operator → K.prune ≡ p.prune → OnOk result (Merges p (nodes_of (Some layer.old)) node (nodes_of (Some layer.new))) }
    ensures in_turn { OnOk result (joined (covers K.prune K.minimize K.operator layout.now) (Some layer.new) ≡ with_added (covers K.prune K.minimize K.operator layout.now) (joined (covers K.prune K.minimize K.operator layout.now) (Some layer.old)) node) }
    ensures busy { layer.new.busy ≡ layer.old.busy }
    ensures same { OnErr result (nodes_of (Some layer.new) ≡ nodes_of (Some layer.old)) }
    ensures back { IfErr result (λ back. back ≡ node) }
{
    layer.nodes.add(layout, node)?;
    Ok(())
}

// a node waits, until as many do as are added together; on `Err` memory ran out, and the node comes back
#[inline(never)]
fn add_later<K: Covers>(layout: &Layout, layer: &mut Layer<K>, node: NodeBox) -> Result<(), NodeBox>
    requires layer { IsOf layout.now layer.old }
    requires node { IsNodeFor layout.now node }
    ensures fits { IsOf layout.now layer.new }
    ensures merged { (p : Pass) → IsLayoutOf p.model layout.now → IsLawOf p.model K.minimize K.operator → K.prune ≡ p.prune → OnOk result (Merges p (nodes_of (Some layer.old)) node (nodes_of (Some layer.new))) }
    ensures in_turn { OnOk result (joined (covers K.prune K.minimize K.operator layout.now) (Some layer.new) ≡ with_added (covers K.prune K.minimize K.operator layout.now) (joined (covers K.prune K.minimize K.operator layout.now) (Some layer.old)) node) }
    ensures busy { layer.new.busy ≡ layer.old.busy }
    ensures same { OnErr result (nodes_of (Some layer.new) ≡ nodes_of (Some layer.old)) }
    ensures back { IfErr result (λ back. back ≡ node) }
{
    push_waiting(&mut layer.pending, node)?;
    add_enough(layout, layer);
    Ok(())
}

// whether as many nodes wait as are added together: then memory ran out before, and no further one comes to them
#[inline]
fn is_full<K: Covers>(layer: &Layer<K>) -> bool
    ensures { IsTrue result ↔ (TOGETHER ≤ length layer.now.pending.items) }
{
    layer.pending.len() >= TOGETHER
}

// a node comes to those of its layer, behind those that wait; on `Err` memory ran out, now or where the layer is full, and the node
// comes back
#[inline]
fn take_in<K: Covers>(
    layout: &Layout,
    layer: &mut Layer<K>,
    node: NodeBox,
    is_own: bool,
) -> Result<(), NodeBox>
    requires layer { IsOf layout.now layer.old }
    requires node { IsNodeFor layout.now node }
    ensures fits { IsOf layout.now layer.new }
    ensures merged { (p : Pass) → IsLayoutOf p.model layout.now → IsLawOf p.model K.minimize K.operator → K.prune ≡ p.prune → OnOk result (Merges p (nodes_of (Some layer.old)) node (nodes_of (Some layer.new))) }
    ensures in_turn { OnOk result (joined (covers K.prune K.minimize K.operator layout.now) (Some layer.new) ≡ with_added (covers K.prune K.minimize K.operator layout.now) (joined (covers K.prune K.minimize K.operator layout.now) (Some layer.old)) node) }
    ensures busy { layer.new.busy ≡ layer.old.busy }
    ensures same { OnErr result (nodes_of (Some layer.new) ≡ nodes_of (Some layer.old)) }
    ensures back { IfErr result (λ back. back ≡ node) }
{
    if is_own && layer.pending.is_empty() && layer.nodes.len() < WIDE {
        return add_now(layout, layer, node);
    }
    if is_full(layer) {
        return Err(node);
    }
    add_later(layout, layer, node)
}

fn add_at<K: Covers>(
    layout: &Layout,
    layers: &mut Vec<Layer<K>>,
    place: u64,
    node: NodeBox,
    is_own: bool,
) -> Result<(), NodeBox>
    requires layouts { AreOf layout.now layers.old.items }
    requires node { IsNodeFor layout.now node }
    requires there { place < length layers.old.items }
    ensures layouts { AreOf layout.now layers.new.items }
    ensures merged { (p : Pass) → IsLayoutOf p.model layout.now → IsLawOf p.model K.minimize K.operator → K.prune ≡ p.prune → OnOk result (Merges p (nodes_at layers.old.items place) node (nodes_at layers.new.items place)) }
    ensures in_turn { OnOk result (joined_at (covers K.prune K.minimize K.operator layout.now) layers.new.items place ≡ with_added (covers K.prune K.minimize K.operator layout.now) (joined_at (covers K.prune K.minimize K.operator layout.now) layers.old.items place) node) }
    ensures others { (d : ℕ) → (d ≡ place → ⊥) → nodes_at layers.new.items d ≡ nodes_at layers.old.items d }
    ensures busy { (d : ℕ) → busy_at layers.new.items d ≡ busy_at layers.old.items d }
    ensures same { OnErr result ((d : ℕ) → nodes_at layers.new.items d ≡ nodes_at layers.old.items d) }
    ensures back { IfErr result (λ back. back ≡ node) }
{
    take_in(layout, &mut layers[place as usize], node, is_own)?;
    Ok(())
}

/// A box whose node is no longer needed, of the store of the layer at a place, where that has one.
#[inline]
#[tactic(auto, using(crate::proofs::Rows::set_same))]
pub(crate) fn take_spare<K: Covers>(layers: &mut Vec<Layer<K>>, place: u64) -> Option<NodeBox>
    ensures { layers.new.items ≡ layers.old.items }
{
    if layers.len() as u64 <= place {
        return None;
    }
    layers[place as usize].nodes.take_spare()
}

/// The layers of a shard that has taken no letter: layer 0 has the node that it starts with.
pub(crate) fn first_layers<K: Covers>(
    alloc: Global,
    layout: &Layout,
    start: Option<Node>,
) -> Result<Vec<Layer<K>>, AllocError>
    requires { IfSome start (IsNodeFor layout.now) }
    ensures layouts { IfOk result (λ layers. AreOf layout.now layers.items) }
    ensures merged { (p : Pass) (n : Node) → IsLayoutOf p.model layout.now → IsLawOf p.model K.minimize K.operator → K.prune ≡ p.prune → start ≡ Some n → IfOk result (λ layers. Merges p [] n (nodes_at layers.items 0)) }
    ensures none { start ≡ None → IfOk result (λ layers. nodes_at layers.items 0 ≡ []) }
    ensures later { IfOk result (λ layers. (d : ℕ) → 0 < d → nodes_at layers.items d ≡ []) }
    ensures busy { IfOk result (λ layers. (d : ℕ) → busy_at layers.items d ≡ false) }
{
    let mut layers = Vec::new(alloc);
    let Some(node) = start else {
        return Ok(layers);
    };
    let boxed = NodeBox::new(alloc, node)?;
    match collect(alloc, layout, &mut layers, 0, boxed, true) {
        Ok(()) => Ok(layers),
        Err(_) => Err(AllocError),
    }
}

/// Notes that some shard has states of a layer.
pub(crate) fn mark_busy<K: Covers>(
    alloc: Global,
    layout: &Layout,
    layers: &mut Vec<Layer<K>>,
    place: u64,
) -> Result<(), AllocError>
    requires layouts { AreOf layout.now layers.old.items }
    ensures layouts { AreOf layout.now layers.new.items }
    ensures nodes { (d : ℕ) → nodes_at layers.new.items d ≡ nodes_at layers.old.items d }
    ensures marked { OnOk result (busy_at layers.new.items place ≡ true) }
    ensures others { (d : ℕ) → (d ≡ place → ⊥) → busy_at layers.new.items d ≡ busy_at layers.old.items d }
    ensures same { OnErr result ((d : ℕ) → busy_at layers.new.items d ≡ busy_at layers.old.items d) }
{
    open_layers(alloc, layout, layers, place)?;
    layers[place as usize].busy = true;
    Ok(())
}

/// Notes the total that a mark told of a layer.
pub(crate) fn note_total<K: Covers>(
    alloc: Global,
    layout: &Layout,
    layers: &mut Vec<Layer<K>>,
    place: u64,
    total: u64,
) -> Result<(), AllocError>
    requires layouts { AreOf layout.now layers.old.items }
    ensures layouts { AreOf layout.now layers.new.items }
    ensures nodes { (d : ℕ) → nodes_at layers.new.items d ≡ nodes_at layers.old.items d }
    ensures marked { OnOk result (0 < total → busy_at layers.new.items place ≡ true) }
    ensures none { total ≡ 0 → busy_at layers.new.items place ≡ busy_at layers.old.items place }
    ensures others { (d : ℕ) → (d ≡ place → ⊥) → busy_at layers.new.items d ≡ busy_at layers.old.items d }
    ensures same { OnErr result ((d : ℕ) → busy_at layers.new.items d ≡ busy_at layers.old.items d) }
{
    if total > 0 {
        mark_busy(alloc, layout, layers, place)?;
    }
    Ok(())
}

/// Whether some shard has states of the first layer.
pub(crate) fn is_busy<K: Covers>(layers: &[Layer<K>]) -> bool
    ensures { result ≡ busy_at layers.now 0 }
{
    match layers.first() {
        Some(layer) => layer.busy,
        None => false,
    }
}

/// Takes the first layer out, without the nodes that the past covers, and with its best nodes kept up to the share; the others are
/// dropped, and only counted. Its emptied
/// store, and the list of those that waited, go behind the others, so that their memory serves again.
#[tactic(auto, using(crate::proofs::Rows::rest_at, crate::proofs::Rows::rest_layouts, crate::proofs::Rows::dropped_full))]
pub(crate) fn take_layer<L: CostLaw, K: Covers>(
    alloc: Global,
    layout: &Layout,
    layers: &mut Vec<Layer<K>>,
    past: &PastStore<K>,
    share: u64,
) -> Result<Best, AllocError>
    requires layouts { AreOf layout.now layers.old.items }
    requires past { past.now.layout ≡ layout.now }
    ensures layouts { AreOf layout.now layers.new.items }
    ensures split { (p : Pass) → IsLayoutOf p.model layout.now → IsLawOf p.model L.minimize L.operator → IsLawOf p.model K.minimize K.operator → K.prune ≡ p.prune → IfOk result (λ best. (dropped : List Node) × (best.dropped ≡ length dropped) × Splits p share past.now.nodes (nodes_at layers.old.items 0) (with_dropped best dropped)) }
    ensures in_turn { IfOk result (λ best. (dropped : List Node) × (best.dropped ≡ length dropped) × AreShared L.minimize L.operator share (not_past (covers_past K.prune K.minimize K.operator layout.now) past.now.nodes (joined_at (covers K.prune K.minimize K.operator layout.now) layers.old.items 0)) (with_dropped best dropped)) }
    ensures fits { IfOk result (λ best. (n : Node) → Has best.kept n → IsNodeFor layout.now n) }
    ensures nodes { OnOk result ((d : ℕ) → nodes_at layers.new.items d ≡ nodes_at layers.old.items (d + 1)) }
    ensures busy { OnOk result ((d : ℕ) → busy_at layers.new.items d ≡ busy_at layers.old.items (d + 1)) }
    ensures wide { IfOk result (λ best. IfSome best.least_floor InWideRange) }
{
    open_layers(alloc, layout, layers, 0)?;
    let mut layer = layers.remove(0);
    add_pending(layout, &mut layer)?;
    layer.nodes.drop_past(layout, past);
    let best = layer.nodes.take_kept::<L>(alloc, share)?;
    put_behind(layers, layer.nodes, layer.pending)?;
    Ok(best)
}
