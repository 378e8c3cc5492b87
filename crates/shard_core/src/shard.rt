//! A shard, and what it does in a pass.

ghost use Rattle.std.specs.Prelude.{◌≡◌, ◌↔◌, ◌+◌, ◌^◌, ◌<◌, true, false, IsTrue, List, ◌∷◌, ◌++◌, length, Some, None, ℤ, pos, ◌≤ℤ◌, is_some, IfSome, IfNone, IfOk, IfErr, OnOk, OnErr};
ghost use Rattle.std.specs.List.{All};
ghost use Rattle.cost_laws.specs.Orders.{InWideRange, IsLawOf};
ghost use Rattle.dp_model.specs.declared.parts.PlainState.{PlainState};
ghost use Rattle.path_log.specs.Paths.{entry, with_step};
ghost use Rattle.state_layout.specs.Conditions.{IsNodeOf};
ghost use Rattle.state_layout.specs.Signatures.{owner_of};
ghost use Rattle.state_layout.specs.Slots.{slots_of};
ghost use Rattle.dp_model.specs.Costs.{InRange, order_word};
ghost use Rattle.successors.specs.declared.batch.Offer.{Offer};
ghost use Rattle.state_layout.specs.declared.node.Node.{Node};
ghost use Rattle.pass_ledger.specs.Events.{take, fresh, CanTake};
ghost use Rattle.pass_ledger.specs.Passes.{Pass, Prunes, StartsInner};
ghost use Rattle.pass_ledger.specs.Records.{Done, Starts};
ghost use Rattle.pass_ledger.specs.declared.records.Held.{Held};
ghost use Rattle.pass_ledger.specs.declared.records.ShardRecord.{ShardRecord};
ghost use Rattle.shard_core.specs.Calls.{IsReady, IsClosed, IsPruning, IsPosting, IsQuiet, IsVisited, IsEnd, Finds, visit_in};
ghost use Rattle.shard_core.specs.Floors.{floor_of};
ghost use Rattle.shard_core.specs.Offers.{best_held, is_news};
ghost use Rattle.shard_core.specs.Stands.{Stands, EndsAs, Suited};

use crate::counts::{clear_counts, count_of, equal_counts, sum};
use crate::intake::are_past;
use crate::layers::{Layer, collect, first_layers, is_busy, note_total, take_layer, take_spare};
use crate::offers::hold_best;
use crate::outbox::{counted_receiver, send_all};
use crate::past::remember;
use cost_laws::CostLaw;
use dom_store::{Covers, PastStore};
use dp_model::{Keep, Model as DpModel, Options, Seq};
use pass_ledger::{FaultHere, Held, Letter};
use path_log::{PathLog, StepId};
use spot_eval::SpotFault;
use state_layout::{Layout, Node, NodeBox};
use std::alloc::{AllocError, Global};
use std::collections::VecDeque;
use std::mem;
use successors::{Batch, ExpandEnd, Expander};

/// A shard of a pass. `K` says which nodes cover others.
#[derive(Drop)]
pub struct Shard<'m, L: CostLaw, K: Covers> {
    pub alloc: Global,
    pub me: u32,
    pub shards: u32,
    /// How many nodes of a layer are kept at most.
    pub share: u64,
    /// Which kept nodes cover those of a later layer.
    pub keep: Keep,
    pub layout: Layout,
    pub expander: Expander<'m, L>,
    pub log: PathLog,
    /// How many steps the log has.
    pub visited: u64,
    /// How many layers are closed.
    pub layer: u64,
    /// The layer of each sender's unfinished group.
    pub open_layers: Vec<u64>,
    /// The layers from the first one on that is not closed, as far as something of them came.
    pub collected: Vec<Layer<K>>,
    /// The kept nodes of all closed layers, where they cover those of later layers; else none.
    pub past: PastStore<K>,
    /// The kept nodes of the last closed layer that were neither visited nor pruned.
    pub waiting: VecDeque<Node>,
    /// The states that were made and not handed out.
    pub letters: VecDeque<NodeBox>,
    /// Room for what a visit makes of a node. Between two visits it says nothing.
    pub batch: Batch,
    /// To how many shards the mark of this layer was handed out.
    pub told: u32,
    /// How many states of this layer were handed out to each shard.
    pub sent: Vec<u64>,
    /// How many were made for all of them.
    pub total: u64,
    pub held: Option<Held>,
    pub fault: Option<FaultHere>,
    pub dropped: u64,
    pub least_floor: Option<i64>,
}

/// A layer that was closed: how many nodes were kept and dropped, and the best floor of the dropped ones. There is none where
/// none was dropped, or where one has no floor.
#[derive(Clone, Copy, Debug, PartialEq, Eq)]
pub struct Closed {
    pub kept: u64,
    pub dropped: u64,
    pub least_floor: Option<i64>,
}

/// What a visit led to: the word of its best solution, where it is better than what the shard held; or the first fault; or
/// memory ran out. After the last two the shard is only ended.
#[derive(Debug, Drop)]
pub enum Visited {
    Done { offer: Option<u64> },
    Fault(SpotFault),
    Memory,
}

/// What a shard hands back at its end.
#[derive(Clone, Copy, Debug, PartialEq, Eq)]
pub struct ShardEnd {
    pub shard: u32,
    pub visited: u64,
    pub dropped: u64,
    pub least_floor: Option<i64>,
    pub held: Option<Held>,
    pub fault: Option<FaultHere>,
}

impl<'m, L: CostLaw, K: Covers> Shard<'m, L, K> {
    /// A shard that has taken no letter. `start` is the target's node, in its owner, and nothing elsewhere. `K` covers by
    /// dominance exactly where the options say that dual bounds and dominance are used.
    pub fn new(
        alloc: Global,
        model: &'m DpModel,
        options: &Options,
        shard: u32,
        share: u64,
        start: Option<Node>,
    ) -> Result<Shard<'m, L, K>, AllocError>
        requires law { IsLawOf model.now L.minimize L.operator }
        requires below { shard < options.now.workers }
        requires node { IfSome start (IsNodeOf model.now) }
        ensures { (p : Pass) → Suited p L.minimize L.operator K.prune K.minimize K.operator → p.model ≡ model.now → p.prune ≡ options.now.prune → p.keep ≡ options.now.keep → p.shards ≡ options.now.workers → p.share ≡ share
            → ((state : PlainState) → owner_of (slots_of model.now.objects model.now.variables) state options.now.workers ≡ p.owner state) → StartsInner p → Starts p shard start
            → IfOk result (λ s. (s.me ≡ shard) × Stands p s (fresh p.shards start)) }
    {
        let shards = options.workers();
        let layout = Layout::of(alloc, model)?;
        let collected = first_layers(alloc, &layout, start)?;
        let past = PastStore::new(alloc, &layout)?;
        let expander = Expander::new(alloc, model, options.prune())?;
        let open_layers = equal_counts(alloc, shards, 1)?;
        let sent = equal_counts(alloc, shards, 0)?;
        Ok(Shard {
            alloc,
            me: shard,
            shards,
            share,
            keep: options.keep(),
            layout,
            expander,
            log: PathLog::new(alloc, shard),
            visited: 0,
            layer: 0,
            open_layers,
            collected,
            past,
            waiting: VecDeque::new(alloc),
            letters: VecDeque::new(alloc),
            batch: Batch::new(alloc),
            told: shards,
            sent,
            total: 0,
            held: None,
            fault: None,
            dropped: 0,
            least_floor: None,
        })
    }

    /// Takes a letter: its node goes to its layer, or its mark ends a layer of its sender. The letter is of a layer that is not
    /// closed. On `Err` memory ran out, and the letter comes back.
    pub fn accept(&mut self, letter: Letter) -> Result<(), Letter>
        requires { (p : Pass) × (r : ShardRecord) × Stands p self.old r × CanTake p r letter }
        ensures taken { (p : Pass) (r : ShardRecord) → Suited p L.minimize L.operator K.prune K.minimize K.operator → Stands p self.old r → CanTake p r letter → OnOk result (Stands p self.new (take r letter)) }
        ensures same { (p : Pass) (r : ShardRecord) → Stands p self.old r → OnErr result (Stands p self.new r) }
        ensures back { IfErr result (λ back. back ≡ letter) }
        ensures me { self.new.me ≡ self.old.me }
    {
        match letter {
            Letter::State { from, layer, node } => self.accept_state(from, layer, node),
            Letter::Mark {
                from,
                layer,
                to_you,
                total,
            } => self.accept_mark(from, layer, to_you, total),
        }
    }

    // the node of a state goes to its layer
    fn accept_state(&mut self, from: u32, layer: u64, node: NodeBox) -> Result<(), Letter>
        requires { (p : Pass) × (r : ShardRecord) × Stands p self.old r × CanTake p r (Letter.State from layer node) }
        ensures taken { (p : Pass) (r : ShardRecord) → Suited p L.minimize L.operator K.prune K.minimize K.operator → Stands p self.old r → CanTake p r (Letter.State from layer node) → OnOk result (Stands p self.new (take r (Letter.State from layer node))) }
        ensures same { (p : Pass) (r : ShardRecord) → Stands p self.old r → OnErr result (Stands p self.new r) }
        ensures back { IfErr result (λ back. back ≡ Letter.State from layer node) }
        ensures me { self.new.me ≡ self.old.me }
    {
        let place = layer - self.layer;
        let is_own = from == self.me;
        match collect(
            self.alloc,
            &self.layout,
            &mut self.collected,
            place,
            node,
            is_own,
        ) {
            Ok(()) => {
                give_spare(&mut self.expander, &mut self.collected, place);
                Ok(())
            }
            Err(node) => Err(Letter::State { from, layer, node }),
        }
    }

    // the mark of a layer ends the group of its sender
    fn accept_mark(&mut self, from: u32, layer: u64, to_you: u64, total: u64) -> Result<(), Letter>
        requires { (p : Pass) × (r : ShardRecord) × Stands p self.old r × CanTake p r (Letter.Mark from layer to_you total) }
        ensures taken { (p : Pass) (r : ShardRecord) → Suited p L.minimize L.operator K.prune K.minimize K.operator → Stands p self.old r → CanTake p r (Letter.Mark from layer to_you total) → OnOk result (Stands p self.new (take r (Letter.Mark from layer to_you total))) }
        ensures same { (p : Pass) (r : ShardRecord) → Stands p self.old r → OnErr result (Stands p self.new r) }
        ensures back { IfErr result (λ back. back ≡ Letter.Mark from layer to_you total) }
        ensures me { self.new.me ≡ self.old.me }
    {
        let back = Letter::Mark {
            from,
            layer,
            to_you,
            total,
        };
        let Ok(next) = sum(layer, 1) else {
            return Err(back);
        };
        let place = layer - self.layer;
        if let Err(_) = note_total(self.alloc, &self.layout, &mut self.collected, place, total) {
            return Err(back);
        }
        self.open_layers[from as usize] = next;
        Ok(())
    }

    /// Whether the shard collects, and a mark of each shard for the layer that it collects was taken; layer 0 needs none.
    pub fn ready(&self) -> bool
        ensures { (p : Pass) (r : ShardRecord) → Stands p self.now r → IsTrue result ↔ IsReady p self.now.me r }
    {
        if !are_past(&self.open_layers, self.layer) {
            return false;
        }
        if !self.waiting.is_empty() {
            return false;
        }
        if !self.letters.is_empty() {
            return false;
        }
        if self.told < self.shards {
            return false;
        }
        true
    }

    /// Closes the layer that the shard collects: those of its nodes that the past covers go, the best of the others are kept,
    /// up to the share, and wait. On `Err` memory ran out, and the shard is only ended.
    pub fn close(&mut self) -> Result<Closed, AllocError>
        requires { (p : Pass) × (r : ShardRecord) × Stands p self.old r × IsReady p self.old.me r }
        ensures closed { (p : Pass) (r : ShardRecord) → Suited p L.minimize L.operator K.prune K.minimize K.operator → Stands p self.old r → IsReady p self.old.me r → IfOk result (λ closed. IsClosed p r closed self.new) }
        ensures ended { (p : Pass) (r : ShardRecord) → Stands p self.old r → OnErr result (EndsAs p self.new r) }
        ensures me { self.new.me ≡ self.old.me }
    {
        let layer = sum(self.layer, 1)?;
        let best = take_layer::<L, K>(
            self.alloc,
            &self.layout,
            &mut self.collected,
            &self.past,
            self.share,
        )?;
        let closed = Closed {
            kept: best.kept.list().len() as u64,
            dropped: best.dropped,
            least_floor: best.least_floor,
        };
        let dropped = sum(self.dropped, closed.dropped)?;
        remember(self.keep, &self.layout, &mut self.past, best.kept.list())?;
        self.least_floor = merged_floor::<L>(
            self.dropped,
            closed.dropped,
            self.least_floor,
            closed.least_floor,
        );
        self.dropped = dropped;
        self.waiting = VecDeque::from_vec(best.kept.into_list());
        self.layer = layer;
        self.told = 0;
        self.total = 0;
        clear_counts(&mut self.sent);
        Ok(closed)
    }

    /// Whether a kept node was neither visited nor pruned.
    pub fn waits(&self) -> bool
        ensures { (p : Pass) (r : ShardRecord) → Stands p self.now r → IsTrue result ↔ (0 < length r.waiting) }
    {
        !self.waiting.is_empty()
    }

    /// Prunes the first waiting node where its floor's word is not less than the best word.
    pub fn prune_head(&mut self, best: u64) -> bool
        requires { (p : Pass) × (r : ShardRecord) × Stands p self.old r × (0 < length r.waiting) }
        ensures pruned { (p : Pass) (r : ShardRecord) → Suited p L.minimize L.operator K.prune K.minimize K.operator → Stands p self.old r → result ≡ true → IsPruning p best r self.new }
        ensures kept { result ≡ false → self.new ≡ self.old }
        ensures not_pruned { (p : Pass) (r : ShardRecord) → Suited p L.minimize L.operator K.prune K.minimize K.operator → Stands p self.old r → result ≡ false → (n : Node) (rest : List Node) → r.waiting ≡ n ∷ rest → Prunes p best n → ⊥ }
        ensures me { self.new.me ≡ self.old.me }
    {
        let Some(node) = self.waiting.front() else {
            return false;
        };
        if !is_pruned::<L>(node, best) {
            return false;
        }
        self.waiting.pop_front();
        true
    }

    /// Visits the first waiting node. Its successors are pruned by the best word that is given. After a fault, or where memory ran
    /// out, the shard is only ended.
    pub fn visit(&mut self, best: u64) -> Visited
        requires { (p : Pass) × (r : ShardRecord) × Stands p self.old r × (0 < length r.waiting) }
        ensures visited { (p : Pass) (r : ShardRecord) → Suited p L.minimize L.operator K.prune K.minimize K.operator → Stands p self.old r → 0 < length r.waiting → IsVisited p self.old.me best r result self.new }
        ensures found { (p : Pass) (r : ShardRecord) → Stands p self.old r → (n : Node) (rest : List Node) → r.waiting ≡ n ∷ rest → Finds p.model (visit_in p self.old.me (length r.visits) n best) result }
        ensures me { self.new.me ≡ self.old.me }
    {
        let Some(node) = self.waiting.pop_front() else {
            unreachable!()
        };
        let id = StepId {
            shard: self.me,
            place: self.visited,
        };
        match self
            .expander
            .expand(self.alloc, &node, id, best, &mut self.batch)
        {
            Ok(()) => match self.take_batch(&node, id) {
                Ok(offer) => Visited::Done { offer },
                Err(_) => Visited::Memory,
            },
            Err(ExpandEnd::Fault { spot, kind, last }) => {
                let fault = FaultHere {
                    at: id,
                    last,
                    spot,
                    kind,
                };
                match self.keep_fault(&node, fault) {
                    Ok(()) => Visited::Fault(SpotFault { spot, kind }),
                    Err(_) => Visited::Memory,
                }
            }
            Err(ExpandEnd::Memory) => Visited::Memory,
        }
    }

    // What a visit made goes to the letters, the visit is logged, and the best of its solutions is held. The answer is the word of
    // that solution, where it is better than what was held. On `Err` memory ran out, and the log, the count of visits and what is
    // held are as before.
    fn take_batch(&mut self, node: &Node, id: StepId) -> Result<Option<u64>, AllocError>
        requires offers { All (λ (offer : Offer). InRange offer.cost) self.old.batch.offers }
        requires held { IfSome self.old.held (λ h. InRange h.cost) }
        ensures frame { self.new ≡ record self.old { batch = self.new.batch; letters = self.new.letters; total = self.new.total; log = self.new.log; visited = self.new.visited; held = self.new.held } }
        ensures letters { OnOk result (self.new.letters.items ≡ self.old.letters.items ++ self.old.batch.letters) }
        ensures total { OnOk result (self.new.total ≡ self.old.total + length self.old.batch.letters) }
        ensures fits { OnOk result (self.new.total < 2 ^ 64) }
        ensures log { OnOk result (self.new.log ≡ with_step self.old.log (entry node.now.parent node.now.transition)) }
        ensures visited { OnOk result (self.new.visited ≡ self.old.visited + 1) }
        ensures held { OnOk result (self.new.held ≡ best_held L.minimize L.operator id self.old.held self.old.batch.offers) }
        ensures news { IfOk result (λ offer. is_some offer ≡ is_news L.minimize L.operator self.old.held self.new.held) }
        ensures word { IfOk result (λ offer. IfSome offer (λ word. (h : Held) × (self.new.held ≡ Some h) × (pos word ≡ order_word L.minimize L.operator (Some h.cost)))) }
        ensures same { OnErr result ((self.new.log ≡ self.old.log) × (self.new.visited ≡ self.old.visited) × (self.new.held ≡ self.old.held)) }
    {
        let total = sum(self.total, self.batch.letters.list().len() as u64)?;
        let nodes = mem::replace(&mut self.batch.letters, Seq::of(Vec::new(self.alloc)));
        self.batch.letters = send_all(&mut self.letters, nodes)?;
        log_visit(&mut self.log, &mut self.visited, node)?;
        self.total = total;
        Ok(hold_best::<L>(&mut self.held, id, self.batch.offers.list()))
    }

    // The visit is logged, and its fault is kept. On `Err` memory ran out, and nothing changes.
    fn keep_fault(&mut self, node: &Node, fault: FaultHere) -> Result<(), AllocError>
        ensures kept { OnOk result (self.new ≡ record self.old { log = with_step self.old.log (entry node.now.parent node.now.transition); visited = self.old.visited + 1; fault = Some fault }) }
        ensures same { OnErr result (self.new ≡ self.old) }
    {
        log_visit(&mut self.log, &mut self.visited, node)?;
        self.fault = Some(fault);
        Ok(())
    }

    /// Whether no letter is ready: no state, and no mark, since a node waits or all marks of the layer were posted.
    pub fn is_quiet(&self) -> bool
        ensures { (p : Pass) (r : ShardRecord) → Stands p self.now r → result ≡ true → IsQuiet p self.now.me r }
    {
        if !self.letters.is_empty() {
            return false;
        }
        if !self.waiting.is_empty() {
            return true;
        }
        self.told >= self.shards
    }

    /// The next letter, and its receiver: the states that the visits made, and then, where no node waits, the marks of the layer.
    /// It takes no memory.
    pub fn next_letter(&mut self) -> Option<(u32, Letter)>
        requires { (p : Pass) × (r : ShardRecord) × Stands p self.old r }
        ensures posted { (p : Pass) (r : ShardRecord) → Stands p self.old r → IfSome result (λ x. IsPosting p self.old.me r x.0 x.1 self.new) }
        ensures quiet { (p : Pass) (r : ShardRecord) → Stands p self.old r → IfNone result (IsQuiet p self.old.me r × Stands p self.new r) }
        ensures loud { (p : Pass) (r : ShardRecord) → Stands p self.old r → IsQuiet p self.old.me r → result ≡ None }
        ensures me { self.new.me ≡ self.old.me }
    {
        if let Some(node) = self.letters.pop_front() {
            let to = counted_receiver(&self.layout, self.shards, &mut self.sent, node.get());
            return Some((
                to,
                Letter::State {
                    from: self.me,
                    layer: self.layer,
                    node,
                },
            ));
        }
        if !self.waiting.is_empty() {
            return None;
        }
        if self.told >= self.shards {
            return None;
        }
        let to = self.told;
        self.told += 1;
        Some((
            to,
            Letter::Mark {
                from: self.me,
                layer: self.layer,
                to_you: count_of(&self.sent, to),
                total: self.total,
            },
        ))
    }

    /// Whether the shard is done: it collects a layer after layer 0, every mark for that layer was taken, and their totals add
    /// up to 0.
    pub fn is_done(&self) -> bool
        ensures { (p : Pass) (r : ShardRecord) → Stands p self.now r → IsTrue result ↔ Done p self.now.me r }
    {
        if self.layer == 0 {
            return false;
        }
        if !self.ready() {
            return false;
        }
        !is_busy(&self.collected)
    }

    /// Lets go of the nodes, the letters and the layers that the shard holds: none of them is handed back at the end. Afterwards
    /// the shard is only ended. It takes no memory.
    pub fn let_go(&mut self)
        ensures ends { (p : Pass) (r : ShardRecord) → EndsAs p self.old r → EndsAs p self.new r }
        ensures me { self.new.me ≡ self.old.me }
    {
        self.waiting = VecDeque::new(self.alloc);
        self.letters = VecDeque::new(self.alloc);
        self.collected = Vec::new(self.alloc);
        self.batch = Batch::new(self.alloc);
        self.expander.drop_spares();
    }

    /// What the shard hands back, and its log of steps. It takes no memory.
    pub fn end(self) -> (ShardEnd, PathLog)
        ensures { (p : Pass) (r : ShardRecord) → EndsAs p self.entry r → IsEnd p self.entry.me r result.0 result.1 }
    {
        (
            ShardEnd {
                shard: self.me,
                visited: self.visited,
                dropped: self.dropped,
                least_floor: self.least_floor,
                held: self.held,
                fault: self.fault,
            },
            self.log,
        )
    }
}

/// One box that the store of a layer no longer needs, where it has one, goes to the visits to come. A letter brings a box, and the store is
/// done with it at once, whether it keeps the node or not: so the next visit fills it while it is in the processor's cache, and asks for
/// no memory.
fn give_spare<'m, L: CostLaw, K: Covers>(
    expander: &mut Expander<'m, L>,
    layers: &mut Vec<Layer<K>>,
    place: u64,
)
    ensures expander { expander.new ≡ expander.old }
    ensures layers { layers.new.items ≡ layers.old.items }
{
    if let Some(held) = take_spare(layers, place) {
        expander.give_back(held);
    }
}

/// Adds a visited node to a log, and counts it. On `Err` memory ran out, and nothing changes.
fn log_visit(log: &mut PathLog, visited: &mut u64, node: &Node) -> Result<(), AllocError>
    ensures log { OnOk result (log.new ≡ with_step log.old (entry node.now.parent node.now.transition)) }
    ensures visited { OnOk result (visited.new ≡ visited.old + 1) }
    ensures same { OnErr result ((log.new ≡ log.old) × (visited.new ≡ visited.old)) }
{
    let next = sum(*visited, 1)?;
    log.push(node.parent, node.transition)?;
    *visited = next;
    Ok(())
}

/// Whether the best word prunes a node.
fn is_pruned<L: CostLaw>(node: &Node, best: u64) -> bool
    requires { IfSome node.now.floor InWideRange }
    ensures pruned { result ≡ true → (floor : ℤ) × (node.now.floor ≡ Some floor) × (pos best ≤ℤ order_word L.minimize L.operator (Some floor)) }
    ensures kept { result ≡ false → (floor : ℤ) → node.now.floor ≡ Some floor → pos best ≤ℤ order_word L.minimize L.operator (Some floor) → ⊥ }
{
    match node.floor {
        Some(floor) => best <= L::word(Some(floor)),
        None => false,
    }
}

/// The best floor of the nodes dropped before and of some more, by how many there are of both. There is none where none was
/// dropped, or where one has no floor.
pub fn merged_floor<L: CostLaw>(
    before: u64,
    more: u64,
    floor: Option<i64>,
    next: Option<i64>,
) -> Option<i64>
    requires floor { IfSome floor InWideRange }
    requires next { IfSome next InWideRange }
    ensures { result ≡ floor_of L.minimize L.operator before more floor next }
{
    if before == 0 {
        return next;
    }
    if more == 0 {
        return floor;
    }
    match (floor, next) {
        (Some(a), Some(b)) if L::better(b, a) => Some(b),
        (Some(a), Some(_)) => Some(a),
        _ => None,
    }
}
