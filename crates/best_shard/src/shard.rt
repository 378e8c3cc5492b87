//! A shard of a best-first search, and what it does.

ghost use Rattle.std.specs.Prelude.{◌≡◌, ℕ, ◌↔◌, ◌+◌, ◌++◌, ◌<◌, ◌≤◌, [], true, false, IsTrue, List, length, map, Some, None, ℤ, pos, ◌≤ℤ◌, is_some, IfErr, IfNone, IfOk, IfSome, OnErr, OnOk};
ghost use Rattle.std.specs.List.{All};
ghost use Rattle.best_ledger.specs.Events.{fresh};
ghost use Rattle.best_ledger.specs.Histories.{visits_in};
ghost use Rattle.best_ledger.specs.Records.{to_post};
ghost use Rattle.best_ledger.specs.declared.records.BestRecord.{BestRecord};
ghost use Rattle.best_shard.specs.Calls.{MayCome, IsTaking, IsPruning, IsVisited, IsPosting, IsEnd};
ghost use Rattle.best_shard.specs.Outgoing.{addressed};
ghost use Rattle.best_shard.specs.Stands.{Stands, Holds, EndsAs};
ghost use Rattle.cost_laws.specs.Orders.{InWideRange, IsLawOf};
ghost use Rattle.dom_store.specs.Popping.{IsBestOf};
ghost use Rattle.dp_claims.specs.Enough.{Has};
ghost use Rattle.dp_model.specs.Costs.{InRange, order_word};
ghost use Rattle.dp_model.specs.declared.parts.PlainState.{PlainState};
ghost use Rattle.pass_ledger.specs.Passes.{Pass, Prunes, StartsInner};
ghost use Rattle.pass_ledger.specs.Records.{Starts};
ghost use Rattle.pass_ledger.specs.declared.records.Held.{Held};
ghost use Rattle.path_log.specs.Paths.{entry, with_step};
ghost use Rattle.shard_core.specs.Calls.{Finds, visit_in};
ghost use Rattle.shard_core.specs.Offers.{best_held, is_news};
ghost use Rattle.shard_core.specs.Stands.{Suited};
ghost use Rattle.state_layout.specs.Conditions.{IsNodeFor, IsNodeOf};
ghost use Rattle.state_layout.specs.Signatures.{owner_of};
ghost use Rattle.state_layout.specs.Slots.{slots_of};
ghost use Rattle.state_layout.specs.declared.node.Node.{Node};
ghost use Rattle.successors.specs.declared.batch.Offer.{Offer};

use crate::offers::hold_best;
use crate::opening::{first_open, take_in};
use crate::outbox::send_all;
use best_ledger::{BestLetter, ToPost};
use cost_laws::CostLaw;
use dom_store::{Covers, DomStore, PastStore};
use dp_model::{Model as DpModel, Options, Seq};
use pass_ledger::{FaultHere, Held};
use path_log::{PathLog, StepId};
use shard_core::Visited;
use spot_eval::SpotFault;
use state_layout::{Layout, Node};
use std::alloc::{AllocError, Global};
use std::collections::VecDeque;
use std::mem;
use successors::{Batch, ExpandEnd, Expander};

/// A shard of a best-first search. `K` says which nodes cover others.
#[derive(Drop)]
pub struct BestShard<'m, L: CostLaw, K: Covers> {
    pub alloc: Global,
    pub me: u32,
    pub shards: u32,
    pub layout: Layout,
    pub expander: Expander<'m, L>,
    pub log: PathLog,
    /// How many steps the log has.
    pub visited: u64,
    /// The greatest stamp of the letters that came and of the visits.
    pub clock: u64,
    /// The open nodes.
    pub waiting: DomStore<K>,
    /// The visited nodes, as far as they cover others.
    pub past: PastStore<K>,
    /// The letters that visits made and that were not handed out.
    pub letters: VecDeque<ToPost>,
    /// Room for what a visit makes of a node. Between two visits it says nothing.
    pub batch: Batch,
    pub held: Option<Held>,
    pub fault: Option<FaultHere>,
}

/// What a shard hands back at its end.
#[derive(Clone, Copy, Debug, PartialEq, Eq)]
pub struct BestShardEnd {
    pub shard: u32,
    pub visited: u64,
    pub held: Option<Held>,
    pub fault: Option<FaultHere>,
}

impl<'m, L: CostLaw, K: Covers> BestShard<'m, L, K> {
    /// A shard that has taken no letter. `start` is the target's node, in its owner, and nothing elsewhere. `K` covers by
    /// dominance exactly where the options say that dual bounds and dominance are used.
    pub fn new(
        alloc: Global,
        model: &'m DpModel,
        options: &Options,
        shard: u32,
        start: Option<Node>,
    ) -> Result<BestShard<'m, L, K>, AllocError>
        requires law { IsLawOf model.now L.minimize L.operator }
        requires below { shard < options.now.workers }
        requires node { IfSome start (IsNodeOf model.now) }
        ensures { (p : Pass) → Suited p L.minimize L.operator K.prune K.minimize K.operator → p.model ≡ model.now → p.prune ≡ options.now.prune → p.shards ≡ options.now.workers
            → ((state : PlainState) → owner_of (slots_of model.now.objects model.now.variables) state options.now.workers ≡ p.owner state) → StartsInner p → Starts p shard start
            → IfOk result (λ s. (s.me ≡ shard) × Stands p s (fresh p.shards start)) }
    {
        let layout = Layout::of(alloc, model)?;
        let waiting = first_open(alloc, &layout, start)?;
        let past = PastStore::new(alloc, &layout)?;
        let expander = Expander::new(alloc, model, options.prune())?;
        Ok(BestShard {
            alloc,
            me: shard,
            shards: options.workers(),
            layout,
            expander,
            log: PathLog::new(alloc, shard),
            visited: 0,
            clock: 0,
            waiting,
            past,
            letters: VecDeque::new(alloc),
            batch: Batch::new(alloc),
            held: None,
            fault: None,
        })
    }

    /// Takes a letter: its node is open from now on, where neither an open nor a visited node covers it, and the open ones that it
    /// covers go. On `Err` memory ran out: the letter comes back, and nothing changes.
    pub fn accept(&mut self, letter: BestLetter) -> Result<(), BestLetter>
        requires { (p : Pass) × (r : BestRecord) × Stands p self.old r × MayCome p letter }
        ensures taken { (p : Pass) (r : BestRecord) → Suited p L.minimize L.operator K.prune K.minimize K.operator → Stands p self.old r → MayCome p letter → OnOk result (IsTaking p r letter self.new) }
        ensures same { (p : Pass) (r : BestRecord) → Stands p self.old r → OnErr result (Stands p self.new r) }
        ensures back { IfErr result (λ back. back ≡ letter) }
        ensures me { self.new.me ≡ self.old.me }
    {
        let BestLetter { from, stamp, node } = letter;
        match take_in(
            &self.layout,
            &self.past,
            &mut self.waiting,
            &mut self.expander,
            node,
        ) {
            Ok(()) => {
                self.clock = self.clock.max(stamp);
                Ok(())
            }
            Err(node) => Err(BestLetter { from, stamp, node }),
        }
    }

    /// Whether a node is open.
    pub fn waits(&self) -> bool
        ensures { (p : Pass) (r : BestRecord) → Stands p self.now r → IsTrue result ↔ (0 < length r.waiting) }
    {
        self.waiting.len() > 0
    }

    /// Takes out the open node that comes first in the order of `DomStore::pop_best`. The record changes only once the node is dropped as
    /// pruned, or visited: to let it go otherwise leaves the shard as one that is only ended. It takes no memory.
    pub fn pick(&mut self) -> Option<Node>
        ensures picked { (p : Pass) (r : BestRecord) → Stands p self.old r → IfSome result (λ n. Holds p self.new n r) }
        ensures first { (p : Pass) (r : BestRecord) → Suited p L.minimize L.operator K.prune K.minimize K.operator → Stands p self.old r → IfSome result (λ n. IsBestOf p.model.minimize p.model.join r.waiting n self.new.waiting.nodes) }
        ensures none { (p : Pass) (r : BestRecord) → Stands p self.old r → IfNone result ((r.waiting ≡ []) × Stands p self.new r) }
        ensures me { self.new.me ≡ self.old.me }
    {
        self.waiting.pop_best::<L>()
    }

    /// Whether the best word prunes the node that was picked: the word of its floor is not less.
    pub fn prunes(&self, node: &Node, best: u64) -> bool
        requires { (p : Pass) × (r : BestRecord) × Holds p self.now node.now r }
        ensures { (p : Pass) (r : BestRecord) → Suited p L.minimize L.operator K.prune K.minimize K.operator → Holds p self.now node.now r → IsTrue result ↔ Prunes p best node.now }
    {
        is_pruned::<L>(node, best)
    }

    /// Drops the node that was picked, since the best word prunes it. It covers no node from now on.
    pub fn drop_picked(&mut self, node: Node)
        ensures pruned { (p : Pass) (r : BestRecord) (best : ℕ) → Holds p self.old node r → Prunes p best node → IsPruning p best r node self.new }
        ensures me { self.new.me ≡ self.old.me }
    {
        drop(node);
    }

    /// Visits the node that was picked. Its successors are pruned by the best word that is given. After a fault, or where memory ran
    /// out, the shard is only ended; then the record has no more visits than before, but for that of the fault. The greatest
    /// clock counts as want of memory, too.
    pub fn visit(&mut self, node: Node, best: u64) -> Visited
        requires { (p : Pass) × (r : BestRecord) × Holds p self.old node r }
        ensures visited { (p : Pass) (r : BestRecord) → Suited p L.minimize L.operator K.prune K.minimize K.operator → Holds p self.old node r → IsVisited p self.old.me best r node result self.new }
        ensures found { (p : Pass) (r : BestRecord) → Holds p self.old node r → Finds p.model (visit_in p self.old.me (length (visits_in r.history)) node best) result }
        ensures me { self.new.me ≡ self.old.me }
    {
        let Some(stamp) = self.clock.checked_add(1) else {
            return Visited::Memory;
        };
        if self.past.add(&self.layout, &node).is_err() {
            return Visited::Memory;
        }
        let id = StepId {
            shard: self.me,
            place: self.visited,
        };
        match self
            .expander
            .expand(self.alloc, &node, id, best, &mut self.batch)
        {
            Ok(()) => match self.take_batch(&node, id, stamp) {
                Ok(offer) => Visited::Done { offer },
                Err(_) => Visited::Memory,
            },
            Err(ExpandEnd::Fault { spot, kind, last }) => {
                let fault = FaultHere {
                    at: id,
                    last,
                    spot,
                    kind,
                };
                match self.keep_fault(&node, fault) {
                    Ok(()) => Visited::Fault(SpotFault { spot, kind }),
                    Err(_) => Visited::Memory,
                }
            }
            Err(ExpandEnd::Memory) => Visited::Memory,
        }
    }

    // What a visit made goes to the letters, with its stamp, the visit is logged, and the best of its solutions is held. The answer is
    // the word of that solution, where it is better than what was held. On `Err` memory ran out, and the log, the count of visits
    // and what is held are as before.
    fn take_batch(&mut self, node: &Node, id: StepId, stamp: u64) -> Result<Option<u64>, AllocError>
        requires offers { All (λ (offer : Offer). InRange offer.cost) self.old.batch.offers }
        requires held { IfSome self.old.held (λ h. InRange h.cost) }
        requires nodes { (n : Node) → Has self.old.batch.letters n → IsNodeFor self.old.layout n }
        requires some { 1 ≤ self.old.shards }
        ensures frame { self.new ≡ record self.old { batch = self.new.batch; letters = self.new.letters; clock = self.new.clock; log = self.new.log; visited = self.new.visited; held = self.new.held } }
        ensures letters { OnOk result (self.new.letters.items ≡ self.old.letters.items ++ map (addressed self.old.layout self.old.shards self.old.me stamp) self.old.batch.letters) }
        ensures clock { OnOk result (self.new.clock ≡ stamp) }
        ensures log { OnOk result (self.new.log ≡ with_step self.old.log (entry node.now.parent node.now.transition)) }
        ensures visited { OnOk result (self.new.visited ≡ self.old.visited + 1) }
        ensures held { OnOk result (self.new.held ≡ best_held L.minimize L.operator id self.old.held self.old.batch.offers) }
        ensures news { IfOk result (λ offer. is_some offer ≡ is_news L.minimize L.operator self.old.held self.new.held) }
        ensures word { IfOk result (λ offer. IfSome offer (λ word. (h : Held) × (self.new.held ≡ Some h) × (pos word ≡ order_word L.minimize L.operator (Some h.cost)))) }
        ensures same { OnErr result ((self.new.log ≡ self.old.log) × (self.new.visited ≡ self.old.visited) × (self.new.held ≡ self.old.held)) }
    {
        let nodes = mem::replace(&mut self.batch.letters, Seq::of(Vec::new(self.alloc)));
        self.batch.letters = send_all(
            &self.layout,
            self.shards,
            &mut self.letters,
            self.me,
            stamp,
            nodes,
        )?;
        log_visit(&mut self.log, &mut self.visited, node)?;
        self.clock = stamp;
        Ok(hold_best::<L>(&mut self.held, id, self.batch.offers.list()))
    }

    // The visit is logged, and its fault is kept. On `Err` memory ran out, and nothing changes.
    fn keep_fault(&mut self, node: &Node, fault: FaultHere) -> Result<(), AllocError>
        ensures kept { OnOk result (self.new ≡ record self.old { log = with_step self.old.log (entry node.now.parent node.now.transition); visited = self.old.visited + 1; fault = Some fault }) }
        ensures same { OnErr result (self.new ≡ self.old) }
    {
        log_visit(&mut self.log, &mut self.visited, node)?;
        self.fault = Some(fault);
        Ok(())
    }

    /// The receiver of the next letter that is to be posted, and the letter. It takes no memory.
    pub fn next_letter(&mut self) -> Option<(u32, BestLetter)>
        ensures posted { (p : Pass) (r : BestRecord) → Stands p self.old r → IfSome result (λ x. IsPosting p r (to_post x.0 x.1) self.new) }
        ensures none { (p : Pass) (r : BestRecord) → Stands p self.old r → IfNone result ((r.unsent ≡ []) × Stands p self.new r) }
        ensures me { self.new.me ≡ self.old.me }
    {
        let ToPost { to, letter } = self.letters.pop_front()?;
        Some((to, letter))
    }

    /// Whether no node is open, and no letter is to be posted.
    pub fn is_idle(&self) -> bool
        ensures { (p : Pass) (r : BestRecord) → Stands p self.now r → IsTrue result ↔ ((r.waiting ≡ []) × (r.unsent ≡ [])) }
    {
        self.waiting.len() == 0 && self.letters.is_empty()
    }

    /// What the shard hands back, and its log of steps. It takes no memory.
    pub fn end(self) -> (BestShardEnd, PathLog)
        ensures { (p : Pass) (r : BestRecord) → EndsAs p self.entry r → IsEnd p self.entry.me r result.0 result.1 }
    {
        (
            BestShardEnd {
                shard: self.me,
                visited: self.visited,
                held: self.held,
                fault: self.fault,
            },
            self.log,
        )
    }
}

/// Adds a visited node to a log, and counts it. On `Err` memory ran out, and nothing changes.
fn log_visit(log: &mut PathLog, visited: &mut u64, node: &Node) -> Result<(), AllocError>
    ensures log { OnOk result (log.new ≡ with_step log.old (entry node.now.parent node.now.transition)) }
    ensures visited { OnOk result (visited.new ≡ visited.old + 1) }
    ensures same { OnErr result ((log.new ≡ log.old) × (visited.new ≡ visited.old)) }
{
    let Some(next) = visited.checked_add(1) else {
        return Err(AllocError);
    };
    log.push(node.parent, node.transition)?;
    *visited = next;
    Ok(())
}

/// Whether the best word prunes a node.
fn is_pruned<L: CostLaw>(node: &Node, best: u64) -> bool
    requires { IfSome node.now.floor InWideRange }
    ensures pruned { result ≡ true → (floor : ℤ) × (node.now.floor ≡ Some floor) × (pos best ≤ℤ order_word L.minimize L.operator (Some floor)) }
    ensures kept { result ≡ false → (floor : ℤ) → node.now.floor ≡ Some floor → pos best ≤ℤ order_word L.minimize L.operator (Some floor) → ⊥ }
{
    match node.floor {
        Some(floor) => best <= L::word(Some(floor)),
        None => false,
    }
}
