//! A bench: a model under a law of costs, a state of it at hand, and what a search makes of them.

ghost use Rattle.std.specs.Prelude.{◌≡◌, ◌≤◌, ◌++◌, IfOk, IfSome, OnOk};
ghost use Rattle.dp_model.specs.Costs.{InRange};
ghost use Rattle.cost_laws.specs.Orders.{InWideRange, IsLawOf};
ghost use Rattle.state_layout.specs.Conditions.{IsNodeOf};
ghost use Rattle.successors.specs.Starts.{StartFits};
ghost use Rattle.cases_search.specs.Fits.{AllFit, FitsIn};

use crate::numbers::scattered;
use crate::shown::{cost_shown, id_shown, state_shown};
use cost_laws::CostLaw;
use dom_store::{Added, Covers, DomStore, Taken};
use dp_model::Model as DpModel;
use path_log::StepId;
use spot_eval::SpotFault;
use state_layout::{Layout, Node, NodeBox, Packed};
use std::alloc::{AllocError, Global};
use std::marker::Model;
use successors::{Batch, ExpandEnd, Expander, Start};

/// The step under which each visit is made.
const VISIT: StepId = StepId { shard: 0, place: 0 };

/// A model with its expander, its layout and a store of nodes, and a state of it at hand. Contracts see the model.
#[derive(Drop)]
pub(crate) struct Bench<'m, L: CostLaw, K: Covers> {
    model: &'m DpModel,
    expander: Expander<'m, L>,
    layout: Layout,
    store: DomStore<K>,
    state: Packed,
}

impl<'m, L: CostLaw, K: Covers> Model for Bench<'m, L, K> {
    ghost use Rattle.std.specs.Prelude.{◌≡◌};
    ghost use Rattle.dp_model.specs.contracts.whole.Model as models;
    ghost use Rattle.dp_model.specs.declared.whole.Model.{Model as DpModel};
    ghost use Rattle.state_layout.specs.Conditions.{IsLayoutOf, IsPackedOf};

    ghost Value = { DpModel };

    ghost coded = { models.the_row.coded };

    ghost view = { λ b. b.model.now };

    ghost invariant = { λ b. (b.expander.model ≡ b.model.now) × IsLayoutOf b.model.now b.layout × (b.store.layout ≡ b.layout) × IsPackedOf b.model.now b.state };
}

impl<'m, L: CostLaw, K: Covers> Bench<'m, L, K> {
    /// A bench with the target at hand and an empty store.
    pub(crate) fn new(
        alloc: Global,
        model: &'m DpModel,
        prune: bool,
    ) -> Result<Bench<'m, L, K>, AllocError>
        requires { IsLawOf model.now L.minimize L.operator }
        ensures { IfOk result (λ bench. bench ≡ model.now) }
    {
        let layout = Layout::of(alloc, model)?;
        Ok(Bench {
            model,
            expander: Expander::new(alloc, model, prune)?,
            store: DomStore::new(alloc, &layout)?,
            state: layout.pack(alloc, model.target())?,
            layout,
        })
    }

    pub(crate) fn model(&self) -> &DpModel
        ensures { result.now ≡ self.now }
    {
        self.model
    }

    /// Takes the target to hand.
    pub(crate) fn return_to_target(&mut self, alloc: Global) -> Result<(), AllocError>
        ensures { self.new ≡ self.old }
    {
        self.state = self.layout.pack(alloc, self.model.target())?;
        Ok(())
    }

    /// Takes the state to hand that a ground transition leads to, if it is considered and enabled.
    #[tactic(auto, using(visit_laws::proofs::Transitions::may_step_found))]
    pub(crate) fn step(&mut self, alloc: Global, number: u32) -> Result<bool, ExpandEnd>
        ensures { self.new ≡ self.old }
    {
        if !self.expander.enabled(&self.state, number)? {
            return Ok(false);
        }
        self.state = self.expander.apply(alloc, &self.state, number)?;
        Ok(true)
    }

    pub(crate) fn start(&mut self, alloc: Global) -> Result<Start, ExpandEnd>
        ensures fits { IfOk result (StartFits self.new) }
        ensures same { self.new ≡ self.old }
    {
        self.expander.start(alloc)
    }

    pub(crate) fn allowed(&mut self) -> Result<bool, SpotFault>
        ensures { self.new ≡ self.old }
    {
        self.expander.allowed(&self.state)
    }

    pub(crate) fn base_cost(&mut self) -> Result<Option<i64>, SpotFault>
        ensures { self.new ≡ self.old }
    {
        self.expander.base_cost(&self.state)
    }

    pub(crate) fn enabled(&mut self, number: u32) -> Result<bool, SpotFault>
        ensures { self.new ≡ self.old }
    {
        self.expander.enabled(&self.state, number)
    }

    /// The floor of the state at hand with this cost so far.
    pub(crate) fn floor(&mut self, cost: Option<i64>) -> Result<Option<i64>, SpotFault>
        requires { IfSome cost InRange }
        ensures { self.new ≡ self.old }
    {
        self.expander.floor(&self.state, cost)
    }

    /// A node of the state at hand, which has no parent.
    fn node(&self, alloc: Global, cost: Option<i64>, floor: Option<i64>) -> Result<Node, AllocError>
        requires cost { IfSome cost InRange }
        requires floor { IfSome floor InWideRange }
        ensures { IfOk result (IsNodeOf self.now) }
    {
        let state = self.layout.unpack(alloc, &self.state)?;
        Ok(Node {
            state: self.layout.pack(alloc, &state)?,
            cost,
            floor,
            parent: None,
            transition: 0,
        })
    }

    /// Visits the state at hand with this cost so far. `best` is the cost of an incumbent.
    pub(crate) fn expand(
        &mut self,
        alloc: Global,
        cost: Option<i64>,
        best: u64,
    ) -> Result<Batch, ExpandEnd>
        requires { IfSome cost InRange }
        ensures batch { IfOk result (λ batch. AllFit self.new batch.letters × AllFit self.new batch.pruned) }
        ensures same { self.new ≡ self.old }
    {
        let node = self.node(alloc, cost, None)?;
        let mut batch = Batch::new(alloc);
        self.expander.expand(alloc, &node, VISIT, best, &mut batch)?;
        Ok(batch)
    }

    /// Which of so many shards owns the state at hand.
    #[tactic(auto, using(crate::proofs::Fitting::packed_for))]
    pub(crate) fn owner(&self, shards: u32) -> u32
        requires { 1 ≤ shards }
    {
        self.layout.owner(&self.state, shards)
    }

    /// Adds a node of the state at hand to the store. `None` where memory ran out.
    pub(crate) fn add(
        &mut self,
        alloc: Global,
        cost: Option<i64>,
        floor: Option<i64>,
    ) -> Result<Option<Added>, AllocError>
        requires cost { IfSome cost InRange }
        requires floor { IfSome floor InWideRange }
        ensures { self.new ≡ self.old }
    {
        let made = self.node(alloc, cost, floor)?;
        let node = NodeBox::new(alloc, made)?;
        Ok(self.store.add(&self.layout, node).ok())
    }

    /// Adds nodes of the state at hand and of those that a ground transition leads to when it is taken again and again, with
    /// costs so far in no order. It ends where so many are added, or the transition is not enabled.
    pub(crate) fn add_along(
        &mut self,
        alloc: Global,
        number: u32,
        count: u32,
    ) -> Result<(), ExpandEnd>
        ensures { self.new ≡ self.old }
    {
        for index in 0..count {
            self.add(alloc, scattered(index), None)?;
            if !self.step(alloc, number)? {
                return Ok(());
            }
        }
        Ok(())
    }

    pub(crate) fn held(&self) -> u64 {
        self.store.len()
    }

    pub(crate) fn take_best(&mut self, alloc: Global, share: u64) -> Result<Taken, AllocError>
        ensures taken { IfOk result (λ taken. AllFit self.new taken.kept × AllFit self.new taken.dropped) }
        ensures same { self.new ≡ self.old }
    {
        self.store.take_best::<L>(alloc, share)
    }

    /// The state at hand.
    #[tactic(auto, using(crate::proofs::Fitting::packed_for))]
    pub(crate) fn state_shown(&self, alloc: Global) -> Result<String, AllocError> {
        let state = self.layout.unpack(alloc, &self.state)?;
        state_shown(alloc, self.model, &state)
    }

    /// A node: its state, cost so far, floor and parent.
    pub(crate) fn node_shown(&self, alloc: Global, node: &Node) -> Result<String, AllocError>
        requires { FitsIn self.now node.now }
    {
        let state = self.layout.unpack(alloc, &node.state)?;
        let state = state_shown(alloc, self.model, &state)?;
        let cost = cost_shown(alloc, node.cost)?;
        let floor = cost_shown(alloc, node.floor)?;
        let parent = id_shown(alloc, node.parent)?;
        format!(in alloc; "{state} cost {cost} floor {floor} parent {parent}")
    }

    /// Whether a node has the same text as its copy, and its state is the same as its copy's.
    pub(crate) fn is_copied(&self, alloc: Global, node: &Node) -> Result<bool, AllocError>
        requires { FitsIn self.now node.now }
    {
        let copy = node.copy(alloc)?;
        let same = self.layout.same(&node.state, &copy.state)
            && node.cost == copy.cost
            && node.floor == copy.floor
            && node.parent == copy.parent
            && node.transition == copy.transition;
        Ok(same)
    }
}
