//! The expander of a model.

ghost use Rattle.std.specs.Prelude.{◌≡◌, Some, List, IfOk, IfSome, OnErr, OnOk, ℕ, length};
ghost use Rattle.eval_room.specs.Needs.{ServesModel};
ghost use Rattle.dp_model.specs.Costs.{InRange};
ghost use Rattle.dp_model.specs.StepTexts.{ground_of};
ghost use Rattle.dp_model.specs.declared.parts.Transition.{Transition};
ghost use Rattle.dp_steps.specs.States.{Enabled};
ghost use Rattle.cost_laws.specs.Orders.{InWideRange, IsLawOf};
ghost use Rattle.state_layout.specs.Conditions.{IsPackedOf, IsNodeOf};
ghost use Rattle.spot_eval.specs.Looks.{allowed_at, base_at, floor_at};
ghost use Rattle.spot_eval.specs.Moves.{may_step_at, next_at};
ghost use Rattle.successors.specs.Answers.{Answers, AnswersBy, here};
ghost use Rattle.successors.specs.Batches.{BatchFits, empty_batch};
ghost use Rattle.successors.specs.Starts.{start_at, StartFits};
ghost use Rattle.successors.specs.Visits.{expansion};

use crate::batch::Batch;
use crate::candidates::{Candidate, candidates_of};
use crate::ends::ExpandEnd;
use crate::spares::Spares;
use crate::starts::Start;
use crate::switches::{Switch, switches_of};
use crate::visits::{Visitor, words_of};
use cost_laws::CostLaw;
use dp_model::Model as DpModel;
use eval_room::room_for;
use packed_spots::in_words;
use packed_words::{Scene, Tables};
use path_log::StepId;
use spot_eval::{Look, SpotFault};
use state_layout::{Layout, Node, NodeBox, Packed};
use std::alloc::{AllocError, Global};
use std::marker::{Model, PhantomData};

/// A packed state with values of parameters, as an expander looks at it.
macro_rules! scene_of {
    ($expander:ident, $state:expr, $values:expr) => {
        Scene {
            model: $expander.model,
            tables: &$expander.tables,
            slots: $expander.layout.slots(),
            words: words_of($expander.model, &$expander.layout, $state),
            args: $values,
        }
    };
}

/// What looks at the states of a model and makes their successors. It lists the transitions once, keeps what
/// evaluation needs of tables, the words that it holds and boxes that are filled again, and reads packed states. A call changes neither the model nor
/// whether dual bounds are used.
#[derive(Drop)]
pub struct Expander<'m, L: CostLaw> {
    model: &'m DpModel,
    prune: bool,
    layout: Layout,
    tables: Tables,
    forced: Vec<u32>,
    others: Vec<Candidate>,
    switches: Vec<Switch>,
    stack: Vec<u64>,
    spares: Spares,
    law: PhantomData<L>,
}

impl<'m, L: CostLaw> Model for Expander<'m, L> {
    ghost use Rattle.std.specs.Prelude.{◌≡◌};
    ghost use Rattle.cost_laws.specs.Orders.{IsLawOf};
    ghost use Rattle.state_layout.specs.Conditions.{IsLayoutOf};
    ghost use Rattle.std.specs.Prelude.{length, map};
    ghost use Rattle.spot_eval.specs.Moves.{forced_of, others_of};
    ghost use Rattle.packed_words.specs.Tables.{AreTablesOf};
    ghost use Rattle.eval_room.specs.Needs.{ServesModel};
    ghost use Rattle.successors.specs.Candidates.{candidate_of};
    ghost use Rattle.successors.specs.Searches.{Search, search_code};
    ghost use Rattle.successors.specs.Switches.{AreSwitches};

    ghost Value = { Search };

    ghost coded = { search_code };

    ghost view = { λ e. record { model = e.model.now; prune = e.prune } };

    ghost invariant = { λ e. IsLawOf e.model.now L.minimize L.operator × IsLayoutOf e.model.now e.layout × (e.forced.items ≡ forced_of e.model.now) × (e.others.items ≡ map (candidate_of e.model.now) (others_of e.model.now)) × AreSwitches e.model.now (others_of e.model.now) e.switches.items × AreTablesOf e.model.now e.tables × ServesModel e.model.now (length e.stack.items) };
}

impl<'m, L: CostLaw> Expander<'m, L> {
    /// The expander of a model under its law of costs. `prune` says whether dual bounds are used.
    pub fn new(
        alloc: Global,
        model: &'m DpModel,
        prune: bool,
    ) -> Result<Expander<'m, L>, AllocError>
        requires { IsLawOf model.now L.minimize L.operator }
        ensures { IfOk result (λ expander. expander ≡ record { model = model.now; prune = prune }) }
    {
        Ok(Expander {
            model,
            prune,
            layout: Layout::of(alloc, model)?,
            tables: Tables::of(alloc, model)?,
            forced: spot_eval::forced_of(alloc, model)?,
            others: candidates_of(alloc, model)?,
            switches: switches_of(alloc, model)?,
            stack: stack_for(alloc, model)?,
            spares: Spares::new(alloc),
            law: PhantomData,
        })
    }

    /// What the target turns out to be. Its node has no cost so far.
    pub fn start(&mut self, alloc: Global) -> Result<Start, ExpandEnd>
        ensures start { Answers result (start_at self.old.model self.old.prune) }
        ensures fits { IfOk result (StartFits self.old.model) }
        ensures same { self.new ≡ self.old }
    {
        let state = self.layout.pack(alloc, self.model.target())?;
        let at = scene_of!(self, &state, &[]);
        match packed_spots::look_at::<L>(&at, self.prune, None, &mut self.stack)? {
            Look::NotAllowed => Ok(Start::NotAllowed),
            Look::Base(base) => Ok(Start::Base(base)),
            Look::Open(floor) => Ok(Start::Open(Node {
                state,
                cost: None,
                floor,
                parent: None,
                transition: 0,
            })),
        }
    }

    /// Whether a state is allowed: all constraints hold.
    pub fn allowed(&mut self, p: &Packed) -> Result<bool, SpotFault>
        requires { IsPackedOf self.old.model p.now }
        ensures allowed { result ≡ allowed_at self.old.model p.now }
        ensures same { self.new ≡ self.old }
    {
        let at = scene_of!(self, p, &[]);
        packed_spots::allowed(&at, &mut self.stack)
    }

    /// The base cost of a state. `None` where it is not base and no fault is met.
    pub fn base_cost(&mut self, p: &Packed) -> Result<Option<i64>, SpotFault>
        requires { IsPackedOf self.old.model p.now }
        ensures cost { result ≡ base_at self.old.model p.now }
        ensures in_range { IfOk result (λ cost. IfSome cost InRange) }
        ensures same { self.new ≡ self.old }
    {
        let at = scene_of!(self, p, &[]);
        packed_spots::base_cost(&at, &mut self.stack)
    }

    /// Whether a ground transition is considered and enabled in a state: it is enabled, and no forced one that is tested
    /// before it is.
    pub fn enabled(&mut self, p: &Packed, number: u32) -> Result<bool, SpotFault>
        requires { IsPackedOf self.old.model p.now }
        ensures enabled { result ≡ may_step_at self.old.model p.now number }
        ensures same { self.new ≡ self.old }
    {
        let at = scene_of!(self, p, &[]);
        packed_spots::may_step(&at, number, &self.forced, &mut self.stack)
    }

    /// The state that an enabled ground transition leads to. Its effects alone are evaluated.
    #[tactic(auto, using(packed_spots::proofs::Rooms::few_values))]
    pub fn apply(&mut self, alloc: Global, p: &Packed, number: u32) -> Result<Packed, ExpandEnd>
        requires packed { IsPackedOf self.old.model p.now }
        requires enabled { Enabled self.old.model p.now number }
        ensures next { (t : Transition × List ℕ) → ground_of self.old.model number ≡ Some t → Answers result (here (next_at self.old.model p.now number t)) }
        ensures packed { IfOk result (λ next. IsPackedOf self.old.model next) }
        ensures same { self.new ≡ self.old }
    {
        let Some((transition, args)) = self.model.step(number) else {
            unreachable!()
        };
        let given = in_words(args.list());
        let given = &given[..args.list().len()];
        let at = scene_of!(self, p, given);
        let next = packed_spots::next_state(
            alloc,
            &self.layout,
            &at,
            p,
            number,
            transition,
            &mut self.stack,
        )?;
        Ok(next)
    }

    /// The floor of an inner state with this cost so far. `None` where dual bounds are not used, or the model has none.
    pub fn floor(&mut self, p: &Packed, cost: Option<i64>) -> Result<Option<i64>, SpotFault>
        requires packed { IsPackedOf self.old.model p.now }
        requires cost { IfSome cost InRange }
        ensures floor { result ≡ floor_at self.old.model self.old.prune p.now cost }
        ensures wide { IfOk result (λ floor. IfSome floor InWideRange) }
        ensures same { self.new ≡ self.old }
    {
        let at = scene_of!(self, p, &[]);
        packed_spots::floor::<L>(&at, self.prune, cost, &mut self.stack)
    }

    /// Fills an empty batch with the successors of a node.
    fn fill(
        &mut self,
        alloc: Global,
        node: &Node,
        id: StepId,
        best: u64,
        batch: &mut Batch,
    ) -> Result<(), ExpandEnd>
        requires node { IsNodeOf self.old.model node.now }
        requires empty { batch.old ≡ empty_batch }
        ensures batch { AnswersBy (λ _. batch.new) result (expansion self.old.model (record { prune = self.old.prune; state = node.now.state; cost = node.now.cost; id = id; best = best })) }
        ensures fits { OnOk result (BatchFits self.old.model batch.new) }
        ensures same { self.new ≡ self.old }
    {
        self.spares.read_ahead();
        let visitor: Visitor<'_, L> = Visitor {
            model: self.model,
            tables: &self.tables,
            layout: &self.layout,
            prune: self.prune,
            state: &node.state,
            cost: node.cost,
            id,
            best,
            law: PhantomData,
        };
        visitor.fill(
            alloc,
            &self.forced,
            &self.others,
            &self.switches,
            batch,
            &mut self.stack,
            &mut self.spares,
        )
    }

    /// Takes a box whose node is no longer needed, to fill it again. Where as many are kept as were asked for anew, or there is no
    /// memory to keep it, it is let go.
    #[inline(always)]
    pub fn give_back(&mut self, held: NodeBox)
        ensures { self.new ≡ self.old }
    {
        self.spares.give_back(held);
    }

    /// Lets the boxes go that were given back and not filled again. It takes no memory.
    pub fn drop_spares(&mut self)
        ensures { self.new ≡ self.old }
    {
        self.spares.let_go();
    }

    /// The successors of an inner node, which is visited under this step. The batch is emptied first, and filled in order
    /// of definition; after an error it is empty. `best` is the order word that prunes successors.
    pub fn expand(
        &mut self,
        alloc: Global,
        node: &Node,
        id: StepId,
        best: u64,
        batch: &mut Batch,
    ) -> Result<(), ExpandEnd>
        requires { IsNodeOf self.old.model node.now }
        ensures batch { AnswersBy (λ _. batch.new) result (expansion self.old.model (record { prune = self.old.prune; state = node.now.state; cost = node.now.cost; id = id; best = best })) }
        ensures empty { OnErr result (batch.new ≡ empty_batch) }
        ensures fits { BatchFits self.old.model batch.new }
        ensures same { self.new ≡ self.old }
    {
        batch.clear();
        let told = self.fill(alloc, node, id, best, batch);
        if told.is_err() {
            batch.clear();
        }
        told
    }
}

/// Words enough for whatever evaluation holds at once.
fn stack_for(alloc: Global, model: &DpModel) -> Result<Vec<u64>, AllocError>
    ensures { IfOk result (λ stack. ServesModel model.now (length stack.items)) }
{
    let room = room_for(model).ok_or(AllocError)?;
    vec![in alloc; 0u64; room]
}
