//! One visit: the successors of a state go into a batch, in order of definition.

ghost use Rattle.std.specs.Prelude.{◌≡◌, ◌<◌, ◌≤◌, ◌+◌, true, false, ℕ, List, Some, Result, Ok, length, map, IfOk, IfSome, OnOk};
ghost use Rattle.dp_base.specs.Results.{each};
ghost use Rattle.dp_model.specs.Costs.{InRange};
ghost use Rattle.dp_model.specs.StepTexts.{ground_of};
ghost use Rattle.dp_model.specs.declared.parts.Transition.{Transition};
ghost use Rattle.cost_laws.specs.Orders.{InWideRange, IsLawOf};
ghost use Rattle.state_layout.specs.Conditions.{IsLayoutOf, IsPackedOf};
ghost use Rattle.state_layout.specs.Packing.{state_in};
ghost use Rattle.eval_room.specs.Needs.{ServesModel};
ghost use Rattle.packed_words.specs.Scenes.{AreSmall, Shows};
ghost use Rattle.packed_spots.specs.Firsts.{first_holds};
ghost use Rattle.packed_words.specs.Tables.{AreTablesOf};
ghost use Rattle.spot_eval.specs.Answers.{AnswersBy as Evaluates};
ghost use Rattle.spot_eval.specs.Moves.{forced_of, number_enabled, others_of};
ghost use Rattle.successors.specs.Answers.{AnswersBy, after};
ghost use Rattle.successors.specs.Batches.{BatchFits, empty_batch};
ghost use Rattle.successors.specs.Candidates.{candidate_of};
ghost use Rattle.successors.specs.Switches.{AreSwitches};
ghost use Rattle.successors.specs.Visits.{expansion, is_pruned, with_next, with_node, with_number, with_picked, with_successor, with_tested};

use crate::batch::{Batch, Offer};
use crate::candidates::{Candidate, words_given};
use crate::ends::ExpandEnd;
use crate::spares::Spares;
use crate::switches::{Switch, case_at};
use cost_laws::CostLaw;
use dp_model::{Model as DpModel, Spot, Transition};
use packed_spots::in_words;
use packed_words::{Scene, Tables, has_in};
use path_log::StepId;
use spot_eval::{Look, SpotEnd};
use state_layout::{Layout, Node, Packed};
use std::alloc::{AllocError, Global};
use std::marker::{Model, PhantomData};

/// A visit of a state of a model: with its cost so far, under a step, and with the best word that prunes its successors.
#[derive(Drop)]
pub(crate) struct Visitor<'a, L: CostLaw> {
    pub(crate) model: &'a DpModel,
    pub(crate) tables: &'a Tables,
    pub(crate) layout: &'a Layout,
    pub(crate) prune: bool,
    pub(crate) state: &'a Packed,
    pub(crate) cost: Option<i64>,
    pub(crate) id: StepId,
    pub(crate) best: u64,
    pub(crate) law: PhantomData<L>,
}

/// The words of a packed state of the model.
#[inline(always)]
pub(crate) fn words_of<'p>(model: &DpModel, layout: &Layout, p: &'p Packed) -> &'p [u64]
    requires layout { IsLayoutOf model.now layout.now }
    requires packed { IsPackedOf model.now p.now }
    ensures shown { Shows model.now layout.now result.now }
    ensures state { state_in result.now ≡ p.now }
{
    packed_eval::words_of(model, layout, p)
}

/// Whether the membership that is tested first of a candidate fails in the state of a scene, so that it is not enabled.
#[inline(always)]
fn is_out(at: &Scene<'_>, candidate: Candidate) -> bool
    requires { candidate ≡ candidate_of at.now.model.now candidate.number }
    ensures out { result ≡ true → number_enabled at.now.model.now (state_in at.now.words.now) candidate.number ≡ Ok false }
    ensures first { result ≡ false → (t : Transition × List ℕ) → ground_of at.now.model.now candidate.number ≡ Some t → first_holds (state_in at.now.words.now) t.0.params t.1 ≡ true }
{
    match candidate.first {
        Some(first) => !has_in(at, first.variable, first.member),
        None => false,
    }
}

/// A state of the model, with values of parameters.
#[inline(always)]
fn scene<'s>(
    model: &'s DpModel,
    tables: &'s Tables,
    layout: &'s Layout,
    p: &'s Packed,
    args: &'s [u64],
) -> Scene<'s>
    requires tables { AreTablesOf model.now tables.now }
    requires layout { IsLayoutOf model.now layout.now }
    requires packed { IsPackedOf model.now p.now }
    requires small { AreSmall args.now }
    ensures model { result.model.now ≡ model.now }
    ensures slots { result.slots.now ≡ layout.now }
    ensures state { state_in result.words.now ≡ p.now }
    ensures args { result.args.now ≡ args.now }
{
    Scene {
        model,
        tables,
        slots: layout.slots(),
        words: words_of(model, layout, p),
        args,
    }
}

impl<'a, L: CostLaw> Model for Visitor<'a, L> {
    ghost use Rattle.std.specs.Prelude.{IfSome};
    ghost use Rattle.dp_model.specs.Costs.{InRange};
    ghost use Rattle.cost_laws.specs.Orders.{IsLawOf};
    ghost use Rattle.state_layout.specs.Conditions.{IsLayoutOf, IsPackedOf};
    ghost use Rattle.packed_words.specs.Tables.{AreTablesOf};
    ghost use Rattle.successors.specs.Searches.{Visiting, visiting_code};

    ghost Value = { Visiting };

    ghost coded = { visiting_code };

    ghost view = { λ v. record { model = v.model.now; visit = record { prune = v.prune; state = v.state.now; cost = v.cost; id = v.id; best = v.best } } };

    ghost invariant = { λ v. IsLawOf v.model.now L.minimize L.operator × AreTablesOf v.model.now v.tables.now × IsLayoutOf v.model.now v.layout.now × IsPackedOf v.model.now v.state.now × IfSome v.cost InRange };
}

impl<'a, L: CostLaw> Visitor<'a, L> {
    /// Whether the best word prunes a node with this floor.
    #[inline(always)]
    fn is_pruned(&self, floor: Option<i64>) -> bool
        requires { IfSome floor InWideRange }
        ensures { result ≡ is_pruned self.now.model self.now.visit.best floor }
    {
        match floor {
            Some(bound) => self.best <= L::word(Some(bound)),
            None => false,
        }
    }

    /// Adds a successor that is open: as a letter, or where it is pruned.
    #[inline(always)]
    fn push_node(
        &self,
        alloc: Global,
        number: u32,
        cost: Option<i64>,
        next: Packed,
        floor: Option<i64>,
        batch: &mut Batch,
        spares: &mut Spares,
    ) -> Result<(), AllocError>
        requires state { IsPackedOf self.now.model next }
        requires cost { IfSome cost InRange }
        requires floor { IfSome floor InWideRange }
        requires fits { BatchFits self.now.model batch.old }
        ensures batch { OnOk result (batch.new ≡ with_node self.now.model self.now.visit (record { state = next; cost = cost; floor = floor; parent = Some self.now.visit.id; transition = number }) batch.old) }
        ensures fits { OnOk result (BatchFits self.now.model batch.new) }
    {
        let node = Node {
            state: next,
            cost,
            floor,
            parent: Some(self.id),
            transition: number,
        };
        if self.is_pruned(floor) {
            batch.pruned.list_mut().push(node)?;
        } else {
            let letter = spares.boxed(alloc, node)?;
            batch.letters.list_mut().push(letter)?;
        }
        Ok(())
    }

    /// Looks at a successor, and adds it as what it is.
    #[tactic(auto, using(crate::proofs::Batches::offered))]
    #[inline(always)]
    fn push_look(
        &self,
        alloc: Global,
        number: u32,
        cost: Option<i64>,
        next: Packed,
        batch: &mut Batch,
        stack: &mut [u64],
        spares: &mut Spares,
    ) -> Result<(), SpotEnd>
        requires state { IsPackedOf self.now.model next }
        requires cost { IfSome cost InRange }
        requires room { ServesModel self.now.model (length stack.old) }
        requires fits { BatchFits self.now.model batch.old }
        requires few { batch.old.not_allowed < 65536 }
        ensures batch { Evaluates (λ _. batch.new) result (with_next self.now.model self.now.visit number cost next batch.old) }
        ensures fits { OnOk result (BatchFits self.now.model batch.new) }
        ensures few { OnOk result (batch.new.not_allowed ≤ batch.old.not_allowed + 1) }
    {
        let at = scene(self.model, self.tables, self.layout, &next, &[]);
        match packed_spots::look_at::<L>(&at, self.prune, cost, stack)? {
            Look::NotAllowed => batch.not_allowed += 1,
            Look::Base(base) => {
                let cost = spot_eval::joined_at::<L>(Spot::Total, cost, base)?;
                batch.push_offer(Offer {
                    cost,
                    transition: number,
                })?;
            }
            Look::Open(floor) => self.push_node(alloc, number, cost, next, floor, batch, spares)?,
        }
        Ok(())
    }

    /// The same, where a fault is told with the ground transition that led to the successor.
    #[inline(always)]
    fn push_next(
        &self,
        alloc: Global,
        number: u32,
        cost: Option<i64>,
        next: Packed,
        batch: &mut Batch,
        stack: &mut [u64],
        spares: &mut Spares,
    ) -> Result<(), ExpandEnd>
        requires state { IsPackedOf self.now.model next }
        requires cost { IfSome cost InRange }
        requires room { ServesModel self.now.model (length stack.old) }
        requires fits { BatchFits self.now.model batch.old }
        requires few { batch.old.not_allowed < 65536 }
        ensures batch { AnswersBy (λ _. batch.new) result (after number (with_next self.now.model self.now.visit number cost next batch.old)) }
        ensures fits { OnOk result (BatchFits self.now.model batch.new) }
        ensures few { OnOk result (batch.new.not_allowed ≤ batch.old.not_allowed + 1) }
    {
        match self.push_look(alloc, number, cost, next, batch, stack, spares) {
            Ok(()) => Ok(()),
            Err(SpotEnd::Fault(met)) => Err(ExpandEnd::Fault {
                spot: met.spot,
                kind: met.kind,
                last: Some(number),
            }),
            Err(SpotEnd::Memory) => Err(ExpandEnd::Memory),
        }
    }

    /// Adds the successor that an enabled ground transition makes, with the values of its parameters at hand.
    #[inline(always)]
    fn push_successor(
        &self,
        alloc: Global,
        at: &Scene<'_>,
        number: u32,
        transition: &Transition,
        batch: &mut Batch,
        stack: &mut [u64],
        spares: &mut Spares,
    ) -> Result<(), ExpandEnd>
        requires model { at.now.model.now ≡ self.now.model }
        requires state { state_in at.now.words.now ≡ self.now.visit.state }
        requires step { ground_of self.now.model number ≡ Some (transition.now, at.now.args.now) }
        requires room { ServesModel self.now.model (length stack.old) }
        requires fits { BatchFits self.now.model batch.old }
        requires few { batch.old.not_allowed < 65536 }
        ensures batch { AnswersBy (λ _. batch.new) result (with_successor self.now.model self.now.visit batch.old number (transition.now, at.now.args.now)) }
        ensures fits { OnOk result (BatchFits self.now.model batch.new) }
        ensures few { OnOk result (batch.new.not_allowed ≤ batch.old.not_allowed + 1) }
    {
        let cost = packed_spots::cost_at::<L>(at, number, transition, self.cost, stack)?;
        let mut draft = self.layout.no_draft(alloc);
        self.layout.start_draft(alloc, &mut draft, self.state)?;
        packed_spots::set_effects(at, number, transition, &mut draft, stack)?;
        self.push_next(alloc, number, cost, draft.done(), batch, stack, spares)
    }

    /// Adds the successor that an enabled ground transition makes.
    #[inline(never)]
    #[tactic(auto, using(packed_spots::proofs::Rooms::few_values, packed_spots::proofs::Values::front_small))]
    fn push_number(
        &self,
        alloc: Global,
        at: &Scene<'_>,
        number: u32,
        batch: &mut Batch,
        stack: &mut [u64],
        spares: &mut Spares,
    ) -> Result<(), ExpandEnd>
        requires model { at.now.model.now ≡ self.now.model }
        requires state { state_in at.now.words.now ≡ self.now.visit.state }
        requires room { ServesModel self.now.model (length stack.old) }
        requires fits { BatchFits self.now.model batch.old }
        requires few { batch.old.not_allowed < 65536 }
        ensures batch { AnswersBy (λ _. batch.new) result (with_number self.now.model self.now.visit batch.old number) }
        ensures fits { OnOk result (BatchFits self.now.model batch.new) }
        ensures few { OnOk result (batch.new.not_allowed ≤ batch.old.not_allowed + 1) }
    {
        let Some((transition, args)) = at.model.step(number) else {
            return Ok(());
        };
        let given = in_words(args.list());
        let there = Scene {
            model: at.model,
            tables: at.tables,
            slots: at.slots,
            words: at.words,
            args: &given[..args.list().len()],
        };
        self.push_successor(alloc, &there, number, transition, batch, stack, spares)
    }

    /// Adds the successor that a ground transition makes which is not forced, if it is enabled. Its first
    /// membership is known to hold, where it has one.
    #[inline(always)]
    #[tactic(auto, using(packed_spots::proofs::Rooms::few_values, crate::proofs::Skips::values_are))]
    fn push_tested(
        &self,
        alloc: Global,
        at: &Scene<'_>,
        candidate: &Candidate,
        batch: &mut Batch,
        stack: &mut [u64],
        spares: &mut Spares,
    ) -> Result<(), ExpandEnd>
        requires model { at.now.model.now ≡ self.now.model }
        requires state { state_in at.now.words.now ≡ self.now.visit.state }
        requires candidate { candidate.now ≡ candidate_of self.now.model candidate.now.number }
        requires first { (t : Transition × List ℕ) → ground_of self.now.model candidate.now.number ≡ Some t → first_holds self.now.visit.state t.0.params t.1 ≡ true }
        requires room { ServesModel self.now.model (length stack.old) }
        requires fits { BatchFits self.now.model batch.old }
        requires few { batch.old.not_allowed < 65536 }
        ensures batch { AnswersBy (λ _. batch.new) result (with_tested self.now.model self.now.visit batch.old candidate.now.number) }
        ensures fits { OnOk result (BatchFits self.now.model batch.new) }
        ensures few { OnOk result (batch.new.not_allowed ≤ batch.old.not_allowed + 1) }
    {
        let number = candidate.number;
        let Some((transition, args)) = at.model.step(number) else {
            return Ok(());
        };
        let there = Scene {
            model: at.model,
            tables: at.tables,
            slots: at.slots,
            words: at.words,
            args: words_given(candidate, args.list()),
        };
        if packed_spots::is_enabled_past_first(&there, number, transition, stack)? {
            self.push_successor(alloc, &there, number, transition, batch, stack, spares)
        } else {
            Ok(())
        }
    }

    /// Adds the successor that a candidate makes, if it is enabled. Where the membership that is tested first fails, nothing
    /// else of it is looked up.
    #[tactic(auto, using(crate::proofs::Skips::passed_over))]
    #[inline(always)]
    fn push_candidate(
        &self,
        alloc: Global,
        at: &Scene<'_>,
        candidate: &Candidate,
        batch: &mut Batch,
        stack: &mut [u64],
        spares: &mut Spares,
    ) -> Result<(), ExpandEnd>
        requires model { at.now.model.now ≡ self.now.model }
        requires state { state_in at.now.words.now ≡ self.now.visit.state }
        requires candidate { candidate.now ≡ candidate_of self.now.model candidate.now.number }
        requires room { ServesModel self.now.model (length stack.old) }
        requires fits { BatchFits self.now.model batch.old }
        requires few { batch.old.not_allowed < 65536 }
        ensures batch { AnswersBy (λ _. batch.new) result (with_tested self.now.model self.now.visit batch.old candidate.now.number) }
        ensures fits { OnOk result (BatchFits self.now.model batch.new) }
        ensures few { OnOk result (batch.new.not_allowed ≤ batch.old.not_allowed + 1) }
    {
        if is_out(at, *candidate) {
            return Ok(());
        }
        self.push_tested(alloc, at, candidate, batch, stack, spares)
    }

    /// Adds the successor that the candidate at a place makes, if there is a place, and it is enabled.
    #[tactic(auto, using(crate::proofs::Skips::candidate_at))]
    #[inline(always)]
    fn push_case(
        &self,
        alloc: Global,
        at: &Scene<'_>,
        candidates: &[Candidate],
        pick: Option<usize>,
        batch: &mut Batch,
        stack: &mut [u64],
        spares: &mut Spares,
    ) -> Result<(), ExpandEnd>
        requires model { at.now.model.now ≡ self.now.model }
        requires state { state_in at.now.words.now ≡ self.now.visit.state }
        requires candidates { candidates.now ≡ map (candidate_of self.now.model) (others_of self.now.model) }
        requires there { IfSome pick (λ k. k < length candidates.now) }
        requires room { ServesModel self.now.model (length stack.old) }
        requires fits { BatchFits self.now.model batch.old }
        requires few { batch.old.not_allowed < 65536 }
        ensures batch { AnswersBy (λ _. batch.new) result (with_picked self.now.model self.now.visit batch.old (others_of self.now.model) pick) }
        ensures fits { OnOk result (BatchFits self.now.model batch.new) }
        ensures few { OnOk result (batch.new.not_allowed ≤ batch.old.not_allowed + 1) }
    {
        match pick {
            Some(place) => {
                self.push_candidate(alloc, at, &candidates[place], batch, stack, spares)
            }
            None => Ok(()),
        }
    }

    /// Adds the successors that these candidates make, where no forced transition is enabled.
    #[tactic(auto, using(crate::proofs::Batches::empty_fits))]
    fn push_each(
        &self,
        alloc: Global,
        at: &Scene<'_>,
        candidates: &[Candidate],
        switches: &[Switch],
        batch: &mut Batch,
        stack: &mut [u64],
        spares: &mut Spares,
    ) -> Result<(), ExpandEnd>
        requires room { ServesModel self.now.model (length stack.old) }
        requires model { at.now.model.now ≡ self.now.model }
        requires state { state_in at.now.words.now ≡ self.now.visit.state }
        requires candidates { candidates.now ≡ map (candidate_of self.now.model) (others_of self.now.model) }
        requires switches { AreSwitches self.now.model (others_of self.now.model) switches.now }
        requires few { length candidates.now ≤ 65536 }
        requires empty { batch.old ≡ empty_batch }
        ensures batch { AnswersBy (λ _. batch.new) result (each (with_tested self.now.model self.now.visit) empty_batch (others_of self.now.model)) }
        ensures fits { OnOk result (BatchFits self.now.model batch.new) }
    {
        let mut place = 0;
        while place < candidates.len() {
            let case = case_at(at, switches, place);
            self.push_case(alloc, at, candidates, case.pick, batch, stack, spares)?;
            place = case.next;
        }
        Ok(())
    }

    /// Fills an empty batch: with the successor by the first enabled forced transition, which is then the only one
    /// considered, or with those by the others.
    #[tactic(auto, using(crate::proofs::Limits::few_candidates))]
    pub(crate) fn fill(
        &self,
        alloc: Global,
        forced: &[u32],
        others: &[Candidate],
        switches: &[Switch],
        batch: &mut Batch,
        stack: &mut [u64],
        spares: &mut Spares,
    ) -> Result<(), ExpandEnd>
        requires room { ServesModel self.now.model (length stack.old) }
        requires forced { forced.now ≡ forced_of self.now.model }
        requires others { others.now ≡ map (candidate_of self.now.model) (others_of self.now.model) }
        requires switches { AreSwitches self.now.model (others_of self.now.model) switches.now }
        requires empty { batch.old ≡ empty_batch }
        ensures batch { AnswersBy (λ _. batch.new) result (expansion self.now.model self.now.visit) }
        ensures fits { OnOk result (BatchFits self.now.model batch.new) }
    {
        let at = scene(self.model, self.tables, self.layout, self.state, &[]);
        match packed_spots::first_enabled(&at, forced, stack)? {
            Some(number) => self.push_number(alloc, &at, number, batch, stack, spares),
            None => {
                let visited = at;
                self.push_each(alloc, &visited, others, switches, batch, stack, spares)
            }
        }
    }
}
