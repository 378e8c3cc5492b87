//! What looks at the packed states of a model.

ghost use Rattle.std.specs.Prelude.{◌≡◌, ◌<◌, Some, IfOk, IfSome, length};
ghost use Rattle.eval_room.specs.Needs.{ServesModel};
ghost use Rattle.dp_model.specs.Costs.{InRange};
ghost use Rattle.dp_model.specs.StepTexts.{ground_of};
ghost use Rattle.cost_laws.specs.Orders.{InWideRange, IsLawOf};
ghost use Rattle.packed_words.specs.Scenes.{AreSmall};
ghost use Rattle.state_layout.specs.Conditions.{IsLayoutOf, IsNodeOf, IsPackedOf};
ghost use Rattle.state_layout.specs.Packing.{state_in};
ghost use Rattle.spot_eval.specs.Answers.{AnswersBy};
ghost use Rattle.spot_eval.specs.Looks.{floor_at, looked_at};
ghost use Rattle.spot_eval.specs.Moves.{first_enabled, forced_of, may_step_at, number_enabled};
ghost use Rattle.spot_eval.specs.Ranges.{LookFits};
ghost use Rattle.cert_laws.specs.Checks.{moved};
ghost use Rattle.cert_check.specs.Looked.{reached_by};
ghost use Rattle.cert_check.specs.Wants.{LeavesOne};

use crate::wants::{Leap, Row, leap_at, rows_of};
use cost_laws::CostLaw;
use dp_model::{Model as DpModel, Seq, Transition};
use eval_room::room_for;
use packed_spots::in_words;
use packed_words::{Scene, Tables};
use spot_eval::{Look, SpotEnd, SpotFault};
use state_layout::{Layout, Node, Packed};
use std::alloc::{AllocError, Global};
use std::marker::Model;

/// What looks at the packed states of a model: its layout, what evaluation needs of its tables, its forced transitions, and which
/// ground transitions want a variable to have one number.
#[derive(Drop)]
pub(crate) struct Looker<'m> {
    model: &'m DpModel,
    layout: Layout,
    tables: Tables,
    forced: Vec<u32>,
    rows: Vec<Row>,
}

impl<'m> Model for Looker<'m> {
    ghost use Rattle.std.specs.Prelude.{◌≡◌};
    ghost use Rattle.dp_model.specs.declared.whole.Model.{Model as Seen};
    ghost use Rattle.state_layout.specs.Conditions.{IsLayoutOf};
    ghost use Rattle.spot_eval.specs.Moves.{forced_of};
    ghost use Rattle.packed_words.specs.Tables.{AreTablesOf};
    ghost use Rattle.cert_check.specs.Lookers.{model_code};
    ghost use Rattle.cert_check.specs.Wants.{AreRows};

    ghost Value = { Seen };

    ghost coded = { model_code };

    ghost view = { λ e. e.model.now };

    ghost invariant = { λ e. IsLayoutOf e.model.now e.layout × (e.forced.items ≡ forced_of e.model.now) × AreTablesOf e.model.now e.tables × AreRows e.model.now e.rows.items };
}

impl<'m> Looker<'m> {
    /// What looks at the states of this model.
    pub(crate) fn new(alloc: Global, model: &'m DpModel) -> Result<Looker<'m>, AllocError>
        ensures { IfOk result (λ looker. looker ≡ model.now) }
    {
        Ok(Looker {
            model,
            layout: Layout::of(alloc, model)?,
            tables: Tables::of(alloc, model)?,
            forced: spot_eval::forced_of(alloc, model)?,
            rows: rows_of(alloc, model)?,
        })
    }

    /// The model.
    pub(crate) fn model(&self) -> &'m DpModel
        ensures { result.now ≡ self.now }
    {
        self.model
    }

    /// The layout of its states.
    pub(crate) fn layout(&self) -> &Layout
        ensures { IsLayoutOf self.now result.now }
    {
        &self.layout
    }

    /// A state, with values of parameters.
    fn scene<'s>(&'s self, p: &'s Packed, args: &'s [u64]) -> Scene<'s>
        requires packed { IsPackedOf self.now p.now }
        requires small { AreSmall args.now }
        ensures model { result.model.now ≡ self.now }
        ensures slots { IsLayoutOf self.now result.slots.now }
        ensures state { state_in result.words.now ≡ p.now }
        ensures args { result.args.now ≡ args.now }
    {
        Scene {
            model: self.model,
            tables: &self.tables,
            slots: self.layout.slots(),
            words: packed_eval::words_of(self.model, &self.layout, p),
            args,
        }
    }

    /// What a state turns out to be, at its cost so far.
    pub(crate) fn look<L: CostLaw>(
        &self,
        p: &Packed,
        prune: bool,
        cost: Option<i64>,
        stack: &mut [u64],
    ) -> Result<Look, SpotFault>
        requires law { IsLawOf self.now L.minimize L.operator }
        requires packed { IsPackedOf self.now p.now }
        requires cost { IfSome cost InRange }
        requires room { ServesModel self.now (length stack.old) }
        ensures look { result ≡ looked_at self.now prune p.now cost }
        ensures fits { IfOk result LookFits }
    {
        let at = self.scene(p, &[]);
        packed_spots::look_at::<L>(&at, prune, cost, stack)
    }

    /// The floor of a state, at its cost so far.
    pub(crate) fn floor<L: CostLaw>(
        &self,
        p: &Packed,
        prune: bool,
        cost: Option<i64>,
        stack: &mut [u64],
    ) -> Result<Option<i64>, SpotFault>
        requires law { IsLawOf self.now L.minimize L.operator }
        requires packed { IsPackedOf self.now p.now }
        requires cost { IfSome cost InRange }
        requires room { ServesModel self.now (length stack.old) }
        ensures floor { result ≡ floor_at self.now prune p.now cost }
        ensures wide { IfOk result (λ floor. IfSome floor InWideRange) }
    {
        let at = self.scene(p, &[]);
        packed_spots::floor::<L>(&at, prune, cost, stack)
    }

    /// Whether a ground transition is considered and enabled in a state.
    pub(crate) fn may_step(
        &self,
        p: &Packed,
        number: u32,
        stack: &mut [u64],
    ) -> Result<bool, SpotFault>
        requires packed { IsPackedOf self.now p.now }
        requires room { ServesModel self.now (length stack.old) }
        ensures { result ≡ may_step_at self.now p.now number }
    {
        let at = self.scene(p, &[]);
        packed_spots::may_step(&at, number, &self.forced, stack)
    }

    /// The first enabled one of the forced transitions.
    pub(crate) fn first_forced(
        &self,
        p: &Packed,
        stack: &mut [u64],
    ) -> Result<Option<u32>, SpotFault>
        requires packed { IsPackedOf self.now p.now }
        requires room { ServesModel self.now (length stack.old) }
        ensures { result ≡ first_enabled self.now p.now (forced_of self.now) }
    {
        let at = self.scene(p, &[]);
        packed_spots::first_enabled(&at, &self.forced, stack)
    }

    /// Whether a ground transition is enabled in a state.
    pub(crate) fn is_enabled(
        &self,
        p: &Packed,
        number: u32,
        stack: &mut [u64],
    ) -> Result<bool, SpotFault>
        requires packed { IsPackedOf self.now p.now }
        requires room { ServesModel self.now (length stack.old) }
        ensures { result ≡ number_enabled self.now p.now number }
    {
        let at = self.scene(p, &[]);
        packed_spots::number_enabled(&at, number, stack)
    }

    /// Which of the ground transitions from a place on has to be tested next in a state.
    pub(crate) fn leap_at(&self, p: &Packed, place: usize) -> Leap
        requires packed { IsPackedOf self.now p.now }
        requires there { place < length self.now.dp_ground }
        ensures { LeavesOne self.now p.now place result }
    {
        let at = self.scene(p, &[]);
        leap_at(&at, &self.rows, place)
    }

    /// The node that a ground transition leads to. Its effects and its weight alone are evaluated.
    #[tactic(auto, using(packed_spots::proofs::Rooms::few_values))]
    pub(crate) fn moved<L: CostLaw>(
        &self,
        alloc: Global,
        here: &Node,
        number: u32,
        transition: &Transition,
        args: &Seq<u32>,
        stack: &mut [u64],
    ) -> Result<Node, SpotEnd>
        requires law { IsLawOf self.now L.minimize L.operator }
        requires node { IsNodeOf self.now here.now }
        requires step { ground_of self.now number ≡ Some (transition.now, args.now) }
        requires room { ServesModel self.now (length stack.old) }
        ensures next { AnswersBy reached_by result (moved self.now (reached_by here.now) number (transition.now, args.now)) }
        ensures fits { IfOk result (IsNodeOf self.now) }
    {
        let given = in_words(args.list());
        let given = &given[..args.list().len()];
        let at = self.scene(&here.state, given);
        let cost = packed_spots::cost_at::<L>(&at, number, transition, here.cost, stack)?;
        let state = packed_spots::next_state(
            alloc,
            &self.layout,
            &at,
            &here.state,
            number,
            transition,
            stack,
        )?;
        Ok(Node {
            state,
            cost,
            floor: None,
            parent: None,
            transition: 0,
        })
    }
}

/// Words enough for whatever evaluation holds at once.
pub(crate) fn stack_for(alloc: Global, model: &DpModel) -> Result<Vec<u64>, AllocError>
    ensures { IfOk result (λ stack. ServesModel model.now (length stack.items)) }
{
    let room = room_for(model).ok_or(AllocError)?;
    vec![in alloc; 0u64; room]
}
