//! How a pass begins, and how it ends: what all ways to turn its shards have in common.

ghost use Rattle.std.specs.Prelude.{◌≡◌, ◌≤◌, IfErr, IfOk};
ghost use Rattle.board_words.specs.Rules.{IsWhole};
ghost use Rattle.board_words.specs.Seats.{IsSeatOf};
ghost use Rattle.announcer.specs.Ends.{QueueFacts};
ghost use Rattle.board_words.specs.Steps.{best_known};
ghost use Rattle.board_words.specs.declared.seat.View.{View};
ghost use Rattle.cost_laws.specs.Orders.{IsLawOf};
ghost use Rattle.pass_ledger.specs.Passes.{Pass};
ghost use Rattle.pass_ends.specs.Ends.{IsPassEnd};
ghost use Rattle.pass_ends.specs.Passes.{pass_of};
ghost use Rattle.pass_over.specs.Announcements.{RanOut};
ghost use Rattle.pass_over.specs.Passes.{MayPass};
ghost use Rattle.pass_run.specs.Callers.{AreLastCallers, CallTo};
ghost use Rattle.pass_run.specs.Crews.{AllEnded};
ghost use Rattle.pass_run.specs.Stages.{IsBegun};

use crate::crew::{Crew, make_crew};
use crate::ending::{Left, Over, gather};
use crate::room::Room;
use board_words::{Board, BoardSeat};
use cost_laws::CostLaw;
use dom_store::Covers;
use dp_model::{Model as DpModel, Options};
use pass_ends::{PassEnd, out_of_memory};
use pass_over::{tell, visits_so_far};
use shard_mail::Mailbox;
use shard_threads::{Seated, seat_all};
use shard_turns::{Envelope, Turner};
use std::alloc::Global;
use std::sync::Wait;

/// A pass whose shards have their seats, and room for what they leave.
#[derive(Drop)]
pub struct Begun<'m, L: CostLaw, K: Covers> {
    /// How many of the numbers drawn before the pass are below the budget.
    pub before: u64,
    pub shards: Vec<Seated<Turner<'m, L, K>>>,
    pub boxes: Vec<Mailbox<Envelope>>,
    pub room: Room,
}

/// Makes the shards of a pass, with a seat for each. `Err` is the answer of a pass for which memory ran out, and nothing was drawn.
pub(crate) fn begin_pass<'m, L: CostLaw, K: Covers>(
    alloc: Global,
    model: &'m DpModel,
    options: &Options,
    share: u64,
    board: &Board,
    seat: &mut BoardSeat,
) -> Result<Begun<'m, L, K>, PassEnd>
    requires law { IsLawOf model.now L.minimize L.operator }
    requires covering { IsLawOf model.now K.minimize K.operator }
    requires prune { K.prune ≡ options.now.prune }
    requires may { MayPass model.now options.now share board.now seat.old }
    ensures begun { (some : 1 ≤ options.now.workers) → IfOk result (λ b. IsBegun (pass_of model.now options.now share some) board.now options.now.budget seat.old.view seat.new b.before b.shards.items b.boxes.items b.room) }
    ensures seat { IfErr result (λ _. IsSeatOf board.now seat.new × IsWhole seat.new.view) }
    ensures memory { IfErr result RanOut }
    ensures answer { (some : 1 ≤ options.now.workers) → IfErr result (IsPassEnd (pass_of model.now options.now share some) seat.old.view seat.new.view) }
{
    let before = visits_so_far(board, seat, options);
    let Ok(crew) = make_crew::<L, K>(alloc, model, options, share) else {
        return Err(out_of_memory(0, 0));
    };
    let Crew {
        turners,
        boxes,
        room,
    } = crew;
    let Ok(shards) = seat_all(alloc, board, seat, turners) else {
        return Err(out_of_memory(0, 0));
    };
    Ok(Begun {
        before,
        shards,
        boxes,
        room,
    })
}

/// The answer of a pass for which memory ran out before its shards were made. Nothing was drawn, and the seat knows what it knew.
pub(crate) fn not_begun(board: &Board, seat: &mut BoardSeat, options: &Options) -> PassEnd
    requires { IsSeatOf board.now seat.old }
    ensures same { seat.new ≡ seat.old }
    ensures memory { RanOut result }
    ensures answer { (p : Pass) → IsWhole seat.old.view → IsPassEnd p seat.old.view seat.old.view result }
{
    visits_so_far(board, seat, options);
    out_of_memory(0, 0)
}

/// The answer of a pass whose shards have ended, and the callers of those that call. The seat is whole again.
pub(crate) fn end_pass<'m, L: CostLaw, K: Covers, R: Wait>(
    rt: &R,
    alloc: Global,
    options: &Options,
    share: u64,
    board: &Board,
    seat: &mut BoardSeat,
    begun: Begun<'m, L, K>,
) -> Over
    requires begun { (p : Pass) × (was : View) × IsLawOf p.model L.minimize L.operator × (share ≡ p.share) × IsBegun p board.now options.now.budget was seat.old begun.before begun.shards.items begun.boxes.items begun.room }
    requires ended { AllEnded begun.shards.items }
    ensures seat { IsSeatOf board.now seat.new }
    ensures whole { IsWhole seat.new.view }
    ensures answer { (p : Pass) (was : View) → IsLawOf p.model L.minimize L.operator → share ≡ p.share → IsBegun p board.now options.now.budget was seat.old begun.entry.before begun.entry.shards.items begun.entry.boxes.items begun.entry.room
        → IsPassEnd p was seat.new.view result.end }
    ensures called { (p : Pass) (was : View) (queue : QueueFacts) → IsBegun p board.now options.now.budget was seat.old begun.entry.before begun.entry.shards.items begun.entry.boxes.items begun.entry.room
        → CallTo queue begun.entry.shards.items → AreLastCallers p (best_known was) (best_known seat.new.view) queue result.callers.items }
{
    let Begun {
        before,
        shards,
        boxes,
        room,
    } = begun;
    let Left {
        ends,
        logs,
        callers,
    } = gather(rt, board, seat, boxes, room, shards);
    let end = tell::<L>(alloc, options, share, board, seat, ends, logs, before);
    Over { end, callers }
}
