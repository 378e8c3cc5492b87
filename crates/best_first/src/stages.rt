//! How a search begins, and how it ends.

ghost use Rattle.std.specs.Prelude.{◌≡◌, ◌≤◌, true, false, IfErr, IfOk};
ghost use Rattle.best_ends.specs.Ends.{IsBestEnd};
ghost use Rattle.best_first.specs.Alone.{AreResting, HasOneStopped};
ghost use Rattle.best_first.specs.Stages.{IsBegun};
ghost use Rattle.best_ledger.specs.Searches.{BestSearch, pass_of, search_of};
ghost use Rattle.best_over.specs.Searches.{MaySearch};
ghost use Rattle.board_words.specs.Rules.{IsWhole};
ghost use Rattle.board_words.specs.Seats.{IsSeatOf};
ghost use Rattle.board_words.specs.declared.seat.View.{View};
ghost use Rattle.cost_laws.specs.Orders.{IsLawOf};

use crate::crew::{Crew, make_crew};
use crate::ending::{Left, gather};
use crate::room::Room;
use best_ends::{BestEnd, out_of_memory};
use best_over::{tell, visits_so_far};
use best_turns::{BestBoxes, BestTurner};
use board_words::{Board, BoardSeat};
use cost_laws::CostLaw;
use dom_store::Covers;
use dp_model::{Model as DpModel, Options};
use shard_threads::{Seated, seat_all};
use std::alloc::Global;
use std::sync::Wait;

/// A search whose shards have their seats, and room for what they leave.
#[derive(Drop)]
pub struct Begun<'m, L: CostLaw, K: Covers> {
    /// How many of the numbers drawn before the search are below the budget.
    pub before: u64,
    pub shards: Vec<Seated<BestTurner<'m, L, K>>>,
    pub boxes: BestBoxes,
    pub room: Room,
}

/// Makes the shards of a search, with a seat for each. `Err` is the answer of a search for which memory ran out, and nothing was drawn.
pub(crate) fn begin_search<'m, L: CostLaw, K: Covers>(
    alloc: Global,
    model: &'m DpModel,
    options: &Options,
    board: &Board,
    seat: &mut BoardSeat,
) -> Result<Begun<'m, L, K>, BestEnd>
    requires law { IsLawOf model.now L.minimize L.operator }
    requires covering { IsLawOf model.now K.minimize K.operator }
    requires prune { K.prune ≡ options.now.prune }
    requires may { MaySearch model.now options.now board.now seat.old }
    ensures begun { (some : 1 ≤ options.now.workers) → IfOk result (λ b. IsBegun (pass_of (search_of model.now options.now some)) board.now options.now.budget seat.old.view seat.new b.before b.shards.items b.boxes.boxes.items b.room) }
    ensures seat { IfErr result (λ _. IsSeatOf board.now seat.new × IsWhole seat.new.view) }
    ensures answer { (some : 1 ≤ options.now.workers) → IfErr result (IsBestEnd (search_of model.now options.now some) seat.old.view seat.new.view) }
{
    let before = visits_so_far(board, seat, options);
    let Ok(crew) = make_crew::<L, K>(alloc, model, options) else {
        return Err(out_of_memory(0));
    };
    let Crew {
        turners,
        boxes,
        room,
    } = crew;
    let Ok(shards) = seat_all(alloc, board, seat, turners) else {
        return Err(out_of_memory(0));
    };
    Ok(Begun {
        before,
        shards,
        boxes,
        room,
    })
}

/// The answer of a search whose shards rest, or one of whose shards has stopped. The seat is whole again.
pub(crate) fn end_search<'m, L: CostLaw, K: Covers, R: Wait>(
    rt: &R,
    alloc: Global,
    options: &Options,
    board: &Board,
    seat: &mut BoardSeat,
    begun: Begun<'m, L, K>,
    resting: bool,
) -> BestEnd
    requires begun { (b : BestSearch) × (was : View) × IsLawOf b.model L.minimize L.operator × IsBegun (pass_of b) board.now options.now.budget was seat.old begun.before begun.shards.items begun.boxes.boxes.items begun.room }
    requires rest { resting ≡ true → AreResting begun.shards.items }
    requires stopped { resting ≡ false → HasOneStopped begun.shards.items }
    ensures seat { IsSeatOf board.now seat.new }
    ensures whole { IsWhole seat.new.view }
    ensures answer { (b : BestSearch) (was : View) → IsLawOf b.model L.minimize L.operator → IsBegun (pass_of b) board.now options.now.budget was seat.old begun.entry.before begun.entry.shards.items begun.entry.boxes.boxes.items begun.entry.room
        → IsBestEnd b was seat.new.view result }
{
    let Begun {
        before,
        shards,
        boxes,
        room,
    } = begun;
    let BestBoxes { boxes, work } = boxes;
    drop(work);
    let Left { ends, logs, lost } = gather(rt, board, seat, boxes, room, shards, resting);
    tell::<L>(alloc, options, board, seat, ends, logs, lost, before)
}
