//! A best-first search, whole.

ghost use Rattle.std.specs.Prelude.{◌≡◌, ◌≤◌, ◌^◌, true, false};
ghost use Rattle.best_ends.specs.Ends.{IsBestEnd};
ghost use Rattle.best_first.specs.Alone.{AreResting, HasOneStopped};
ghost use Rattle.best_ledger.specs.Searches.{search_of};
ghost use Rattle.best_over.specs.Searches.{MaySearch};
ghost use Rattle.best_turns.specs.Plays.{plays_by};
ghost use Rattle.board_words.specs.Rules.{IsWhole};
ghost use Rattle.board_words.specs.Seats.{IsSeatOf};
ghost use Rattle.cost_laws.specs.Orders.{IsLawOf};
ghost use Rattle.dp_steps.specs.States.{Inner};
ghost use Rattle.pass_ends.specs.Passes.{AreOptions};
ghost use Rattle.shard_threads.specs.Players.{AllStay, AreHeld};

use crate::alone::go_on_alone;
use crate::stages::{Begun, begin_search, end_search};
use best_ends::BestEnd;
use best_turns::{BestBoxes, BestTurner};
use board_words::{Board, BoardSeat};
use cost_laws::CostLaw;
use dom_store::{Covers, Dominating, Exact};
use dp_model::{Model as DpModel, Options};
use dp_outside::Gate;
use shard_threads::{Floor, Nothing, Seated, turn_in_threads};
use solve_start::by_law;
use std::alloc::Global;
use std::sync::Wait;
use std::thread::Threads;

/// Turns the shards in threads until each has ended, and then in the calling thread alone until they rest or one has stopped. `true`:
/// they rest.
fn turn_shards<'m, L: CostLaw + Send, K: Covers + Send, R: Threads + Wait + Sync, G: Gate>(
    rt: &R,
    alloc: Global,
    floor: &Floor<BestBoxes, G>,
    shards: Vec<Seated<BestTurner<'m, L, K>>>,
) -> (Vec<Seated<BestTurner<'m, L, K>>>, bool)
    requires { AreHeld (plays_by L.minimize L.operator K.prune K.minimize K.operator) floor.now.board.now floor.now.boxes.now shards.items }
    ensures stay { AllStay (plays_by L.minimize L.operator K.prune K.minimize K.operator) floor.now.board.now floor.now.boxes.now shards.entry.items result.0.items }
    ensures rest { result.1 ≡ true → AreResting result.0.items }
    ensures stopped { result.1 ≡ false → HasOneStopped result.0.items }
{
    let (mut shards, _) = turn_in_threads(rt, alloc, floor, shards, Nothing);
    let resting = go_on_alone(rt, floor, &mut shards);
    (shards, resting)
}

/// A search under a law of costs and a covering.
fn run_shards<L: CostLaw + Send, K: Covers + Send, R: Threads + Wait + Sync, G: Gate>(
    rt: &R,
    alloc: Global,
    model: &DpModel,
    options: &Options,
    board: &Board,
    seat: &mut BoardSeat,
    gate: &G,
) -> BestEnd
    requires law { IsLawOf model.now L.minimize L.operator }
    requires covering { IsLawOf model.now K.minimize K.operator }
    requires prune { K.prune ≡ options.now.prune }
    requires may { MaySearch model.now options.now board.now seat.old }
    ensures seat { IsSeatOf board.now seat.new }
    ensures whole { IsWhole seat.new.view }
    ensures answer { (some : 1 ≤ options.now.workers) → IsBestEnd (search_of model.now options.now some) seat.old.view seat.new.view result }
{
    match begin_search::<L, K>(alloc, model, options, board, seat) {
        Ok(begun) => {
            let Begun {
                before,
                shards,
                boxes,
                room,
            } = begun;
            let (shards, resting) = turn_shards(
                rt,
                alloc,
                &Floor {
                    board,
                    boxes: &boxes,
                    gate,
                },
                shards,
            );
            let turned = Begun {
                before,
                shards,
                boxes,
                room,
            };
            end_search(rt, alloc, options, board, seat, turned, resting)
        }
        Err(end) => end,
    }
}

/// A search under a law of costs: nodes cover others by dominance where pruning is on.
fn run_by<L: CostLaw + Send, R: Threads + Wait + Sync, G: Gate>(
    rt: &R,
    alloc: Global,
    model: &DpModel,
    options: &Options,
    board: &Board,
    seat: &mut BoardSeat,
    gate: &G,
) -> BestEnd
    requires law { IsLawOf model.now L.minimize L.operator }
    requires may { MaySearch model.now options.now board.now seat.old }
    ensures seat { IsSeatOf board.now seat.new }
    ensures whole { IsWhole seat.new.view }
    ensures answer { (some : 1 ≤ options.now.workers) → IsBestEnd (search_of model.now options.now some) seat.old.view seat.new.view result }
{
    if options.prune() {
        run_shards::<L, Dominating<L>, R, G>(rt, alloc, model, options, board, seat, gate)
    } else {
        run_shards::<L, Exact<L>, R, G>(rt, alloc, model, options, board, seat, gate)
    }
}

/// Makes a best-first search over the model, by as many shards as there are workers. Up to four shards turn in a thread each, and
/// more of them in as many threads as there are processors, spread evenly. The calling thread is one of these, and turns all shards
/// for which no thread was had. When all threads have ended it goes on alone until no shard has an open node or a letter.
///
/// `seat` is a whole seat of the board that has raised no halt, and it is whole again afterwards. The board's limit is the budget.
/// Of a closed search the visits are those of a record of each shard, which together are a closed ledger. Of a halted one the cause
/// is told, and no record is named (`IsBestEnd`).
pub fn run_best<R: Threads + Wait + Sync, G: Gate>(
    rt: &R,
    alloc: Global,
    model: &DpModel,
    options: &Options,
    board: &Board,
    seat: &mut BoardSeat,
    gate: &G,
) -> BestEnd
    requires inner { Inner model.now model.now.target }
    requires options { AreOptions options.now }
    requires seat { IsSeatOf board.now seat.old }
    requires whole { IsWhole seat.old.view }
    requires no_halt { seat.old.view.raised ≡ 0 }
    requires drawn { seat.old.view.drawn ≤ 2 ^ 41 }
    requires limit { board.now.limit ≡ options.now.budget }
    ensures seat { IsSeatOf board.now seat.new }
    ensures whole { IsWhole seat.new.view }
    ensures answer { (some : 1 ≤ options.now.workers) → IsBestEnd (search_of model.now options.now some) seat.old.view seat.new.view result }
{
    by_law!(
        model,
        run_by::<R, G>(rt, alloc, model, options, board, seat, gate)
    )
}
