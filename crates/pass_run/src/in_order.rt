//! A pass whose shards the calling thread turns in an order that it is given.

ghost use Rattle.std.specs.Prelude.{◌≡◌, ◌≤◌, ◌^◌};
ghost use Rattle.board_words.specs.Rules.{IsWhole};
ghost use Rattle.board_words.specs.Seats.{IsSeatOf};
ghost use Rattle.cost_laws.specs.Orders.{IsLawOf};
ghost use Rattle.dp_steps.specs.States.{Inner};
ghost use Rattle.pass_ends.specs.Ends.{IsPassEnd};
ghost use Rattle.pass_ends.specs.Passes.{AreOptions, pass_of};
ghost use Rattle.pass_over.specs.Passes.{MayPass};

use crate::ending::Over;
use crate::stages::{Begun, begin_pass, end_pass};
use board_words::{Board, BoardSeat};
use cost_laws::CostLaw;
use dom_store::{Covers, Dominating, Exact};
use dp_base::Seq;
use dp_model::{Model as DpModel, Options};
use dp_outside::Gate;
use pass_ends::PassEnd;
use shard_threads::{Floor, turn_in_order};
use solve_start::by_law;
use std::alloc::Global;
use std::sync::Wait;

/// A pass under a law of costs and a covering.
fn run_shards_in_order<L: CostLaw, K: Covers, R: Wait, G: Gate>(
    rt: &R,
    alloc: Global,
    model: &DpModel,
    options: &Options,
    share: u64,
    board: &Board,
    seat: &mut BoardSeat,
    gate: &G,
    order: &Seq<u32>,
) -> PassEnd
    requires law { IsLawOf model.now L.minimize L.operator }
    requires covering { IsLawOf model.now K.minimize K.operator }
    requires prune { K.prune ≡ options.now.prune }
    requires may { MayPass model.now options.now share board.now seat.old }
    ensures seat { IsSeatOf board.now seat.new }
    ensures whole { IsWhole seat.new.view }
    ensures answer { (some : 1 ≤ options.now.workers) → IsPassEnd (pass_of model.now options.now share some) seat.old.view seat.new.view result }
{
    match begin_pass::<L, K>(alloc, model, options, share, board, seat) {
        Ok(begun) => {
            let Begun {
                before,
                shards,
                boxes,
                room,
            } = begun;
            let shards = turn_in_order(
                rt,
                &Floor {
                    board,
                    boxes: &boxes,
                    gate,
                },
                shards,
                order.list().as_slice(),
            );
            let ended = Begun {
                before,
                shards,
                boxes,
                room,
            };
            let over = end_pass(rt, alloc, options, share, board, seat, ended);
            let Over { end, callers: _ } = over;
            end
        }
        Err(end) => end,
    }
}

/// A pass under a law of costs: nodes cover others by dominance where pruning is on.
fn run_by_in_order<L: CostLaw, R: Wait, G: Gate>(
    rt: &R,
    alloc: Global,
    model: &DpModel,
    options: &Options,
    share: u64,
    board: &Board,
    seat: &mut BoardSeat,
    gate: &G,
    order: &Seq<u32>,
) -> PassEnd
    requires law { IsLawOf model.now L.minimize L.operator }
    requires may { MayPass model.now options.now share board.now seat.old }
    ensures seat { IsSeatOf board.now seat.new }
    ensures whole { IsWhole seat.new.view }
    ensures answer { (some : 1 ≤ options.now.workers) → IsPassEnd (pass_of model.now options.now share some) seat.old.view seat.new.view result }
{
    if options.prune() {
        run_shards_in_order::<L, Dominating<L>, R, G>(
            rt, alloc, model, options, share, board, seat, gate, order,
        )
    } else {
        run_shards_in_order::<L, Exact<L>, R, G>(
            rt, alloc, model, options, share, board, seat, gate, order,
        )
    }
}

/// Makes a pass as `run_pass` does, but in the calling thread alone, which turns the shards that `order` names, one turn each time
/// that it names one, again and again until each shard has ended. A number that is not below the number of workers is passed over.
/// The order has to name each shard: one that it leaves out never ends, and the call doesn't return.
pub fn run_pass_in_order<R: Wait, G: Gate>(
    rt: &R,
    alloc: Global,
    model: &DpModel,
    options: &Options,
    share: u64,
    board: &Board,
    seat: &mut BoardSeat,
    gate: &G,
    order: &Seq<u32>,
) -> PassEnd
    requires inner { Inner model.now model.now.target }
    requires share { 1 ≤ share }
    requires options { AreOptions options.now }
    requires seat { IsSeatOf board.now seat.old }
    requires whole { IsWhole seat.old.view }
    requires no_halt { seat.old.view.raised ≡ 0 }
    requires drawn { seat.old.view.drawn ≤ 2 ^ 41 }
    requires limit { board.now.limit ≡ options.now.budget }
    ensures seat { IsSeatOf board.now seat.new }
    ensures whole { IsWhole seat.new.view }
    ensures answer { (some : 1 ≤ options.now.workers) → IsPassEnd (pass_of model.now options.now share some) seat.old.view seat.new.view result }
{
    by_law!(
        model,
        run_by_in_order::<R, G>(rt, alloc, model, options, share, board, seat, gate, order)
    )
}
