//! The answer of a pass by what its shards left.

ghost use Rattle.std.specs.Prelude.{◌≡◌, ◌-◌, ◌≤◌, min, List};
ghost use Rattle.board_words.specs.Rules.{no_word, IsWhole};
ghost use Rattle.board_words.specs.Seats.{SeatFacts, IsSeatOf};
ghost use Rattle.board_words.specs.Steps.{best_known};
ghost use Rattle.board_words.specs.declared.seat.View.{View};
ghost use Rattle.cost_laws.specs.Orders.{IsLawOf};
ghost use Rattle.pass_ends.specs.Ends.{IsPassEnd};
ghost use Rattle.pass_ledger.specs.Passes.{Pass};
ghost use Rattle.pass_over.specs.Lefts.{IsOver};

use board_words::{Board, BoardSeat};
use cost_laws::CostLaw;
use dp_model::Options;
use pass_ends::{PassEnd, Tally, answer};
use path_log::PathLog;
use shard_core::ShardEnd;
use std::alloc::Global;

/// How many of the numbers drawn so far are below the budget.
pub fn visits_so_far(board: &Board, seat: &mut BoardSeat, options: &Options) -> u64
    requires { IsSeatOf board.now seat.old }
    ensures same { seat.new ≡ seat.old }
    ensures visits { IsWhole seat.old.view → result ≡ min seat.old.view.drawn options.now.budget }
    ensures late { IsWhole seat.old.view → seat.old.view.late ≡ seat.old.view.drawn - seat.old.view.limit }
    ensures best { IsWhole seat.old.view → best_known seat.old.view ≤ no_word }
{
    board.totals(seat).drawn.min(options.budget())
}

/// The answer of a pass by what its shards left: what each held and counted, and its log of steps, in the order of their numbers. The
/// numbers drawn before the pass are not its own: so many of them were below the budget.
pub fn tell<L: CostLaw>(
    alloc: Global,
    options: &Options,
    share: u64,
    board: &Board,
    seat: &mut BoardSeat,
    ends: Vec<ShardEnd>,
    logs: Vec<PathLog>,
    before: u64,
) -> PassEnd
    requires seat { IsSeatOf board.now seat.old }
    requires over { (p : Pass) × (was : View) × (seats : List SeatFacts) × IsLawOf p.model L.minimize L.operator × (share ≡ p.share) × IsOver p options.now.budget before was seat.old.view seats ends.items logs.items }
    ensures same { seat.new ≡ seat.old }
    ensures answer { (p : Pass) (was : View) (seats : List SeatFacts) → IsLawOf p.model L.minimize L.operator → share ≡ p.share
        → IsOver p options.now.budget before was seat.old.view seats ends.items logs.items → IsPassEnd p was seat.old.view result }
{
    let visited = visits_so_far(board, seat, options) - before;
    let tally = Tally {
        ends,
        logs,
        visited,
        share,
    };
    answer::<L>(alloc, &tally, board.totals(seat).cause)
}
