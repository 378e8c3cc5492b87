//! The answer of a search by what its shards left.

ghost use Rattle.std.specs.Prelude.{◌≡◌, ◌-◌, ◌≤◌, min, List};
ghost use Rattle.best_ends.specs.Ends.{IsBestEnd};
ghost use Rattle.best_ledger.specs.Searches.{BestSearch};
ghost use Rattle.best_over.specs.Lefts.{IsOver};
ghost use Rattle.board_words.specs.Rules.{no_word, IsWhole};
ghost use Rattle.board_words.specs.Seats.{SeatFacts, IsSeatOf};
ghost use Rattle.board_words.specs.Steps.{best_known};
ghost use Rattle.board_words.specs.declared.seat.View.{View};
ghost use Rattle.cost_laws.specs.Orders.{IsLawOf};

use best_ends::{BestEnd, BestTally, answer, out_of_memory};
use best_shard::BestShardEnd;
use board_words::{Board, BoardSeat};
use cost_laws::CostLaw;
use dp_model::Options;
use path_log::PathLog;
use std::alloc::Global;

/// How many of the numbers drawn so far are below the budget.
pub fn visits_so_far(board: &Board, seat: &mut BoardSeat, options: &Options) -> u64
    requires { IsSeatOf board.now seat.old }
    ensures same { seat.new ≡ seat.old }
    ensures visits { IsWhole seat.old.view → result ≡ min seat.old.view.drawn options.now.budget }
    ensures late { IsWhole seat.old.view → seat.old.view.late ≡ seat.old.view.drawn - seat.old.view.limit }
    ensures best { IsWhole seat.old.view → best_known seat.old.view ≤ no_word }
{
    board.totals(seat).drawn.min(options.budget())
}

/// The answer of a search by what its shards left: what each held and counted, and its log of steps, in the order of their numbers. The
/// numbers drawn before the search are not its own: so many of them were below the budget. Where a letter was lost the answer is that
/// of a search that memory ran out in.
pub fn tell<L: CostLaw>(
    alloc: Global,
    options: &Options,
    board: &Board,
    seat: &mut BoardSeat,
    ends: Vec<BestShardEnd>,
    logs: Vec<PathLog>,
    lost: bool,
    before: u64,
) -> BestEnd
    requires seat { IsSeatOf board.now seat.old }
    requires over { (b : BestSearch) × (was : View) × (seats : List SeatFacts) × IsLawOf b.model L.minimize L.operator × IsOver b options.now.budget before was seat.old.view seats ends.items logs.items lost }
    ensures same { seat.new ≡ seat.old }
    ensures answer { (b : BestSearch) (was : View) (seats : List SeatFacts) → IsLawOf b.model L.minimize L.operator
        → IsOver b options.now.budget before was seat.old.view seats ends.items logs.items lost → IsBestEnd b was seat.old.view result }
{
    let visited = visits_so_far(board, seat, options) - before;
    let tally = BestTally {
        ends,
        logs,
        visited,
    };
    let cause = board.totals(seat).cause;
    if lost {
        return out_of_memory(visited);
    }
    answer::<L>(alloc, &tally, cause)
}
