//! The steps of a search, one after another.

ghost use Rattle.std.specs.Prelude.{IfErr, OnOk};
ghost use Rattle.pass_ledger.specs.Passes.{Pass};
ghost use Rattle.shard_core.specs.Stands.{Suited};
ghost use Rattle.best_alone.specs.Alone.{Acts, Leaves};

use crate::letters::take_letters;
use crate::nodes::handle_next;
use best_seats::{BestEnded, halt};
use best_shard::BestShard;
use board_words::{Board, BoardSeat, HaltCause};
use cost_laws::CostLaw;
use dom_store::Covers;

/// One step: the shard takes letters that it hands out, until there is none, but not too many, and then prunes or visits its best open
/// node. It ends where no node is open and no letter is left.
fn step<'m, L: CostLaw, K: Covers>(
    shard: &mut BestShard<'m, L, K>,
    budget: u64,
    board: &Board,
    seat: &mut BoardSeat,
) -> Result<(), BestEnded>
    requires { (p : Pass) × Suited p L.minimize L.operator K.prune K.minimize K.operator × Acts p board.now budget shard.old seat.old }
    ensures goes_on { (p : Pass) → Suited p L.minimize L.operator K.prune K.minimize K.operator → Acts p board.now budget shard.old seat.old
        → OnOk result (Acts p board.now budget shard.new seat.new) }
    ensures ends { (p : Pass) → Suited p L.minimize L.operator K.prune K.minimize K.operator → Acts p board.now budget shard.old seat.old
        → IfErr result (λ end. Leaves p board.now end shard.new seat.new) }
{
    take_letters(shard, board, seat)?;
    if shard.is_idle() {
        return Err(BestEnded::Idle);
    }
    handle_next(shard, budget, board, seat)
}

/// Makes the steps of a search, until it has no work or is halted. Answers why the shard has ended. More steps than can be counted have
/// ended the memory.
pub(crate) fn make_steps<'m, L: CostLaw, K: Covers>(
    shard: &mut BestShard<'m, L, K>,
    budget: u64,
    board: &Board,
    seat: &mut BoardSeat,
) -> BestEnded
    requires { (p : Pass) × Suited p L.minimize L.operator K.prune K.minimize K.operator × Acts p board.now budget shard.old seat.old }
    ensures { (p : Pass) → Suited p L.minimize L.operator K.prune K.minimize K.operator → Acts p board.now budget shard.old seat.old
        → Leaves p board.now result shard.new seat.new }
{
    'steps: for _ in 0..u64::MAX {
        if let Err(end) = step(shard, budget, board, seat) {
            return end;
        }
    }
    halt(board, seat, HaltCause::Memory)
}
