//! The shard handles its best open node.

ghost use Rattle.std.specs.Prelude.{IfErr, OnOk};
ghost use Rattle.pass_ledger.specs.Passes.{Pass};
ghost use Rattle.shard_core.specs.Stands.{Suited};
ghost use Rattle.best_alone.specs.Alone.{Acts, Leaves};

use best_seats::{BestEnded, halt};
use best_shard::BestShard;
use board_words::{Board, BoardSeat, HaltCause};
use cost_laws::CostLaw;
use dom_store::Covers;
use shard_core::Visited;

/// Prunes or visits the best open node, if one is open.
pub(crate) fn handle_next<'m, L: CostLaw, K: Covers>(
    shard: &mut BestShard<'m, L, K>,
    budget: u64,
    board: &Board,
    seat: &mut BoardSeat,
) -> Result<(), BestEnded>
    requires { (p : Pass) × Suited p L.minimize L.operator K.prune K.minimize K.operator × Acts p board.now budget shard.old seat.old }
    ensures goes_on { (p : Pass) → Suited p L.minimize L.operator K.prune K.minimize K.operator → Acts p board.now budget shard.old seat.old
        → OnOk result (Acts p board.now budget shard.new seat.new) }
    ensures ends { (p : Pass) → Suited p L.minimize L.operator K.prune K.minimize K.operator → Acts p board.now budget shard.old seat.old
        → IfErr result (λ end. Leaves p board.now end shard.new seat.new) }
{
    let Some(node) = shard.pick() else {
        return Ok(());
    };
    let best = board.look(seat);
    if shard.prunes(&node, best) {
        shard.drop_picked(node);
        return Ok(());
    }
    if board.draw(seat) >= budget {
        return Err(halt(board, seat, HaltCause::Budget));
    }
    match shard.visit(node, best) {
        Visited::Done { offer: Some(word) } => {
            board.offer(seat, word);
            Ok(())
        }
        Visited::Done { offer: None } => Ok(()),
        Visited::Fault(_) => Err(halt(board, seat, HaltCause::Fault)),
        Visited::Memory => Err(halt(board, seat, HaltCause::Memory)),
    }
}
