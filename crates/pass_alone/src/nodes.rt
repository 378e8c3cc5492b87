//! The shard handles the first node that waits.

ghost use Rattle.std.specs.Prelude.{◌≡◌, ◌<◌, length, option_map, IfErr, IfOk};
ghost use Rattle.board_words.specs.Seats.{IsSeatOf};
ghost use Rattle.board_words.specs.Steps.{after_offer};
ghost use Rattle.pass_ledger.specs.Passes.{Pass};
ghost use Rattle.pass_ledger.specs.declared.records.Held.{Held as HeldBest};
ghost use Rattle.shard_core.specs.Stands.{Suited};
ghost use Rattle.pass_alone.specs.Alone.{Acts, EndsFrom, GoesOnFrom, IsHeldCost};

use board_words::{Board, BoardSeat, HaltCause};
use cost_laws::CostLaw;
use dom_store::Covers;
use pass_ledger::Held;
use shard_core::{Shard, Visited};
use shard_seats::{Ended, halt};

/// The cost of what is held.
fn cost_of(held: &Option<Held>) -> Option<i64>
    ensures { result ≡ option_map (λ (h : HeldBest). h.cost) held.now }
{
    match held {
        Some(held) => Some(held.cost),
        None => None,
    }
}

/// Offers the word of what the shard holds. Answers its cost where the board had a greater word.
fn offer_held(board: &Board, seat: &mut BoardSeat, word: u64, held: &Option<Held>) -> Option<i64>
    requires { IsSeatOf board.now seat.old }
    ensures seat { IsSeatOf board.now seat.new }
    ensures view { seat.new.view ≡ after_offer seat.old.view word }
    ensures cost { IsHeldCost held.now result }
{
    if board.offer(seat, word) > word {
        return cost_of(held);
    }
    None
}

/// Prunes or visits the first node that waits. Answers the cost of a solution that bettered the board.
pub(crate) fn handle_next<'m, L: CostLaw, K: Covers>(
    shard: &mut Shard<'m, L, K>,
    budget: u64,
    board: &Board,
    seat: &mut BoardSeat,
) -> Result<Option<i64>, Ended>
    requires { (p : Pass) × Suited p L.minimize L.operator K.prune K.minimize K.operator × (a : Acts p board.now budget shard.old seat.old) × (0 < length a.goes.shard_record.waiting) }
    ensures goes_on { (p : Pass) → Suited p L.minimize L.operator K.prune K.minimize K.operator → (a : Acts p board.now budget shard.old seat.old) → 0 < length a.goes.shard_record.waiting
        → IfOk result (λ better. GoesOnFrom p board.now budget a.goes.shard_record better shard.new seat.new) }
    ensures ends { (p : Pass) → Suited p L.minimize L.operator K.prune K.minimize K.operator → (a : Acts p board.now budget shard.old seat.old) → 0 < length a.goes.shard_record.waiting
        → IfErr result (λ end. EndsFrom p board.now a.goes.shard_record end shard.new seat.new) }
{
    let best = board.look(seat);
    if shard.prune_head(best) {
        return Ok(None);
    }
    if board.draw(seat) >= budget {
        return Err(halt(board, seat, HaltCause::Budget));
    }
    match shard.visit(best) {
        Visited::Done { offer: Some(word) } => Ok(offer_held(board, seat, word, &shard.held)),
        Visited::Done { offer: None } => Ok(None),
        Visited::Fault(_) => Err(halt(board, seat, HaltCause::Fault)),
        Visited::Memory => Err(halt(board, seat, HaltCause::Memory)),
    }
}
