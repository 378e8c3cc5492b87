//! The shard takes the letters that it hands out.

ghost use Rattle.std.specs.Prelude.{ℕ, IfErr, OnOk};
ghost use Rattle.pass_ledger.specs.Passes.{Pass};
ghost use Rattle.shard_core.specs.Stands.{Suited};
ghost use Rattle.best_alone.specs.Alone.{Acts, Leaves};

use best_seats::{BestEnded, MOST_LETTERS, halt};
use best_shard::BestShard;
use board_words::{Board, BoardSeat, HaltCause};
use cost_laws::CostLaw;
use dom_store::Covers;

/// The shard takes the next letter that it hands out. Answers whether there was one. Where memory runs out, it halts the search.
fn take_next<'m, L: CostLaw, K: Covers>(
    shard: &mut BestShard<'m, L, K>,
    board: &Board,
    seat: &mut BoardSeat,
) -> Result<bool, BestEnded>
    requires { (p : Pass) × (budget : ℕ) × Suited p L.minimize L.operator K.prune K.minimize K.operator × Acts p board.now budget shard.old seat.old }
    ensures goes_on { (p : Pass) (budget : ℕ) → Suited p L.minimize L.operator K.prune K.minimize K.operator → Acts p board.now budget shard.old seat.old
        → OnOk result (Acts p board.now budget shard.new seat.new) }
    ensures ends { (p : Pass) (budget : ℕ) → Suited p L.minimize L.operator K.prune K.minimize K.operator → Acts p board.now budget shard.old seat.old
        → IfErr result (λ end. Leaves p board.now end shard.new seat.new) }
{
    let Some((to, letter)) = shard.next_letter() else {
        return Ok(false);
    };
    let _ = to;
    let Ok(()) = shard.accept(letter) else {
        return Err(halt(board, seat, HaltCause::Memory));
    };
    Ok(true)
}

/// The shard takes letters that it hands out, until there is none, but not too many.
pub(crate) fn take_letters<'m, L: CostLaw, K: Covers>(
    shard: &mut BestShard<'m, L, K>,
    board: &Board,
    seat: &mut BoardSeat,
) -> Result<(), BestEnded>
    requires { (p : Pass) × (budget : ℕ) × Suited p L.minimize L.operator K.prune K.minimize K.operator × Acts p board.now budget shard.old seat.old }
    ensures goes_on { (p : Pass) (budget : ℕ) → Suited p L.minimize L.operator K.prune K.minimize K.operator → Acts p board.now budget shard.old seat.old
        → OnOk result (Acts p board.now budget shard.new seat.new) }
    ensures ends { (p : Pass) (budget : ℕ) → Suited p L.minimize L.operator K.prune K.minimize K.operator → Acts p board.now budget shard.old seat.old
        → IfErr result (λ end. Leaves p board.now end shard.new seat.new) }
{
    'letters: for _ in 0..MOST_LETTERS {
        if !take_next(shard, board, seat)? {
            return Ok(());
        }
    }
    Ok(())
}
