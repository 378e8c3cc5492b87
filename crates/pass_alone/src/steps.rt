//! The steps of a pass, one after another.

ghost use Rattle.std.specs.Prelude.{◌≡◌, ℕ, IfErr, IfOk, OnOk};
ghost use Rattle.pass_ledger.specs.Passes.{Pass};
ghost use Rattle.shard_core.specs.Calls.{IsReady};
ghost use Rattle.shard_core.specs.Stands.{Suited};
ghost use Rattle.pass_alone.specs.Alone.{Acts, EndsFrom, GoesOnFrom, HasFound, Leaves, Rests, RestsFrom};

use crate::letters::hand_over;
use crate::nodes::handle_next;
use board_words::{Board, BoardSeat, HaltCause};
use cost_laws::CostLaw;
use dom_store::Covers;
use shard_core::Shard;
use shard_seats::{Ended, halt};

/// Closes the layer that the shard collects, or ends where the shard is done.
fn close_layer<'m, L: CostLaw, K: Covers>(
    shard: &mut Shard<'m, L, K>,
    board: &Board,
    seat: &mut BoardSeat,
) -> Result<Option<i64>, Ended>
    requires { (p : Pass) × (budget : ℕ) × Suited p L.minimize L.operator K.prune K.minimize K.operator × (a : Acts p board.now budget shard.old seat.old) × IsReady p 0 a.goes.shard_record }
    ensures goes_on { (p : Pass) (budget : ℕ) → Suited p L.minimize L.operator K.prune K.minimize K.operator → (a : Acts p board.now budget shard.old seat.old) → IsReady p 0 a.goes.shard_record
        → IfOk result (λ better. GoesOnFrom p board.now budget a.goes.shard_record better shard.new seat.new) }
    ensures ends { (p : Pass) (budget : ℕ) → Suited p L.minimize L.operator K.prune K.minimize K.operator → (a : Acts p board.now budget shard.old seat.old) → IsReady p 0 a.goes.shard_record
        → IfErr result (λ end. EndsFrom p board.now a.goes.shard_record end shard.new seat.new) }
{
    if shard.is_done() {
        return Err(Ended::Done);
    }
    match shard.close() {
        Ok(_) => Ok(None),
        Err(_) => Err(halt(board, seat, HaltCause::Memory)),
    }
}

/// Handles the first node that waits, or, where none waits, closes the layer that the shard collects.
fn act<'m, L: CostLaw, K: Covers>(
    shard: &mut Shard<'m, L, K>,
    budget: u64,
    board: &Board,
    seat: &mut BoardSeat,
) -> Result<Option<i64>, Ended>
    requires { (p : Pass) × Suited p L.minimize L.operator K.prune K.minimize K.operator × Rests p board.now budget shard.old seat.old }
    ensures goes_on { (p : Pass) → Suited p L.minimize L.operator K.prune K.minimize K.operator → (a : Rests p board.now budget shard.old seat.old)
        → IfOk result (λ better. GoesOnFrom p board.now budget a.acts.goes.shard_record better shard.new seat.new) }
    ensures ends { (p : Pass) → Suited p L.minimize L.operator K.prune K.minimize K.operator → (a : Rests p board.now budget shard.old seat.old)
        → IfErr result (λ end. EndsFrom p board.now a.acts.goes.shard_record end shard.new seat.new) }
{
    if shard.waits() {
        return handle_next(shard, budget, board, seat);
    }
    close_layer(shard, board, seat)
}

/// The shard takes all letters that it hands out; where memory runs out, it halts the pass.
fn take_letters<'m, L: CostLaw, K: Covers>(
    shard: &mut Shard<'m, L, K>,
    board: &Board,
    seat: &mut BoardSeat,
) -> Result<(), Ended>
    requires { (p : Pass) × (budget : ℕ) × Suited p L.minimize L.operator K.prune K.minimize K.operator × Acts p board.now budget shard.old seat.old }
    ensures goes_on { (p : Pass) (budget : ℕ) → Suited p L.minimize L.operator K.prune K.minimize K.operator → (a : Acts p board.now budget shard.old seat.old)
        → OnOk result (RestsFrom p board.now budget a.goes.shard_record None shard.new seat.new) }
    ensures ends { (p : Pass) (budget : ℕ) → Suited p L.minimize L.operator K.prune K.minimize K.operator → (a : Acts p board.now budget shard.old seat.old)
        → IfErr result (λ end. EndsFrom p board.now a.goes.shard_record end shard.new seat.new) }
{
    match hand_over(shard) {
        Ok(()) => Ok(()),
        Err(_) => Err(halt(board, seat, HaltCause::Memory)),
    }
}

/// One step: the shard handles a node or closes a layer, and takes all letters that it hands out then. Answers the cost of a solution
/// that bettered the board, or why the shard has ended.
pub(crate) fn step<'m, L: CostLaw, K: Covers>(
    shard: &mut Shard<'m, L, K>,
    budget: u64,
    board: &Board,
    seat: &mut BoardSeat,
) -> Result<Option<i64>, Ended>
    requires { (p : Pass) × Suited p L.minimize L.operator K.prune K.minimize K.operator × Rests p board.now budget shard.old seat.old }
    ensures goes_on { (p : Pass) → Suited p L.minimize L.operator K.prune K.minimize K.operator → (a : Rests p board.now budget shard.old seat.old)
        → IfOk result (λ better. RestsFrom p board.now budget a.acts.goes.shard_record better shard.new seat.new) }
    ensures ends { (p : Pass) → Suited p L.minimize L.operator K.prune K.minimize K.operator → (a : Rests p board.now budget shard.old seat.old)
        → IfErr result (λ end. EndsFrom p board.now a.acts.goes.shard_record end shard.new seat.new) }
{
    let better = act(shard, budget, board, seat)?;
    take_letters(shard, board, seat)?;
    Ok(better)
}

/// Makes the steps of a pass, until no node is left or the pass is halted. Answers why the shard has ended. More steps than can be
/// counted have ended the memory.
pub(crate) fn make_steps<'m, L: CostLaw, K: Covers>(
    shard: &mut Shard<'m, L, K>,
    budget: u64,
    board: &Board,
    seat: &mut BoardSeat,
) -> Ended
    requires { (p : Pass) × Suited p L.minimize L.operator K.prune K.minimize K.operator × Rests p board.now budget shard.old seat.old }
    ensures { (p : Pass) → Suited p L.minimize L.operator K.prune K.minimize K.operator → Rests p board.now budget shard.old seat.old
        → Leaves p board.now result shard.new seat.new }
{
    'steps: for _ in 0..u64::MAX {
        if let Err(end) = step(shard, budget, board, seat) {
            return end;
        }
    }
    halt(board, seat, HaltCause::Memory)
}
