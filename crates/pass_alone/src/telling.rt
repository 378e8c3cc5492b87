//! The steps of a pass, and what is announced between them.

ghost use Rattle.std.specs.Prelude.{◌≡◌, ◌≤◌, ℕ, List, Option, length, ℤ, IfErr, OnOk};
ghost use Rattle.pass_ledger.specs.Passes.{Pass};
ghost use Rattle.shard_core.specs.Stands.{Suited};
ghost use Rattle.pass_alone.specs.Alone.{Leaves, Rests, Tells};

use crate::steps::step;
use announcing::{Told, look_some};
use board_words::{Board, BoardSeat, HaltCause};
use cost_laws::CostLaw;
use dom_store::Covers;
use dp_outside::Sink;
use shard_core::Shard;
use shard_seats::{Ended, halt};

/// One step, and a look at the cost of a solution that bettered the board.
fn step_and_look<'m, L: CostLaw, K: Covers, S: Sink>(
    shard: &mut Shard<'m, L, K>,
    budget: u64,
    board: &Board,
    seat: &mut BoardSeat,
    out: &mut S,
    told: &mut Told,
    minimize: bool,
) -> Result<(), Ended>
    requires { (p : Pass) × Suited p L.minimize L.operator K.prune K.minimize K.operator × (a : Rests p board.now budget shard.old seat.old) × (told.old.count ≤ length a.acts.goes.shard_record.visits) }
    ensures goes_on { (p : Pass) → Suited p L.minimize L.operator K.prune K.minimize K.operator → (a : Rests p board.now budget shard.old seat.old) → (last : Option ℤ) (before : Option (List ℕ)) (faults : ℕ)
        → Tells p minimize last before (S.taken out.old) faults (S.faults out.old) told.old a.acts.goes.shard_record
        → OnOk result ((b : Rests p board.now budget shard.new seat.new) × Tells p minimize last before (S.taken out.new) faults (S.faults out.new) told.new b.acts.goes.shard_record) }
    ensures ends { (p : Pass) → Suited p L.minimize L.operator K.prune K.minimize K.operator → (a : Rests p board.now budget shard.old seat.old) → (last : Option ℤ) (before : Option (List ℕ)) (faults : ℕ)
        → Tells p minimize last before (S.taken out.old) faults (S.faults out.old) told.old a.acts.goes.shard_record
        → IfErr result (λ end. (l : Leaves p board.now end shard.new seat.new) × Tells p minimize last before (S.taken out.new) faults (S.faults out.new) told.new l.stops.shard_record) }
{
    let better = step(shard, budget, board, seat)?;
    look_some(out, told, minimize, better);
    Ok(())
}

/// Makes the steps of a pass, until no node is left or the pass is halted, and looks at the cost of each solution that bettered the
/// board. Answers why the shard has ended. More steps than can be counted have ended the memory.
pub(crate) fn make_steps_and_look<'m, L: CostLaw, K: Covers, S: Sink>(
    shard: &mut Shard<'m, L, K>,
    budget: u64,
    board: &Board,
    seat: &mut BoardSeat,
    out: &mut S,
    told: &mut Told,
    minimize: bool,
) -> Ended
    requires { (p : Pass) × Suited p L.minimize L.operator K.prune K.minimize K.operator × (a : Rests p board.now budget shard.old seat.old) × (last : Option ℤ) × (before : Option (List ℕ)) × (faults : ℕ)
        × Tells p minimize last before (S.taken out.old) faults (S.faults out.old) told.old a.acts.goes.shard_record }
    ensures { (p : Pass) → Suited p L.minimize L.operator K.prune K.minimize K.operator → (a : Rests p board.now budget shard.old seat.old) → (last : Option ℤ) (before : Option (List ℕ)) (faults : ℕ)
        → Tells p minimize last before (S.taken out.old) faults (S.faults out.old) told.old a.acts.goes.shard_record
        → (l : Leaves p board.now result shard.new seat.new) × Tells p minimize last before (S.taken out.new) faults (S.faults out.new) told.new l.stops.shard_record }
{
    'steps: for _ in 0..u64::MAX {
        if let Err(end) = step_and_look(shard, budget, board, seat, out, told, minimize) {
            return end;
        }
    }
    halt(board, seat, HaltCause::Memory)
}
