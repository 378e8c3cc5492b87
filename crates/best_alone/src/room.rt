//! Room for what the shard leaves, which is made before its first step.

ghost use Rattle.std.specs.Prelude.{◌∷◌, [], false, IfOk};
ghost use Rattle.best_over.specs.Lefts.{HaveLeft};
ghost use Rattle.best_seats.specs.declared.ended.BestEnded.{BestEnded};
ghost use Rattle.board_words.specs.Seats.{BoardFacts, SeatFacts};
ghost use Rattle.pass_ledger.specs.Passes.{Pass};
ghost use Rattle.best_alone.specs.Alone.{Leaves};
ghost use Rattle.best_alone.specs.Parts.{IsRoom};

use best_shard::{BestShard, BestShardEnd};
use cost_laws::CostLaw;
use dom_store::Covers;
use path_log::PathLog;
use std::alloc::{AllocError, Global};

/// What the shard held and counted, and its log of steps; or room for these.
#[derive(Drop)]
pub struct Room {
    pub ends: Vec<BestShardEnd>,
    pub logs: Vec<PathLog>,
}

/// Room for what one shard leaves.
pub(crate) fn make_room(alloc: Global) -> Result<Room, AllocError>
    ensures { IfOk result IsRoom }
{
    Ok(Room {
        ends: Vec::with_capacity(alloc, 1)?,
        logs: Vec::with_capacity(alloc, 1)?,
    })
}

/// Takes the shard apart. It takes no memory.
pub(crate) fn leave<'m, L: CostLaw, K: Covers>(room: Room, shard: BestShard<'m, L, K>) -> Room
    requires { IsRoom room }
    ensures { (p : Pass) (board : BoardFacts) (end : BestEnded) (seat : SeatFacts) → Leaves p board end shard.entry seat → HaveLeft p (seat ∷ []) result.ends.items result.logs.items false }
{
    let mut room = room;
    let (end, log) = shard.end();
    room.ends.push_reserved(end);
    room.logs.push_reserved(log);
    room
}
