//! Room for what the shard leaves, which is made before its first step.

ghost use Rattle.std.specs.Prelude.{◌≡◌, IfOk, ◌∷◌, []};
ghost use Rattle.board_words.specs.Seats.{BoardFacts};
ghost use Rattle.pass_ledger.specs.Passes.{Pass};
ghost use Rattle.shard_seats.specs.declared.ended.Ended.{Ended as EndOf};
ghost use Rattle.board_words.specs.Seats.{SeatFacts};
ghost use Rattle.pass_alone.specs.Alone.{Leaves};
ghost use Rattle.pass_alone.specs.Parts.{IsRoom, HasLeft};

use cost_laws::CostLaw;
use dom_store::Covers;
use path_log::PathLog;
use shard_core::{Shard, ShardEnd};
use std::alloc::{AllocError, Global};

/// What the shard held and counted, and its log of steps; or room for these.
#[derive(Drop)]
pub struct Room {
    pub ends: Vec<ShardEnd>,
    pub logs: Vec<PathLog>,
}

/// Room for what one shard leaves.
pub(crate) fn make_room(alloc: Global) -> Result<Room, AllocError>
    ensures { IfOk result IsRoom }
{
    Ok(Room {
        ends: Vec::with_capacity(alloc, 1)?,
        logs: Vec::with_capacity(alloc, 1)?,
    })
}

/// Takes the shard apart. It takes no memory.
pub(crate) fn leave<'m, L: CostLaw, K: Covers>(room: Room, shard: Shard<'m, L, K>) -> Room
    requires { IsRoom room }
    ensures { (p : Pass) (board : BoardFacts) (end : EndOf) (seat : SeatFacts) → (l : Leaves p board end shard.entry seat) → HasLeft p l.stops.shard_record seat result }
{
    let mut room = room;
    let mut shard = shard;
    shard.let_go();
    let (end, log) = shard.end();
    room.ends.push_reserved(end);
    room.logs.push_reserved(log);
    room
}
