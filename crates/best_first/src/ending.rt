//! The end of a search: the shards are taken apart, their seats are joined, and the mailboxes settled.

ghost use Rattle.std.specs.Prelude.{◌≡◌, true, false};
ghost use Rattle.best_first.specs.Alone.{AreResting, HasOneStopped};
ghost use Rattle.best_first.specs.Crews.{KeepAll, seats_of};
ghost use Rattle.best_first.specs.Rooms.{IsRoomFor};
ghost use Rattle.best_over.specs.Lefts.{HaveLeft};
ghost use Rattle.board_words.specs.Seats.{IsSeatOf};
ghost use Rattle.pass_ledger.specs.Passes.{Pass};
ghost use Rattle.joined_seats.specs.Joined.{joined};

use crate::room::{Room, leave_all, settle_all};
use best_shard::BestShardEnd;
use best_turns::{BestEnvelope, BestTurner};
use board_words::{Board, BoardSeat};
use cost_laws::CostLaw;
use dom_store::Covers;
use joined_seats::join_seats;
use path_log::PathLog;
use shard_mail::Mailbox;
use shard_threads::Seated;
use std::sync::Wait;

/// What the shards of a search left, in the order of their numbers. Where `lost` is true the shards rest, but a letter was left in a
/// mailbox, or memory ran out where one would have been told.
#[derive(Drop)]
pub struct Left {
    pub ends: Vec<BestShardEnd>,
    pub logs: Vec<PathLog>,
    pub lost: bool,
}

/// The shards are taken apart, their seats are joined, and the mailboxes settled. `resting` says that the shards rest; else one has
/// stopped.
pub(crate) fn gather<'m, L: CostLaw, K: Covers, R: Wait>(
    rt: &R,
    board: &Board,
    seat: &mut BoardSeat,
    boxes: Vec<Mailbox<BestEnvelope>>,
    room: Room,
    shards: Vec<Seated<BestTurner<'m, L, K>>>,
    resting: bool,
) -> Left
    requires seat { IsSeatOf board.now seat.old }
    requires keep { (p : Pass) × KeepAll p board.now boxes.items shards.items × IsRoomFor p.shards 0 room }
    requires rest { resting ≡ true → AreResting shards.items }
    requires stopped { resting ≡ false → HasOneStopped shards.items }
    ensures seat { IsSeatOf board.now seat.new }
    ensures view { seat.new.view ≡ joined seat.old.view (seats_of shards.entry.items) }
    ensures left { (p : Pass) → KeepAll p board.now boxes.items shards.entry.items → HaveLeft p (seats_of shards.entry.items) result.ends.items result.logs.items result.lost }
{
    let Room {
        ends,
        logs,
        takers,
        seats,
        posters,
    } = leave_all(room, shards);
    join_seats(board, seat, seats);
    let all_taken = settle_all(rt, boxes, takers, posters);
    Left {
        ends,
        logs,
        lost: is_lost(resting, all_taken),
    }
}

/// Whether shards rest though not all letters were taken.
fn is_lost(resting: bool, all_taken: bool) -> bool
    ensures { result ≡ false → resting ≡ true → all_taken ≡ true }
{
    resting && !all_taken
}
