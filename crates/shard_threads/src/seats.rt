//! Seats on the board, one for each player.

ghost use Rattle.std.specs.Prelude.{◌≡◌, ◌-◌, ◌*◌, ◌<◌, ◌≤◌, length, IfOk, OnOk, OnErr};
ghost use Rattle.board_words.specs.Rules.{draws_each};
ghost use Rattle.board_words.specs.Seats.{IsSeatOf};
ghost use Rattle.joined_seats.specs.Joined.{with_less};
ghost use Rattle.shard_threads.specs.Seats.{AreSeated};

use crate::seated::Seated;
use board_words::{Board, BoardSeat};
use std::alloc::{AllocError, Global};

/// Splits a seat off for each player, with one part of the board. On `Err` memory ran out, and none was split off.
pub fn seat_all<P: Drop>(
    alloc: Global,
    board: &Board,
    seat: &mut BoardSeat,
    players: Vec<P>,
) -> Result<Vec<Seated<P>>, AllocError>
    requires seat { IsSeatOf board.now seat.old }
    requires parts { length players.items < seat.old.view.part }
    requires drawn { seat.old.view.drawn ≤ draws_each * (seat.old.view.part - length players.items) }
    ensures seat { IsSeatOf board.now seat.new }
    ensures seated { IfOk result (λ all. AreSeated board.now seat.old.view players.items all.items) }
    ensures left { OnOk result (seat.new.view ≡ with_less seat.old.view (length players.items)) }
    ensures same { OnErr result (seat.new.view ≡ seat.old.view) }
{
    let mut all = Vec::with_capacity(alloc, players.len())?;
    for player in players {
        all.push_reserved(Seated {
            player,
            seat: board.split(seat),
        });
    }
    Ok(all)
}
