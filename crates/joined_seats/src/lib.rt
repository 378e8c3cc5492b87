//! Seats on the board that were split off are joined again, and what the one seat knows then of what each of them knew.
#![tactic(auto)]

ghost use Rattle.std.specs.Prelude.{◌≡◌, ℕ, slice_get, Some};
ghost use Rattle.board_words.specs.Seats.{SeatFacts, IsSeatOf};
ghost use Rattle.joined_seats.specs.Joined.{joined};

use board_words::{Board, BoardSeat};

/// Joins seats again, one after another.
pub fn join_seats(board: &Board, seat: &mut BoardSeat, seats: Vec<BoardSeat>)
    requires seat { IsSeatOf board.now seat.old }
    requires seats { (i : ℕ) (s : SeatFacts) → slice_get seats.items i ≡ Some s → IsSeatOf board.now s }
    ensures seat { IsSeatOf board.now seat.new }
    ensures view { seat.new.view ≡ joined seat.old.view seats.items }
{
    for other in seats {
        board.join(seat, other);
    }
}
