//! Why a shard of a pass has ended, and what its seat on the board knows while it goes on and when it has ended.
#![tactic(auto)]

ghost use Rattle.std.specs.Prelude.{◌≡◌};
ghost use Rattle.board_words.specs.Causes.{halt_number};
ghost use Rattle.board_words.specs.Seats.{IsSeatOf};
ghost use Rattle.board_words.specs.Steps.{after_halt};

use board_words::{Board, BoardSeat, HaltCause};

mod ended;

pub use ended::Ended;

/// Halts the pass, and answers why the shard has ended.
pub fn halt(board: &Board, seat: &mut BoardSeat, cause: HaltCause) -> Ended
    requires { IsSeatOf board.now seat.old }
    ensures ended { result ≡ Ended.Halted cause }
    ensures seat { IsSeatOf board.now seat.new }
    ensures view { seat.new.view ≡ after_halt seat.old.view (halt_number cause) }
{
    board.halt(seat, cause);
    Ended::Halted(cause)
}
