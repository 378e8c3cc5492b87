//! Why a shard of a best-first search has ended, what its seat on the board knows while it goes on and when it has ended, and how many
//! letters it takes before it visits.
#![tactic(auto)]

ghost use Rattle.std.specs.Prelude.{◌≡◌};
ghost use Rattle.board_words.specs.Causes.{halt_number};
ghost use Rattle.board_words.specs.Seats.{IsSeatOf};
ghost use Rattle.board_words.specs.Steps.{after_halt};

use board_words::{Board, BoardSeat, HaltCause};

mod ended;

pub use ended::BestEnded;

/// A shard takes at most so many letters before it visits a node. The node that is visited next is the best of those that were taken by
/// then.
pub const MOST_LETTERS: u32 = 64;

/// Halts the search, and answers why the shard has ended.
pub fn halt(board: &Board, seat: &mut BoardSeat, cause: HaltCause) -> BestEnded
    requires { IsSeatOf board.now seat.old }
    ensures ended { result ≡ BestEnded.Halted cause }
    ensures seat { IsSeatOf board.now seat.new }
    ensures view { seat.new.view ≡ after_halt seat.old.view (halt_number cause) }
{
    board.halt(seat, cause);
    BestEnded::Halted(cause)
}
