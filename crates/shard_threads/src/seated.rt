//! A player at the board.

use board_words::BoardSeat;

/// A player with its seat on the board.
#[derive(Drop)]
pub struct Seated<P> {
    pub player: P,
    pub seat: BoardSeat,
}
