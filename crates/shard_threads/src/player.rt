//! What threads turn.

ghost use Rattle.std.specs.Prelude.{◌≡◌, ℕ, Bool, true, false};
ghost use Rattle.board_words.specs.Seats.{BoardFacts, SeatFacts};

use board_words::{Board, BoardSeat};
use std::sync::Wait;

/// What all players share: the board, and what they send one another by; and the gate that each passes before a turn.
pub struct Floor<'a, X, G> {
    pub board: &'a Board,
    pub boxes: &'a X,
    pub gate: &'a G,
}

impl<'a, X, G> Drop for Floor<'a, X, G> {
    fn drop(self) {
        let Floor {
            board: _,
            boxes: _,
            gate: _,
        } = self;
    }
}

/// How far some players are, in sums that may wrap.
#[derive(Clone, Copy, Debug)]
pub struct Pulse {
    /// Whether work waits in one of them, so that its next turn may post letters.
    pub waits: bool,
    /// Another number after a turn that may have posted letters though no work had waited before it.
    pub posts: u64,
    /// How many letters they took.
    pub letters: u64,
}

/// What threads turn: it takes turns until it has ended, over what it shares with others, and at a seat of its own.
///
/// What it is held to is told by `Terms`: whatever a player with its seat kept before a turn, it keeps after the turn.
pub trait Player: Drop {
    /// What the players send one another by.
    type Boxes: Sync + Drop;

    /// What a player may be held to.
    ghost Terms: { Type 0 };

    /// On this board and with these boxes, the player and its seat are as the terms ask.
    ghost keeps: { Self.Terms → BoardFacts → Self.Boxes → Self → SeatFacts → Type 0 };

    ghost has_ended: { Self → Bool };

    /// One turn. It waits for nobody but within the boxes.
    fn turn<R: Wait>(&mut self, rt: &R, board: &Board, boxes: &Self::Boxes, seat: &mut BoardSeat)
        requires held { (t : Self.Terms) × keeps t board.now boxes.now self.old seat.old }
        requires goes_on { has_ended self.old ≡ false }
        ensures { (t : Self.Terms) → keeps t board.now boxes.now self.old seat.old → keeps t board.now boxes.now self.new seat.new };

    /// The number by which a gate knows it.
    fn number(&self) -> u32;

    /// How many turns it took, for a gate.
    fn turns(&self) -> u64;

    /// Whether it takes no more turns.
    fn has_ended(&self) -> bool
        ensures { result ≡ has_ended self.now };

    /// How far it is.
    fn pulse(&self) -> Pulse;
}
