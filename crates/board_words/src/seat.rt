//! A seat at a board, and what it knows.
use atomic_table::Seat;
use std::marker::Model;

/// What one seat knows. No value of it is made: it stands in contracts alone.
pub struct View {
    /// The seat's share of the board. All parts of a board add up to 2^20.
    pub part: u64,
    /// The best word that the board began with.
    pub opening: u64,
    /// The number of visits that the run may draw.
    pub limit: u64,
    /// The best word that was last looked at.
    pub seen: u64,
    /// The least word offered, and 2^64 - 1 where none was.
    pub offered: u64,
    /// The number of draws.
    pub drawn: u64,
    /// The number of draws that gave a number not below the limit.
    pub late: u64,
    /// One more than the greatest number drawn, and 0 before any draw.
    pub top: u64,
    /// The greatest halt raised, and 0 where none was.
    pub raised: u64,
    /// The greatest halt word that was looked at.
    pub met: u64,
}

/// One thread's place at a board. Contracts see which board it is of, and its view.
#[derive(Drop)]
pub struct BoardSeat {
    pub(crate) seat: Seat<(), View>,
}

impl Model for BoardSeat {
    ghost use Rattle.std.specs.Prelude.{◌≡◌, ◌<◌, []};
    ghost use Rattle.board_words.specs.Seats.{SeatFacts};

    ghost Value = { SeatFacts };

    ghost view = { λ s. record { board = s.seat.table_id; view = s.seat.me.0 } };

    ghost invariant = { λ s. (s.seat.me.1 ≡ []) × (0 < s.seat.me.0.part) };
}
