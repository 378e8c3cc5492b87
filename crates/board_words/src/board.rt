//! The board and its calls.
ghost use Rattle.std.specs.Prelude.{◌≡◌, IfOk};
ghost use Rattle.board_words.specs.Causes.{halt_number};
ghost use Rattle.board_words.specs.Rules.{whole_part, new_view, MayDraw, MaySplit};
ghost use Rattle.board_words.specs.Steps.{after_look, after_offer, after_draw, after_halt, after_halted, after_split, split_view, after_join, IsBestFor, IsCountFor, IsCauseFor};
ghost use Rattle.board_words.specs.Seats.{IsSeatOf};

use crate::halt::HaltCause;
use crate::rule::{
    Draw, Look, Meet, Offer, Part, Raise, TellBest, TellCause, TellDrawn, Unite, Words,
};
use crate::seat::{BoardSeat, View};
use atomic_table::Table;
use std::alloc::{AllocError, Global};
use std::marker::Model;

const BEST: usize = 0;

const DRAWN: usize = 1;

const CAUSE: usize = 2;

/// The three shared words. Contracts see which board it is, the best word that it began with, and its limit of visits.
#[derive(Drop)]
pub struct Board {
    table: Table<(), View, (u64, u64), Words, Global>,
}

impl Model for Board {
    ghost use Rattle.std.specs.Prelude.{◌≡◌};
    ghost use Rattle.board_words.specs.Seats.{BoardFacts};

    ghost Value = { BoardFacts };

    ghost view = { λ b. record { id = b.table.shared.table_id; opening = b.table.shared.key.0; limit = b.table.shared.key.1 } };

    ghost invariant = { λ b. b.table.shared.table_id.words ≡ 3 };
}

/// What the words are: the best word, the number of visits drawn, and the number of the halt's cause, 0 for none.
#[derive(Clone, Copy, Debug, PartialEq, Eq)]
pub struct Totals {
    pub best: u64,
    pub drawn: u64,
    pub cause: u64,
}

impl Board {
    /// A board without visits and without a halt, and its seat, which is whole. `best` is a cost's order word, where
    /// 2^64 - 1 stands for no cost.
    pub fn new(alloc: Global, best: u64, limit: u64) -> Result<(Board, BoardSeat), AllocError>
        ensures board { IfOk result (λ r. (r.0.opening ≡ best) × (r.0.limit ≡ limit)) }
        ensures seat { IfOk result (λ r. IsSeatOf r.0 r.1) }
        ensures view { IfOk result (λ r. r.1.view ≡ new_view whole_part best limit best) }
    {
        let (table, seat) = Table::of_words(alloc, &[best, 0, 0], &(best, limit))?;
        Ok((Board { table }, BoardSeat { seat }))
    }

    /// The best word at a step of this call.
    pub fn look(&self, seat: &mut BoardSeat) -> u64
        requires { IsSeatOf self.now seat.old }
        ensures seat { IsSeatOf self.now seat.new }
        ensures view { seat.new.view ≡ after_look seat.old.view result }
        ensures best { IsBestFor seat.old.view result }
    {
        self.table.shared.load::<Look>(&mut seat.seat, BEST)
    }

    /// Lowers the best word to `word` where `word` is less, in one step, and answers what it was before.
    pub fn offer(&self, seat: &mut BoardSeat, word: u64) -> u64
        requires { IsSeatOf self.now seat.old }
        ensures seat { IsSeatOf self.now seat.new }
        ensures view { seat.new.view ≡ after_offer seat.old.view word }
        ensures before { IsBestFor seat.old.view result }
    {
        self.table
            .shared
            .fetch_min::<Offer>(&mut seat.seat, BEST, word)
    }

    /// Draws the next visit, and answers the number of draws before.
    pub fn draw(&self, seat: &mut BoardSeat) -> u64
        requires seat { IsSeatOf self.now seat.old }
        requires room { MayDraw seat.old.view }
        ensures seat { IsSeatOf self.now seat.new }
        ensures view { seat.new.view ≡ after_draw seat.old.view result }
        ensures before { IsCountFor seat.old.view result }
    {
        self.table
            .shared
            .fetch_add::<Draw>(&mut seat.seat, DRAWN, 1)
    }

    /// Raises the halt word to the cause's number where that is greater, in one step.
    pub fn halt(&self, seat: &mut BoardSeat, cause: HaltCause)
        requires { IsSeatOf self.now seat.old }
        ensures seat { IsSeatOf self.now seat.new }
        ensures view { seat.new.view ≡ after_halt seat.old.view (halt_number cause) }
    {
        self.table
            .shared
            .fetch_max::<Raise>(&mut seat.seat, CAUSE, cause.number());
    }

    /// The halt word at a step of this call: the number of the most urgent cause that a seat raised, and 0 where none did.
    pub fn halted(&self, seat: &mut BoardSeat) -> u64
        requires { IsSeatOf self.now seat.old }
        ensures seat { IsSeatOf self.now seat.new }
        ensures view { seat.new.view ≡ after_halted seat.old.view result }
        ensures cause { IsCauseFor seat.old.view result }
    {
        self.table.shared.load::<Meet>(&mut seat.seat, CAUSE)
    }

    /// Moves one part to a new seat, for another thread.
    pub fn split(&self, seat: &mut BoardSeat) -> BoardSeat
        requires seat { IsSeatOf self.now seat.old }
        requires part { MaySplit seat.old.view }
        ensures seats { IsSeatOf self.now seat.new × IsSeatOf self.now result }
        ensures old { seat.new.view ≡ after_split seat.old.view }
        ensures new { result.view ≡ split_view seat.old.view }
    {
        BoardSeat {
            seat: self.table.shared.split_seat::<Part>(&mut seat.seat),
        }
    }

    /// Takes in another seat, with all that it saw and did.
    pub fn join(&self, seat: &mut BoardSeat, other: BoardSeat)
        requires seat { IsSeatOf self.now seat.old }
        requires other { IsSeatOf self.now other }
        ensures seat { IsSeatOf self.now seat.new }
        ensures view { seat.new.view ≡ after_join seat.old.view other.view }
    {
        let BoardSeat { seat: other } = other;
        self.table.shared.join_seat::<Unite>(&mut seat.seat, other);
    }

    /// The words. They are exact for a whole seat; without one each is what its word was at a step of this call.
    pub fn totals(&self, seat: &mut BoardSeat) -> Totals
        requires { IsSeatOf self.now seat.old }
        ensures seat { seat.new ≡ seat.old }
        ensures best { IsBestFor seat.old.view result.best }
        ensures drawn { IsCountFor seat.old.view result.drawn }
        ensures cause { IsCauseFor seat.old.view result.cause }
    {
        let best = self.table.shared.load::<TellBest>(&mut seat.seat, BEST);
        let drawn = self.table.shared.load::<TellDrawn>(&mut seat.seat, DRAWN);
        let cause = self.table.shared.load::<TellCause>(&mut seat.seat, CAUSE);
        Totals { best, drawn, cause }
    }
}
