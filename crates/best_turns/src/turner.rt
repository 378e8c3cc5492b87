//! A shard of a best-first search with its ends of the mailboxes, and its turns.

ghost use Rattle.std.specs.Prelude.{◌≡◌, [], None, IfErr, IfOk, OnOk};
ghost use Rattle.best_turns.specs.Turners.{Acts, EndsBy, Keeps};
ghost use Rattle.best_turns.specs.Works.{HasWorked, HasTaken, HasHandled, HasPosted, HasPostedNext};
ghost use Rattle.pass_ledger.specs.Passes.{Pass};
ghost use Rattle.shard_core.specs.Stands.{Suited};

use crate::envelope::BestEnvelope;
use crate::work::{BestBoxes, OpenWork};
use best_seats::{BestEnded, MOST_LETTERS, halt};
use best_shard::BestShard;
use board_words::{Board, BoardSeat, HaltCause};
use cost_laws::CostLaw;
use dom_store::Covers;
use shard_core::Visited;
use shard_mail::{Mailbox, Poster, Taker};
use std::sync::Wait;

/// A shard, its taker of the mailbox that has its number, and its poster of each mailbox.
#[derive(Drop)]
pub struct BestTurner<'m, L: CostLaw, K: Covers> {
    pub shard: BestShard<'m, L, K>,
    pub taker: Taker<BestEnvelope>,
    pub posters: Vec<Poster<BestEnvelope>>,
    /// How many nodes the shards of all searches at the board may visit together.
    pub budget: u64,
    /// How many turns it took. The count stands still at its greatest number.
    pub turns: u64,
    /// How many letters it took. The count stands still at its greatest number.
    pub letters: u64,
    pub ended: Option<BestEnded>,
}

impl<'m, L: CostLaw, K: Covers> BestTurner<'m, L, K> {
    /// One turn: the shard looks for a halt, takes letters until there is none, but not too many, prunes or visits its best open node,
    /// if one is open, and posts all letters. A shard without work ends where no other has any, as far as is known. It waits for
    /// nobody but within the mailboxes' queues.
    pub fn take_turn<R: Wait>(
        &mut self,
        rt: &R,
        board: &Board,
        boxes: &BestBoxes,
        seat: &mut BoardSeat,
    )
        requires acts { (p : Pass) × Suited p L.minimize L.operator K.prune K.minimize K.operator × Acts p board.now boxes.now.boxes.items self.old seat.old }
        requires goes_on { self.old.ended ≡ None }
        ensures keeps { (p : Pass) → Suited p L.minimize L.operator K.prune K.minimize K.operator → Acts p board.now boxes.now.boxes.items self.old seat.old
            → Keeps p board.now boxes.now.boxes.items self.new seat.new }
        ensures works { (p : Pass) → Suited p L.minimize L.operator K.prune K.minimize K.operator → (a : Acts p board.now boxes.now.boxes.items self.old seat.old)
            → self.new.ended ≡ None → (b : Acts p board.now boxes.now.boxes.items self.new seat.new) × HasWorked a.shard_record b.shard_record }
        ensures me { self.new.shard.me ≡ self.old.shard.me }
    {
        self.turns = self.turns.saturating_add(1);
        if let Err(end) = self.act(rt, board, &boxes.boxes, &boxes.work, seat) {
            self.ended = Some(end);
        }
    }

    // what a shard does in a turn, in this order; what ends it ends the turn
    fn act<R: Wait>(
        &mut self,
        rt: &R,
        board: &Board,
        boxes: &Vec<Mailbox<BestEnvelope>>,
        work: &OpenWork,
        seat: &mut BoardSeat,
    ) -> Result<(), BestEnded>
        requires { (p : Pass) × Suited p L.minimize L.operator K.prune K.minimize K.operator × Acts p board.now boxes.now.items self.old seat.old }
        ensures acts { (p : Pass) → Suited p L.minimize L.operator K.prune K.minimize K.operator → (a : Acts p board.now boxes.now.items self.old seat.old)
            → OnOk result ((b : Acts p board.now boxes.now.items self.new seat.new) × HasWorked a.shard_record b.shard_record) }
        ensures ends { (p : Pass) → Suited p L.minimize L.operator K.prune K.minimize K.operator → Acts p board.now boxes.now.items self.old seat.old
            → IfErr result (λ end. EndsBy p board.now boxes.now.items end self.new seat.new) }
        ensures same { self.new.ended ≡ self.old.ended }
        ensures me { self.new.shard.me ≡ self.old.shard.me }
    {
        let open_before = self.open_work();
        let taken_before = self.letters;
        self.look_for_halt(board, boxes, seat)?;
        self.take(rt, board, boxes, seat)?;
        self.handle(board, boxes, seat)?;
        let taken = self.letters.wrapping_sub(taken_before);
        work.turned(self.open_work(), open_before.wrapping_add(taken));
        self.post(rt, board, boxes, seat)?;
        self.rest(work)
    }

    // ends where some shard halted the search
    fn look_for_halt(
        &mut self,
        board: &Board,
        boxes: &Vec<Mailbox<BestEnvelope>>,
        seat: &mut BoardSeat,
    ) -> Result<(), BestEnded>
        requires { (p : Pass) × Suited p L.minimize L.operator K.prune K.minimize K.operator × Acts p board.now boxes.now.items self.old seat.old }
        ensures acts { (p : Pass) → Suited p L.minimize L.operator K.prune K.minimize K.operator → (a : Acts p board.now boxes.now.items self.old seat.old)
            → OnOk result ((b : Acts p board.now boxes.now.items self.new seat.new) × (b.shard_record ≡ a.shard_record)) }
        ensures ends { (p : Pass) → Suited p L.minimize L.operator K.prune K.minimize K.operator → Acts p board.now boxes.now.items self.old seat.old
            → IfErr result (λ end. EndsBy p board.now boxes.now.items end self.new seat.new) }
        ensures same { self.new.ended ≡ self.old.ended }
        ensures me { self.new.shard.me ≡ self.old.shard.me }
    {
        let _ = boxes;
        if board.halted(seat) > 0 {
            return Err(BestEnded::Met);
        }
        Ok(())
    }

    // takes letters until there is none, but not too many
    fn take<R: Wait>(
        &mut self,
        rt: &R,
        board: &Board,
        boxes: &Vec<Mailbox<BestEnvelope>>,
        seat: &mut BoardSeat,
    ) -> Result<(), BestEnded>
        requires { (p : Pass) × Suited p L.minimize L.operator K.prune K.minimize K.operator × Acts p board.now boxes.now.items self.old seat.old }
        ensures acts { (p : Pass) → Suited p L.minimize L.operator K.prune K.minimize K.operator → (a : Acts p board.now boxes.now.items self.old seat.old)
            → OnOk result ((b : Acts p board.now boxes.now.items self.new seat.new) × HasTaken a.shard_record b.shard_record) }
        ensures ends { (p : Pass) → Suited p L.minimize L.operator K.prune K.minimize K.operator → Acts p board.now boxes.now.items self.old seat.old
            → IfErr result (λ end. EndsBy p board.now boxes.now.items end self.new seat.new) }
        ensures same { self.new.ended ≡ self.old.ended }
        ensures me { self.new.shard.me ≡ self.old.shard.me }
    {
        for _ in 0..MOST_LETTERS {
            if !self.take_next(rt, board, boxes, seat)? {
                return Ok(());
            }
        }
        Ok(())
    }

    // takes a letter, and answers whether there was one
    fn take_next<R: Wait>(
        &mut self,
        rt: &R,
        board: &Board,
        boxes: &Vec<Mailbox<BestEnvelope>>,
        seat: &mut BoardSeat,
    ) -> Result<bool, BestEnded>
        requires { (p : Pass) × Suited p L.minimize L.operator K.prune K.minimize K.operator × Acts p board.now boxes.now.items self.old seat.old }
        ensures acts { (p : Pass) → Suited p L.minimize L.operator K.prune K.minimize K.operator → (a : Acts p board.now boxes.now.items self.old seat.old)
            → OnOk result ((b : Acts p board.now boxes.now.items self.new seat.new) × HasTaken a.shard_record b.shard_record) }
        ensures ends { (p : Pass) → Suited p L.minimize L.operator K.prune K.minimize K.operator → Acts p board.now boxes.now.items self.old seat.old
            → IfErr result (λ end. EndsBy p board.now boxes.now.items end self.new seat.new) }
        ensures same { self.new.ended ≡ self.old.ended }
        ensures me { self.new.shard.me ≡ self.old.shard.me }
    {
        let Some(envelope) = boxes[self.shard.me as usize].take(rt, &mut self.taker) else {
            return Ok(false);
        };
        self.letters = self.letters.saturating_add(1);
        match self.shard.accept(envelope.letter) {
            Ok(()) => Ok(true),
            Err(_) => Err(halt(board, seat, HaltCause::Memory)),
        }
    }

    // prunes or visits the best open node, if one is open
    fn handle(
        &mut self,
        board: &Board,
        boxes: &Vec<Mailbox<BestEnvelope>>,
        seat: &mut BoardSeat,
    ) -> Result<(), BestEnded>
        requires { (p : Pass) × Suited p L.minimize L.operator K.prune K.minimize K.operator × Acts p board.now boxes.now.items self.old seat.old }
        ensures acts { (p : Pass) → Suited p L.minimize L.operator K.prune K.minimize K.operator → (a : Acts p board.now boxes.now.items self.old seat.old)
            → OnOk result ((b : Acts p board.now boxes.now.items self.new seat.new) × HasHandled a.shard_record b.shard_record) }
        ensures ends { (p : Pass) → Suited p L.minimize L.operator K.prune K.minimize K.operator → Acts p board.now boxes.now.items self.old seat.old
            → IfErr result (λ end. EndsBy p board.now boxes.now.items end self.new seat.new) }
        ensures same { self.new.ended ≡ self.old.ended }
        ensures me { self.new.shard.me ≡ self.old.shard.me }
    {
        let _ = boxes;
        let Some(node) = self.shard.pick() else {
            return Ok(());
        };
        let best = board.look(seat);
        if self.shard.prunes(&node, best) {
            self.shard.drop_picked(node);
            return Ok(());
        }
        if board.draw(seat) >= self.budget {
            return Err(halt(board, seat, HaltCause::Budget));
        }
        match self.shard.visit(node, best) {
            Visited::Done { offer: Some(word) } => {
                board.offer(seat, word);
                Ok(())
            }
            Visited::Done { offer: None } => Ok(()),
            Visited::Fault(_) => Err(halt(board, seat, HaltCause::Fault)),
            Visited::Memory => Err(halt(board, seat, HaltCause::Memory)),
        }
    }

    // posts all letters
    fn post<R: Wait>(
        &mut self,
        rt: &R,
        board: &Board,
        boxes: &Vec<Mailbox<BestEnvelope>>,
        seat: &mut BoardSeat,
    ) -> Result<(), BestEnded>
        requires { (p : Pass) × Suited p L.minimize L.operator K.prune K.minimize K.operator × Acts p board.now boxes.now.items self.old seat.old }
        ensures acts { (p : Pass) → Suited p L.minimize L.operator K.prune K.minimize K.operator → (a : Acts p board.now boxes.now.items self.old seat.old)
            → OnOk result ((b : Acts p board.now boxes.now.items self.new seat.new) × HasPosted a.shard_record b.shard_record × (b.shard_record.unsent ≡ [])) }
        ensures ends { (p : Pass) → Suited p L.minimize L.operator K.prune K.minimize K.operator → Acts p board.now boxes.now.items self.old seat.old
            → IfErr result (λ end. EndsBy p board.now boxes.now.items end self.new seat.new) }
        ensures same { self.new.ended ≡ self.old.ended }
        ensures me { self.new.shard.me ≡ self.old.shard.me }
    {
        for _ in rt.forever() {
            if !self.post_next(rt, board, boxes, seat)? {
                return Ok(());
            }
        }
        unreachable!()
    }

    // posts the next letter, and answers whether there was one
    fn post_next<R: Wait>(
        &mut self,
        rt: &R,
        board: &Board,
        boxes: &Vec<Mailbox<BestEnvelope>>,
        seat: &mut BoardSeat,
    ) -> Result<bool, BestEnded>
        requires { (p : Pass) × Suited p L.minimize L.operator K.prune K.minimize K.operator × Acts p board.now boxes.now.items self.old seat.old }
        ensures acts { (p : Pass) → Suited p L.minimize L.operator K.prune K.minimize K.operator → (a : Acts p board.now boxes.now.items self.old seat.old)
            → IfOk result (λ more. (b : Acts p board.now boxes.now.items self.new seat.new) × HasPostedNext a.shard_record more b.shard_record) }
        ensures ends { (p : Pass) → Suited p L.minimize L.operator K.prune K.minimize K.operator → Acts p board.now boxes.now.items self.old seat.old
            → IfErr result (λ end. EndsBy p board.now boxes.now.items end self.new seat.new) }
        ensures same { self.new.ended ≡ self.old.ended }
        ensures me { self.new.shard.me ≡ self.old.shard.me }
    {
        let Some((to, letter)) = self.shard.next_letter() else {
            return Ok(false);
        };
        let to = to as usize;
        match boxes[to].post(rt, &mut self.posters[to], BestEnvelope { letter }) {
            Ok(()) => Ok(true),
            Err(_) => Err(halt(board, seat, HaltCause::Memory)),
        }
    }

    // ends where the shard has no work, and no other has any, as far as is known
    fn rest(&self, work: &OpenWork) -> Result<(), BestEnded>
        ensures { IfErr result (λ end. end ≡ BestEnded.Idle) }
    {
        if self.shard.is_idle() && work.is_done() {
            return Err(BestEnded::Idle);
        }
        Ok(())
    }

    // how many nodes are open, and letters are to be posted
    fn open_work(&self) -> u64 {
        self.shard
            .waiting
            .len()
            .saturating_add(self.shard.letters.len() as u64)
    }
}
