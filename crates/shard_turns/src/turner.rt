//! A shard with its ends of the mailboxes, and its turns.

ghost use Rattle.std.specs.Prelude.{◌≡◌, None, IfErr, IfOk, OnOk};
ghost use Rattle.pass_ledger.specs.Passes.{Pass};
ghost use Rattle.shard_core.specs.Calls.{IsQuiet};
ghost use Rattle.shard_core.specs.Stands.{Suited};
ghost use Rattle.shard_turns.specs.Calls.{queue_of};
ghost use Rattle.shard_turns.specs.Turners.{Acts, Leaves, Keeps};
ghost use Rattle.shard_turns.specs.Works.{HasWorked, HasTaken, HasClosed, HasHandled, HasPosted, HasPostedNext};

use crate::calling::{Calling, offer_held};
use crate::envelope::Envelope;
use board_words::{Board, BoardSeat, HaltCause};
use cost_laws::CostLaw;
use dom_store::Covers;
use shard_core::{Shard, Visited};
use shard_mail::{Mailbox, Poster, Taker};
use shard_seats::{Ended, halt};
use std::sync::Wait;

/// A shard, its taker of the mailbox that has its number, and its poster of each mailbox.
#[derive(Drop)]
pub struct Turner<'m, L: CostLaw, K: Covers> {
    pub shard: Shard<'m, L, K>,
    pub taker: Taker<Envelope>,
    pub posters: Vec<Poster<Envelope>>,
    /// By what it calls the costs of better solutions; `None` where they are not announced.
    pub calling: Option<Calling<'m>>,
    /// How many nodes the shards of all passes may visit together.
    pub budget: u64,
    /// How many turns it took. The count stands still at its greatest number.
    pub turns: u64,
    /// How many letters it took. The count stands still at its greatest number.
    pub letters: u64,
    pub ended: Option<Ended>,
}

impl<'m, L: CostLaw, K: Covers> Turner<'m, L, K> {
    /// One turn: the shard looks for a halt, takes a letter, closes its layer if it can, visits or prunes a node
    /// if one waits, and posts what is ready. So a turn with work does some, or the shard has ended, and has let go of what it
    /// does not hand back. It waits for nobody but within the mailboxes' queues.
    pub fn take_turn<R: Wait>(
        &mut self,
        rt: &R,
        board: &Board,
        boxes: &Vec<Mailbox<Envelope>>,
        seat: &mut BoardSeat,
    )
        requires acts { (p : Pass) × Suited p L.minimize L.operator K.prune K.minimize K.operator × Acts p board.now boxes.now.items self.old seat.old }
        requires goes_on { self.old.ended ≡ None }
        ensures keeps { (p : Pass) → Suited p L.minimize L.operator K.prune K.minimize K.operator → Acts p board.now boxes.now.items self.old seat.old
            → Keeps p board.now boxes.now.items self.new seat.new }
        ensures works { (p : Pass) → Suited p L.minimize L.operator K.prune K.minimize K.operator → (a : Acts p board.now boxes.now.items self.old seat.old)
            → self.new.ended ≡ None → (b : Acts p board.now boxes.now.items self.new seat.new) × HasWorked p self.old.shard.me a.shard_record b.shard_record }
        ensures me { self.new.shard.me ≡ self.old.shard.me }
        ensures queue { queue_of self.new.calling ≡ queue_of self.old.calling }
    {
        self.turns = self.turns.saturating_add(1);
        if let Err(end) = self.act(rt, board, boxes, seat) {
            self.ended = Some(end);
            self.shard.let_go();
        }
    }

    // what a shard does in a turn, in this order; what ends it ends the turn
    fn act<R: Wait>(
        &mut self,
        rt: &R,
        board: &Board,
        boxes: &Vec<Mailbox<Envelope>>,
        seat: &mut BoardSeat,
    ) -> Result<(), Ended>
        requires { (p : Pass) × Suited p L.minimize L.operator K.prune K.minimize K.operator × Acts p board.now boxes.now.items self.old seat.old }
        ensures acts { (p : Pass) → Suited p L.minimize L.operator K.prune K.minimize K.operator → (a : Acts p board.now boxes.now.items self.old seat.old)
            → OnOk result ((b : Acts p board.now boxes.now.items self.new seat.new) × HasWorked p self.old.shard.me a.shard_record b.shard_record) }
        ensures ends { (p : Pass) → Suited p L.minimize L.operator K.prune K.minimize K.operator → Acts p board.now boxes.now.items self.old seat.old
            → IfErr result (λ end. Leaves p board.now boxes.now.items end self.new seat.new) }
        ensures same { self.new.ended ≡ self.old.ended }
        ensures me { self.new.shard.me ≡ self.old.shard.me }
        ensures queue { queue_of self.new.calling ≡ queue_of self.old.calling }
    {
        self.look_for_halt(board, boxes, seat)?;
        self.take(rt, board, boxes, seat)?;
        self.close(board, boxes, seat)?;
        self.visit(rt, board, boxes, seat)?;
        self.post(rt, board, boxes, seat)
    }

    // ends where some shard halted the pass
    fn look_for_halt(
        &mut self,
        board: &Board,
        boxes: &Vec<Mailbox<Envelope>>,
        seat: &mut BoardSeat,
    ) -> Result<(), Ended>
        requires { (p : Pass) × Suited p L.minimize L.operator K.prune K.minimize K.operator × Acts p board.now boxes.now.items self.old seat.old }
        ensures acts { (p : Pass) → Suited p L.minimize L.operator K.prune K.minimize K.operator → (a : Acts p board.now boxes.now.items self.old seat.old)
            → OnOk result ((b : Acts p board.now boxes.now.items self.new seat.new) × (b.shard_record ≡ a.shard_record)) }
        ensures ends { (p : Pass) → Suited p L.minimize L.operator K.prune K.minimize K.operator → Acts p board.now boxes.now.items self.old seat.old
            → IfErr result (λ end. Leaves p board.now boxes.now.items end self.new seat.new) }
        ensures same { self.new.ended ≡ self.old.ended }
        ensures me { self.new.shard.me ≡ self.old.shard.me }
        ensures queue { queue_of self.new.calling ≡ queue_of self.old.calling }
    {
        let _ = boxes;
        if board.halted(seat) > 0 {
            return Err(Ended::Met);
        }
        Ok(())
    }

    // takes a letter, if there is one
    fn take<R: Wait>(
        &mut self,
        rt: &R,
        board: &Board,
        boxes: &Vec<Mailbox<Envelope>>,
        seat: &mut BoardSeat,
    ) -> Result<(), Ended>
        requires { (p : Pass) × Suited p L.minimize L.operator K.prune K.minimize K.operator × Acts p board.now boxes.now.items self.old seat.old }
        ensures acts { (p : Pass) → Suited p L.minimize L.operator K.prune K.minimize K.operator → (a : Acts p board.now boxes.now.items self.old seat.old)
            → OnOk result ((b : Acts p board.now boxes.now.items self.new seat.new) × HasTaken a.shard_record b.shard_record) }
        ensures ends { (p : Pass) → Suited p L.minimize L.operator K.prune K.minimize K.operator → Acts p board.now boxes.now.items self.old seat.old
            → IfErr result (λ end. Leaves p board.now boxes.now.items end self.new seat.new) }
        ensures same { self.new.ended ≡ self.old.ended }
        ensures me { self.new.shard.me ≡ self.old.shard.me }
        ensures queue { queue_of self.new.calling ≡ queue_of self.old.calling }
    {
        let Some(envelope) = boxes[self.shard.me as usize].take(rt, &mut self.taker) else {
            return Ok(());
        };
        self.letters = self.letters.saturating_add(1);
        match self.shard.accept(envelope.letter) {
            Ok(()) => Ok(()),
            Err(_) => Err(halt(board, seat, HaltCause::Memory)),
        }
    }

    // closes the shard's layer where it is ready, and ends where it is done; by far most turns find it not ready, and so not done
    fn close(
        &mut self,
        board: &Board,
        boxes: &Vec<Mailbox<Envelope>>,
        seat: &mut BoardSeat,
    ) -> Result<(), Ended>
        requires { (p : Pass) × Suited p L.minimize L.operator K.prune K.minimize K.operator × Acts p board.now boxes.now.items self.old seat.old }
        ensures acts { (p : Pass) → Suited p L.minimize L.operator K.prune K.minimize K.operator → (a : Acts p board.now boxes.now.items self.old seat.old)
            → OnOk result ((b : Acts p board.now boxes.now.items self.new seat.new) × HasClosed p self.old.shard.me a.shard_record b.shard_record) }
        ensures ends { (p : Pass) → Suited p L.minimize L.operator K.prune K.minimize K.operator → Acts p board.now boxes.now.items self.old seat.old
            → IfErr result (λ end. Leaves p board.now boxes.now.items end self.new seat.new) }
        ensures same { self.new.ended ≡ self.old.ended }
        ensures me { self.new.shard.me ≡ self.old.shard.me }
        ensures queue { queue_of self.new.calling ≡ queue_of self.old.calling }
    {
        let _ = boxes;
        if !self.shard.ready() {
            return Ok(());
        }
        if self.shard.is_done() {
            return Err(Ended::Done);
        }
        match self.shard.close() {
            Ok(_) => Ok(()),
            Err(_) => Err(halt(board, seat, HaltCause::Memory)),
        }
    }

    // prunes or visits the first waiting node, if there is one, and calls the cost of a solution that bettered the board
    fn visit<R: Wait>(
        &mut self,
        rt: &R,
        board: &Board,
        boxes: &Vec<Mailbox<Envelope>>,
        seat: &mut BoardSeat,
    ) -> Result<(), Ended>
        requires { (p : Pass) × Suited p L.minimize L.operator K.prune K.minimize K.operator × Acts p board.now boxes.now.items self.old seat.old }
        ensures acts { (p : Pass) → Suited p L.minimize L.operator K.prune K.minimize K.operator → (a : Acts p board.now boxes.now.items self.old seat.old)
            → OnOk result ((b : Acts p board.now boxes.now.items self.new seat.new) × HasHandled a.shard_record b.shard_record) }
        ensures ends { (p : Pass) → Suited p L.minimize L.operator K.prune K.minimize K.operator → Acts p board.now boxes.now.items self.old seat.old
            → IfErr result (λ end. Leaves p board.now boxes.now.items end self.new seat.new) }
        ensures same { self.new.ended ≡ self.old.ended }
        ensures me { self.new.shard.me ≡ self.old.shard.me }
        ensures queue { queue_of self.new.calling ≡ queue_of self.old.calling }
    {
        let _ = boxes;
        if !self.shard.waits() {
            return Ok(());
        }
        let best = board.look(seat);
        if self.shard.prune_head(best) {
            return Ok(());
        }
        if board.draw(seat) >= self.budget {
            return Err(halt(board, seat, HaltCause::Budget));
        }
        match self.shard.visit(best) {
            Visited::Done { offer: Some(word) } => {
                offer_held(rt, board, seat, word, &self.shard.held, &mut self.calling);
                Ok(())
            }
            Visited::Done { offer: None } => Ok(()),
            Visited::Fault(_) => Err(halt(board, seat, HaltCause::Fault)),
            Visited::Memory => Err(halt(board, seat, HaltCause::Memory)),
        }
    }

    // posts letters and marks until none is ready
    fn post<R: Wait>(
        &mut self,
        rt: &R,
        board: &Board,
        boxes: &Vec<Mailbox<Envelope>>,
        seat: &mut BoardSeat,
    ) -> Result<(), Ended>
        requires { (p : Pass) × Suited p L.minimize L.operator K.prune K.minimize K.operator × Acts p board.now boxes.now.items self.old seat.old }
        ensures acts { (p : Pass) → Suited p L.minimize L.operator K.prune K.minimize K.operator → (a : Acts p board.now boxes.now.items self.old seat.old)
            → OnOk result ((b : Acts p board.now boxes.now.items self.new seat.new) × HasPosted a.shard_record b.shard_record × IsQuiet p self.old.shard.me b.shard_record) }
        ensures ends { (p : Pass) → Suited p L.minimize L.operator K.prune K.minimize K.operator → Acts p board.now boxes.now.items self.old seat.old
            → IfErr result (λ end. Leaves p board.now boxes.now.items end self.new seat.new) }
        ensures same { self.new.ended ≡ self.old.ended }
        ensures me { self.new.shard.me ≡ self.old.shard.me }
        ensures queue { queue_of self.new.calling ≡ queue_of self.old.calling }
    {
        if self.shard.is_quiet() {
            return Ok(());
        }
        for _ in rt.forever() {
            if !self.post_next(rt, board, boxes, seat)? {
                return Ok(());
            }
        }
        unreachable!()
    }

    // posts the next letter that is ready, and answers whether there was one
    fn post_next<R: Wait>(
        &mut self,
        rt: &R,
        board: &Board,
        boxes: &Vec<Mailbox<Envelope>>,
        seat: &mut BoardSeat,
    ) -> Result<bool, Ended>
        requires { (p : Pass) × Suited p L.minimize L.operator K.prune K.minimize K.operator × Acts p board.now boxes.now.items self.old seat.old }
        ensures acts { (p : Pass) → Suited p L.minimize L.operator K.prune K.minimize K.operator → (a : Acts p board.now boxes.now.items self.old seat.old)
            → IfOk result (λ more. (b : Acts p board.now boxes.now.items self.new seat.new) × HasPostedNext p self.old.shard.me a.shard_record more b.shard_record) }
        ensures ends { (p : Pass) → Suited p L.minimize L.operator K.prune K.minimize K.operator → Acts p board.now boxes.now.items self.old seat.old
            → IfErr result (λ end. Leaves p board.now boxes.now.items end self.new seat.new) }
        ensures same { self.new.ended ≡ self.old.ended }
        ensures me { self.new.shard.me ≡ self.old.shard.me }
        ensures queue { queue_of self.new.calling ≡ queue_of self.old.calling }
    {
        let Some((to, letter)) = self.shard.next_letter() else {
            return Ok(false);
        };
        let to = to as usize;
        match boxes[to].post(rt, &mut self.posters[to], Envelope { letter }) {
            Ok(()) => Ok(true),
            Err(_) => Err(halt(board, seat, HaltCause::Memory)),
        }
    }
}
