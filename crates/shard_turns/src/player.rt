//! A shard as threads turn it.

use crate::envelope::Envelope;
use crate::turner::Turner;
use board_words::{Board, BoardSeat};
use cost_laws::CostLaw;
use dom_store::Covers;
use shard_mail::Mailbox;
use shard_threads::{Player, Pulse};
use std::sync::Wait;

impl<'m, L: CostLaw, K: Covers> Player for Turner<'m, L, K> {
    ghost use Rattle.std.specs.Prelude.{ℕ, Option, is_some};
    ghost use Rattle.announcer.specs.Ends.{QueueFacts};
    ghost use Rattle.pass_ledger.specs.Passes.{Pass};
    ghost use Rattle.shard_turns.specs.Plays.{plays_by};

    type Boxes = Vec<Mailbox<Envelope>>;

    ghost Terms = { Pass × ℕ × Option QueueFacts };

    ghost keeps = { plays_by L.minimize L.operator K.prune K.minimize K.operator };

    ghost has_ended = { λ t. is_some t.ended };

    fn turn<R: Wait>(
        &mut self,
        rt: &R,
        board: &Board,
        boxes: &Vec<Mailbox<Envelope>>,
        seat: &mut BoardSeat,
    ) {
        self.take_turn(rt, board, boxes, seat);
    }

    fn number(&self) -> u32 {
        self.shard.me
    }

    fn turns(&self) -> u64 {
        self.turns
    }

    fn has_ended(&self) -> bool {
        self.ended.is_some()
    }

    fn pulse(&self) -> Pulse {
        Pulse {
            waits: self.shard.waits(),
            posts: self.shard.layer,
            letters: self.letters,
        }
    }
}
