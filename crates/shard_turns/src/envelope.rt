//! Letters as the mailboxes of a pass take them.

use dp_model::Model as DpModel;
use pass_ledger::Letter;
use shard_mail::Signed;

/// A letter in a mailbox. Its terms are the model of the pass: what a shard posts to another is lawful where the letters are
/// in groups, each the states of a layer and then its mark, and each node is in order.
#[derive(Debug, Drop)]
pub struct Envelope {
    pub letter: Letter,
}

impl Signed for Envelope {
    ghost use Rattle.shard_turns.specs.Envelopes.{are_lawful, sender_of, none_lawful, front_lawful};

    type Terms = DpModel;

    ghost lawful = { are_lawful };

    ghost sender_of = { sender_of };

    fn sender(&self) -> u32 {
        match &self.letter {
            Letter::State { from, .. } | Letter::Mark { from, .. } => *from,
        }
    }

    ghost starts = { none_lawful };

    ghost begins = { front_lawful };
}
