//! Letters as the mailboxes of a best-first search take them.

use best_ledger::BestLetter;
use dp_model::Model as DpModel;
use shard_mail::Signed;

/// A letter in a mailbox. Its terms are the model of the search: what a shard posts to another is lawful where each node is in
/// order.
#[derive(Debug, Drop)]
pub struct BestEnvelope {
    pub letter: BestLetter,
}

impl Signed for BestEnvelope {
    ghost use Rattle.best_turns.specs.Envelopes.{are_lawful, sender_of, none_lawful, front_lawful};

    type Terms = DpModel;

    ghost lawful = { are_lawful };

    ghost sender_of = { sender_of };

    fn sender(&self) -> u32 {
        self.letter.from
    }

    ghost starts = { none_lawful };

    ghost begins = { front_lawful };
}
