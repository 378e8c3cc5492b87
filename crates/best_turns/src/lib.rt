//! What one shard of a best-first search does in its turns, over the words and the mailboxes that the shards share: it takes letters,
//! prunes or visits its best open node, and posts letters. Who turns the shards, and in which order, is not known here.
#![tactic(auto)]

mod envelope;
mod player;
mod turner;
mod work;

pub use envelope::BestEnvelope;
pub use turner::BestTurner;
pub use work::{BestBoxes, OpenWork};
