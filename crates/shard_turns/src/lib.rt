//! What one shard does in its turns, over the words and the mailboxes that the shards of a pass share: it takes a letter,
//! closes a layer, visits a node, and posts letters. Who turns the shards, and in which order, is not known here.
#![tactic(auto)]

mod calling;
mod envelope;
mod player;
mod turner;

pub use calling::Calling;
pub use envelope::Envelope;
pub use turner::Turner;
