//! Why a shard has ended.

use board_words::HaltCause;

/// Why a shard goes on no more.
#[derive(Clone, Copy, Debug, PartialEq, Eq)]
pub enum BestEnded {
    /// It has no work, and saw none in other shards. Beside others it is as one that goes on: letters may still wait for it.
    Idle,
    /// Another shard halted the search.
    Met,
    /// It halted the search.
    Halted(HaltCause),
}
