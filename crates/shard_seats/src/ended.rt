//! Why a shard has ended.

use board_words::HaltCause;

/// Why a shard goes on no more.
#[derive(Clone, Copy, Debug, PartialEq, Eq)]
pub enum Ended {
    /// All its letters are posted, and no shard has a state of the next layer.
    Done,
    /// Another shard halted the pass.
    Met,
    /// It halted the pass.
    Halted(HaltCause),
}
