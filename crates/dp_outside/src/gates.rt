//! What is called at each turn of a shard.

/// What each turn of a shard passes first. A test can hold shards back here.
pub trait Gate: Sync {
    /// Called at the start of each turn of a shard, with the shard's number and the number of its turns before.
    fn turn(&self, shard: u32, turn: u64);
}

/// A gate that does nothing.
#[derive(Clone, Copy, Debug)]
pub struct OpenGate;

impl OpenGate {
    /// A gate that is always open. It takes no memory.
    pub fn new() -> OpenGate {
        OpenGate
    }
}

impl Gate for OpenGate {
    fn turn(&self, _shard: u32, _turn: u64) {}
}
