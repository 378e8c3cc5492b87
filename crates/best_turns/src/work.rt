//! What the shards of a search share beside the board: their mailboxes, and how much work is open in all of them.

use crate::envelope::BestEnvelope;
use shard_mail::Mailbox;
use std::sync::atomic::{AtomicU64, Ordering};

/// A count of the nodes that are open and of the letters that wait in mailboxes, of all shards. It is a hint: nothing that is proved
/// rests on it.
#[derive(Drop)]
pub struct OpenWork {
    count: AtomicU64,
}

impl OpenWork {
    /// So much work is open.
    pub fn new(count: u64) -> OpenWork {
        OpenWork {
            count: AtomicU64::new(count),
        }
    }

    /// So much came, and so much was done.
    pub fn turned(&self, came: u64, done: u64) {
        if came != done {
            self.count
                .fetch_add(came.wrapping_sub(done), Ordering::SeqCst);
        }
    }

    /// Whether no work is open.
    pub fn is_done(&self) -> bool {
        self.count.load(Ordering::SeqCst) == 0
    }
}

/// A mailbox for each shard, and the count of open work.
#[derive(Drop)]
pub struct BestBoxes {
    pub boxes: Vec<Mailbox<BestEnvelope>>,
    pub work: OpenWork,
}
