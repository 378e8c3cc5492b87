//! A gate at which shards wait for one another.

use dp_outside::Gate;
use std::sync::atomic::{AtomicU64, Ordering};
use std::thread;

/// So often a shard looks before it goes on all the same.
const MOST_LOOKS: u32 = 10_000_000;

/// Which shards wait, and for what.
#[derive(Clone, Copy, Debug, PartialEq, Eq)]
pub enum Waiting {
    /// None waits.
    Nobody,
    /// Each shard waits at its first turn until so many have begun theirs.
    Each(u64),
    /// Shard 0 waits at its first turn until shard 1 has made so many turns.
    First(u64),
}

/// A gate at which shards wait. It counts how often what was waited for came, and how often it did not.
#[derive(Drop)]
pub struct WaitingGate {
    waiting: Waiting,
    begun: AtomicU64,
    turns: AtomicU64,
    seen: AtomicU64,
    missed: AtomicU64,
}

impl WaitingGate {
    pub(crate) fn new(waiting: Waiting) -> WaitingGate {
        WaitingGate {
            waiting,
            begun: AtomicU64::new(0),
            turns: AtomicU64::new(0),
            seen: AtomicU64::new(0),
            missed: AtomicU64::new(0),
        }
    }

    /// Whether what was waited for came each time, and as many shards waited as have to.
    pub(crate) fn came(&self) -> bool {
        let least = match self.waiting {
            Waiting::Nobody => 0,
            Waiting::Each(shards) => shards,
            Waiting::First(_) => 1,
        };
        self.missed.load(Ordering::SeqCst) == 0 && self.seen.load(Ordering::SeqCst) >= least
    }

    // looks for a number that is at least this great
    fn look_for(&self, word: &AtomicU64, least: u64) {
        for _ in 0..MOST_LOOKS {
            if word.load(Ordering::SeqCst) >= least {
                self.seen.fetch_add(1, Ordering::SeqCst);
                return;
            }
            thread::yield_now();
        }
        self.missed.fetch_add(1, Ordering::SeqCst);
    }
}

impl Gate for WaitingGate {
    fn turn(&self, shard: u32, turn: u64) {
        match self.waiting {
            Waiting::Nobody => {}
            Waiting::Each(shards) => {
                if turn == 0 {
                    self.begun.fetch_add(1, Ordering::SeqCst);
                    self.look_for(&self.begun, shards);
                }
            }
            Waiting::First(turns) => {
                if shard == 1 {
                    self.turns.fetch_add(1, Ordering::SeqCst);
                }
                if shard == 0 && turn == 0 {
                    self.look_for(&self.turns, turns);
                }
            }
        }
    }
}
