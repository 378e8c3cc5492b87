//! What the threads of a pass tell one another beside letters: that there may be some, and that a start was refused.

use std::sync::Wait;
use std::sync::atomic::{AtomicU32, AtomicU64, Ordering};
use std::time::Duration;

/// No thread sleeps for more microseconds before it looks again, whatever it misses.
const LONGEST_SLEEP: u64 = 500;

/// What the threads of a pass share beside the board and the mailboxes.
#[derive(Drop)]
pub struct Signals {
    refused: AtomicU64,
    sleepers: AtomicU32,
    news: AtomicU64,
}

impl Signals {
    /// No start was refused, no thread sleeps, and there are no news.
    pub(crate) fn new() -> Signals {
        Signals {
            refused: AtomicU64::new(u64::MAX),
            sleepers: AtomicU32::new(0),
            news: AtomicU64::new(0),
        }
    }

    /// The start of a thread for the block at this place was refused.
    pub(crate) fn refuse(&self, place: u64) {
        self.refused.store(place, Ordering::SeqCst);
    }

    /// Whether the start of a thread for the block at this place was refused.
    pub(crate) fn is_refused(&self, place: u64) -> bool {
        self.refused.load(Ordering::SeqCst) == place
    }

    /// A number that is another one once those who sleep were woken.
    pub(crate) fn news(&self) -> u32 {
        (self.news.load(Ordering::SeqCst) & 0xFFFF_FFFF) as u32
    }

    /// Letters may have been posted: wakes the threads that sleep.
    pub(crate) fn wake(&self) {
        if self.sleepers.load(Ordering::SeqCst) > 0 {
            self.news.fetch_add(1, Ordering::SeqCst);
            self.news.wake_all();
        }
    }

    /// Sleeps until it is woken, unless that was done since this number was the news.
    pub(crate) fn sleep<R: Wait>(&self, rt: &R, news: u32) {
        self.sleepers.fetch_add(1, Ordering::SeqCst);
        let longest = Duration::from_micros(LONGEST_SLEEP);
        self.news.park_timeout(rt, news, longest);
        self.sleepers.fetch_sub(1, Ordering::SeqCst);
    }
}
