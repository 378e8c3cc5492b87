//! How long a thread turns players that have nothing to do, before it sleeps.

use crate::player::Pulse;
use crate::signals::Signals;
use std::sync::Wait;

/// After so many turns in a row that did nothing, a thread sleeps.
const PATIENCE: u32 = 256;

/// How many more turns it takes when it wakes, before it sleeps again.
const AGAIN: u32 = 16;

/// Once in so many turns that may have posted letters, the threads that sleep are woken for these.
const AT_ONCE: u32 = 16;

impl Pulse {
    /// Of no player.
    pub(crate) fn none() -> Pulse {
        Pulse {
            waits: false,
            posts: 0,
            letters: 0,
        }
    }

    /// Of these players and one more.
    pub(crate) fn with(self, other: Pulse) -> Pulse {
        Pulse {
            waits: self.waits || other.waits,
            posts: self.posts.wrapping_add(other.posts),
            letters: self.letters.wrapping_add(other.letters),
        }
    }
}

/// How many turns in a row a thread did nothing. One that turns all players always finds something to do.
#[derive(Drop)]
pub(crate) struct Patience<'a> {
    signals: &'a Signals,
    last: Pulse,
    news: u32,
    idle: u32,
    busy: u32,
}

impl<'a> Patience<'a> {
    /// Of a thread that has taken no turn.
    pub(crate) fn new(signals: &'a Signals) -> Patience<'a> {
        Patience {
            signals,
            last: Pulse::none(),
            news: 0,
            idle: 0,
            busy: 0,
        }
    }

    /// After so many turns of the players, with their pulse.
    pub(crate) fn turned<R: Wait>(&mut self, rt: &R, pulse: Pulse, turns: u32) {
        let last = self.last;
        self.last = pulse;
        if last.waits || last.posts != pulse.posts {
            self.idle = 0;
            self.post(pulse.waits, turns);
        } else if last.letters != pulse.letters {
            self.idle = 0;
        } else {
            self.rest(rt, turns);
        }
    }

    /// When the players have ended.
    pub(crate) fn over(&self) {
        self.signals.wake();
    }

    // wakes the others for letters that may have been posted: at once where no more work waits, and else from time to time
    fn post(&mut self, more: bool, turns: u32) {
        self.busy = self.busy.saturating_add(turns);
        if !more || self.busy >= AT_ONCE {
            self.busy = 0;
            self.signals.wake();
        }
    }

    // sleeps after so many turns that did nothing, where there were no news since the one before this one
    fn rest<R: Wait>(&mut self, rt: &R, turns: u32) {
        self.idle = self.idle.saturating_add(turns);
        if self.idle >= PATIENCE {
            self.signals.sleep(rt, self.news);
            self.idle = PATIENCE - AGAIN;
        }
        self.news = self.signals.news();
    }
}
