//! The log of one shard.

ghost use Rattle.std.specs.Prelude.{◌≡◌, ◌<◌, [], ◌∷◌, ◌++◌, length, slice_get, IfOk, OnOk, OnErr};
ghost use Rattle.path_log.specs.Paths.{entry};

use crate::step::Step;
use std::alloc::{AllocError, Global};
use std::marker::Model;

/// Where a step stands: in which shard's log, and at which place there, from 0 on.
#[derive(Clone, Copy, Debug, PartialEq, Eq)]
pub struct StepId {
    pub shard: u32,
    pub place: u64,
}

/// A step: the one before it, and the ground transition that led on from there. The target's entry has no parent, and
/// its transition says nothing.
#[derive(Clone, Copy, Debug, PartialEq, Eq)]
pub struct Entry {
    pub parent: Option<StepId>,
    pub transition: u32,
}

/// The steps of one shard, in the order in which they were pushed. A log only grows, so a step keeps its place.
#[derive(Drop)]
pub struct PathLog {
    shard: u32,
    entries: Vec<Step>,
}

impl Model for PathLog {
    ghost use Rattle.path_log.specs.Paths.{Log};

    ghost Value = { Log };

    ghost view = { λ log. record { shard = log.shard; entries = log.entries.items } };
}

impl PathLog {
    /// The log of a shard, without steps. It takes no memory.
    pub fn new(alloc: Global, shard: u32) -> PathLog
        ensures { result ≡ record { shard = shard; entries = [] } }
    {
        PathLog {
            shard,
            entries: Vec::new(alloc),
        }
    }

    /// Adds a step at the end, and answers where it stands. No log is so long that a parent could stand at the place 2^64 - 1;
    /// with such a parent it answers `AllocError`.
    pub fn push(&mut self, parent: Option<StepId>, transition: u32) -> Result<StepId, AllocError>
        ensures added { OnOk result (self.new ≡ record { shard = self.old.shard; entries = self.old.entries ++ entry parent transition ∷ [] }) }
        ensures id { IfOk result (λ id. id ≡ record { shard = self.old.shard; place = length self.old.entries }) }
        ensures err { OnErr result (self.new ≡ self.old) }
    {
        let place = self.entries.len() as u64;
        let step = Step::of(parent, transition).ok_or(AllocError)?;
        self.entries.push(step)?;
        Ok(StepId {
            shard: self.shard,
            place,
        })
    }

    // the step at a place
    pub(crate) fn entry(&self, place: u64) -> Entry
        requires { place < length self.now.entries }
        ensures { slice_get self.now.entries place ≡ Some result }
    {
        self.entries[place as usize].entry()
    }
}
