//! A step as its log keeps it.

ghost use Rattle.std.specs.Prelude.{◌≡◌, IfSome, IfNone};
ghost use Rattle.path_log.specs.Paths.{entry};
ghost use Rattle.path_log.specs.declared.logs.StepId.{StepId};

use crate::logs::{Entry, StepId};
use std::marker::Model;

// The place of no step, since no log is so long. It stands where there is no parent.
const NO_PLACE: u64 = u64::MAX;

/// An entry in sixteen bytes, half of what an `Entry` takes. Contracts see it as the entry. Its parent is a place and a
/// shard; where there is none, these are `NO_PLACE` and 0.
#[derive(Drop)]
pub(crate) struct Step {
    place: u64,
    shard: u32,
    transition: u32,
}

const _: () = prove!(size_of::<Step>() == 16);

impl Model for Step {
    ghost use Rattle.path_log.specs.declared.logs.Entry.{Entry};

    ghost Value = { Entry };

    ghost use Rattle.path_log.specs.Kept.{parent_at};

    ghost view = { λ s. record { parent = parent_at s.place s.shard; transition = s.transition } };
}

impl Step {
    // The step with this parent. `None` where the parent is said to stand at `NO_PLACE`.
    #[inline(always)]
    pub(crate) fn of(parent: Option<StepId>, transition: u32) -> Option<Step>
        ensures kept { IfSome result (λ step. step ≡ entry parent transition) }
        ensures none { IfNone result ((id : StepId) × (parent ≡ Some id) × (id.place ≡ NO_PLACE)) }
    {
        match parent {
            None => Some(Step {
                place: NO_PLACE,
                shard: 0,
                transition,
            }),
            Some(id) if id.place == NO_PLACE => None,
            Some(id) => Some(Step {
                place: id.place,
                shard: id.shard,
                transition,
            }),
        }
    }

    // what the step was made of
    #[inline(always)]
    pub(crate) fn entry(&self) -> Entry
        ensures { result ≡ self.now }
    {
        Entry {
            parent: self.parent(),
            transition: self.transition,
        }
    }

    // the parent, where there is one
    #[inline(always)]
    fn parent(&self) -> Option<StepId>
        ensures { result ≡ self.now.parent }
    {
        if self.place == NO_PLACE {
            return None;
        }
        Some(StepId {
            shard: self.shard,
            place: self.place,
        })
    }
}
