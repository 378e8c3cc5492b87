//! What the calling thread of a pass does between its turns: it hears the costs that shards call, and announces them.

ghost use Rattle.pass_run.specs.Hearing.{Heard, Hears};

use announcer::{AnnounceQueue, Crier};
use announcing::{Told, look};
use dp_outside::Sink;
use shard_threads::Between;
use std::sync::Wait;

/// After so many announced costs no more are heard; no pass announces as many.
pub const MOST_HEARD: u64 = 1 << 62;

/// Hears the costs that are called to a queue, and announces them in a sink. It owns no memory, so that what its crier and its sink end as
/// is known when it is let go.
#[derive(Drop)]
pub struct Ear<'a, S: Sink> {
    pub queue: &'a AnnounceQueue,
    pub crier: &'a mut Crier,
    pub out: &'a mut S,
    pub told: Told,
    pub minimize: bool,
}

/// Hears the next cost, and looks at it. Answers whether there was one.
fn hear_next<'a, S: Sink, R: Wait>(rt: &R, ear: &mut Ear<'a, S>) -> bool
    requires { (h : Heard) × Hears S.taken S.faults h ear.old }
    ensures { (h : Heard) → Hears S.taken S.faults h ear.old → Hears S.taken S.faults h ear.new }
{
    if ear.told.count >= MOST_HEARD {
        return false;
    }
    let Some(cost) = ear.queue.cry(rt, ear.crier) else {
        return false;
    };
    look(ear.out, &mut ear.told, ear.minimize, cost);
    true
}

impl<'a, S: Sink> Between for Ear<'a, S> {
    ghost use Rattle.pass_run.specs.Hearing.{Heard, Hears};

    ghost Terms = { Heard };

    ghost keeps = { λ h ear. Hears S.taken S.faults h ear };

    fn step<R: Wait>(&mut self, rt: &R) {
        for _ in rt.forever() {
            if !hear_next(rt, self) {
                return;
            }
        }
        unreachable!()
    }
}
