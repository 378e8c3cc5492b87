//! The replay of a list of steps, as a verdict.

ghost use Rattle.std.specs.Prelude.{◌≡◌, ◌<◌, ◌^◌, length, take, IfOk};
ghost use Rattle.replay_list.specs.Replays.{replayed};
ghost use Rattle.solve_top.specs.Outcomes.{replay_verdict};

use dp_model::{FaultAt, Model, Seq, Verdict};
use replay_list::{Replayed, replay};
use std::alloc::{AllocError, Global};

/// The first steps of a list, of which there are at least so many.
fn first_steps(steps: Seq<u32>, count: u32) -> Seq<u32>
    ensures { result ≡ take count steps }
{
    let mut steps = steps.into_list();
    steps.truncate(count as usize);
    Seq::of(steps)
}

/// The verdict on a list, of which this was told: a fault stands behind the steps that were done before it.
fn verdict_of(steps: Seq<u32>, told: Replayed) -> Verdict
    ensures { result ≡ replay_verdict steps told }
{
    match told {
        Replayed::Legal { cost } => Verdict::Legal(cost),
        Replayed::Illegal { step, reason } => Verdict::Illegal(step, reason),
        Replayed::Faulted { step, spot, kind } => Verdict::Fault(FaultAt {
            steps: first_steps(steps, step),
            spot,
            kind,
        }),
    }
}

/// The verdict of the replay of a list.
pub fn verdict_on(alloc: Global, model: &Model, steps: Seq<u32>) -> Result<Verdict, AllocError>
    requires { length steps < 2 ^ 32 }
    ensures { IfOk result (λ verdict. verdict ≡ replay_verdict steps (replayed model.now steps)) }
{
    let told = replay(alloc, model, &steps)?;
    Ok(verdict_of(steps, told))
}
