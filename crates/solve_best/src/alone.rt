//! A run of a best-first search with one worker, whole. It takes no handle, waits for nobody, and returns.

ghost use Rattle.std.specs.Prelude.{◌≡◌, ◌≤◌};
ghost use Rattle.dp_outside.specs.Outside.{Rose};
ghost use Rattle.dp_steps.specs.States.{Inner};
ghost use Rattle.pass_ends.specs.Passes.{AreOptions};
ghost use Rattle.run_ends.specs.declared.status.Status.TheVariants as statuses;
ghost use Rattle.solve_best.specs.Runs.{IsRight};
ghost use Rattle.solve_best.specs.Texts.{Concluded};

use crate::printing::put_run;
use crate::runs::{Run, run_after, run_out_of_memory};
use crate::solving::run_at_target;
use best_alone::run_best_alone;
use board_words::Board;
use cost_laws::NO_INCUMBENT;
use dp_model::{Model, Options};
use dp_outside::Sink;
use run_ends::Solved;
use std::alloc::Global;

/// Searches a model whose target is an inner state.
fn search_alone(alloc: Global, model: &Model, options: &Options) -> Run
    requires inner { Inner model.now model.now.target }
    requires options { AreOptions options.now }
    requires one { options.now.workers ≡ 1 }
    ensures { IsRight model.now options.now result }
{
    match Board::new(alloc, NO_INCUMBENT, options.budget()) {
        Ok((board, mut seat)) => {
            let end = run_best_alone(alloc, model, options, &board, &mut seat);
            run_after(end)
        }
        Err(_) => run_out_of_memory(),
    }
}

/// What a search of the model comes to: at its target alone, or after a search from it.
fn run_alone(alloc: Global, model: &Model, options: &Options) -> Run
    requires options { AreOptions options.now }
    requires one { options.now.workers ≡ 1 }
    ensures { IsRight model.now options.now result }
{
    if let Some(run) = run_at_target(alloc, model, options) {
        return run;
    }
    search_alone(alloc, model, options)
}

/// Solves a model as `solve_best` does, with one worker: it prints the same, and answers the same. The calling thread makes all of it:
/// there is no handle, it waits for nobody, and so it returns.
pub fn solve_best_alone<S: Sink>(
    alloc: Global,
    out: &mut S,
    model: &Model,
    options: &Options,
) -> Solved
    requires options { AreOptions options.now }
    requires one { options.now.workers ≡ 1 }
    ensures concluded { Concluded model.now options.now (S.taken out.old) (S.taken out.new) result }
    ensures failed { result.status ≡ statuses.WriteFault → Rose (S.faults out.old) (S.faults out.new) }
    ensures count { S.faults out.old ≤ S.faults out.new }
{
    let run = run_alone(alloc, model, options);
    put_run(out, model, run)
}
