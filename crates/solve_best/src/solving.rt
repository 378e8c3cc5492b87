//! A run of a best-first search, whole.

ghost use Rattle.std.specs.Prelude.{◌≡◌, ◌≤◌, IfNone, IfSome};
ghost use Rattle.dp_outside.specs.Outside.{Rose};
ghost use Rattle.dp_steps.specs.States.{Inner};
ghost use Rattle.pass_ends.specs.Passes.{AreOptions};
ghost use Rattle.run_ends.specs.declared.status.Status.TheVariants as statuses;
ghost use Rattle.solve_best.specs.Runs.{IsRight};
ghost use Rattle.solve_best.specs.Texts.{Concluded};

use crate::alone::solve_best_alone;
use crate::printing::put_run;
use crate::runs::{Run, run_after, run_out_of_memory, run_without_search};
use best_first::run_best;
use board_words::Board;
use cost_laws::NO_INCUMBENT;
use dp_model::{Model, Options, Verdict};
use dp_outside::{Gate, Sink};
use run_ends::Solved;
use solve_target::{AtTarget, look_at_target};
use std::alloc::{AllocError, Global};
use std::sync::Wait;
use std::thread::Threads;

/// The run of a model whose target is no inner state, or meets a fault. `None` where the target is an inner state, and a search is to be
/// made.
pub(crate) fn run_at_target(alloc: Global, model: &Model, options: &Options) -> Option<Run>
    ensures inner { IfNone result (Inner model.now model.now.target) }
    ensures right { IfSome result (IsRight model.now options.now) }
{
    match look_at_target(alloc, model, options.prune()) {
        Ok(AtTarget::Inner) => None,
        Ok(AtTarget::Base(found)) => {
            let verdict = Verdict::Optimal(found.cost);
            Some(run_without_search(Some(found), verdict))
        }
        Ok(AtTarget::NotAllowed) => Some(run_without_search(None, Verdict::Infeasible)),
        Ok(AtTarget::Fault(fault)) => Some(run_without_search(None, Verdict::Fault(fault))),
        Err(AllocError) => Some(run_out_of_memory()),
    }
}

/// Searches a model whose target is an inner state.
fn search<R: Threads + Wait + Sync, G: Gate>(
    rt: &R,
    alloc: Global,
    model: &Model,
    options: &Options,
    gate: &G,
) -> Run
    requires inner { Inner model.now model.now.target }
    requires options { AreOptions options.now }
    ensures { IsRight model.now options.now result }
{
    match Board::new(alloc, NO_INCUMBENT, options.budget()) {
        Ok((board, mut seat)) => {
            let end = run_best(rt, alloc, model, options, &board, &mut seat, gate);
            run_after(end)
        }
        Err(_) => run_out_of_memory(),
    }
}

/// What a search of the model comes to: at its target alone, or after a search from it.
fn run_of<R: Threads + Wait + Sync, G: Gate>(
    rt: &R,
    alloc: Global,
    model: &Model,
    options: &Options,
    gate: &G,
) -> Run
    requires { AreOptions options.now }
    ensures { IsRight model.now options.now result }
{
    if let Some(run) = run_at_target(alloc, model, options) {
        return run;
    }
    search(rt, alloc, model, options, gate)
}

/// Solves a model by a best-first search: prints the record of the run when the search has ended, and answers the status, and what
/// the run claims of all legal lists. `keep` of the options is not used: a node is covered by every node that is open or was
/// visited. With one worker this is `solve_best_alone`, which needs neither the handle nor the gate.
pub fn solve_best<R: Threads + Wait + Sync, S: Sink, G: Gate>(
    rt: &R,
    alloc: Global,
    out: &mut S,
    model: &Model,
    options: &Options,
    gate: &G,
) -> Solved
    requires { AreOptions options.now }
    ensures concluded { Concluded model.now options.now (S.taken out.old) (S.taken out.new) result }
    ensures failed { result.status ≡ statuses.WriteFault → Rose (S.faults out.old) (S.faults out.new) }
    ensures count { S.faults out.old ≤ S.faults out.new }
{
    if options.workers() == 1 {
        return solve_best_alone(alloc, out, model, options);
    }
    let run = run_of(rt, alloc, model, options, gate);
    put_run(out, model, run)
}
