//! A run with one worker, whole. It takes no handle, waits for nobody, and returns.

ghost use Rattle.std.specs.Prelude.{◌≡◌, ◌^◌, ◌≤◌, ◌<◌, ℕ, List, Option, Some, None, IfSome, IfNone};
ghost use Rattle.board_words.specs.Rules.{IsWhole};
ghost use Rattle.board_words.specs.Seats.{IsSeatOf};
ghost use Rattle.board_words.specs.Steps.{best_known};
ghost use Rattle.dp_outside.specs.Outside.{Rose};
ghost use Rattle.dp_steps.specs.States.{Inner};
ghost use Rattle.pass_ends.specs.Ends.{IsPassEnd};
ghost use Rattle.pass_ends.specs.Passes.{AreOptions, pass_of};
ghost use Rattle.pass_over.specs.Announcements.{HasRefused};
ghost use Rattle.run_ends.specs.Claims.{solved_by as solved};
ghost use Rattle.solve_passes.specs.Announcing.{IsMade};
ghost use Rattle.solve_passes.specs.Ongoing.{Concluded, HistoryOf, IsOngoing};

use crate::made::{Made, announces, made_by, made_silently};
use crate::progress::{Printing, Progress};
use crate::solving::{cost_of, follow, solve_at_target};
use board_words::{Board, BoardSeat};
use cost_laws::NO_INCUMBENT;
use dp_model::{Model, Options};
use dp_outside::Sink;
use pass_alone::{run_pass_alone, run_pass_alone_announced};
use run_ends::{Solved, Status, run_out, solved_by};
use std::alloc::Global;
use width_loop::Schedule;

/// Makes a pass by one shard, which announces costs where these are printed. The last cost before it is that of the solution that is held.
fn run_alone<S: Sink>(
    alloc: Global,
    out: &mut S,
    model: &Model,
    options: &Options,
    printing: Printing,
    share: u64,
    last: Option<i64>,
    board: &Board,
    seat: &mut BoardSeat,
) -> Made
    requires inner { Inner model.now model.now.target }
    requires share { 1 ≤ share }
    requires options { AreOptions options.now }
    requires one { options.now.workers ≡ 1 }
    requires seat { IsSeatOf board.now seat.old }
    requires whole { IsWhole seat.old.view }
    requires no_halt { seat.old.view.raised ≡ 0 }
    requires drawn { seat.old.view.drawn ≤ 2 ^ 41 }
    requires limit { board.now.limit ≡ options.now.budget }
    ensures seat { IsSeatOf board.now seat.new }
    ensures whole { IsWhole seat.new.view }
    ensures answer { (some : 1 ≤ options.now.workers) → IsPassEnd (pass_of model.now options.now share some) seat.old.view seat.new.view result.end }
    ensures refused { (some : 1 ≤ options.now.workers) → IfSome result.counts (λ c. HasRefused (pass_of model.now options.now share some) c.refused) }
    ensures announced { IsMade model.now printing last (best_known seat.old.view) (best_known seat.new.view) (S.taken out.old) (S.taken out.new) (S.faults out.old) (S.faults out.new) result }
{
    if announces(printing) {
        let ended = run_pass_alone_announced(alloc, model, options, share, board, seat, out, last);
        return made_by(ended);
    }
    let end = run_pass_alone(alloc, model, options, share, board, seat);
    made_silently(end)
}

/// Makes a pass. Answers the status if the run is over.
fn make_pass_alone<S: Sink>(
    alloc: Global,
    out: &mut S,
    model: &Model,
    options: &Options,
    gap: bool,
    printing: Printing,
    progress: &mut Progress,
    board: &Board,
    seat: &mut BoardSeat,
) -> Option<Status>
    requires inner { Inner model.now model.now.target }
    requires options { AreOptions options.now }
    requires one { options.now.workers ≡ 1 }
    requires ongoing { IsOngoing model.now options.now board.now progress.old seat.old }
    ensures goes_on { IfNone result (IsOngoing model.now options.now board.now progress.new seat.new × (progress.old.passes < progress.new.passes)) }
    ensures history { IfNone result ((before : Option (List ℕ)) → HistoryOf model.now options.now gap printing before (S.taken out.old) progress.old → HistoryOf model.now options.now gap printing before (S.taken out.new) progress.new) }
    ensures ends { IfSome result (λ status. (before : Option (List ℕ)) → HistoryOf model.now options.now gap printing before (S.taken out.old) progress.old → Concluded model.now options.now gap printing before (S.taken out.new) (solved status progress.new.held)) }
    ensures failed { result ≡ Some Status.WriteFault → Rose (S.faults out.old) (S.faults out.new) }
    ensures count { S.faults out.old ≤ S.faults out.new }
{
    let share = progress.schedule.share;
    let last = cost_of(&progress.held);
    let made = run_alone(
        alloc, out, model, options, printing, share, last, board, seat,
    );
    follow(out, model, gap, printing, progress, made)
}

/// Makes passes until one of them ends the run.
fn make_passes_alone<S: Sink>(
    alloc: Global,
    out: &mut S,
    model: &Model,
    options: &Options,
    gap: bool,
    printing: Printing,
    board: &Board,
    seat: &mut BoardSeat,
) -> Solved
    requires inner { Inner model.now model.now.target }
    requires options { AreOptions options.now }
    requires one { options.now.workers ≡ 1 }
    requires begun { IsOngoing model.now options.now board.now (record { passes = 0; schedule = record { share = 1 }; visited = 0; held = None; bound = None }) seat.old }
    ensures concluded { Concluded model.now options.now gap printing (S.taken out.old) (S.taken out.new) result }
    ensures failed { result.status ≡ Status.WriteFault → Rose (S.faults out.old) (S.faults out.new) }
    ensures count { S.faults out.old ≤ S.faults out.new }
{
    let mut progress = Progress {
        passes: 0,
        schedule: Schedule::new(),
        visited: 0,
        held: None,
        bound: None,
    };
    'passes: loop {
        if let Some(status) = make_pass_alone(
            alloc,
            out,
            model,
            options,
            gap,
            printing,
            &mut progress,
            board,
            seat,
        ) {
            let Progress { held, .. } = progress;
            return solved_by(status, held);
        }
    }
}

/// Searches a model whose target is an inner state.
fn search_alone<S: Sink>(
    alloc: Global,
    out: &mut S,
    model: &Model,
    options: &Options,
    gap: bool,
    printing: Printing,
) -> Solved
    requires inner { Inner model.now model.now.target }
    requires options { AreOptions options.now }
    requires one { options.now.workers ≡ 1 }
    ensures concluded { Concluded model.now options.now gap printing (S.taken out.old) (S.taken out.new) result }
    ensures failed { result.status ≡ Status.WriteFault → Rose (S.faults out.old) (S.faults out.new) }
    ensures count { S.faults out.old ≤ S.faults out.new }
{
    match Board::new(alloc, NO_INCUMBENT, options.budget()) {
        Ok((board, mut seat)) => make_passes_alone(
            alloc, out, model, options, gap, printing, &board, &mut seat,
        ),
        Err(_) => solved_by(run_out(out), None),
    }
}

/// Solves a model as `solve` does, with one worker: it prints the same, and answers the same. The calling thread makes all of it: there
/// is no handle, it waits for nobody, and so it returns.
pub fn solve_alone<S: Sink>(
    alloc: Global,
    out: &mut S,
    model: &Model,
    options: &Options,
    gap: bool,
    printing: Printing,
) -> Solved
    requires options { AreOptions options.now }
    requires one { options.now.workers ≡ 1 }
    ensures concluded { Concluded model.now options.now gap printing (S.taken out.old) (S.taken out.new) result }
    ensures failed { result.status ≡ Status.WriteFault → Rose (S.faults out.old) (S.faults out.new) }
    ensures count { S.faults out.old ≤ S.faults out.new }
{
    if let Some(solved) = solve_at_target(alloc, out, model, options, printing) {
        return solved;
    }
    search_alone(alloc, out, model, options, gap, printing)
}
