//! A run of a search, whole.

ghost use Rattle.std.specs.Prelude.{◌≡◌, ◌+◌, ◌^◌, ◌≤◌, ◌<◌, [], ℕ, List, Option, Some, None, IfSome, IfNone, Bool};
ghost use Rattle.dp_outside.specs.Outside.{Rose};
ghost use Rattle.dp_steps.specs.States.{Base, Inner};
ghost use Rattle.cost_laws.specs.Orders.{InWideRange};
ghost use Rattle.dp_model.specs.Costs.{InRange};
ghost use Rattle.dp_model.specs.declared.answers.Found.{Found};
ghost use Rattle.dp_model.specs.declared.answers.Options.{Options};
ghost use Rattle.board_words.specs.Rules.{IsWhole};
ghost use Rattle.board_words.specs.Seats.{BoardFacts, SeatFacts, IsSeatOf};
ghost use Rattle.board_words.specs.Steps.{best_known};
ghost use Rattle.pass_ends.specs.Ends.{IsPassEnd};
ghost use Rattle.pass_ends.specs.Passes.{AreOptions, pass_of};
ghost use Rattle.pass_over.specs.Announcements.{HasRefused};
ghost use Rattle.run_ends.specs.Claims.{solved_by as solved};
ghost use Rattle.solve_passes.specs.Announcing.{IsMade, IsNextMade};
ghost use Rattle.solve_passes.specs.Ongoing as ongoing;
ghost use Rattle.solve_passes.specs.Records.{Ended};
ghost use Rattle.solve_passes.specs.Ongoing.{Concluded, HasWord, HistoryOf, IsFollowed, IsImproved, IsOngoing, IsTold, LosesNothing, going_on, halt_ending, halt_in, held_cost, printed_bound, rest_text, tally_in, verdict_of};

use crate::alone::solve_alone;
use crate::made::{Made, announces, made_by, made_silently};
use crate::progress::{Counts, Printing, Progress, Tally, add_pass, put_bound_line, put_found};
use crate::turns::turn_after;
use board_words::{Board, BoardSeat};
use cost_laws::NO_INCUMBENT;
use dp_model::{Cause, FaultAt, FaultKind, Found, Model, Options, Seq, Spot, Verdict};
use dp_outside::{Gate, Sink};
use pass_ends::PassEnd;
use pass_run::{run_pass, run_pass_announced, start_at};
use run_ends::{Solved, Status, conclude, run_out, solved_by};
use std::alloc::Global;
use std::sync::Wait;
use std::thread::Threads;
use successors::{ExpandEnd, Start};
use width_loop::{GapSummary, Schedule, Turn};

/// The cost of the solution that is held.
pub(crate) fn cost_of(held: &Option<Found>) -> Option<i64>
    ensures { result ≡ held_cost held.now }
{
    match held {
        Some(found) => Some(found.cost),
        None => None,
    }
}

/// What follows a pass that was closed: the next one, with a greater share, or a verdict. Answers the status if the run is over.
fn after_closed<S: Sink>(
    out: &mut S,
    model: &Model,
    printing: Printing,
    progress: &mut Progress,
    dropped: u64,
    least_floor: Option<i64>,
) -> Option<Status>
    requires share { progress.old.schedule.share < 4611686018427387904 }
    requires floor { IfSome least_floor InWideRange }
    requires held { HasWord progress.old.held }
    requires bound { IfSome progress.old.bound InWideRange }
    ensures goes_on { IfNone result ((0 < dropped) × (progress.new ≡ going_on model.now dropped least_floor progress.old) × (S.taken out.new ≡ S.taken out.old)) }
    ensures ends { IfSome result (λ status. LosesNothing model.now dropped least_floor progress.old.held
        × IsTold printing model.now (S.taken out.old) (S.taken out.new) status None (Ended (verdict_of progress.old.held)) × (progress.new.held ≡ progress.old.held)) }
    ensures failed { result ≡ Some Status.WriteFault → Rose (S.faults out.old) (S.faults out.new) }
    ensures count { S.faults out.old ≤ S.faults out.new }
{
    let best = cost_of(&progress.held);
    let summary = GapSummary {
        dropped,
        least_floor,
        best,
    };
    match turn_after(model, progress, &summary) {
        Turn::Go(_) => None,
        Turn::Optimal(cost) => Some(conclude(out, model, &Verdict::Optimal(cost))),
        Turn::Infeasible => Some(conclude(out, model, &Verdict::Infeasible)),
    }
}

/// Ends a run whose visits reached the budget, with the bound that its passes have proved.
fn stop<S: Sink>(
    out: &mut S,
    model: &Model,
    printing: Printing,
    visited: u64,
    bound: Option<i64>,
) -> Status
    ensures told { IsTold printing model.now (S.taken out.old) (S.taken out.new) result bound (Ended (Verdict.Stopped visited)) }
    ensures failed { result ≡ Status.WriteFault → Rose (S.faults out.old) (S.faults out.new) }
    ensures count { S.faults out.old ≤ S.faults out.new }
{
    if put_bound_line(out, printing, bound).is_err() {
        return Status::WriteFault;
    }
    conclude(out, model, &Verdict::Stopped(visited))
}

/// Ends a run of so many visits, whose last pass was halted.
fn after_halt<S: Sink>(
    out: &mut S,
    model: &Model,
    printing: Printing,
    visited: u64,
    bound: Option<i64>,
    cause: Cause,
) -> Status
    ensures told { IsTold printing model.now (S.taken out.old) (S.taken out.new) result (printed_bound (Some cause) bound) (halt_ending visited cause) }
    ensures failed { result ≡ Status.WriteFault → Rose (S.faults out.old) (S.faults out.new) }
    ensures count { S.faults out.old ≤ S.faults out.new }
{
    match cause {
        Cause::Budget => stop(out, model, printing, visited, bound),
        Cause::Fault(fault) => conclude(out, model, &Verdict::Fault(fault)),
        Cause::Memory => run_out(out),
    }
}

/// The best floor of the dropped nodes, where the gap is asked for.
fn floor_for(gap: bool, least_floor: Option<i64>) -> Option<i64>
    ensures { result ≡ ongoing.floor_for gap least_floor }
{
    if gap { least_floor } else { None }
}

/// What the shards of a pass did, and why it was halted, if it was.
fn parts_of(end: PassEnd, gap: bool) -> (Tally, Option<Cause>)
    ensures tally { result.0 ≡ tally_in gap end }
    ensures halt { result.1 ≡ halt_in end }
    ensures few { result.0.dropped < 2 ^ 64 }
{
    match end {
        PassEnd::Closed {
            visited,
            dropped,
            least_floor,
            best,
        } => (
            Tally {
                visited,
                dropped,
                least_floor: floor_for(gap, least_floor),
                best,
            },
            None,
        ),
        PassEnd::Halted {
            cause,
            visited,
            dropped,
            best,
        } => (
            Tally {
                visited,
                dropped,
                least_floor: None,
                best,
            },
            Some(cause),
        ),
    }
}

/// Prints a pass, and how the run ended if the pass was the last: it was halted, or lost nothing. Answers the status if the run
/// is over.
fn after_pass<S: Sink>(
    out: &mut S,
    model: &Model,
    printing: Printing,
    progress: &mut Progress,
    counts: Option<Counts>,
    tally: Tally,
    halt: Option<Cause>,
) -> Option<Status>
    requires few { progress.old.passes ≤ 56 }
    requires fits { progress.old.visited + tally.visited ≤ 2 ^ 41 }
    requires share { progress.old.schedule.share < 4611686018427387904 }
    requires held { HasWord progress.old.held }
    requires bound { IfSome progress.old.bound InWideRange }
    requires best { HasWord tally.best }
    requires floor { IfSome tally.least_floor InWideRange }
    ensures followed { (found : Option Found) × IsImproved model.now progress.old.held tally.best found
        × IsFollowed (rest_text printing model.now progress.old counts found tally.visited tally.dropped) printing model.now (S.taken out.old) (S.taken out.new) progress.old progress.new tally halt found result }
    ensures failed { result ≡ Some Status.WriteFault → Rose (S.faults out.old) (S.faults out.new) }
    ensures count { S.faults out.old ≤ S.faults out.new }
{
    let dropped = tally.dropped;
    let least_floor = tally.least_floor;
    if add_pass(out, model, printing, progress, counts, tally).is_err() {
        return Some(Status::WriteFault);
    }
    match halt {
        Some(cause) => Some(after_halt(
            out,
            model,
            printing,
            progress.visited,
            progress.bound,
            cause,
        )),
        None => after_closed(out, model, printing, progress, dropped, least_floor),
    }
}

/// What follows a pass that was made: it is printed, counted, and its solution kept. Answers the status if the run is over.
pub(crate) fn follow<S: Sink>(
    out: &mut S,
    model: &Model,
    gap: bool,
    printing: Printing,
    progress: &mut Progress,
    made: Made,
) -> Option<Status>
    requires { (options : Options) × (board : BoardFacts) × (was : SeatFacts) × (now : SeatFacts) × (text : Option (List ℕ)) × (faults : ℕ) × IsNextMade model.now options board printing progress.old was now text (S.taken out.old) faults (S.faults out.old) made }
    ensures goes_on { (options : Options) (board : BoardFacts) (was now : SeatFacts) (text : Option (List ℕ)) (faults : ℕ) → IsNextMade model.now options board printing progress.old was now text (S.taken out.old) faults (S.faults out.old) made
        → IfNone result (IsOngoing model.now options board progress.new now × (progress.old.passes < progress.new.passes)) }
    ensures history { (options : Options) (board : BoardFacts) (was now : SeatFacts) (text : Option (List ℕ)) (faults : ℕ) → IsNextMade model.now options board printing progress.old was now text (S.taken out.old) faults (S.faults out.old) made
        → IfNone result ((before : Option (List ℕ)) → HistoryOf model.now options gap printing before text progress.old → HistoryOf model.now options gap printing before (S.taken out.new) progress.new) }
    ensures ends { (options : Options) (board : BoardFacts) (was now : SeatFacts) (text : Option (List ℕ)) (faults : ℕ) → IsNextMade model.now options board printing progress.old was now text (S.taken out.old) faults (S.faults out.old) made
        → IfSome result (λ status. (before : Option (List ℕ)) → HistoryOf model.now options gap printing before text progress.old → Concluded model.now options gap printing before (S.taken out.new) (solved status progress.new.held)) }
    ensures failed { (options : Options) (board : BoardFacts) (was now : SeatFacts) (text : Option (List ℕ)) (faults : ℕ) → IsNextMade model.now options board printing progress.old was now text (S.taken out.old) faults (S.faults out.old) made
        → result ≡ Some Status.WriteFault → Rose faults (S.faults out.new) }
    ensures count { (options : Options) (board : BoardFacts) (was now : SeatFacts) (text : Option (List ℕ)) (faults : ℕ) → IsNextMade model.now options board printing progress.old was now text (S.taken out.old) faults (S.faults out.old) made
        → faults ≤ S.faults out.new }
{
    let Made {
        end,
        counts,
        failed,
    } = made;
    if failed {
        return Some(Status::WriteFault);
    }
    let (tally, halt) = parts_of(end, gap);
    after_pass(out, model, printing, progress, counts, tally, halt)
}

/// Makes a pass, which announces costs where these are printed. The last cost before it is that of the solution that is held.
fn run_announced<R: Threads + Wait + Sync, S: Sink, G: Gate>(
    rt: &R,
    alloc: Global,
    out: &mut S,
    model: &Model,
    options: &Options,
    printing: Printing,
    share: u64,
    last: Option<i64>,
    board: &Board,
    seat: &mut BoardSeat,
    gate: &G,
) -> Made
    requires inner { Inner model.now model.now.target }
    requires share { 1 ≤ share }
    requires options { AreOptions options.now }
    requires seat { IsSeatOf board.now seat.old }
    requires whole { IsWhole seat.old.view }
    requires no_halt { seat.old.view.raised ≡ 0 }
    requires drawn { seat.old.view.drawn ≤ 2 ^ 41 }
    requires limit { board.now.limit ≡ options.now.budget }
    ensures seat { IsSeatOf board.now seat.new }
    ensures whole { IsWhole seat.new.view }
    ensures answer { (some : 1 ≤ options.now.workers) → IsPassEnd (pass_of model.now options.now share some) seat.old.view seat.new.view result.end }
    ensures refused { (some : 1 ≤ options.now.workers) → IfSome result.counts (λ c. HasRefused (pass_of model.now options.now share some) c.refused) }
    ensures announced { IsMade model.now printing last (best_known seat.old.view) (best_known seat.new.view) (S.taken out.old) (S.taken out.new) (S.faults out.old) (S.faults out.new) result }
{
    if announces(printing) {
        let ended = run_pass_announced(
            rt, alloc, model, options, share, board, seat, gate, out, last,
        );
        return made_by(ended);
    }
    let end = run_pass(rt, alloc, model, options, share, board, seat, gate);
    made_silently(end)
}

/// Makes a pass. Answers the status if the run is over.
fn make_pass<R: Threads + Wait + Sync, S: Sink, G: Gate>(
    rt: &R,
    alloc: Global,
    out: &mut S,
    model: &Model,
    options: &Options,
    gap: bool,
    printing: Printing,
    progress: &mut Progress,
    board: &Board,
    seat: &mut BoardSeat,
    gate: &G,
) -> Option<Status>
    requires inner { Inner model.now model.now.target }
    requires options { AreOptions options.now }
    requires ongoing { IsOngoing model.now options.now board.now progress.old seat.old }
    ensures goes_on { IfNone result (IsOngoing model.now options.now board.now progress.new seat.new × (progress.old.passes < progress.new.passes)) }
    ensures history { IfNone result ((before : Option (List ℕ)) → HistoryOf model.now options.now gap printing before (S.taken out.old) progress.old → HistoryOf model.now options.now gap printing before (S.taken out.new) progress.new) }
    ensures ends { IfSome result (λ status. (before : Option (List ℕ)) → HistoryOf model.now options.now gap printing before (S.taken out.old) progress.old → Concluded model.now options.now gap printing before (S.taken out.new) (solved status progress.new.held)) }
    ensures failed { result ≡ Some Status.WriteFault → Rose (S.faults out.old) (S.faults out.new) }
    ensures count { S.faults out.old ≤ S.faults out.new }
{
    let share = progress.schedule.share;
    let last = cost_of(&progress.held);
    let made = run_announced(
        rt, alloc, out, model, options, printing, share, last, board, seat, gate,
    );
    follow(out, model, gap, printing, progress, made)
}

/// Makes passes until one of them ends the run.
fn make_passes<R: Threads + Wait + Sync, S: Sink, G: Gate>(
    rt: &R,
    alloc: Global,
    out: &mut S,
    model: &Model,
    options: &Options,
    gap: bool,
    printing: Printing,
    board: &Board,
    seat: &mut BoardSeat,
    gate: &G,
) -> Solved
    requires inner { Inner model.now model.now.target }
    requires options { AreOptions options.now }
    requires begun { IsOngoing model.now options.now board.now (record { passes = 0; schedule = record { share = 1 }; visited = 0; held = None; bound = None }) seat.old }
    ensures concluded { Concluded model.now options.now gap printing (S.taken out.old) (S.taken out.new) result }
    ensures failed { result.status ≡ Status.WriteFault → Rose (S.faults out.old) (S.faults out.new) }
    ensures count { S.faults out.old ≤ S.faults out.new }
{
    let mut progress = Progress {
        passes: 0,
        schedule: Schedule::new(),
        visited: 0,
        held: None,
        bound: None,
    };
    'passes: loop {
        if let Some(status) = make_pass(
            rt,
            alloc,
            out,
            model,
            options,
            gap,
            printing,
            &mut progress,
            board,
            seat,
            gate,
        ) {
            let Progress { held, .. } = progress;
            return solved_by(status, held);
        }
    }
}

/// Searches a model whose target is an inner state.
fn search<R: Threads + Wait + Sync, S: Sink, G: Gate>(
    rt: &R,
    alloc: Global,
    out: &mut S,
    model: &Model,
    options: &Options,
    gap: bool,
    printing: Printing,
    gate: &G,
) -> Solved
    requires inner { Inner model.now model.now.target }
    requires options { AreOptions options.now }
    ensures concluded { Concluded model.now options.now gap printing (S.taken out.old) (S.taken out.new) result }
    ensures failed { result.status ≡ Status.WriteFault → Rose (S.faults out.old) (S.faults out.new) }
    ensures count { S.faults out.old ≤ S.faults out.new }
{
    match Board::new(alloc, NO_INCUMBENT, options.budget()) {
        Ok((board, mut seat)) => make_passes(
            rt, alloc, out, model, options, gap, printing, &board, &mut seat, gate,
        ),
        Err(_) => solved_by(run_out(out), None),
    }
}

/// Prints the solution without steps, and that it is optimal.
fn conclude_at_target<S: Sink>(
    alloc: Global,
    out: &mut S,
    model: &Model,
    printing: Printing,
    cost: i64,
) -> Solved
    requires base { Base model.now model.now.target cost }
    requires range { InRange cost }
    ensures concluded { (options : Options) (gap : Bool) → Concluded model.now options gap printing (S.taken out.old) (S.taken out.new) result }
    ensures failed { result.status ≡ Status.WriteFault → Rose (S.faults out.old) (S.faults out.new) }
    ensures count { S.faults out.old ≤ S.faults out.new }
{
    let found = Some(Found {
        cost,
        steps: Seq::of(Vec::new(alloc)),
    });
    if put_found(out, model, printing, &found).is_err() {
        return solved_by(Status::WriteFault, None);
    }
    solved_by(conclude(out, model, &Verdict::Optimal(cost)), found)
}

/// The verdict that the target meets a fault.
fn fault_at_target(alloc: Global, spot: Spot, kind: FaultKind) -> Verdict
    ensures { result ≡ Verdict.Fault (record { steps = []; spot = spot; kind = kind }) }
{
    Verdict::Fault(FaultAt {
        steps: Seq::of(Vec::new(alloc)),
        spot,
        kind,
    })
}

/// Ends a run whose target is no inner state, or meets a fault. `None` where the target is an inner state, and a search is to be made.
pub(crate) fn solve_at_target<S: Sink>(
    alloc: Global,
    out: &mut S,
    model: &Model,
    options: &Options,
    printing: Printing,
) -> Option<Solved>
    ensures inner { IfNone result (Inner model.now model.now.target × (out.new ≡ out.old)) }
    ensures concluded { (gap : Bool) → IfSome result (Concluded model.now options.now gap printing (S.taken out.old) (S.taken out.new)) }
    ensures failed { IfSome result (λ s. s.status ≡ Status.WriteFault → Rose (S.faults out.old) (S.faults out.new)) }
    ensures count { S.faults out.old ≤ S.faults out.new }
{
    match start_at(alloc, model, options.prune()) {
        Ok(Start::Open(_)) => None,
        Ok(Start::Base(cost)) => Some(conclude_at_target(alloc, out, model, printing, cost)),
        Ok(Start::NotAllowed) => Some(solved_by(conclude(out, model, &Verdict::Infeasible), None)),
        Err(ExpandEnd::Fault { spot, kind, .. }) => {
            let fault = fault_at_target(alloc, spot, kind);
            Some(solved_by(conclude(out, model, &fault), None))
        }
        Err(ExpandEnd::Memory) => Some(solved_by(run_out(out), None)),
    }
}

/// Solves a model: prints the record of the run, or of it the verdict alone, and answers the status, and what the run claims of all
/// legal lists. With `gap`, a run that is stopped prints a bound where its passes have proved one, and a run may end as optimal by
/// the floors of dropped nodes. With one worker this is `solve_alone`, which needs neither the handle nor the gate.
pub fn solve<R: Threads + Wait + Sync, S: Sink, G: Gate>(
    rt: &R,
    alloc: Global,
    out: &mut S,
    model: &Model,
    options: &Options,
    gap: bool,
    printing: Printing,
    gate: &G,
) -> Solved
    requires { AreOptions options.now }
    ensures concluded { Concluded model.now options.now gap printing (S.taken out.old) (S.taken out.new) result }
    ensures failed { result.status ≡ Status.WriteFault → Rose (S.faults out.old) (S.faults out.new) }
    ensures count { S.faults out.old ≤ S.faults out.new }
{
    if options.workers() == 1 {
        return solve_alone(alloc, out, model, options, gap, printing);
    }
    if let Some(solved) = solve_at_target(alloc, out, model, options, printing) {
        return solved;
    }
    search(rt, alloc, out, model, options, gap, printing, gate)
}
