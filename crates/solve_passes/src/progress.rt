//! How far a run has come, and what it prints of each pass.

ghost use Rattle.std.specs.Prelude.{◌≡◌, ◌≤◌, ◌+◌, ◌^◌, IsTrue, ◌↔◌, Option, OnOk, OnErr};
ghost use Rattle.dp_model.specs.declared.answers.Found.{Found};
ghost use Rattle.dp_model.specs.Costs.{IsBetter};
ghost use Rattle.dp_model.specs.declared.whole.Model.{Model};
ghost use Rattle.solve_report.specs.Puts.{Puts};
ghost use Rattle.solve_passes.specs.Records.{bound_text, found_text};
ghost use Rattle.solve_passes.specs.Ongoing.{IsImproved, counts_text, pass_line_text, progress_after, rest_text};

use dp_model::{Found, Model};
use dp_outside::{Failed, Sink};
use solve_report::{put_announced, put_bound, put_pass, put_solution};
use width_loop::Schedule;

/// What is printed of a run: its solutions, passes and verdict, and where `announce` is on the costs that its passes announce; or its
/// verdict alone.
#[derive(Clone, Copy, Debug, PartialEq, Eq)]
pub enum Printing {
    All { announce: bool },
    VerdictAlone,
}

/// How many costs a pass announced, and how often a shard found no room for one.
#[derive(Clone, Copy, Debug, PartialEq, Eq)]
pub struct Counts {
    pub announced: u64,
    pub refused: u64,
}

/// How far a run has come: the passes made, the share of the next one, the visits of all passes, the best solution, and the
/// bound that the passes have proved.
#[derive(Debug, Drop)]
pub struct Progress {
    pub passes: u32,
    pub schedule: Schedule,
    pub visited: u64,
    pub held: Option<Found>,
    /// `None` where the gap is not asked for, or no pass has proved one.
    pub bound: Option<i64>,
}

/// What the shards of a pass did: how many nodes they visited and dropped, and the best solution that they hold.
#[derive(Debug, Drop)]
pub struct Tally {
    pub visited: u64,
    pub dropped: u64,
    /// The best floor of the dropped nodes; `None` where the gap is not asked for.
    pub least_floor: Option<i64>,
    pub best: Option<Found>,
}

/// Whether a cost is strictly better than another.
fn is_better(model: &Model, cost: i64, other: i64) -> bool
    ensures { IsTrue result ↔ IsBetter model.now.minimize cost other }
{
    if model.minimize() {
        cost < other
    } else {
        other < cost
    }
}

/// The best solution of a pass, if it is strictly better than the held one.
fn improved(model: &Model, held: &Option<Found>, best: Option<Found>) -> Option<Found>
    ensures { IsImproved model.now held.now best result }
{
    let found = best?;
    match held {
        Some(held) if !is_better(model, found.cost, held.cost) => None,
        _ => Some(found),
    }
}

/// Prints the lines of a solution, if there is one and not the verdict alone is printed.
pub(crate) fn put_found<S: Sink>(
    out: &mut S,
    model: &Model,
    printing: Printing,
    found: &Option<Found>,
) -> Result<(), Failed>
    ensures { Puts (S.taken out.old) (S.taken out.new) (S.faults out.old) (S.faults out.new)
        (found_text printing model.now found.now) result }
{
    match (printing, found) {
        (Printing::All { .. }, Some(found)) => put_solution(out, model, found),
        _ => Ok(()),
    }
}

/// Prints the line of a bound, if there is one and not the verdict alone is printed.
pub(crate) fn put_bound_line<S: Sink>(
    out: &mut S,
    printing: Printing,
    bound: Option<i64>,
) -> Result<(), Failed>
    ensures { Puts (S.taken out.old) (S.taken out.new) (S.faults out.old) (S.faults out.new)
        (bound_text bound printing) result }
{
    match (printing, bound) {
        (Printing::All { .. }, Some(bound)) => put_bound(out, bound),
        _ => Ok(()),
    }
}

/// Prints the line of the announced costs of a pass, if they are counted and not the verdict alone is printed.
fn put_counts<S: Sink>(
    out: &mut S,
    printing: Printing,
    counts: Option<Counts>,
) -> Result<(), Failed>
    ensures { Puts (S.taken out.old) (S.taken out.new) (S.faults out.old) (S.faults out.new)
        (counts_text printing counts) result }
{
    match (printing, counts) {
        (Printing::All { .. }, Some(counts)) => {
            put_announced(out, counts.announced, counts.refused)
        }
        _ => Ok(()),
    }
}

/// Prints the line of a pass, if not the verdict alone is printed.
fn put_pass_line<S: Sink>(
    out: &mut S,
    printing: Printing,
    progress: &Progress,
    visited: u64,
    dropped: u64,
) -> Result<(), Failed>
    requires { progress.now.passes ≤ 56 }
    ensures { Puts (S.taken out.old) (S.taken out.new) (S.faults out.old) (S.faults out.new)
        (pass_line_text printing progress.now visited dropped) result }
{
    match printing {
        Printing::All { .. } => put_pass(
            out,
            progress.passes + 1,
            progress.schedule.share,
            visited,
            dropped,
        ),
        Printing::VerdictAlone => Ok(()),
    }
}

/// Prints the solution of a pass, if it found a better one, then how much it announced, if this is counted, and the pass.
fn put_pass_lines<S: Sink>(
    out: &mut S,
    model: &Model,
    printing: Printing,
    progress: &Progress,
    counts: Option<Counts>,
    found: &Option<Found>,
    visited: u64,
    dropped: u64,
) -> Result<(), Failed>
    requires { progress.now.passes ≤ 56 }
    ensures { Puts (S.taken out.old) (S.taken out.new) (S.faults out.old) (S.faults out.new)
        (rest_text printing model.now progress.now counts found.now visited dropped) result }
{
    put_found(out, model, printing, found)?;
    put_counts(out, printing, counts)?;
    put_pass_line(out, printing, progress, visited, dropped)
}

/// Prints a pass, what it announced excepted, counts it, and keeps its solution if it found a better one. Where a write fails the
/// progress stays.
pub(crate) fn add_pass<S: Sink>(
    out: &mut S,
    model: &Model,
    printing: Printing,
    progress: &mut Progress,
    counts: Option<Counts>,
    tally: Tally,
) -> Result<(), Failed>
    requires few { progress.old.passes ≤ 56 }
    requires fits { progress.old.visited + tally.visited ≤ 2 ^ 41 }
    ensures { (found : Option Found) × IsImproved model.now progress.old.held tally.best found
        × Puts (S.taken out.old) (S.taken out.new) (S.faults out.old) (S.faults out.new)
        (rest_text printing model.now progress.old counts found tally.visited tally.dropped) result
        × OnOk result (progress.new ≡ progress_after progress.old found tally.visited) × OnErr result (progress.new ≡ progress.old) }
{
    let Tally {
        visited,
        dropped,
        least_floor: _,
        best,
    } = tally;
    let found = improved(model, &progress.held, best);
    put_pass_lines(
        out, model, printing, progress, counts, &found, visited, dropped,
    )?;
    progress.passes += 1;
    progress.visited += visited;
    if found.is_some() {
        progress.held = found;
    }
    Ok(())
}
