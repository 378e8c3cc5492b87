//! What is printed of a run.

ghost use Rattle.std.specs.Prelude.{◌≡◌, ◌≤◌, ◌⊎◌};
ghost use Rattle.dp_outside.specs.Outside.{Rose, Takes, TakesFront};
ghost use Rattle.run_ends.specs.declared.status.Status.TheVariants as statuses;
ghost use Rattle.solve_report.specs.Puts.{Puts};
ghost use Rattle.solve_best.specs.Runs.{ending_of, run_of};
ghost use Rattle.solve_best.specs.Texts.{IsPrinted, ending_status, ending_text, found_text, front_text, searched_text};

use crate::runs::{Ending, Run};
use dp_model::{Found, Model};
use dp_outside::{Failed, Sink};
use run_ends::{Solved, Status, conclude, run_out, solved_by};
use solve_report::{put_searched, put_solution};

/// Prints the lines of a solution, if there is one.
fn put_found<S: Sink>(out: &mut S, model: &Model, found: &Option<Found>) -> Result<(), Failed>
    ensures { Puts (S.taken out.old) (S.taken out.new) (S.faults out.old) (S.faults out.new)
        (found_text model.now found.now) result }
{
    match found {
        Some(found) => put_solution(out, model, found),
        None => Ok(()),
    }
}

/// Prints how many nodes were visited, if a search was made.
fn put_visits<S: Sink>(out: &mut S, visited: Option<u64>) -> Result<(), Failed>
    ensures { Puts (S.taken out.old) (S.taken out.new) (S.faults out.old) (S.faults out.new)
        (searched_text visited) result }
{
    match visited {
        Some(visited) => put_searched(out, visited),
        None => Ok(()),
    }
}

/// Prints what stands before the end of a run.
fn put_front<S: Sink>(
    out: &mut S,
    model: &Model,
    found: &Option<Found>,
    visited: Option<u64>,
) -> Result<(), Failed>
    ensures { Puts (S.taken out.old) (S.taken out.new) (S.faults out.old) (S.faults out.new)
        (front_text model.now found.now visited) result }
{
    put_found(out, model, found)?;
    put_visits(out, visited)
}

/// Prints how a run ended, and answers its status, or that of a failed write.
fn put_ending<S: Sink>(out: &mut S, model: &Model, ending: &Ending) -> Status
    ensures printed { ((result ≡ ending_status (ending_of ending.now)) × Takes (S.taken out.old) (S.taken out.new) (ending_text model.now (ending_of ending.now)))
        ⊎ ((result ≡ statuses.WriteFault) × TakesFront (S.taken out.old) (S.taken out.new) (ending_text model.now (ending_of ending.now))) }
    ensures failed { result ≡ statuses.WriteFault → Rose (S.faults out.old) (S.faults out.new) }
    ensures count { S.faults out.old ≤ S.faults out.new }
{
    match ending {
        Ending::Ended(verdict) => conclude(out, model, verdict),
        Ending::OutOfMemory => run_out(out),
    }
}

/// Prints a run, and answers its status, and what it claims of all legal lists.
pub(crate) fn put_run<S: Sink>(out: &mut S, model: &Model, run: Run) -> Solved
    ensures printed { IsPrinted model.now (run_of run) (S.taken out.old) (S.taken out.new) result }
    ensures failed { result.status ≡ statuses.WriteFault → Rose (S.faults out.old) (S.faults out.new) }
    ensures count { S.faults out.old ≤ S.faults out.new }
{
    let Run {
        found,
        visited,
        ending,
    } = run;
    if put_front(out, model, &found, visited).is_err() {
        return solved_by(Status::WriteFault, None);
    }
    solved_by(put_ending(out, model, &ending), found)
}
