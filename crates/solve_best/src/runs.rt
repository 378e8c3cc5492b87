//! What a run comes to, before any of it is printed.

ghost use Rattle.std.specs.Prelude.{◌≡◌};
ghost use Rattle.best_ledger.specs.Ends.{verdict_of as verdict_on};
ghost use Rattle.solve_best.specs.Runs as runs;

use best_first::BestEnd;
use dp_model::{Cause, Found, Verdict};

/// How a run ended.
#[derive(Debug, Drop)]
pub enum Ending {
    Ended(Verdict),
    OutOfMemory,
}

/// What a run found, how many nodes it visited, and how it ended.
#[derive(Debug, Drop)]
pub struct Run {
    pub found: Option<Found>,
    /// `None` where no search was made.
    pub visited: Option<u64>,
    pub ending: Ending,
}

/// A run that ends with this verdict before a search is made.
pub(crate) fn run_without_search(found: Option<Found>, verdict: Verdict) -> Run
    ensures { result ≡ record { found = found; visited = None; ending = Ending.Ended verdict } }
{
    Run {
        found,
        visited: None,
        ending: Ending::Ended(verdict),
    }
}

/// A run that memory ran out in before a search was made.
pub(crate) fn run_out_of_memory() -> Run
    ensures { result ≡ record { found = None; visited = None; ending = Ending.OutOfMemory } }
{
    Run {
        found: None,
        visited: None,
        ending: Ending::OutOfMemory,
    }
}

/// The verdict of a search that closed, with the best solution that it found.
fn verdict_of(best: &Option<Found>) -> Verdict
    ensures { result ≡ verdict_on best.now }
{
    match best {
        Some(found) => Verdict::Optimal(found.cost),
        None => Verdict::Infeasible,
    }
}

/// How a run ends whose search was halted after so many visits.
fn ending_after(cause: Cause, visited: u64) -> Ending
    ensures { result ≡ runs.ending_after cause visited }
{
    match cause {
        Cause::Budget => Ending::Ended(Verdict::Stopped(visited)),
        Cause::Fault(fault) => Ending::Ended(Verdict::Fault(fault)),
        Cause::Memory => Ending::OutOfMemory,
    }
}

/// The run whose search ended so.
pub(crate) fn run_after(end: BestEnd) -> Run
    ensures { result ≡ runs.run_after end }
{
    match end {
        BestEnd::Closed { visited, best } => Run {
            ending: Ending::Ended(verdict_of(&best)),
            found: best,
            visited: Some(visited),
        },
        BestEnd::Halted {
            cause,
            visited,
            best,
        } => Run {
            found: best,
            visited: Some(visited),
            ending: ending_after(cause, visited),
        },
    }
}
