//! Guards of the definitions that a best-first search is promised by: what they say of runs and answers that are written out.
#![tactic(auto)]

ghost use Rattle.best_guards.specs.Runs.{LawWorkedRuns, LawWorkedWords};
ghost use Rattle.best_guards.specs.Ends.{LawWorkedClosed, LawWorkedHalted, LawWorkedBests};

/// Runs that end as optimal, infeasible, stopped and with a fault are right, and so is one that needs no search. Runs that tell no visits
/// where a search was needed, or another cost, or stop with a budget that is enough, are not.
pub fn law_worked_runs()
    ensures runs { LawWorkedRuns }
    ensures words { LawWorkedWords }
{}

/// The answer of a search, over views and ledgers that are written out: of a closed one the numbers are those of its ledger and of the
/// board, and no others; a halted one tells its cause, and the best solution that its shards hold.
pub fn law_worked_ends()
    ensures closed { LawWorkedClosed }
    ensures halted { LawWorkedHalted }
    ensures bests { LawWorkedBests }
{}
