//! The fault that a search was halted for.

ghost use Rattle.std.specs.Prelude.{◌≡◌, ◌≤◌, ◌++◌, ℕ, List, reverse, option_to_list, IfOk};
ghost use Rattle.dp_steps.specs.Faults.{Meets};
ghost use Rattle.path_log.specs.Paths.{LeadsBack};
ghost use Rattle.board_words.specs.declared.seat.View.{View};
ghost use Rattle.best_ledger.specs.Searches.{BestSearch};
ghost use Rattle.best_ledger.specs.declared.records.BestRecord.{BestRecord};
ghost use Rattle.best_ends.specs.Left.{AreLeft, IsSomeFault};

use crate::tally::BestTally;
use best_shard::BestShardEnd;
use dp_model::{FaultAt, Seq};
use pass_ledger::FaultHere;
use path_log::{PathLog, walk};
use std::alloc::{AllocError, Global};

/// The first fault that a shard met, by the shards' numbers.
fn first_fault(ends: &[BestShardEnd]) -> Option<FaultHere>
    ensures { IsSomeFault ends.now result }
{
    for end in ends {
        if end.fault.is_some() {
            return end.fault;
        }
    }
    None
}

/// The list that meets a fault: the way to the visit, and the transition to the state in which it was met, if it is another.
fn fault_at(alloc: Global, logs: &Vec<PathLog>, fault: FaultHere) -> Result<FaultAt, AllocError>
    requires { (back : List ℕ) × LeadsBack logs.now.items fault.at back }
    ensures spot { IfOk result (λ f. (f.spot ≡ fault.spot) × (f.kind ≡ fault.kind)) }
    ensures steps { (back : List ℕ) → LeadsBack logs.now.items fault.at back → IfOk result (λ f. f.steps ≡ reverse back ++ option_to_list fault.last) }
{
    let mut steps = walk(alloc, logs, fault.at)?;
    if let Some(last) = fault.last {
        steps.push(last)?;
    }
    Ok(FaultAt {
        steps: Seq::of(steps),
        spot: fault.spot,
        kind: fault.kind,
    })
}

/// The fault of a search that was halted for one, with its list.
pub(crate) fn fault_in(alloc: Global, tally: &BestTally, cause: u64) -> Result<FaultAt, AllocError>
    requires left { (b : BestSearch) × (records : List BestRecord) × (before : View) × (after : View) × AreLeft b records before after tally.now cause }
    requires fault { 3 ≤ cause }
    ensures { (b : BestSearch) (records : List BestRecord) (before after : View) → AreLeft b records before after tally.now cause → IfOk result (λ f. Meets b.model b.prune f.steps f.spot f.kind) }
{
    let _ = cause;
    match first_fault(&tally.ends) {
        Some(fault) => fault_at(alloc, &tally.logs, fault),
        None => unreachable!(),
    }
}
