//! The fault that a pass was halted for.

ghost use Rattle.std.specs.Prelude.{◌≡◌, ◌≤◌, ◌++◌, ℕ, List, reverse, option_to_list, IfOk};
ghost use Rattle.dp_steps.specs.Faults.{Meets};
ghost use Rattle.path_log.specs.Paths.{LeadsBack};
ghost use Rattle.board_words.specs.declared.seat.View.{View};
ghost use Rattle.pass_ledger.specs.Passes.{Pass};
ghost use Rattle.pass_ledger.specs.declared.records.ShardRecord.{ShardRecord};
ghost use Rattle.pass_ends.specs.Left.{AreLeft, IsSomeFault};

use crate::tally::Tally;
use dp_model::{FaultAt, Seq};
use pass_ledger::FaultHere;
use path_log::{PathLog, walk};
use shard_core::ShardEnd;
use std::alloc::{AllocError, Global};

/// The first fault that a shard met, by the shards' numbers.
fn first_fault(ends: &[ShardEnd]) -> Option<FaultHere>
    ensures { IsSomeFault ends.now result }
{
    for end in ends {
        if end.fault.is_some() {
            return end.fault;
        }
    }
    None
}

/// The list that meets a fault: the way to the visit, and the transition to the state in which it was met, if it is another.
fn fault_at(alloc: Global, logs: &Vec<PathLog>, fault: FaultHere) -> Result<FaultAt, AllocError>
    requires { (back : List ℕ) × LeadsBack logs.now.items fault.at back }
    ensures spot { IfOk result (λ f. (f.spot ≡ fault.spot) × (f.kind ≡ fault.kind)) }
    ensures steps { (back : List ℕ) → LeadsBack logs.now.items fault.at back → IfOk result (λ f. f.steps ≡ reverse back ++ option_to_list fault.last) }
{
    let mut steps = walk(alloc, logs, fault.at)?;
    if let Some(last) = fault.last {
        steps.push(last)?;
    }
    Ok(FaultAt {
        steps: Seq::of(steps),
        spot: fault.spot,
        kind: fault.kind,
    })
}

/// The fault of a pass that was halted for one, with its list.
pub(crate) fn fault_in(alloc: Global, tally: &Tally, cause: u64) -> Result<FaultAt, AllocError>
    requires left { (p : Pass) × (records : List ShardRecord) × (before : View) × (after : View) × AreLeft p records before after tally.now cause }
    requires fault { 3 ≤ cause }
    ensures { (p : Pass) (records : List ShardRecord) (before after : View) → AreLeft p records before after tally.now cause → IfOk result (λ f. Meets p.model p.prune f.steps f.spot f.kind) }
{
    let _ = cause;
    match first_fault(&tally.ends) {
        Some(fault) => fault_at(alloc, &tally.logs, fault),
        None => unreachable!(),
    }
}
