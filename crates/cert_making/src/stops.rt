//! What is told where a search ends before its certificate is whole: a better solution, or a fault, each with its list.

ghost use Rattle.std.specs.Prelude.{◌≡◌, ◌++◌, ◌∷◌, [], ℕ, List, reverse, option_to_list, IfOk, ℤ, pos, ◌<ℤ◌};
ghost use Rattle.cost_laws.specs.Orders.{IsLawOf};
ghost use Rattle.dp_steps.specs.Faults.{Meets};
ghost use Rattle.dp_steps.specs.Lists.{Solution};
ghost use Rattle.path_log.specs.Paths.{LeadsBack};
ghost use Rattle.pass_ledger.specs.Passes.{Pass, word_of};
ghost use Rattle.pass_ledger.specs.declared.records.FaultHere.{FaultHere as FaultHereOf};
ghost use Rattle.pass_ledger.specs.declared.records.Held.{Held as HeldOf};
ghost use Rattle.cert_making.specs.Makes.{HasEnded};

use cost_laws::CostLaw;
use dom_store::Covers;
use dp_model::{FaultAt, Found, Seq};
use pass_ledger::{FaultHere, Held};
use path_log::{PathLog, walk};
use shard_core::Shard;
use std::alloc::{AllocError, Global};

/// The list of a held solution: the way to its visit, and its transition.
fn found_at(alloc: Global, logs: &Vec<PathLog>, held: Held) -> Result<Found, AllocError>
    requires { (back : List ℕ) × LeadsBack logs.now.items held.parent back }
    ensures cost { IfOk result (λ f. f.cost ≡ held.cost) }
    ensures steps { (back : List ℕ) → LeadsBack logs.now.items held.parent back → IfOk result (λ f. f.steps ≡ reverse back ++ held.transition ∷ []) }
{
    let mut steps = walk(alloc, logs, held.parent)?;
    steps.push(held.transition)?;
    Ok(Found {
        cost: held.cost,
        steps: Seq::of(steps),
    })
}

/// The list that meets a fault: the way to the visit, and the transition to the state in which it was met, if it is another.
fn fault_at(alloc: Global, logs: &Vec<PathLog>, fault: FaultHere) -> Result<FaultAt, AllocError>
    requires { (back : List ℕ) × LeadsBack logs.now.items fault.at back }
    ensures spot { IfOk result (λ f. (f.spot ≡ fault.spot) × (f.kind ≡ fault.kind)) }
    ensures steps { (back : List ℕ) → LeadsBack logs.now.items fault.at back → IfOk result (λ f. f.steps ≡ reverse back ++ option_to_list fault.last) }
{
    let mut steps = walk(alloc, logs, fault.at)?;
    if let Some(last) = fault.last {
        steps.push(last)?;
    }
    Ok(FaultAt {
        steps: Seq::of(steps),
        spot: fault.spot,
        kind: fault.kind,
    })
}

/// A list of one log.
fn one_log(alloc: Global, log: PathLog) -> Result<Vec<PathLog>, AllocError>
    ensures { IfOk result (λ logs. logs.items ≡ log ∷ []) }
{
    let mut logs = Vec::new(alloc);
    logs.push(log)?;
    Ok(logs)
}

/// The solution that a shard held at its end, with its list. It held one.
pub(crate) fn found_by<'m, L: CostLaw, K: Covers>(
    alloc: Global,
    shard: Shard<'m, L, K>,
) -> Result<Found, AllocError>
    requires { (p : Pass) × (e : HasEnded p shard) × (h : HeldOf) × (e.shard_record.held ≡ Some h) }
    ensures { (p : Pass) (claimed : ℕ) (e : HasEnded p shard.entry) (h : HeldOf) → e.shard_record.held ≡ Some h → word_of p h.cost <ℤ pos claimed
        → IfOk result (λ f. Solution p.model f.steps f.cost × (word_of p f.cost <ℤ pos claimed)) }
{
    let (end, log) = shard.end();
    let logs = one_log(alloc, log)?;
    match end.held {
        Some(held) => found_at(alloc, &logs, held),
        None => unreachable!(),
    }
}

/// The fault that a shard met, with its list. It met one.
pub(crate) fn fault_by<'m, L: CostLaw, K: Covers>(
    alloc: Global,
    shard: Shard<'m, L, K>,
) -> Result<FaultAt, AllocError>
    requires { (p : Pass) × (e : HasEnded p shard) × (f : FaultHereOf) × (e.shard_record.fault ≡ Some f) }
    ensures { (p : Pass) (e : HasEnded p shard.entry) (f : FaultHereOf) → e.shard_record.fault ≡ Some f
        → IfOk result (λ found. Meets p.model p.prune found.steps found.spot found.kind) }
{
    let (end, log) = shard.end();
    let logs = one_log(alloc, log)?;
    match end.fault {
        Some(fault) => fault_at(alloc, &logs, fault),
        None => unreachable!(),
    }
}
