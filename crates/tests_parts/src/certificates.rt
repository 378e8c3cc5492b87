//! What a certificate claims, and how its writing may end: each is made, and shown.

use dp_base::Seq;
use dp_model::{Claim, FaultAt, FaultKind, Found, Spot, Written};
use std::alloc::{AllocError, Global};
use std::test::Fail;

const CLAIMS: &str = "Optimal(Found { cost: 11, steps: Seq { items: [4, 0] } }) Infeasible";

const ENDS: &str =
    "Whole Stopped(24) Better(Found { cost: 3, steps: Seq { items: [] } }) Fault(FaultAt { steps: Seq { items: [1] }, spot: Cost(9), kind: Range })";

fn found(alloc: Global, cost: i64, steps: &[u32]) -> Result<Found, AllocError> {
    Ok(Found {
        cost,
        steps: Seq::of(steps.to_vec(alloc)?),
    })
}

#[test]
fn claims_are_made_and_shown(rt: HostRuntime) -> Result<(), Fail> {
    let alloc = rt.alloc();
    let best = Claim::Optimal(found(alloc, 11, &[4, 0])?);
    let none = Claim::Infeasible;
    let shown = format!(in alloc; "{best:?} {none:?}")?;
    assert_eq!(rt; shown.as_str(), CLAIMS);
    Ok(())
}

#[test]
fn ends_of_writing_are_made_and_shown(rt: HostRuntime) -> Result<(), Fail> {
    let alloc = rt.alloc();
    let whole = Written::Whole;
    let stopped = Written::Stopped(24);
    let better = Written::Better(found(alloc, 3, &[])?);
    let fault = Written::Fault(FaultAt {
        steps: Seq::of([1u32].to_vec(alloc)?),
        spot: Spot::Cost(9),
        kind: FaultKind::Range,
    });
    let shown = format!(in alloc; "{whole:?} {stopped:?} {better:?} {fault:?}")?;
    assert_eq!(rt; shown.as_str(), ENDS);
    Ok(())
}
