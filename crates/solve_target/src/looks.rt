//! What the target of a model turns out to be, and what follows for all lists.

ghost use Rattle.std.specs.Prelude.{◌≡◌, [], IfOk};
ghost use Rattle.solve_target.specs.Targets.{TargetIs, found_to_be};
ghost use Rattle.successors.specs.Starts.{start_at as start_of};

use dp_model::{FaultAt, FaultKind, Found, Model, Seq, Spot};
use solve_start::start_at;
use std::alloc::{AllocError, Global};
use successors::{ExpandEnd, Start};

/// What the target of a model turns out to be.
#[derive(Debug, Drop)]
pub enum AtTarget {
    /// An inner state, from which a search goes on.
    Inner,
    /// A base state, with the list without steps.
    Base(Found),
    /// A state that is not allowed.
    NotAllowed,
    /// A state in which an expression has no value, with the list without steps.
    Fault(FaultAt),
}

/// The list without steps, of this cost.
fn without_steps(alloc: Global, cost: i64) -> Found
    ensures { result ≡ record { cost = cost; steps = [] } }
{
    Found {
        cost,
        steps: Seq::of(Vec::new(alloc)),
    }
}

/// A fault that is met without steps.
fn fault_without_steps(alloc: Global, spot: Spot, kind: FaultKind) -> FaultAt
    ensures { result ≡ record { steps = []; spot = spot; kind = kind } }
{
    FaultAt {
        steps: Seq::of(Vec::new(alloc)),
        spot,
        kind,
    }
}

/// What the target of the model turns out to be. Where it is base no list is better than the one without steps, and where it is
/// not allowed no list is legal. The fault is the first one that is met. Fails for want of memory alone.
pub fn look_at_target(alloc: Global, model: &Model, prune: bool) -> Result<AtTarget, AllocError>
    ensures first { IfOk result (λ answer. answer ≡ found_to_be (start_of model.now prune)) }
    ensures is { IfOk result (TargetIs model.now prune) }
{
    match start_at(alloc, model, prune) {
        Ok(Start::Open(_)) => Ok(AtTarget::Inner),
        Ok(Start::Base(cost)) => Ok(AtTarget::Base(without_steps(alloc, cost))),
        Ok(Start::NotAllowed) => Ok(AtTarget::NotAllowed),
        Err(ExpandEnd::Fault { spot, kind, .. }) => {
            Ok(AtTarget::Fault(fault_without_steps(alloc, spot, kind)))
        }
        Err(ExpandEnd::Memory) => Err(AllocError),
    }
}
