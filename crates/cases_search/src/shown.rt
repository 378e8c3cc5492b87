//! How costs, states, steps and faults are written.

use dp_model::{FaultKind, Model, PlainState, PlainValue, Spot, Text, step_text};
use path_log::StepId;
use spot_eval::SpotFault;
use std::alloc::{AllocError, Global};
use successors::ExpandEnd;

/// A number, or `none`.
pub(crate) fn cost_shown(alloc: Global, cost: Option<i64>) -> Result<String, AllocError> {
    match cost {
        Some(cost) => format!(in alloc; "{cost}"),
        None => String::from_str(alloc, "none"),
    }
}

/// Where a step stands: `SHARD.PLACE`, or `none`.
pub(crate) fn id_shown(alloc: Global, id: Option<StepId>) -> Result<String, AllocError> {
    match id {
        Some(StepId { shard, place }) => format!(in alloc; "{shard}.{place}"),
        None => String::from_str(alloc, "none"),
    }
}

/// The step text of a ground transition.
pub(crate) fn step_shown(alloc: Global, model: &Model, number: u32) -> Result<Text, AllocError> {
    let mut text = Text::of(String::new(alloc));
    step_text(alloc, model, number, &mut text)?;
    Ok(text)
}

/// A number, or the members of a set as `[0, 2]`.
fn value_shown(alloc: Global, value: &PlainValue) -> Result<String, AllocError> {
    match value {
        PlainValue::Number(n) => format!(in alloc; "{n}"),
        PlainValue::Members(set) => {
            let members = set.list();
            format!(in alloc; "{members:?}")
        }
    }
}

/// The name of each variable and its value.
pub(crate) fn state_shown(
    alloc: Global,
    model: &Model,
    s: &PlainState,
) -> Result<String, AllocError> {
    let mut text = String::new(alloc);
    for (variable, value) in model.variables().list().iter().zip(s.values().list()) {
        if !text.is_empty() {
            text.push_str(" ")?;
        }
        text.push_str(variable.name().as_text())?;
        text.push_str("=")?;
        text.push_str(value_shown(alloc, value)?.as_str())?;
    }
    Ok(text)
}

/// A fault and where it is met, with the step that led there, if the state at hand is not where it is met.
fn fault_shown(
    alloc: Global,
    model: &Model,
    spot: Spot,
    kind: FaultKind,
    last: Option<u32>,
) -> Result<String, AllocError> {
    match last {
        Some(number) => {
            let step = step_shown(alloc, model, number)?;
            let step = step.as_text();
            format!(in alloc; "fault {kind:?} at {spot:?} after {step}")
        }
        None => format!(in alloc; "fault {kind:?} at {spot:?}"),
    }
}

/// Why a part of the model has no value.
pub(crate) fn spot_fault_shown(
    alloc: Global,
    model: &Model,
    met: SpotFault,
) -> Result<String, AllocError> {
    fault_shown(alloc, model, met.spot, met.kind, None)
}

/// Why a call of the expander has no answer.
pub(crate) fn end_shown(
    alloc: Global,
    model: &Model,
    end: &ExpandEnd,
) -> Result<String, AllocError> {
    match end {
        ExpandEnd::Fault { spot, kind, last } => fault_shown(alloc, model, *spot, *kind, *last),
        ExpandEnd::Memory => String::from_str(alloc, "memory"),
    }
}
