//! Values of expressions in the target state of a model by the plain evaluators, as texts.

use dp_base::Seq;
use dp_eval::{EvalEnd, eval_cond, eval_num, eval_set};
use dp_model::{Cond, FaultKind, Model, Num, SetEx};
use std::alloc::{AllocError, Global};

/// The name of a fault.
pub(crate) fn fault_name(kind: FaultKind) -> &'static str {
    match kind {
        FaultKind::Range => "Range",
        FaultKind::ZeroDivisor => "ZeroDivisor",
        FaultKind::Negative => "Negative",
        FaultKind::Index => "Index",
    }
}

/// The name of a fault, or of want of memory.
fn end_name(end: &EvalEnd) -> &'static str {
    match end {
        EvalEnd::Fault(kind) => fault_name(*kind),
        EvalEnd::Memory => "memory",
    }
}

/// The members of a set between braces.
fn set_text(alloc: Global, set: &Seq<u32>) -> Result<String, AllocError> {
    let mut text = String::from_str(alloc, "{")?;
    for (i, member) in set.list().iter().enumerate() {
        if i > 0 {
            text.push(',')?;
        }
        text.push_str(member.to_string(alloc)?.as_str())?;
    }
    text.push('}')?;
    Ok(text)
}

/// The value of a number expression with these values of the parameters, or its fault.
pub(crate) fn number(
    alloc: Global,
    model: &Model,
    args: &Seq<u32>,
    e: &Num,
) -> Result<String, AllocError> {
    match eval_num(alloc, model, e, args, model.target()) {
        Ok(n) => n.to_string(alloc),
        Err(end) => String::from_str(alloc, end_name(&end)),
    }
}

/// The members of a set expression with these values of the parameters, or its fault.
pub(crate) fn members(
    alloc: Global,
    model: &Model,
    args: &Seq<u32>,
    e: &SetEx,
) -> Result<String, AllocError> {
    match eval_set(alloc, model, e, args, model.target()) {
        Ok(set) => set_text(alloc, &set),
        Err(end) => String::from_str(alloc, end_name(&end)),
    }
}

/// Whether a condition holds with these values of the parameters, or its fault.
pub(crate) fn condition(
    alloc: Global,
    model: &Model,
    args: &Seq<u32>,
    e: &Cond,
) -> Result<String, AllocError> {
    match eval_cond(alloc, model, e, args, model.target()) {
        Ok(held) => String::from_str(alloc, if held { "true" } else { "false" }),
        Err(end) => String::from_str(alloc, end_name(&end)),
    }
}
