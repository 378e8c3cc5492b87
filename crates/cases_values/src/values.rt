//! Values of expressions in the target state of a model, as texts: by the plain evaluators, and beside them by those of a
//! search over the packed target.

use crate::{packed, plain};
use dp_base::Seq;
use dp_model::{Cond, Model, Num, SetEx};
use std::alloc::{AllocError, Global};

/// What both evaluators give, or each of the two where they differ.
pub(crate) fn agreed(alloc: Global, plain: String, packed: String) -> Result<String, AllocError> {
    if plain.as_str() == packed.as_str() {
        Ok(plain)
    } else {
        format!(in alloc; "{plain}, packed {packed}")
    }
}

/// The value of a number expression with these values of the parameters, or its fault.
pub(crate) fn number(
    alloc: Global,
    model: &Model,
    args: &Seq<u32>,
    e: &Num,
) -> Result<String, AllocError> {
    let packed = packed::number_text(alloc, model, args, e)?;
    agreed(alloc, plain::number(alloc, model, args, e)?, packed)
}

/// The members of a set expression with these values of the parameters, or its fault.
pub(crate) fn members(
    alloc: Global,
    model: &Model,
    args: &Seq<u32>,
    e: &SetEx,
) -> Result<String, AllocError> {
    let packed = packed::members_text(alloc, model, args, e)?;
    agreed(alloc, plain::members(alloc, model, args, e)?, packed)
}

/// Whether a condition holds with these values of the parameters, or its fault.
pub(crate) fn condition(
    alloc: Global,
    model: &Model,
    args: &Seq<u32>,
    e: &Cond,
) -> Result<String, AllocError> {
    let packed = packed::condition_text(alloc, model, args, e)?;
    agreed(alloc, plain::condition(alloc, model, args, e)?, packed)
}
