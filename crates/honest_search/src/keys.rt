//! What tells two modes apart: the elements, which are constants in each mode.

use dp_model::{Model, Preference, VarKind, Variable};
use honest_states::{Known, Mode};
use poly_terms::Span;
use std::alloc::{AllocError, Global};

/// Whether a variable tells modes apart.
pub fn is_key(variable: &Variable) -> bool {
    match (variable.kind(), variable.preference()) {
        (VarKind::Element(_), Preference::Without) => true,
        _ => false,
    }
}

/// Whether a number is known.
pub fn is_point(span: Span) -> bool {
    match (span.low, span.high) {
        (Some(low), Some(high)) => low == high,
        _ => false,
    }
}

/// Whether a value is a known number.
fn is_told(known: &Known) -> bool {
    match known {
        Known::Number(span) => is_point(*span),
        Known::Members(_) => false,
    }
}

/// Whether each element is a constant.
pub fn are_told(model: &Model, mode: &Mode) -> bool {
    for (variable, known) in model.variables().list().iter().zip(mode.known.list()) {
        if is_key(variable) && !is_told(known) {
            return false;
        }
    }
    true
}

/// Whether two values are known to be one, or the same is known of both.
fn same_known(a: &Known, b: &Known) -> bool {
    match (a, b) {
        (Known::Number(x), Known::Number(y)) => x.low == y.low && x.high == y.high,
        (Known::Members(x), Known::Members(y)) => x.list().as_slice() == y.list().as_slice(),
        _ => false,
    }
}

/// Whether two modes have the same elements.
pub fn same_elements(keys: &[usize], a: &Mode, b: &Mode) -> bool {
    for key in keys {
        match (a.known.list().get(*key), b.known.list().get(*key)) {
            (Some(x), Some(y)) => {
                if !same_known(x, y) {
                    return false;
                }
            }
            _ => return false,
        }
    }
    true
}

/// Whether two modes know the same.
pub fn same_mode_as(a: &Mode, b: &Mode) -> bool {
    if a.known.list().len() != b.known.list().len() {
        return false;
    }
    for (x, y) in a.known.list().iter().zip(b.known.list()) {
        if !same_known(x, y) {
            return false;
        }
    }
    true
}

/// The places of the variables that tell modes apart.
pub fn keys_of(alloc: Global, model: &Model) -> Result<Vec<usize>, AllocError> {
    let mut keys = Vec::new(alloc);
    for (place, variable) in model.variables().list().iter().enumerate() {
        if is_key(variable) {
            keys.push(place)?;
        }
    }
    Ok(keys)
}
