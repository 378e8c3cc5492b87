//! Expressions as texts, typed where their keys say and then evaluated.

use crate::models::args;
use crate::values::{condition, members, number};
use case_files::Entry;
use dp_base::{Boxed, FILE_LIMIT};
use dp_model::{Cond, Model};
use dypdl_expr::{Expr, read_expr};
use dypdl_type::{Scope, TypeEnd, type_cond, type_num, type_set};
use std::alloc::{AllocError, Global};

/// The expression of a text, if it is one and memory lasts.
fn expression(alloc: Global, bytes: &[u8]) -> Option<Expr> {
    let text = str::from_utf8(bytes).ok()?;
    if text.len() > FILE_LIMIT {
        return None;
    }
    read_expr(alloc, text).ok()
}

/// Why an expression is not typed.
fn refused(alloc: Global, end: &TypeEnd) -> Result<String, AllocError> {
    match end {
        TypeEnd::Memory => String::from_str(alloc, "memory"),
        _ => format!(in alloc; "refused {end:?}"),
    }
}

fn as_number(
    alloc: Global,
    model: &Model,
    scope: &Scope<'_>,
    e: &Expr,
) -> Result<String, AllocError> {
    match type_num(alloc, scope, e) {
        Ok(tree) => number(alloc, model, &args(alloc)?, &tree),
        Err(end) => refused(alloc, &end),
    }
}

/// A condition in a box: where a local holds the condition itself, the proof that it may be dropped takes 4 GB.
fn boxed(alloc: Global, given: Result<Cond, TypeEnd>) -> Result<Boxed<Cond>, TypeEnd> {
    Ok(Boxed::new(alloc, given?)?)
}

fn as_condition(
    alloc: Global,
    model: &Model,
    scope: &Scope<'_>,
    e: &Expr,
) -> Result<String, AllocError> {
    match boxed(alloc, type_cond(alloc, scope, e)) {
        Ok(tree) => condition(alloc, model, &args(alloc)?, tree.get()),
        Err(end) => refused(alloc, &end),
    }
}

fn as_set(
    alloc: Global,
    model: &Model,
    scope: &Scope<'_>,
    object: u32,
    e: &Expr,
) -> Result<String, AllocError> {
    match type_set(alloc, scope, object, e) {
        Ok(tree) => members(alloc, model, &args(alloc)?, &tree),
        Err(end) => refused(alloc, &end),
    }
}

/// The object type of the key `set-N`.
fn object_of(key: &str) -> Option<u32> {
    key.strip_prefix("set-")?.parse::<u32>().ok()
}

/// What an expression gives where a key says.
fn given(
    alloc: Global,
    model: &Model,
    scope: &Scope<'_>,
    key: &str,
    e: &Expr,
) -> Result<String, AllocError> {
    if key == "number" {
        return as_number(alloc, model, scope, e);
    }
    if key == "condition" {
        return as_condition(alloc, model, scope, e);
    }
    match object_of(key) {
        Some(object) => as_set(alloc, model, scope, object, e),
        None => String::from_str(alloc, "no place"),
    }
}

/// What the expression of an entry gives where its key says.
pub(crate) fn answer(
    alloc: Global,
    model: &Model,
    scope: &Scope<'_>,
    case: &Entry,
) -> Result<String, AllocError> {
    match expression(alloc, &case.text) {
        Some(e) => given(alloc, model, scope, case.key.as_str(), &e),
        None => String::from_str(alloc, "no expression"),
    }
}
