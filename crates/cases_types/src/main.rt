//! Types the expressions of a file, each where its key says, and prints each with its tree or its refusal.
#![tactic(auto)]

mod names;
mod trees;

use case_files::{Entry, entries, escaped};
use dp_base::{Boxed, FILE_LIMIT};
use dp_model::Cond;
use dypdl_expr::{Expr, read_expr};
use dypdl_type::{Scope, TypeEnd, type_cond, type_cost, type_elem, type_num, type_set};
use names::{scope, tables, variables};
use std::alloc::{AllocError, Global};
use std::{fs, io};
use trees::{end_shown, shown, tree_shown};

/// The expression of a text, if it is one and memory lasts.
fn expression(alloc: Global, bytes: &[u8]) -> Option<Expr> {
    let text = str::from_utf8(bytes).ok()?;
    if text.len() > FILE_LIMIT {
        return None;
    }
    read_expr(alloc, text).ok()
}

fn as_number(alloc: Global, scope: &Scope<'_>, e: &Expr) -> Result<String, AllocError> {
    shown(alloc, &type_num(alloc, scope, e))
}

fn as_element(alloc: Global, scope: &Scope<'_>, e: &Expr) -> Result<String, AllocError> {
    shown(alloc, &type_elem(alloc, scope, e))
}

fn as_set(alloc: Global, scope: &Scope<'_>, object: u32, e: &Expr) -> Result<String, AllocError> {
    shown(alloc, &type_set(alloc, scope, object, e))
}

/// A condition in a box: where a local holds the condition itself, the proof that it may be dropped takes 4 GB.
fn boxed(alloc: Global, given: Result<Cond, TypeEnd>) -> Result<Boxed<Cond>, TypeEnd> {
    Ok(Boxed::new(alloc, given?)?)
}

fn as_condition(alloc: Global, scope: &Scope<'_>, e: &Expr) -> Result<String, AllocError> {
    match boxed(alloc, type_cond(alloc, scope, e)) {
        Ok(tree) => tree_shown(alloc, tree.get()),
        Err(end) => end_shown(alloc, &end),
    }
}

fn as_cost(alloc: Global, scope: &Scope<'_>, e: &Expr) -> Result<String, AllocError> {
    shown(alloc, &type_cost(alloc, scope, e))
}

/// The tree of an expression where the key says, or what it is refused for.
fn typed(alloc: Global, scope: &Scope<'_>, key: &str, e: &Expr) -> Result<String, AllocError> {
    match key {
        "number" => as_number(alloc, scope, e),
        "element" => as_element(alloc, scope, e),
        "set-0" => as_set(alloc, scope, 0, e),
        "set-1" => as_set(alloc, scope, 1, e),
        "condition" => as_condition(alloc, scope, e),
        "cost" => as_cost(alloc, scope, e),
        _ => String::from_str(alloc, "no place"),
    }
}

fn answer(alloc: Global, scope: &Scope<'_>, case: &Entry) -> Result<String, AllocError> {
    match expression(alloc, &case.text) {
        Some(e) => typed(alloc, scope, case.key.as_str(), &e),
        None => String::from_str(alloc, "no expression"),
    }
}

/// What is printed of a case with this number.
fn told(
    alloc: Global,
    scope: &Scope<'_>,
    number: usize,
    case: &Entry,
) -> Result<String, AllocError> {
    let text = escaped(alloc, &case.text)?;
    let given = answer(alloc, scope, case)?;
    let key = &case.key;
    format!(in alloc; "{key} {number} \"{text}\"\n    {given}")
}

fn main(rt: HostRuntime) -> io::Result<()> {
    let alloc = rt.alloc();
    let (variables, tables) = (variables(alloc)?, tables(alloc)?);
    let scope = scope(alloc, &variables, &tables)?;
    let file = fs::read_to_string(&rt, "types.txt")?;
    for (index, case) in entries(alloc, file.as_str())?.iter().enumerate() {
        let told = told(alloc, &scope, index.saturating_add(1), case)?;
        println!(rt; "{told}")?;
    }
    Ok(())
}
