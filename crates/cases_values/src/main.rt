//! Evaluates expressions in the target state of a model, plainly and in words, and prints each with its value, its fault or
//! its refusal.
#![tactic(auto)]

mod calls;
mod models;
mod packed;
mod plain;
mod typed;
mod values;

use calls::{effect, grounds_text, precondition, signature_text};
use case_files::{Entry, entries, escaped};
use dp_model::Model;
use dypdl_type::Scope;
use models::{args, model_of, scope};
use std::alloc::Global;
use std::{fs, io};
use typed::answer;

/// How many bytes of an expression are printed.
const MOST_SHOWN: usize = 60;

/// How many preconditions, and how many effects, of a transition are printed at most.
const MOST_PLACES: usize = 1024;

/// The front of a text that is shown.
fn front(text: &str) -> &str {
    text.get(..MOST_SHOWN).unwrap_or(text)
}

/// Prints an expression and what it gives.
fn print_case<R: Print + Alloc<A = Global>>(
    rt: &R,
    model: &Model,
    scope: &Scope<'_>,
    number: usize,
    case: &Entry,
) -> io::Result<()> {
    let alloc = rt.alloc();
    let given = answer(alloc, model, scope, case)?;
    let text = escaped(alloc, &case.text)?;
    let more = if text.len() > MOST_SHOWN { " .." } else { "" };
    let (key, text) = (case.key.as_str(), front(text.as_str()));
    println!(rt; "{key} {number}: {text}{more} => {given}")
}

/// Prints each expression of a file and what it gives.
fn print_cases<R: Print + Alloc<A = Global>>(rt: &R, model: &Model, file: &str) -> io::Result<()> {
    let alloc = rt.alloc();
    let scope = scope(alloc, model)?;
    for (index, case) in entries(alloc, file)?.iter().enumerate() {
        print_case(rt, model, &scope, index.saturating_add(1), case)?;
    }
    Ok(())
}

/// Prints what the preconditions of a transition give.
fn print_preconditions<R: Print + Alloc<A = Global>>(
    rt: &R,
    model: &Model,
    transition: usize,
) -> io::Result<()> {
    let alloc = rt.alloc();
    let args = args(alloc)?;
    for place in 0..MOST_PLACES {
        let Some(given) = precondition(alloc, model, &args, transition, place)? else {
            return Ok(());
        };
        let number = place.saturating_add(1);
        println!(rt; "transition {transition} precondition {number} => {given}")?;
    }
    Ok(())
}

/// Prints what the effects of a transition give.
fn print_effects<R: Print + Alloc<A = Global>>(
    rt: &R,
    model: &Model,
    transition: usize,
) -> io::Result<()> {
    let alloc = rt.alloc();
    let args = args(alloc)?;
    for place in 0..MOST_PLACES {
        let Some(given) = effect(alloc, model, &args, transition, place)? else {
            return Ok(());
        };
        let number = place.saturating_add(1);
        println!(rt; "transition {transition} effect {number} => {given}")?;
    }
    Ok(())
}

/// Prints what the expressions of each transition give, and then the ground transitions and the target's signature.
fn print_model<R: Print + Alloc<A = Global>>(rt: &R, model: &Model) -> io::Result<()> {
    for transition in 0..model.transitions().list().len() {
        print_preconditions(rt, model, transition)?;
        print_effects(rt, model, transition)?;
    }
    let grounds = grounds_text(rt.alloc(), model)?;
    let signature = signature_text(rt.alloc(), model)?;
    println!(rt; "{grounds}\n{signature}")
}

fn main(rt: HostRuntime) -> io::Result<()> {
    let domain = fs::read_to_string(&rt, "domain.yaml")?;
    let problem = fs::read_to_string(&rt, "problem.yaml")?;
    let file = fs::read_to_string(&rt, "values.txt")?;
    match model_of(rt.alloc(), domain.as_str(), problem.as_str()) {
        Some(model) => {
            print_cases(&rt, &model, file.as_str())?;
            print_model(&rt, &model)
        }
        None => println!(rt; "no model"),
    }
}
