//! Runs searches whose shards are held back, turned in many orders or stopped early, and prints how they end.
#![tactic(auto)]

mod budgets;
mod gates;
mod orders;
mod passes;
mod searches;

use budgets::{Wanted, budgets_that_end};
use case_files::{Entry, entries, escaped};
use gates::{Waiting, WaitingGate};
use orders::named_order;
use passes::{halt_in_order, model_of, options_of, orders_that_end};
use searches::{Texts, search};
use std::alloc::Global;
use std::sync::Wait;
use std::thread::Threads;
use std::{fs, io};

/// A number at the beginning of a text, and what stands behind it. A word that is no number is 0.
fn number_in(text: &str) -> (u32, &str) {
    match text.split_once(' ') {
        Some((word, rest)) => (word.parse::<u32>().unwrap_or(0), rest),
        None => (text.parse::<u32>().unwrap_or(0), ""),
    }
}

/// Runs the solver behind a gate, and prints whether what was waited for came, and the verdict.
fn print_search<R: Threads + Wait + Sync + Print + Alloc<A = Global>>(
    rt: &R,
    texts: &Texts,
    words: &str,
    waiting: Waiting,
) -> io::Result<()> {
    let gate = WaitingGate::new(waiting);
    let verdict = search(rt, rt.alloc(), texts, words, &gate)?;
    if waiting == Waiting::Nobody {
        return println!(rt; "-- {words}\n{verdict}");
    }
    let came = if gate.came() { "came" } else { "did not come" };
    println!(rt; "-- {words}\n{came}\n{verdict}")
}

/// Prints how many of 200 orders end with a cost.
fn print_orders<R: Wait + Print + Alloc<A = Global>>(
    rt: &R,
    texts: &Texts,
    text: &str,
) -> io::Result<()> {
    let alloc = rt.alloc();
    let (workers, rest) = number_in(text);
    let (cost, _) = number_in(rest);
    let count = match model_of(alloc, &texts.domain, &texts.problem) {
        Some(model) => orders_that_end(rt, alloc, &model, workers, i64::from(cost)),
        None => return println!(rt; "no model"),
    };
    match count {
        Some(count) => println!(rt; "-- orders {text}\n{count} of 200"),
        None => println!(rt; "-- orders {text}\nnone"),
    }
}

/// Prints how many of the budgets 1 to 30 end a search as it has to end.
fn print_budgets<R: Threads + Wait + Sync + Print + Alloc<A = Global>>(
    rt: &R,
    texts: &Texts,
    text: &str,
) -> io::Result<()> {
    let (workers, rest) = number_in(text);
    let (cost, rest) = number_in(rest);
    let (enough, _) = number_in(rest);
    let wanted = Wanted {
        workers,
        cost: i64::from(cost),
        enough,
    };
    let count = budgets_that_end(rt, rt.alloc(), texts, wanted)?;
    println!(rt; "-- budgets {text}\n{count} of 30")
}

/// Prints how a pass ends whose shards are turned in the order that a text names, behind the number of workers and a budget.
fn print_pass<R: Wait + Print + Alloc<A = Global>>(
    rt: &R,
    texts: &Texts,
    text: &str,
) -> io::Result<()> {
    let alloc = rt.alloc();
    let (workers, rest) = number_in(text);
    let (budget, rest) = number_in(rest);
    let Some(options) = options_of(workers, u64::from(budget)) else {
        return println!(rt; "no options");
    };
    let order = named_order(alloc, rest)?;
    let end = match model_of(alloc, &texts.domain, &texts.problem) {
        Some(model) => halt_in_order(rt, alloc, &model, &options, &order),
        None => return println!(rt; "no model"),
    };
    println!(rt; "-- pass {text}\n{end}")
}

/// Keeps a text, or does what an entry says and prints how it ends.
fn take_entry<R: Threads + Wait + Sync + Print + Alloc<A = Global>>(
    rt: &R,
    texts: &mut Texts,
    entry: &Entry,
) -> io::Result<()> {
    let name = escaped(rt.alloc(), &entry.text)?;
    let text = name.as_str();
    match entry.key.as_str() {
        "case" => println!(rt; "== {text}"),
        "domain" => {
            texts.domain = entry.text.clone()?;
            Ok(())
        }
        "problem" => {
            texts.problem = entry.text.clone()?;
            Ok(())
        }
        "last" => print_search(rt, texts, text, Waiting::Nobody),
        "meet" => {
            let (shards, words) = number_in(text);
            print_search(rt, texts, words, Waiting::Each(u64::from(shards)))
        }
        "hold" => {
            let (turns, words) = number_in(text);
            print_search(rt, texts, words, Waiting::First(u64::from(turns)))
        }
        "orders" => print_orders(rt, texts, text),
        "budgets" => print_budgets(rt, texts, text),
        "pass" => print_pass(rt, texts, text),
        key => println!(rt; "unknown key {key}"),
    }
}

fn main(rt: HostRuntime) -> io::Result<()> {
    let alloc = rt.alloc();
    let file = fs::read_to_string(&rt, "schedules.txt")?;
    let mut texts = Texts {
        domain: Vec::new(alloc),
        problem: Vec::new(alloc),
    };
    for entry in entries(alloc, file.as_str())?.iter() {
        take_entry(&rt, &mut texts, entry)?;
    }
    Ok(())
}
