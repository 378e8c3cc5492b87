//! Searches that small budgets stop.

use crate::gates::{Waiting, WaitingGate};
use crate::searches::{Texts, search};
use std::alloc::{AllocError, Global};
use std::sync::Wait;
use std::thread::Threads;

/// The greatest budget that is tried.
const MOST: u32 = 30;

/// How searches with small budgets have to end: with this cost, or stopped at the budget where it is less than enough.
#[derive(Clone, Copy, Debug)]
pub struct Wanted {
    pub workers: u32,
    pub cost: i64,
    pub enough: u32,
}

/// Whether a search with this budget ends as it has to.
fn ends<R: Threads + Wait + Sync>(
    rt: &R,
    alloc: Global,
    texts: &Texts,
    wanted: Wanted,
    budget: u32,
) -> Result<bool, AllocError> {
    let workers = wanted.workers;
    let cost = wanted.cost;
    let words = format!(in alloc; "solve d p --workers {workers} --budget {budget}")?;
    let optimal = format!(in alloc; "verdict optimal {cost}")?;
    let stopped = format!(in alloc; "verdict stopped {budget}")?;
    let gate = WaitingGate::new(Waiting::Nobody);
    let verdict = search(rt, alloc, texts, words.as_str(), &gate)?;
    let is_stopped = budget < wanted.enough && verdict.as_str() == stopped.as_str();
    Ok(is_stopped || verdict.as_str() == optimal.as_str())
}

/// How many of the budgets 1 to 30 end a search as it has to end.
pub(crate) fn budgets_that_end<R: Threads + Wait + Sync>(
    rt: &R,
    alloc: Global,
    texts: &Texts,
    wanted: Wanted,
) -> Result<u32, AllocError> {
    let mut count = 0u32;
    for budget in 1..=MOST {
        if ends(rt, alloc, texts, wanted, budget)? {
            count = count.saturating_add(1);
        }
    }
    Ok(count)
}
