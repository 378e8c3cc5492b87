//! Runs the solver over texts in memory and prints each run's words with its output and status, or the counts of many runs together.
#![tactic(auto)]

mod cases;
mod many;

use crate::cases::Cases;
use case_files::entries;
use std::alloc::Global;
use std::fs::Files;
use std::sync::Wait;
use std::thread::{Builder, Threads};
use std::{fs, io, thread};

/// The files of cases, in the order in which they are run.
const FILES: [&str; 20] = [
    "one_variable.txt",
    "first_form.txt",
    "refusals.txt",
    "replay.txt",
    "whole.txt",
    "pruned.txt",
    "keep.txt",
    "gap.txt",
    "best.txt",
    "announce.txt",
    "checks.txt",
    "field.txt",
    "profile.txt",
    "small.txt",
    "orders.txt",
    "models.txt",
    "guide.txt",
    "certificates.txt",
    "proved.txt",
    "hostile.txt",
];

/// The files of cases whose texts are made when they run, which run behind the others in a thread with a small stack.
const MADE_FILES: [&str; 3] = ["depths.txt", "limits.txt", "noise.txt"];

/// How many bytes the stack of that thread has.
const STACK: usize = 2_097_152;

fn run_file<R: Threads + Wait + Sync + Files + Print + Alloc<A = Global>>(
    rt: &R,
    name: &str,
) -> io::Result<()> {
    let file = fs::read_to_string(rt, name)?;
    let mut cases = Cases::new(rt.alloc());
    for entry in entries(rt.alloc(), file.as_str())?.iter() {
        cases.take(rt, entry)?;
    }
    Ok(())
}

fn run_files<R: Threads + Wait + Sync + Files + Print + Alloc<A = Global>>(
    rt: &R,
    names: &[&str],
) -> io::Result<()> {
    for name in names.iter() {
        run_file(rt, name)?;
    }
    Ok(())
}

fn main(rt: HostRuntime) -> io::Result<()> {
    run_files(&rt, &FILES)?;
    thread::scope(thread::scope_env(), &rt, |scope| {
        let runner = Builder::new().stack_size(STACK);
        runner
            .spawn_scoped(scope, || run_files(&rt, &MADE_FILES))?
            .join(&rt)
    })
}
