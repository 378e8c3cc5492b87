//! Whole searches over texts in memory.

ghost use Rattle.std.specs.Prelude.{None};

use crate::gates::WaitingGate;
use dp_outside::{FineShelf, FineSink};
use solve_top::run;
use std::alloc::{AllocError, Global};
use std::sync::Wait;
use std::thread::Threads;

/// The texts of a model, which stand under the names `d` and `p`.
#[derive(Drop)]
pub struct Texts {
    pub domain: Vec<u8>,
    pub problem: Vec<u8>,
}

/// The words of a run, which stand with a space between each two.
fn words_of(alloc: Global, text: &str) -> Result<Vec<String>, AllocError> {
    let mut words = Vec::new(alloc);
    for word in text.split(' ') {
        words.push(String::from_str(alloc, word)?)?;
    }
    Ok(words)
}

fn shelf_of(alloc: Global, texts: &Texts) -> Result<FineShelf, AllocError> {
    let mut shelf = FineShelf::new(alloc);
    shelf.put("d", &texts.domain)?;
    shelf.put("p", &texts.problem)?;
    Ok(shelf)
}

/// The line of a text that tells a verdict, without its end; else the last line.
fn verdict_in(text: &str) -> &str {
    for line in text.lines() {
        if line.starts_with("verdict ") {
            return line;
        }
    }
    text.lines().last().unwrap_or("")
}

/// Runs the solver on these words, behind a gate. Answers the line that tells its verdict.
pub(crate) fn search<R: Threads + Wait + Sync>(
    rt: &R,
    alloc: Global,
    texts: &Texts,
    words: &str,
    gate: &WaitingGate,
) -> Result<String, AllocError> {
    let words = words_of(alloc, words)?;
    let mut shelf = shelf_of(alloc, texts)?;
    let mut sink = FineSink::new(alloc);
    run(rt, alloc, &words, &mut shelf, &mut sink, gate);
    match str::from_utf8(sink.bytes().unwrap_or(b"nothing told\n")) {
        Ok(text) => String::from_str(alloc, verdict_in(text)),
        Err(_) => String::from_str(alloc, "no text"),
    }
}
