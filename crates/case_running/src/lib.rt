//! Runs of the whole solver over texts and a sink in memory, for the programs that run cases.
#![tactic(auto)]

use dp_outside::{MemShelf, MemSink, OpenGate};
use solve_top::run;
use std::alloc::{AllocError, Global};
use std::sync::Wait;
use std::thread::Threads;

/// The texts that a run reads, under the names `d`, `p` and `l`.
#[derive(Clone, Copy)]
pub struct Texts<'a> {
    pub domain: &'a [u8],
    pub problem: &'a [u8],
    pub list: &'a [u8],
}

/// What a run printed, and its status.
#[derive(Drop)]
pub struct Ran {
    sink: MemSink,
    pub status: u8,
}

impl Ran {
    /// What the run printed, or another line where it is no text.
    pub fn output(&self) -> &str {
        match str::from_utf8(self.sink.bytes().unwrap_or(b"nothing told\n")) {
            Ok(text) => text,
            Err(_) => "no text\n",
        }
    }

    /// The last line that was printed, without its end.
    pub fn last_line(&self) -> &str {
        self.output().lines().last().unwrap_or("")
    }
}

/// The words of a run, which stand with a space between each two. No text is no words.
fn words_of(alloc: Global, text: &str) -> Result<Vec<String>, AllocError> {
    let mut words = Vec::new(alloc);
    if text.is_empty() {
        return Ok(words);
    }
    for word in text.split(' ') {
        words.push(String::from_str(alloc, word)?)?;
    }
    Ok(words)
}

fn shelf_of(alloc: Global, texts: &Texts<'_>) -> Result<MemShelf, AllocError> {
    let mut shelf = MemShelf::new(alloc);
    shelf.put("d", texts.domain)?;
    shelf.put("p", texts.problem)?;
    shelf.put("l", texts.list)?;
    Ok(shelf)
}

/// Runs the solver over these texts on these words, which stand with a space between each two.
pub fn run_over<R: Threads + Wait + Sync>(
    rt: &R,
    alloc: Global,
    texts: &Texts<'_>,
    words: &str,
) -> Result<Ran, AllocError> {
    let words = words_of(alloc, words)?;
    let mut shelf = shelf_of(alloc, texts)?;
    let mut sink = MemSink::new(alloc);
    let status = run(rt, alloc, &words, &mut shelf, &mut sink, &OpenGate::new());
    Ok(Ran { sink, status })
}
