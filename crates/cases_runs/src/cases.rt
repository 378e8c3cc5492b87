//! The entries of a file of cases.

use crate::many::{print_cuts, print_noise};
use case_files::{Entry, escaped};
use case_making::filled;
use case_running::{Texts, run_over};
use std::alloc::{AllocError, Global};
use std::io;
use std::sync::Wait;
use std::thread::Threads;

/// The texts that stand, and the pieces that noise puts into texts.
#[derive(Drop)]
pub(crate) struct Cases {
    domain: Vec<u8>,
    problem: Vec<u8>,
    list: Vec<u8>,
    pieces: Vec<Vec<u8>>,
}

/// A text up to its first space and behind it; the whole text where there is none.
pub(crate) fn first_word(text: &str) -> (&str, &str) {
    match text.split_once(' ') {
        Some((word, rest)) => (word, rest),
        None => (text, ""),
    }
}

/// Prints a run's words, its output and its status; of the output the last line alone, where it is not asked for whole.
fn print_run<R: Threads + Wait + Sync + Print + Alloc<A = Global>>(
    rt: &R,
    texts: &Texts<'_>,
    words: &str,
    whole: bool,
) -> io::Result<()> {
    let ran = run_over(rt, rt.alloc(), texts, words)?;
    let status = ran.status;
    if whole {
        let output = ran.output();
        return println!(rt; "-- {words}\n{output}status {status}");
    }
    let last = ran.last_line();
    println!(rt; "-- {words}\n..\n{last}\nstatus {status}")
}

impl Cases {
    pub(crate) fn new(alloc: Global) -> Cases {
        Cases {
            domain: Vec::new(alloc),
            problem: Vec::new(alloc),
            list: Vec::new(alloc),
            pieces: Vec::new(alloc),
        }
    }

    fn texts(&self) -> Texts<'_> {
        Texts {
            domain: &self.domain,
            problem: &self.problem,
            list: &self.list,
        }
    }

    /// Fills a text that stands: the words are its name, how many copies, and the piece.
    fn fill(&mut self, alloc: Global, words: &str) -> Result<(), AllocError> {
        let (name, rest) = first_word(words);
        let (count, piece) = first_word(rest);
        let count = count.parse().unwrap_or(0u32);
        let text = match name {
            "domain" => &mut self.domain,
            "problem" => &mut self.problem,
            _ => &mut self.list,
        };
        *text = filled(alloc, text, count, piece.as_bytes())?;
        Ok(())
    }

    /// Keeps a text, makes one, runs the solver, or prints the name of a case.
    pub(crate) fn take<R: Threads + Wait + Sync + Print + Alloc<A = Global>>(
        &mut self,
        rt: &R,
        entry: &Entry,
    ) -> io::Result<()> {
        let alloc = rt.alloc();
        let text = entry.text.as_slice();
        let words = str::from_utf8(text).unwrap_or("");
        match entry.key.as_str() {
            "case" => {
                let name = escaped(alloc, text)?;
                return println!(rt; "== {name}");
            }
            "domain" => self.domain = Vec::from_slice(alloc, text)?,
            "problem" => self.problem = Vec::from_slice(alloc, text)?,
            "list" => self.list = Vec::from_slice(alloc, text)?,
            "piece" => self.pieces.push(Vec::from_slice(alloc, text)?)?,
            "many" => self.fill(alloc, words)?,
            "run" => return print_run(rt, &self.texts(), words, true),
            "last" => return print_run(rt, &self.texts(), words, false),
            "cuts" => return print_cuts(rt, &self.texts(), words),
            "noise" => return print_noise(rt, &self.texts(), &self.pieces, words),
            key => return println!(rt; "unknown key {key}"),
        }
        Ok(())
    }
}
