//! Many runs over texts that are made of two, and what is told of them together.

use crate::cases::first_word;
use case_making::{Draws, Tally, noisy};
use case_running::{Texts, run_over};
use std::alloc::{AllocError, Global};
use std::io;
use std::sync::Wait;
use std::thread::Threads;

/// Adds a run over these texts to those that are told together.
fn add_run<R: Threads + Wait + Sync>(
    rt: &R,
    alloc: Global,
    tally: &mut Tally,
    texts: &Texts<'_>,
    words: &str,
) -> Result<(), AllocError> {
    let ran = run_over(rt, alloc, texts, words)?;
    tally.add(alloc, ran.output(), ran.status)
}

/// Adds a run for each byte at which the domain is cut.
fn cut_domain<R: Threads + Wait + Sync>(
    rt: &R,
    alloc: Global,
    tally: &mut Tally,
    texts: &Texts<'_>,
    words: &str,
) -> Result<(), AllocError> {
    for place in 0..texts.domain.len() {
        let domain = &texts.domain[..place];
        add_run(rt, alloc, tally, &Texts { domain, ..*texts }, words)?;
    }
    Ok(())
}

/// Adds a run for each byte at which the problem is cut.
fn cut_problem<R: Threads + Wait + Sync>(
    rt: &R,
    alloc: Global,
    tally: &mut Tally,
    texts: &Texts<'_>,
    words: &str,
) -> Result<(), AllocError> {
    for place in 0..texts.problem.len() {
        let problem = &texts.problem[..place];
        add_run(rt, alloc, tally, &Texts { problem, ..*texts }, words)?;
    }
    Ok(())
}

/// Runs over both texts, each cut at each of its bytes.
pub(crate) fn print_cuts<R: Threads + Wait + Sync + Print + Alloc<A = Global>>(
    rt: &R,
    texts: &Texts<'_>,
    words: &str,
) -> io::Result<()> {
    let alloc = rt.alloc();
    let mut tally = Tally::new(alloc);
    cut_domain(rt, alloc, &mut tally, texts, words)?;
    cut_problem(rt, alloc, &mut tally, texts, words)?;
    let lines = tally.lines(alloc)?;
    print!(rt; "-- {words}, each text cut at each byte\n{lines}")
}

/// Adds a run over both texts, of which one that is drawn has noise.
fn add_noisy<R: Threads + Wait + Sync>(
    rt: &R,
    alloc: Global,
    tally: &mut Tally,
    draws: &mut Draws,
    texts: &Texts<'_>,
    pieces: &[Vec<u8>],
    words: &str,
) -> Result<(), AllocError> {
    if draws.below(2) == 0 {
        let domain = noisy(alloc, draws, texts.domain, pieces)?;
        let domain = domain.as_slice();
        return add_run(rt, alloc, tally, &Texts { domain, ..*texts }, words);
    }
    let problem = noisy(alloc, draws, texts.problem, pieces)?;
    let problem = problem.as_slice();
    add_run(rt, alloc, tally, &Texts { problem, ..*texts }, words)
}

/// Runs over both texts with noise: the words are how many texts, the seed, and those of the runs.
pub(crate) fn print_noise<R: Threads + Wait + Sync + Print + Alloc<A = Global>>(
    rt: &R,
    texts: &Texts<'_>,
    pieces: &[Vec<u8>],
    words: &str,
) -> io::Result<()> {
    let alloc = rt.alloc();
    let (count, rest) = first_word(words);
    let (seed, words) = first_word(rest);
    let (count, seed) = (count.parse().unwrap_or(0u32), seed.parse().unwrap_or(0u64));
    let mut tally = Tally::new(alloc);
    let mut draws = Draws::new(seed);
    for _ in 0..count {
        add_noisy(rt, alloc, &mut tally, &mut draws, texts, pieces, words)?;
    }
    let lines = tally.lines(alloc)?;
    print!(rt; "-- {words}, {count} texts with noise, from {seed} on\n{lines}")
}
