//! The program: the words of the command line, the real files and the real output, and the status of `run`.

// Solves a model in two files, as the words of the command line ask, and ends with the status of the run.
#![tactic(auto)]

use dp_outside::{FileShelf, OpenGate, OutSink};
use solve_top::{run, run_out};
use std::alloc::Global;
use std::env::{self, Env};
use std::io;
use std::process::ExitCode;

/// The words of the command line, without the program's own name. Words that are not UTF-8 are read as none.
fn words_of<R: Env + Alloc<A = Global>>(rt: &R) -> io::Result<Vec<String>> {
    match env::args(rt) {
        Ok(args) => Ok(args.skip(1).collect(rt.alloc())?),
        Err(error) if error.kind() == io::ErrorKind::OutOfMemory => Err(error),
        Err(_) => Ok(Vec::new(rt.alloc())),
    }
}

fn main(rt: HostRuntime) -> ExitCode {
    let mut shelf = FileShelf::new(&rt);
    let mut out = OutSink::new(&rt);
    let status = match words_of(&rt) {
        Ok(words) => run(
            &rt,
            rt.alloc(),
            &words,
            &mut shelf,
            &mut out,
            &OpenGate::new(),
        ),
        Err(_) => run_out(&mut out).code(),
    };
    ExitCode::from(status)
}
