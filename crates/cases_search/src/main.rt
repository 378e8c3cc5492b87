//! Runs the parts of a search over the models of a file, and prints what came out of each.
#![tactic(auto)]

mod bench;
mod commands;
mod layers;
mod models;
mod numbers;
mod sessions;
mod shown;

use models::run_session;
use sessions::sessions_of;
use std::{fs, io};

fn main(rt: HostRuntime) -> io::Result<()> {
    let file = fs::read_to_string(&rt, "parts.txt")?;
    for session in sessions_of(rt.alloc(), file.as_str())?.iter() {
        run_session(&rt, session)?;
    }
    Ok(())
}
