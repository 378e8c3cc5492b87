//! The sessions of a file: two texts, whether dual bounds and dominance are used, and the commands.

use case_files::{Entry, entries};
use std::alloc::{AllocError, Global};

/// A command: its word, and what stands behind it.
#[derive(Debug, Drop)]
pub(crate) struct Command {
    pub(crate) word: String,
    pub(crate) rest: Vec<u8>,
}

/// What is run over one model.
#[derive(Debug, Drop)]
pub(crate) struct Session {
    pub(crate) name: Vec<u8>,
    pub(crate) domain: Vec<u8>,
    pub(crate) problem: Vec<u8>,
    pub(crate) prune: bool,
    pub(crate) commands: Vec<Command>,
}

impl Session {
    /// A session without texts and commands.
    fn new(alloc: Global) -> Session {
        Session {
            name: Vec::new(alloc),
            domain: Vec::new(alloc),
            problem: Vec::new(alloc),
            prune: false,
            commands: Vec::new(alloc),
        }
    }

    /// A session over the same texts, without commands.
    fn begun(&self, alloc: Global, prune: bool) -> Result<Session, AllocError> {
        Ok(Session {
            name: self.name.clone()?,
            domain: self.domain.clone()?,
            problem: self.problem.clone()?,
            prune,
            commands: Vec::new(alloc),
        })
    }
}

/// The sessions of a file, in order. `case`, `domain` and `problem` give the name and the texts of the sessions behind
/// them, `prune on` and `prune off` each begin one, and every other entry is a command of the last one.
pub(crate) fn sessions_of(alloc: Global, file: &str) -> Result<Vec<Session>, AllocError> {
    let mut texts = Session::new(alloc);
    let mut sessions = Vec::new(alloc);
    for entry in entries(alloc, file)?.iter() {
        take_entry(alloc, &mut texts, &mut sessions, entry)?;
    }
    Ok(sessions)
}

fn take_entry(
    alloc: Global,
    texts: &mut Session,
    sessions: &mut Vec<Session>,
    entry: &Entry,
) -> Result<(), AllocError> {
    match entry.key.as_str() {
        "case" => texts.name = entry.text.clone()?,
        "domain" => texts.domain = entry.text.clone()?,
        "problem" => texts.problem = entry.text.clone()?,
        "prune" => sessions.push(texts.begun(alloc, entry.text.as_slice() == b"on".as_slice())?)?,
        _ => add_command(sessions, entry)?,
    }
    Ok(())
}

fn add_command(sessions: &mut Vec<Session>, entry: &Entry) -> Result<(), AllocError> {
    if let Some(session) = sessions.last_mut() {
        session.commands.push(Command {
            word: entry.key.clone()?,
            rest: entry.text.clone()?,
        })?;
    }
    Ok(())
}
