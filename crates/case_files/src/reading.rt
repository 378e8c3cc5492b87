//! Files of cases: entries of a key and a text.

use crate::escapes::push_unescaped;
use std::alloc::{AllocError, Global};

/// One entry of a file: a key and a text, without escapes.
#[derive(Debug, Drop)]
pub struct Entry {
    pub key: String,
    pub text: Vec<u8>,
}

/// The entries of a file, in order. A line `KEY TEXT` or `KEY` begins an entry; each line `| TEXT` or `|` after it adds
/// that text and a line feed. Lines that are empty or begin with `#` are passed over.
pub fn entries(alloc: Global, file: &str) -> Result<Vec<Entry>, AllocError> {
    let mut found = Vec::new(alloc);
    for line in file.lines() {
        add_line(alloc, &mut found, line)?;
    }
    Ok(found)
}

fn add_line(alloc: Global, found: &mut Vec<Entry>, line: &str) -> Result<(), AllocError> {
    if line.is_empty() || line.starts_with('#') {
        return Ok(());
    }
    let (key, text) = split_key(line);
    if key == "|" {
        return match found.last_mut() {
            Some(entry) => add_to(entry, text),
            None => Ok(()),
        };
    }
    let mut entry = Entry {
        key: String::from_str(alloc, key)?,
        text: Vec::new(alloc),
    };
    push_unescaped(&mut entry.text, text)?;
    found.push(entry)?;
    Ok(())
}

fn split_key(line: &str) -> (&str, &str) {
    match line.split_once(' ') {
        Some((key, text)) => (key, text),
        None => (line, ""),
    }
}

fn add_to(entry: &mut Entry, text: &str) -> Result<(), AllocError> {
    push_unescaped(&mut entry.text, text)?;
    entry.text.push(b'\n')?;
    Ok(())
}
