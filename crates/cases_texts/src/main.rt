//! Runs the cases of texts and prints each with what came out: files and their lines, YAML texts and their trees,
//! expressions and their forms.
#![tactic(auto)]

mod expressions;
mod file_lines;
mod trees;

use case_files::{Entry, entries, escaped};
use dp_base::FILE_LIMIT;
use std::alloc::{AllocError, Global};
use std::{fs, io};

/// The files of cases, in the order in which they are run.
const FILES: [&str; 3] = ["lines.txt", "yaml.txt", "expressions.txt"];

/// What a case gives, in a line of its own.
fn answer(alloc: Global, case: &Entry) -> Result<String, AllocError> {
    let bytes = case.text.as_slice();
    if bytes.len() > FILE_LIMIT {
        return format!(in alloc; "too long");
    }
    match case.key.as_str() {
        "lines" => file_lines::answer(alloc, bytes),
        "yaml" => trees::answer(alloc, bytes),
        "expression" => expressions::answer(alloc, bytes),
        _ => format!(in alloc; "no case"),
    }
}

fn run_file(rt: &HostRuntime, file: &str) -> io::Result<()> {
    let alloc = rt.alloc();
    for (index, case) in entries(alloc, file)?.iter().enumerate() {
        let number = index.saturating_add(1);
        let text = escaped(alloc, &case.text)?;
        let given = answer(alloc, case)?;
        let key = &case.key;
        println!(rt; "{key} {number} \"{text}\"\n    {given}")?;
    }
    Ok(())
}

fn main(rt: HostRuntime) -> io::Result<()> {
    for name in FILES.iter() {
        let file = fs::read_to_string(&rt, name)?;
        run_file(&rt, file.as_str())?;
    }
    Ok(())
}
