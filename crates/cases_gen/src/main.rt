//! Prints the texts of the generated models that a file names.
#![tactic(auto)]

use model_gen::{GenKind, generate};
use std::{fs, io};

/// A kind, a size that it may have, and a seed.
struct Order {
    kind: GenKind,
    size: u32,
    seed: u64,
}

/// The model that a line names: its kind, its size and its seed. `None` where it names none.
fn order_of(line: &str) -> Option<Order> {
    let (kind, numbers) = line.split_once(' ')?;
    let (size, seed) = numbers.split_once(' ')?;
    Some(Order {
        kind: GenKind::named(kind)?,
        size: size.parse::<u32>().ok()?,
        seed: seed.parse::<u64>().ok()?,
    })
}

fn print_model(rt: &HostRuntime, line: &str) -> io::Result<()> {
    println!(rt; "== {line}")?;
    let Some(Order { kind, size, seed }) = order_of(line) else {
        return println!(rt; "no model");
    };
    if size < kind.least_size() || kind.most_size() < size {
        return println!(rt; "size out of range");
    }
    let (domain, problem) = generate(rt.alloc(), kind, size, seed)?;
    let domain = str::from_utf8(&domain).unwrap_or("not UTF-8");
    let problem = str::from_utf8(&problem).unwrap_or("not UTF-8");
    print!(rt; "{domain}--\n{problem}")
}

fn main(rt: HostRuntime) -> io::Result<()> {
    let file = fs::read_to_string(&rt, "models.txt")?;
    for line in file.lines() {
        print_model(&rt, line)?;
    }
    Ok(())
}
