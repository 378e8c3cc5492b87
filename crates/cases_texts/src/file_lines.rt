//! Cases of `lines`: the lines of a file, or its refusal.

ghost use Rattle.std.specs.Prelude.{◌≤◌, length};

use dp_base::Place;
use std::alloc::{AllocError, Global};
use yaml_scan::{Line, ScanEnd, lines};

/// The lines of a file, each as `number:indent:start-end`, or what it is refused for.
pub(crate) fn answer(alloc: Global, bytes: &[u8]) -> Result<String, AllocError>
    requires { length bytes.now ≤ 16777216 }
{
    match lines(alloc, 1, bytes) {
        Ok(found) => shown(alloc, found.list()),
        Err(end) => end_shown(alloc, end),
    }
}

fn shown(alloc: Global, found: &[Line]) -> Result<String, AllocError> {
    if found.is_empty() {
        return format!(in alloc; "no lines");
    }
    let mut out = String::new(alloc);
    for (index, line) in found.iter().enumerate() {
        if index > 0 {
            out.push(' ')?;
        }
        let (number, indent, start, end) = (line.number, line.indent, line.start, line.end);
        let line = format!(in alloc; "{number}:{indent}:{start}-{end}")?;
        out.push_str(line.as_str())?;
    }
    Ok(out)
}

pub(crate) fn end_shown(alloc: Global, end: ScanEnd) -> Result<String, AllocError> {
    match end {
        ScanEnd::NotUtf8(at) => refused(alloc, at, "10 NotUtf8"),
        ScanEnd::TabIndent(at) => refused(alloc, at, "11 TabIndent"),
        ScanEnd::Memory => format!(in alloc; "memory"),
    }
}

/// A refusal at a place: `refused LINE:COLUMN NUMBER NAME`.
pub(crate) fn refused(alloc: Global, at: Place, name: &str) -> Result<String, AllocError> {
    let (line, column) = (at.line, at.column);
    format!(in alloc; "refused {line}:{column} {name}")
}
