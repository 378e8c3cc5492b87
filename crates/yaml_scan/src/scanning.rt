//! A file's lines, or its first fault.

ghost use Rattle.std.specs.Prelude.{◌≡◌, ◌+◌, ◌^◌, ◌<◌, ◌≤◌, length, IfOk, IfErr, IfSome, IfNone, None, Some, Ok, Err};
ghost use Rattle.yaml_scan.specs.Faults.{bad_byte, tab_indent};
ghost use Rattle.yaml_scan.specs.Lines.{line_at, lines_of};
ghost use Rattle.yaml_scan.specs.Scan.{scan, MemoryOr};

use crate::faults::{bad_byte, place_of, tab_indent};
use crate::line::{Line, ScanEnd};
use crate::pieces::{leading_spaces, mark_length, split_line, trailing_blanks, without_end};
use dp_base::Seq;
use std::alloc::{AllocError, Global};

/// The line of this number whose first byte has this offset.
fn line_at(number: u32, at: usize, line: &[u8]) -> Line
    requires { at + length line.now < 2 ^ 32 }
    ensures { result ≡ line_at number at line.now }
{
    let text = without_end(line);
    let indent = leading_spaces(text);
    let start = at + indent;
    let rest = &text[indent..];
    let end = start + rest.len() - trailing_blanks(rest);
    Line {
        number,
        indent: indent as u32,
        start: start as u32,
        end: end as u32,
    }
}

/// The lines of a file that has no fault.
fn lines_of(alloc: Global, bytes: &[u8]) -> Result<Vec<Line>, AllocError>
    requires { length bytes.now ≤ 16777216 }
    ensures { IfOk result (λ lines. lines.items ≡ lines_of bytes.now) }
{
    let mut lines = Vec::new(alloc);
    let mut number = 1;
    let mut at = mark_length(bytes);
    let mut rest = &bytes[at..];
    while !rest.is_empty() {
        let (line, later) = split_line(rest);
        lines.push(line_at(number, at, line))?;
        number += 1;
        at += line.len();
        rest = later;
    }
    Ok(lines)
}

/// The first fault of a file.
fn first_fault(file: u8, bytes: &[u8]) -> Option<ScanEnd>
    requires { length bytes.now ≤ 16777216 }
    ensures some { IfSome result (λ e. scan file bytes.now ≡ Err e) }
    ensures none { IfNone result (scan file bytes.now ≡ Ok (lines_of bytes.now)) }
{
    match (bad_byte(bytes), tab_indent(bytes)) {
        (None, None) => None,
        (Some(bad), None) => Some(ScanEnd::NotUtf8(place_of(file, bytes, bad))),
        (None, Some(tab)) => Some(ScanEnd::TabIndent(place_of(file, bytes, tab))),
        (Some(bad), Some(tab)) if bad < tab => {
            Some(ScanEnd::NotUtf8(place_of(file, bytes, bad)))
        }
        (Some(_), Some(tab)) => Some(ScanEnd::TabIndent(place_of(file, bytes, tab))),
    }
}

/// The lines of a file in order (YAML 1.2.2, chapter 5). A line ends with a line feed, a carriage return and a line
/// feed, or the end of the file; unlike in YAML a carriage return alone ends none.
pub fn lines(alloc: Global, file: u8, bytes: &[u8]) -> Result<Seq<Line>, ScanEnd>
    requires { length bytes.now ≤ 16777216 }
    // All lines, and nothing is refused.
    ensures lines { IfOk result (λ found. scan file bytes.now ≡ Ok found) }
    // The first refusal in the file.
    ensures refused { IfErr result (MemoryOr (λ e. scan file bytes.now ≡ Err e)) }
{
    if let Some(fault) = first_fault(file, bytes) {
        return Err(fault);
    }
    Ok(Seq::of(lines_of(alloc, bytes)?))
}
