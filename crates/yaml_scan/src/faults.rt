//! What a file is refused for before its lines are read, and where.

ghost use Rattle.std.specs.Prelude.{◌≡◌, ◌==◌, ◌≤◌, not, length, count_by, IfSome};
ghost use Rattle.std.specs.List.{suffix_len};
ghost use Rattle.yaml_scan.specs.Faults.{bad_byte, is_filled, tab_in, tab_indent, place_of};
ghost use Rattle.yaml_scan.specs.Bytes.{mark_length};

use crate::pieces::{first_of, mark_length, split_line, without_end};
use dp_base::{Place, leading_blanks};
use std::str;

/// The first byte that begins no character of UTF-8.
pub(crate) fn bad_byte(bytes: &[u8]) -> Option<usize>
    ensures value { result ≡ bad_byte bytes.now }
    ensures within { IfSome result (λ at. at ≤ length bytes.now) }
{
    match str::from_utf8(bytes) {
        Ok(_) => None,
        Err(error) => Some(error.valid_up_to()),
    }
}

/// Whether what stands behind a line's leading blanks is more than a comment.
fn is_filled(text: &[u8]) -> bool
    ensures { result ≡ is_filled text.now }
{
    !text.is_empty() && text[0] != b'#'
}

/// The first tab among the leading blanks of a line that is neither blank nor a comment line.
fn tab_in(line: &[u8]) -> Option<usize>
    ensures value { result ≡ tab_in line.now }
    ensures within { IfSome result (λ at. at ≤ length line.now) }
{
    let text = without_end(line);
    let (blanks, rest) = text.split_at(leading_blanks(text));
    if is_filled(rest) {
        first_of(blanks, b'\t')
    } else {
        None
    }
}

/// The first such tab of a file.
pub(crate) fn tab_indent(bytes: &[u8]) -> Option<usize>
    requires { length bytes.now ≤ 16777216 }
    ensures value { result ≡ tab_indent bytes.now }
    ensures within { IfSome result (λ at. at ≤ length bytes.now) }
{
    let mut at = mark_length(bytes);
    let mut rest = &bytes[at..];
    while !rest.is_empty() {
        let (line, later) = split_line(rest);
        if let Some(tab) = tab_in(line) {
            return Some(at + tab);
        }
        at += line.len();
        rest = later;
    }
    None
}

/// How many line feeds some bytes have.
fn feeds(bytes: &[u8]) -> usize
    ensures value { result ≡ count_by (λ byte. byte == 10) bytes.now }
    ensures within { result ≤ length bytes.now }
{
    bytes.iter().filter(|byte| **byte == b'\n').count()
}

/// How many bytes stand behind the last line feed.
fn behind_last_feed(bytes: &[u8]) -> usize
    ensures value { result ≡ suffix_len (λ byte. not (byte == 10)) bytes.now }
    ensures within { result ≤ length bytes.now }
{
    bytes
        .iter()
        .rev()
        .take_while(|byte| **byte != b'\n')
        .count()
}

/// The place of a byte in a file. A byte order mark at the file's front counts in no column.
pub(crate) fn place_of(file: u8, bytes: &[u8], at: usize) -> Place
    requires size { length bytes.now ≤ 16777216 }
    requires within { at ≤ length bytes.now }
    ensures { result ≡ place_of file bytes.now at }
{
    // No fault stands inside the mark.
    let before = &bytes[mark_length(bytes).min(at)..at];
    Place {
        file,
        line: 1 + feeds(before) as u32,
        column: 1 + behind_last_feed(before) as u32,
    }
}
