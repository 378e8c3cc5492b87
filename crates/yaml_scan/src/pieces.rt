//! The pieces of a file: its mark, its lines and their ends, and what leads and ends a line.

ghost use Rattle.std.specs.Prelude.{◌≡◌, ◌==◌, ◌∷◌, ◌+◌, ◌<◌, ◌≤◌, length, position, IfSome};
ghost use Rattle.std.specs.List.{prefix_len, suffix_len};
ghost use Rattle.dp_base.specs.Bytes.{is_blank};
ghost use Rattle.yaml_scan.specs.Bytes.{is_space, mark_length, cut, without_end};

use dp_base::is_blank;

/// A byte order mark, U+FEFF in UTF-8.
const MARK: [u8; 3] = [0xEF, 0xBB, 0xBF];

/// How many bytes a byte order mark at the front of a file has: none, where no mark is there.
pub(crate) fn mark_length(bytes: &[u8]) -> usize
    ensures value { result ≡ mark_length bytes.now }
    ensures within { result ≤ length bytes.now }
{
    if bytes.starts_with(&MARK) {
        MARK.len()
    } else {
        0
    }
}

/// The first place of a byte.
pub(crate) fn first_of(bytes: &[u8], wanted: u8) -> Option<usize>
    ensures value { result ≡ position (λ byte. byte == wanted) bytes.now }
    ensures within { IfSome result (λ i. i < length bytes.now) }
{
    bytes.iter().position(|byte| *byte == wanted)
}

/// The first line of bytes, with the line feed that ends it, and the bytes behind it.
pub(crate) fn split_line(bytes: &[u8]) -> (&[u8], &[u8])
    requires { 0 < length bytes.now }
    ensures first { cut bytes.now ≡ result.0.now ∷ cut result.1.now }
    ensures filled { 0 < length result.0.now }
    ensures whole { length result.0.now + length result.1.now ≡ length bytes.now }
{
    match first_of(bytes, b'\n') {
        Some(feed) => bytes.split_at(feed + 1),
        None => bytes.split_at(bytes.len()),
    }
}

/// A line without the line feed, or the carriage return and the line feed, that ends it.
pub(crate) fn without_end(line: &[u8]) -> &[u8]
    ensures value { result.now ≡ without_end line.now }
    ensures within { length result.now ≤ length line.now }
{
    if line.ends_with(b"\r\n") {
        &line[..line.len() - 2]
    } else if line.ends_with(b"\n") {
        &line[..line.len() - 1]
    } else {
        line
    }
}

/// How many spaces lead a text.
pub(crate) fn leading_spaces(text: &[u8]) -> usize
    ensures value { result ≡ prefix_len is_space text.now }
    ensures within { result ≤ length text.now }
{
    text.iter().take_while(|byte| **byte == b' ').count()
}

/// How many blanks end a text.
pub(crate) fn trailing_blanks(text: &[u8]) -> usize
    ensures value { result ≡ suffix_len is_blank text.now }
    ensures within { result ≤ length text.now }
{
    text.iter()
        .rev()
        .take_while(|byte| is_blank(**byte))
        .count()
}
