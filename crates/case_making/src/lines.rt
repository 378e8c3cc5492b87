//! The lines of a text, with their line feeds.

ghost use Rattle.std.specs.Prelude.{◌≡◌, ◌≤◌, length};

use std::alloc::{AllocError, Global};

/// Where the line of a place begins.
fn line_start(text: &[u8], place: usize) -> usize
    requires { place ≤ length text.now }
    ensures { result ≤ place }
{
    for back in 0..place {
        if text[place - back - 1] == b'\n' {
            return place - back;
        }
    }
    0
}

/// Where the line of a place ends, behind its line feed.
fn line_end(text: &[u8], place: usize) -> usize
    requires { place ≤ length text.now }
    ensures behind { place ≤ result }
    ensures within { result ≤ length text.now }
{
    for at in place..text.len() {
        if text[at] == b'\n' {
            return at + 1;
        }
    }
    text.len()
}

/// A text with the line of a place and the next one exchanged.
pub(crate) fn exchanged(alloc: Global, text: &[u8], place: usize) -> Result<Vec<u8>, AllocError>
    requires { place ≤ length text.now }
{
    let start = line_start(text, place);
    let middle = line_end(text, place);
    let end = line_end(text, middle);
    let mut out = Vec::from_slice(alloc, &text[..start])?;
    out.extend_from_slice(&text[middle..end])?;
    out.extend_from_slice(&text[start..middle])?;
    out.extend_from_slice(&text[end..])?;
    Ok(out)
}
