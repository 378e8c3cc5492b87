//! Noise: texts that are changed at places that are drawn.

ghost use Rattle.std.specs.Prelude.{◌≡◌, ◌≤◌, ◌<◌, length};

use crate::draws::Draws;
use crate::lines::exchanged;
use std::alloc::{AllocError, Global};

/// The bits of which one is flipped in a byte.
static BITS: [u8; 4] = [0x80, 0x40, 0x20, 0x02];

/// A text between two places of which another stands.
fn joined(
    alloc: Global,
    text: &[u8],
    end: usize,
    piece: &[u8],
    start: usize,
) -> Result<Vec<u8>, AllocError>
    requires end { end ≤ length text.now }
    requires start { start ≤ length text.now }
{
    let mut out = Vec::from_slice(alloc, &text[..end])?;
    out.extend_from_slice(piece)?;
    out.extend_from_slice(&text[start..])?;
    Ok(out)
}

/// A text with one bit of the byte at a place flipped, if there is a byte.
fn flipped(alloc: Global, text: &[u8], place: usize, bit: u8) -> Result<Vec<u8>, AllocError> {
    let mut out = Vec::from_slice(alloc, text)?;
    if let Some(byte) = out.get_mut(place) {
        *byte ^= bit;
    }
    Ok(out)
}

fn bit(draws: &mut Draws) -> u8 {
    BITS[draws.below(4)]
}

fn piece_of<'a>(draws: &mut Draws, pieces: &'a [Vec<u8>]) -> &'a [u8] {
    match pieces.get(draws.below(pieces.len())) {
        Some(piece) => piece.as_slice(),
        None => b"",
    }
}

/// A text that is changed at one place: a bit flipped, some bytes doubled, cut out, or cut off with all behind them; two lines
/// exchanged; a piece in place of some bytes, or (the last three kinds) before them.
fn changed(
    alloc: Global,
    draws: &mut Draws,
    text: &[u8],
    pieces: &[Vec<u8>],
) -> Result<Vec<u8>, AllocError> {
    let start = draws.below(text.len());
    let end = (start + 1 + draws.below(12)).min(text.len());
    match draws.below(9) {
        0 => flipped(alloc, text, start, bit(draws)),
        1 => joined(alloc, text, end, &text[start..end], end),
        2 => joined(alloc, text, start, b"", end),
        3 => Vec::from_slice(alloc, &text[..start]),
        4 => exchanged(alloc, text, start),
        5 => joined(alloc, text, start, piece_of(draws, pieces), end),
        _ => joined(alloc, text, start, piece_of(draws, pieces), start),
    }
}

/// A text that is changed at one to three places. What is put into it is drawn from the pieces.
pub fn noisy(
    alloc: Global,
    draws: &mut Draws,
    text: &[u8],
    pieces: &[Vec<u8>],
) -> Result<Vec<u8>, AllocError> {
    let mut text = Vec::from_slice(alloc, text)?;
    for _ in 0..draws.below(3) + 1 {
        text = changed(alloc, draws, &text, pieces)?;
    }
    Ok(text)
}
