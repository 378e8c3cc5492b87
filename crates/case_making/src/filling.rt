//! Pieces in many copies.

use std::alloc::{AllocError, Global};

/// A text with so many copies of a piece in place of its first `@`. Each `#` of the piece stands for the number of the copy, from 0
/// on. A text without `@` stays as it is.
pub fn filled(alloc: Global, text: &[u8], count: u32, piece: &[u8]) -> Result<Vec<u8>, AllocError> {
    let mut out = Vec::new(alloc);
    let mut is_filled = false;
    for byte in text {
        if *byte == b'@' && !is_filled {
            is_filled = true;
            push_copies(alloc, &mut out, count, piece)?;
        } else {
            out.push(*byte)?;
        }
    }
    Ok(out)
}

fn push_copies(
    alloc: Global,
    out: &mut Vec<u8>,
    count: u32,
    piece: &[u8],
) -> Result<(), AllocError> {
    for number in 0..count {
        push_copy(alloc, out, number, piece)?;
    }
    Ok(())
}

fn push_copy(
    alloc: Global,
    out: &mut Vec<u8>,
    number: u32,
    piece: &[u8],
) -> Result<(), AllocError> {
    for byte in piece {
        if *byte == b'#' {
            let digits = format!(in alloc; "{number}")?;
            out.extend_from_slice(digits.as_bytes())?;
        } else {
            out.push(*byte)?;
        }
    }
    Ok(())
}
