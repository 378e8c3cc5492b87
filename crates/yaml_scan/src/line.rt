//! A line, and why a file has none.

ghost use Rattle.std.specs.Prelude.{◌≡◌};
ghost use Rattle.yaml_scan.specs.declared.line.ScanEnd.TheVariants.{Memory};

use dp_base::Place;
use std::alloc::{AllocError, AllocFailed};
use thiserror::Error;

/// A line of a file, as a span of the file's bytes without the leading spaces and without the blanks at its end. Lines
/// are numbered from 1, `indent` counts the leading spaces, and the span of a blank line is empty.
#[derive(Clone, Copy, Debug, Drop, PartialEq, Eq)]
pub struct Line {
    pub number: u32,
    pub indent: u32,
    pub start: u32,
    pub end: u32,
}

/// Why a file has no lines.
#[derive(Debug, Drop, Error)]
pub enum ScanEnd {
    /// The first byte that begins no character of UTF-8.
    #[error("no UTF-8 at {0:?}")]
    NotUtf8(Place),
    /// The first tab among the leading blanks of a line that is neither blank nor a comment line.
    #[error("a tab as indent at {0:?}")]
    TabIndent(Place),
    #[error("out of memory")]
    Memory,
}

impl From<AllocError> for ScanEnd {
    ghost from_gives = { λ _ e. e ≡ Memory };

    fn from(_error: AllocError) -> ScanEnd {
        ScanEnd::Memory
    }
}

impl<T: Drop> From<AllocFailed<T>> for ScanEnd {
    ghost from_gives = { λ _ e. e ≡ Memory };

    fn from(_error: AllocFailed<T>) -> ScanEnd {
        ScanEnd::Memory
    }
}
