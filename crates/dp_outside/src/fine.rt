//! A shelf and a sink that never fail.

ghost use Rattle.std.specs.Prelude.{◌≡◌, [], ◌∷◌, ◌++◌, Some, None, OnOk, OnErr, IfSome, IsSome};
ghost use Rattle.std.specs.Option.{option_copied};
ghost use Rattle.dp_outside.specs.Files.{file_under, bytes_or_none};

use crate::failing::Failed;
use crate::files::{NamedFile, add_file, bytes_of, copy_from_place};
use crate::shelves::Shelf;
use crate::sinks::Sink;
use std::alloc::{AllocError, Global};
use std::marker::Model;

/// A shelf in memory whose reads never fail. A name that it does not have has no bytes.
#[derive(Drop)]
pub struct FineShelf {
    alloc: Global,
    files: Vec<NamedFile>,
}

impl Model for FineShelf {
    ghost use Rattle.std.specs.Prelude.{ℕ, List};

    ghost Value = { List (List ℕ × List ℕ) };

    ghost view = { λ s. s.files.items };
}

impl FineShelf {
    /// A shelf with no file.
    pub fn new(alloc: Global) -> FineShelf
        ensures { result ≡ [] }
    {
        FineShelf {
            alloc,
            files: Vec::new(alloc),
        }
    }

    /// Adds a file under a new name. An `Err` changes nothing.
    pub fn put(&mut self, name: &str, bytes: &[u8]) -> Result<(), AllocError>
        requires { file_under self.old name.now ≡ None }
        ensures ok { OnOk result (self.new ≡ self.old ++ (name.now, bytes.now) ∷ []) }
        ensures err { OnErr result (self.new ≡ self.old) }
    {
        add_file(self.alloc, &mut self.files, name, bytes)
    }
}

impl Shelf for FineShelf {
    ghost bytes_under = { bytes_or_none };

    ghost faults = { λ _. 0 };

    fn read(&mut self, name: &str, place: u64, room: &mut [u8]) -> Result<usize, Failed> {
        match bytes_of(&self.files, name) {
            Some(bytes) => Ok(copy_from_place(bytes, place, room)),
            None => Ok(0),
        }
    }
}

/// A sink in memory whose writes never fail. It tells the bytes that it took until memory for them is
/// refused. From then on it tells none.
#[derive(Drop)]
pub struct FineSink {
    bytes: Option<Vec<u8>>,
}

impl Model for FineSink {
    ghost use Rattle.std.specs.Prelude.{ℕ, List, Option, option_map};

    ghost Value = { Option (List ℕ) };

    ghost view = { λ s. option_map (λ v. v.items) s.bytes };
}

impl FineSink {
    /// A sink that took nothing.
    pub fn new(alloc: Global) -> FineSink
        ensures { result ≡ Some [] }
    {
        FineSink {
            bytes: Some(Vec::new(alloc)),
        }
    }

    /// The bytes taken so far, and `None` exactly where the sink no longer tells them.
    pub fn bytes(&self) -> Option<&[u8]>
        ensures { option_copied result ≡ self.now }
    {
        match &self.bytes {
            Some(bytes) => Some(bytes.as_slice()),
            None => None,
        }
    }
}

impl Sink for FineSink {
    ghost taken = { λ s. s };

    ghost faults = { λ _. 0 };

    fn write(&mut self, piece: &[u8]) -> Result<usize, Failed> {
        self.bytes = grown(self.bytes.take(), piece);
        Ok(piece.len())
    }
}

/// The bytes with the piece behind them, or `None` where there is no memory for it.
fn grown(bytes: Option<Vec<u8>>, piece: &[u8]) -> Option<Vec<u8>>
    ensures { IfSome result
        (λ after. IfSome bytes (λ before. after.items ≡ before.items ++ piece.now) × IsSome bytes) }
{
    let mut bytes = bytes?;
    match bytes.extend_from_slice(piece) {
        Ok(()) => Some(bytes),
        Err(_) => None,
    }
}
