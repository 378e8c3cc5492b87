//! The real files and the real standard output: the trusted edge.

ghost use Rattle.std.specs.Prelude.{◌≡◌, ◌≤◌, length, None, IfOk};

use crate::failing::Failed;
use crate::shelves::Shelf;
use crate::sinks::Sink;
use std::io::{Read, Seek, SeekFrom};
use std::marker::Model;
use std::rt::Files;
use std::{fs, io};

/// The files of the system. A name is a path. Each read opens the file anew. It tells no bytes; contracts
/// see how often it has failed.
#[derive(Drop)]
pub struct FileShelf<R: Files> {
    rt: R,
    faults: u64,
}

impl<R: Files> Model for FileShelf<R> {
    ghost use Rattle.std.specs.Prelude.{ℕ};

    ghost Value = { ℕ };

    ghost view = { λ s. s.faults };
}

impl<R: Files> FileShelf<R> {
    /// A shelf that has not failed.
    pub fn new(rt: R) -> FileShelf<R>
        ensures { result ≡ 0 }
    {
        FileShelf { rt, faults: 0 }
    }

    /// How often an open, a seek or a read has failed.
    pub fn faults(&self) -> u64
        ensures { result ≡ self.now }
    {
        self.faults
    }
}

impl<R: Files> Shelf for FileShelf<R> {
    ghost bytes_under = { λ _ _. None };

    ghost faults = { λ s. s };

    fn read(&mut self, name: &str, place: u64, room: &mut [u8]) -> Result<usize, Failed> {
        match read_file(&self.rt, name, place, room) {
            Ok(count) => Ok(count),
            Err(_) => {
                self.faults = self.faults.saturating_add(1);
                Err(Failed)
            }
        }
    }
}

fn read_file<R: Files>(rt: &R, name: &str, place: u64, room: &mut [u8]) -> io::Result<usize>
    ensures { IfOk result (λ count. count ≤ length room.old) }
{
    let mut file = fs::open(rt, name)?;
    file.seek(SeekFrom::Start(place))?;
    file.read(room)
}

/// The standard output, not buffered. It tells no bytes; contracts see how often it has failed.
#[derive(Drop)]
pub struct OutSink<R: Print> {
    rt: R,
    faults: u64,
}

impl<R: Print> Model for OutSink<R> {
    ghost use Rattle.std.specs.Prelude.{ℕ};

    ghost Value = { ℕ };

    ghost view = { λ s. s.faults };
}

impl<R: Print> OutSink<R> {
    /// A sink that has not failed.
    pub fn new(rt: R) -> OutSink<R>
        ensures { result ≡ 0 }
    {
        OutSink { rt, faults: 0 }
    }

    /// How often a write has failed or taken nothing.
    pub fn faults(&self) -> u64
        ensures { result ≡ self.now }
    {
        self.faults
    }
}

impl<R: Print> Sink for OutSink<R> {
    ghost taken = { λ _. None };

    ghost faults = { λ s. s };

    fn write(&mut self, piece: &[u8]) -> Result<usize, Failed> {
        match self.rt.write_some(piece) {
            Ok(count) if count > 0 => Ok(count),
            _ => {
                self.faults = self.faults.saturating_add(1);
                Err(Failed)
            }
        }
    }
}
