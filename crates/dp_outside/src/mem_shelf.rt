//! Files in memory, with reads that are told to fail.

ghost use Rattle.std.specs.Prelude.{◌≡◌, ℕ, ◌≤◌, ◌<◌, ◌↔◌, ◌⊎◌, List, [], ◌∷◌, ◌++◌, None, length, Contains, IfOk, IfSome, IsErr, IsNone, OnOk, OnErr};
ghost use Rattle.dp_outside.specs.Files.{file_under};
ghost use Rattle.dp_outside.specs.Memory.{one_more};
ghost use Rattle.dp_outside.specs.Outside.{Rose, ReadsAt};

use crate::failing::Failed;
use crate::files::{NamedFile, add_file, bytes_of, copy_from_place};
use crate::shelves::Shelf;
use std::alloc::{AllocError, Global};
use std::marker::Model;

/// A shelf in memory for tests of failures: a read fails where `fail_at` told it to, and where no file has
/// the name. Its counters stay at their last value.
#[derive(Drop)]
pub struct MemShelf {
    alloc: Global,
    files: Vec<NamedFile>,
    failing: Vec<u64>,
    calls: u64,
    faults: u64,
}

impl Model for MemShelf {
    ghost use Rattle.dp_outside.specs.Memory.{MemFiles};

    ghost Value = { MemFiles };

    ghost view = { λ s. record {
      files = s.files.items;
      failing = s.failing.items;
      calls = s.calls;
      faults = s.faults;
    } };
}

impl MemShelf {
    /// A shelf with no file, of which no read fails.
    pub fn new(alloc: Global) -> MemShelf
        ensures { result ≡ record { files = []; failing = []; calls = 0; faults = 0 } }
    {
        MemShelf {
            alloc,
            files: Vec::new(alloc),
            failing: Vec::new(alloc),
            calls: 0,
            faults: 0,
        }
    }

    /// Adds a file under a new name. An `Err` changes nothing.
    pub fn put(&mut self, name: &str, bytes: &[u8]) -> Result<(), AllocError>
        requires { file_under self.old.files name.now ≡ None }
        ensures ok { OnOk result
            (self.new ≡ record self.old { files = self.old.files ++ (name.now, bytes.now) ∷ [] }) }
        ensures err { OnErr result (self.new ≡ self.old) }
    {
        add_file(self.alloc, &mut self.files, name, bytes)
    }

    /// Lets the read call of that number fail, counted from 1 over all reads of the shelf. An `Err` changes
    /// nothing.
    pub fn fail_at(&mut self, call: u64) -> Result<(), AllocError>
        ensures ok { OnOk result
            (self.new ≡ record self.old { failing = self.old.failing ++ call ∷ [] }) }
        ensures err { OnErr result (self.new ≡ self.old) }
    {
        self.failing.push(call)?;
        Ok(())
    }
}

impl Shelf for MemShelf {
    ghost bytes_under = { λ s. file_under s.files };

    ghost faults = { λ s. s.faults };

    fn read(&mut self, name: &str, place: u64, room: &mut [u8]) -> Result<usize, Failed>
        requires { 0 < length room.old }
        ensures within { IfOk result (λ count. count ≤ length room.old) }
        ensures bytes { IfOk result (λ count.
            IfSome (file_under self.old.files name.now) (λ bytes. ReadsAt bytes place count room.new)) }
        ensures failed { OnErr result (Rose self.old.faults self.new.faults) }
        ensures count { self.old.faults ≤ self.new.faults }
        ensures telling { (file : List ℕ)
            → file_under self.new.files file ≡ file_under self.old.files file }

        // It fails where it was told to, or where no file has the name.
        ensures fails { IsErr result
            ↔ (Contains self.old.failing (one_more self.old.calls)
            ⊎ IsNone (file_under self.old.files name.now)) }

        // It counts its calls, and those that failed.
        ensures after_ok { OnOk result
            (self.new ≡ record self.old { calls = one_more self.old.calls }) }
        ensures after_err { OnErr result
            (self.new ≡ record self.old {
              calls = one_more self.old.calls;
              faults = one_more self.old.faults;
            }) }
    {
        self.calls = self.calls.saturating_add(1);
        let count = read_unless(&self.failing, self.calls, &self.files, name, place, room);
        if count.is_err() {
            self.faults = self.faults.saturating_add(1);
        }
        count
    }
}

/// Reads a file, unless the call is among the failing ones.
fn read_unless(
    failing: &[u64],
    call: u64,
    files: &[NamedFile],
    name: &str,
    place: u64,
    room: &mut [u8],
) -> Result<usize, Failed>
    requires { 0 < length room.old }
    ensures within { IfOk result (λ count. count ≤ length room.old) }
    ensures bytes { IfOk result (λ count.
        IfSome (file_under files.now name.now) (λ bytes. ReadsAt bytes place count room.new)) }
    ensures fails { IsErr result
        ↔ (Contains failing.now call ⊎ IsNone (file_under files.now name.now)) }
{
    if failing.contains(&call) {
        return Err(Failed);
    }
    match bytes_of(files, name) {
        Some(bytes) => Ok(copy_from_place(bytes, place, room)),
        None => Err(Failed),
    }
}
