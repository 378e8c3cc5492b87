//! Output in memory, with writes that are told to fail.

ghost use Rattle.std.specs.Prelude.{◌≡◌, ◌≤◌, ◌<◌, [], ◌∷◌, ◌++◌, Some, length, take, Contains, IfOk, IsErr, OnOk, OnErr};
ghost use Rattle.std.specs.Option.{option_copied};
ghost use Rattle.dp_outside.specs.Memory.{one_more};
ghost use Rattle.dp_outside.specs.Outside.{Rose, Takes};

use crate::failing::Failed;
use crate::sinks::Sink;
use std::alloc::{AllocError, Global};
use std::marker::Model;

/// A sink in memory for tests of failures: a write fails where `fail_at` told it to, and where memory is
/// refused. It tells its bytes at all times. Its counters stay at their last value.
#[derive(Drop)]
pub struct MemSink {
    bytes: Vec<u8>,
    failing: Vec<u64>,
    calls: u64,
    faults: u64,
}

impl Model for MemSink {
    ghost use Rattle.dp_outside.specs.Memory.{MemBytes};

    ghost Value = { MemBytes };

    ghost view = { λ s. record {
      bytes = s.bytes.items;
      failing = s.failing.items;
      calls = s.calls;
      faults = s.faults;
    } };
}

impl MemSink {
    /// A sink that took nothing, of which no write is to fail.
    pub fn new(alloc: Global) -> MemSink
        ensures { result ≡ record { bytes = []; failing = []; calls = 0; faults = 0 } }
    {
        MemSink {
            bytes: Vec::new(alloc),
            failing: Vec::new(alloc),
            calls: 0,
            faults: 0,
        }
    }

    /// Lets the write call of that number fail, counted from 1 over all writes to the sink. An `Err` changes
    /// nothing.
    pub fn fail_at(&mut self, call: u64) -> Result<(), AllocError>
        ensures ok { OnOk result
            (self.new ≡ record self.old { failing = self.old.failing ++ call ∷ [] }) }
        ensures err { OnErr result (self.new ≡ self.old) }
    {
        self.failing.push(call)?;
        Ok(())
    }

    /// The bytes taken so far. This sink tells them at all times.
    pub fn bytes(&self) -> Option<&[u8]>
        ensures { option_copied result ≡ Some self.now.bytes }
    {
        Some(self.bytes.as_slice())
    }
}

impl Sink for MemSink {
    ghost taken = { λ s. Some s.bytes };

    ghost faults = { λ s. s.faults };

    fn write(&mut self, piece: &[u8]) -> Result<usize, Failed>
        requires { 0 < length piece.now }
        ensures some { IfOk result (λ count. (0 < count) × (count ≤ length piece.now)) }
        ensures ok { IfOk result
            (λ count. Takes (Some self.old.bytes) (Some self.new.bytes) (take count piece.now)) }
        ensures err { OnErr result (Takes (Some self.old.bytes) (Some self.new.bytes) []) }
        ensures failed { OnErr result (Rose self.old.faults self.new.faults) }
        ensures count { self.old.faults ≤ self.new.faults }

        // It fails where it was told to. Elsewhere an `Err` says that memory was refused.
        ensures fails { Contains self.old.failing (one_more self.old.calls) → IsErr result }

        // It takes the whole piece or nothing, and counts its calls, and those that failed.
        ensures whole { IfOk result (λ count. count ≡ length piece.now) }
        ensures after_ok { OnOk result
            (self.new ≡ record self.old {
              bytes = self.old.bytes ++ piece.now;
              calls = one_more self.old.calls;
            }) }
        ensures after_err { OnErr result
            (self.new ≡ record self.old {
              calls = one_more self.old.calls;
              faults = one_more self.old.faults;
            }) }
    {
        self.calls = self.calls.saturating_add(1);
        let count = write_unless(&self.failing, self.calls, &mut self.bytes, piece);
        if count.is_err() {
            self.faults = self.faults.saturating_add(1);
        }
        count
    }
}

/// Adds a piece to the bytes, unless the call is among the failing ones.
fn write_unless(
    failing: &[u64],
    call: u64,
    bytes: &mut Vec<u8>,
    piece: &[u8],
) -> Result<usize, Failed>
    ensures fails { Contains failing.now call → IsErr result }
    ensures whole { IfOk result (λ count. count ≡ length piece.now) }
    ensures ok { OnOk result (bytes.new.items ≡ bytes.old.items ++ piece.now) }
    ensures err { OnErr result (bytes.new.items ≡ bytes.old.items) }
{
    if failing.contains(&call) {
        return Err(Failed);
    }
    match bytes.extend_from_slice(piece) {
        Ok(()) => Ok(piece.len()),
        Err(_) => Err(Failed),
    }
}
