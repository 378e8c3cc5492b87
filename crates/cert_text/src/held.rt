//! Lines that are held until many of them are written at once.

ghost use Rattle.std.specs.Prelude.{◌≡◌, [], Some};
ghost use Rattle.solve_report.specs.Puts.{Puts};

use arrayvec::ArrayVec;
use dp_outside::{Failed, Sink, put_all};

/// How many bytes are held at most.
const ROOM: usize = 8192;

/// The end of a text that is not written yet, as a sink of a fixed size: a write fails where its piece does not fit.
#[derive(Drop)]
pub struct Held {
    pub bytes: ArrayVec<u8, ROOM>,
    pub faults: u64,
}

impl Held {
    /// Nothing is held.
    pub(crate) fn new() -> Held
        ensures { result.bytes.items ≡ [] }
    {
        Held {
            bytes: ArrayVec::new(),
            faults: 0,
        }
    }
}

impl Sink for Held {
    ghost taken = { λ s. Some s.bytes.items };

    ghost faults = { λ s. s.faults };

    fn write(&mut self, piece: &[u8]) -> Result<usize, Failed> {
        match self.bytes.try_extend_from_slice(piece) {
            Ok(()) => Ok(piece.len()),
            Err(_) => {
                self.faults = self.faults.saturating_add(1);
                Err(Failed)
            }
        }
    }
}

/// Writes what is held, and holds nothing.
pub(crate) fn write_held<S: Sink>(out: &mut S, held: &mut Held) -> Result<(), Failed>
    ensures wrote { Puts (S.taken out.old) (S.taken out.new) (S.faults out.old) (S.faults out.new)
        held.old.bytes.items result }
    ensures none { held.new.bytes.items ≡ [] }
{
    let written = put_all(out, held.bytes.as_slice());
    held.bytes.clear();
    written
}
