//! What files are read from.

ghost use Rattle.std.specs.Prelude.{◌≡◌, ℕ, ◌≤◌, ◌<◌, List, Option, length, IfOk, OnErr, IfSome};
ghost use Rattle.dp_outside.specs.Outside.{Rose, ReadsAt};

use crate::failing::Failed;

/// Files under names, read piece by piece.
pub trait Shelf {
    /// The bytes under each name, where the shelf tells them.
    ghost bytes_under: { Self → List ℕ → Option (List ℕ) };

    /// How often the shelf has failed. It never falls.
    ghost faults: { Self → ℕ };

    /// Puts bytes of the file from a place on at the front of the room, and says how many. `Ok(0)` says that
    /// the file ends at or before the place. After an `Err` nothing is said of the bytes in the room.
    fn read(&mut self, name: &str, place: u64, room: &mut [u8]) -> Result<usize, Failed>
        requires { 0 < length room.old }
        ensures within { IfOk result (λ count. count ≤ length room.old) }
        ensures bytes { IfOk result (λ count.
            IfSome (bytes_under self.old name.now) (λ bytes. ReadsAt bytes place count room.new)) }
        ensures failed { OnErr result (Rose (faults self.old) (faults self.new)) }
        ensures count { faults self.old ≤ faults self.new }
        ensures telling { (file : List ℕ) → bytes_under self.new file ≡ bytes_under self.old file };
}
