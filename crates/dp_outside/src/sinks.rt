//! What the output goes to.

ghost use Rattle.std.specs.Prelude.{ℕ, ◌≤◌, ◌<◌, [], List, Option, length, take, IfOk, OnErr};
ghost use Rattle.dp_outside.specs.Outside.{Rose, Takes};

use crate::failing::Failed;

/// Takes bytes, one piece after another.
pub trait Sink {
    /// The bytes taken so far, where the sink tells them. Once it stops telling them it never tells them again.
    ghost taken: { Self → Option (List ℕ) };

    /// How often the sink has failed. It never falls.
    ghost faults: { Self → ℕ };

    /// Takes some bytes of the front of the piece, at least one, and says how many. An `Err` takes none.
    fn write(&mut self, piece: &[u8]) -> Result<usize, Failed>
        requires { 0 < length piece.now }
        ensures some { IfOk result (λ count. (0 < count) × (count ≤ length piece.now)) }
        ensures ok { IfOk result
            (λ count. Takes (taken self.old) (taken self.new) (take count piece.now)) }
        ensures err { OnErr result (Takes (taken self.old) (taken self.new) []) }
        ensures failed { OnErr result (Rose (faults self.old) (faults self.new)) }
        ensures count { faults self.old ≤ faults self.new };
}
