//! What the calling thread does between two rounds of turns.

ghost use Rattle.std.specs.Prelude.{⊤};

use std::sync::Wait;

/// What the calling thread does between two rounds of turns.
///
/// What it is held to is told by `Terms`: whatever it kept before, it keeps afterwards.
pub trait Between: Drop {
    /// What it may be held to.
    ghost Terms: { Type 0 };

    /// It is as the terms ask.
    ghost keeps: { Self.Terms → Self → Type 0 };

    /// Does its part.
    fn step<R: Wait>(&mut self, rt: &R)
        requires held { (t : Self.Terms) × keeps t self.old }
        ensures { (t : Self.Terms) → keeps t self.old → keeps t self.new };
}

/// Nothing is done between two rounds.
#[derive(Clone, Copy, Debug)]
pub struct Nothing;

impl Between for Nothing {
    ghost Terms = { ⊤ };

    ghost keeps = { λ _ _. ⊤ };

    fn step<R: Wait>(&mut self, _rt: &R) {}
}
