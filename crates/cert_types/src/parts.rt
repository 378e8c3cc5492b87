//! A part of the check of a certificate.

ghost use Rattle.std.specs.Prelude.{◌≡◌};
ghost use Rattle.cert_types.specs.Places.{IsPart, has_place, whole};

/// One of so many parts of the check of a certificate. The places of its nodes in the text are dealt out to the parts in turn: the steps
/// from an open node are looked at in the part that has its place, and all else in each part.
#[derive(Clone, Copy, Debug, PartialEq, Eq)]
pub struct CheckPart {
    /// Which part it is, from 1.
    pub index: u32,
    /// How many parts there are, 4,096 at most.
    pub count: u32,
}

impl CheckPart {
    /// The one part of one.
    pub fn whole() -> CheckPart
        ensures { result ≡ whole }
    {
        CheckPart { index: 1, count: 1 }
    }

    /// Whether the part has this place in the text, which counts the nodes of all layers from 0.
    pub fn has_place(self, place: u32) -> bool
        requires { IsPart self }
        ensures { result ≡ has_place self place }
    {
        place % self.count + 1 == self.index
    }
}
