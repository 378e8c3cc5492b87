//! Which nodes of a layer a part of a check has.

ghost use Rattle.std.specs.Prelude.{◌≡◌, ◌+◌, ◌<◌, ◌^◌};
ghost use Rattle.cert_types.specs.Places.{IsPart};
ghost use Rattle.cert_check.specs.Looked.{has_in_layer};

use cert_types::CheckPart;

/// The share that a part of a check has of a layer.
#[derive(Clone, Copy)]
pub(crate) struct Share {
    pub(crate) part: CheckPart,
    /// How many nodes stand in the text before the layer.
    pub(crate) before: u32,
}

impl Share {
    /// Whether the part has the node at this place of the layer.
    pub(crate) fn has(self, place: usize) -> bool
        requires part { IsPart self.part }
        requires few { self.before + place < 2 ^ 32 }
        ensures { result ≡ has_in_layer self place }
    {
        self.part.has_place(self.before + place as u32)
    }
}
