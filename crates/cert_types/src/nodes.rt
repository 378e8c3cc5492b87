//! The nodes of a certificate.

ghost use Rattle.std.specs.Prelude.{◌≡◌};

/// The step that made a node: from the node at this place in the layer before, by this ground transition.
#[derive(Clone, Copy, Debug, PartialEq, Eq)]
pub struct CertStep {
    /// The place of the parent in the layer before, from 0.
    pub parent: u32,
    /// The number of the ground transition.
    pub dp_ground: u32,
}

impl CertStep {
    /// The place of the parent in the layer before, from 0.
    pub fn parent(&self) -> u32
        ensures { result ≡ self.now.parent }
    {
        self.parent
    }

    /// The number of the ground transition.
    pub fn ground(&self) -> u32
        ensures { result ≡ self.now.dp_ground }
    {
        self.dp_ground
    }
}

/// A node of a certificate. A node that is cut has no successors in it: its dual bound shows that none is needed.
#[derive(Clone, Copy, Debug, PartialEq, Eq)]
pub struct CertNode {
    /// The step that made it; none made the target's.
    pub made: Option<CertStep>,
    /// Whether it is cut; else it is open.
    pub cut: bool,
}

impl CertNode {
    /// The step that made it; none made the target's.
    pub fn made(&self) -> Option<CertStep>
        ensures { result ≡ self.now.made }
    {
        self.made
    }

    /// Whether it is cut; else it is open.
    pub fn cut(&self) -> bool
        ensures { result ≡ self.now.cut }
    {
        self.cut
    }
}
