//! A certificate as a whole.

ghost use Rattle.std.specs.Prelude.{◌≡◌, ◌<◌, ◌^◌, IsTrue};
ghost use Rattle.cert_types.specs.Lines.{line_of_end};
ghost use Rattle.cert_types.specs.Parents.{are_made, have_parents};

use crate::nodes::CertNode;
use dp_base::Seq;
use dp_model::{Claim, Keep};

/// What the lines of a certificate say.
///
/// It keeps that the nodes of layer 0 alone were made by no step (`made`), that each parent is a place in the layer before
/// (`parents`), and that its lines, counted from the file's first one, are fewer than 2^32 (`few_lines`).
#[derive(Debug, Drop)]
pub struct Cert {
    /// The line of the file that it begins in, from 1.
    pub first: u32,
    /// Which nodes cover a state of a layer: those of this layer, or those of all layers up to it.
    pub keep: Keep,
    /// Whether dual bounds and dominance are used.
    pub prune: bool,
    /// What is claimed of all legal lists.
    pub claim: Claim,
    /// The nodes of each layer, from that of the target on.
    pub layers: Seq<Seq<CertNode>>,
    pub ghost made: { IsTrue (are_made layers) },
    pub ghost parents: { IsTrue (have_parents layers) },
    pub ghost few_lines: { line_of_end first claim layers < 2 ^ 32 },
}

impl Cert {
    /// The line of the file that it begins in, from 1.
    pub fn first(&self) -> u32
        ensures { result ≡ self.now.first }
    {
        self.first
    }

    /// Which nodes cover a state of a layer: those of this layer, or those of all layers up to it.
    pub fn keep(&self) -> Keep
        ensures { result ≡ self.now.keep }
    {
        self.keep
    }

    /// Whether dual bounds and dominance are used.
    pub fn prune(&self) -> bool
        ensures { result ≡ self.now.prune }
    {
        self.prune
    }

    /// What is claimed of all legal lists.
    pub fn claim(&self) -> &Claim
        ensures { result.now ≡ self.now.claim }
    {
        &self.claim
    }

    /// The nodes of each layer, from that of the target on.
    pub fn layers(&self) -> &Seq<Seq<CertNode>>
        ensures { result.now ≡ self.now.layers }
    {
        &self.layers
    }
}
