//! What the lines of a text said so far of a certificate.

use cert_types::CertNode;
use dp_base::Seq;
use dp_model::{Claim, Keep};

/// The line that a certificate begins in, and how the search was made.
#[derive(Clone, Copy, Debug, PartialEq, Eq)]
pub(crate) struct Start {
    pub(crate) first: u32,
    pub(crate) keep: Keep,
    pub(crate) prune: bool,
}

/// A claimed list: its cost, its steps so far, and how many are due.
#[derive(Debug, Drop)]
pub(crate) struct Listing {
    pub(crate) cost: i64,
    pub(crate) steps: Seq<u32>,
    pub(crate) due: u64,
}

/// Layers: the whole ones, the nodes so far of the one behind them, and how many are due of it.
#[derive(Debug, Drop)]
pub(crate) struct Body {
    pub(crate) layers: Seq<Seq<CertNode>>,
    pub(crate) nodes: Seq<CertNode>,
    pub(crate) due: u64,
}

/// What was said so far.
#[derive(Debug, Drop)]
pub(crate) enum Said {
    /// No certificate has begun. The last line was `certificate 1`, or was not.
    Nothing(bool),
    /// The first two lines, and the line in which they begin.
    Kept(u32, Keep),
    /// The first three lines.
    Pruned(Start),
    /// A claimed cost. The number of steps is due.
    Claimed(Start, i64),
    /// The same with steps, of which some are due.
    Steps(Start, Listing),
    /// A whole claim, and layers.
    Layers(Start, Claim, Body),
    /// All of it.
    Ended(Start, Claim, Seq<Seq<CertNode>>),
}
