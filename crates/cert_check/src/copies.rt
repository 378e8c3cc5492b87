//! Open nodes of a layer that are copies of earlier ones of the same part: of the same state, at the same cost so far. The clauses at the
//! line of such a node hold where they hold at the earlier one's, so that it needs no look.

ghost use Rattle.std.specs.Prelude.{◌≡◌, ℕ, ◌<◌, true, false, Some, Ok, IfOk, length, slice_get};
ghost use Rattle.cost_laws.specs.Orders.{IsLawOf};
ghost use Rattle.state_layout.specs.Conditions.{IsNodeOf};
ghost use Rattle.cert_types.specs.declared.nodes.CertNode.{CertNode as TheNode};
ghost use Rattle.cert_check.specs.Looked.{AllFit, IsCopy, IsShareOf, StandingFits, found, has_in_layer, reached_by};
ghost use Rattle.cert_check.specs.declared.standings.Standing.{Standing as TheStanding};

use crate::looker::Looker;
use crate::shares::Share;
use crate::standings::Standing;
use cert_types::CertNode;
use cost_laws::CostLaw;
use state_layout::Node;
use std::alloc::{AllocError, Global};
use std::collections::BTreeMap;

/// The places of open nodes that were looked at, by the keys of their states and the order words of their costs so far. Which place
/// it has is no matter: what stands there is compared before it counts.
#[derive(Drop)]
pub(crate) struct Seen {
    places: BTreeMap<(u64, u64), usize>,
}

impl Seen {
    /// No node was looked at.
    pub(crate) fn new(alloc: Global) -> Seen {
        Seen {
            places: BTreeMap::new(alloc),
        }
    }

    // the place of a node with these words, if one was looked at
    fn place(&self, words: (u64, u64)) -> Option<usize> {
        match self.places.get(&words) {
            Some(place) => Some(*place),
            None => None,
        }
    }

    // the node at this place, which has these words, is looked at
    fn note(&mut self, words: (u64, u64), place: usize) -> Result<(), AllocError> {
        match self.places.insert(words, place) {
            Ok(_) => Ok(()),
            Err(_) => Err(AllocError),
        }
    }
}

/// Whether the node at a place is one of the part, open and a copy of one before it. One that is open and no copy is looked at from now on.
pub(crate) fn is_copy<L: CostLaw>(
    looker: &Looker<'_>,
    nodes: &[CertNode],
    standings: &[Standing],
    share: Share,
    seen: &mut Seen,
    place: usize,
) -> Result<bool, AllocError>
    requires law { IsLawOf looker.now L.minimize L.operator }
    requires fits { AllFit looker.now standings.now }
    requires within { place < length nodes.now }
    requires level { length standings.now ≡ length nodes.now }
    requires share { IsShareOf share nodes.now }
    ensures { IfOk result (λ copied. copied ≡ true → IsCopy share nodes.now standings.now place) }
{
    if nodes[place].cut {
        return Ok(false);
    }
    if !share.has(place) {
        return Ok(false);
    }
    match &standings[place] {
        Standing::Stands(here) => {
            is_seen::<L>(looker, nodes, standings, share, seen, place, here)
        }
        Standing::Fails(_) => Ok(false),
    }
}

// whether this node, which stands at the place and is open, is a copy of one before it
fn is_seen<L: CostLaw>(
    looker: &Looker<'_>,
    nodes: &[CertNode],
    standings: &[Standing],
    share: Share,
    seen: &mut Seen,
    place: usize,
    here: &Node,
) -> Result<bool, AllocError>
    requires law { IsLawOf looker.now L.minimize L.operator }
    requires fits { AllFit looker.now standings.now }
    requires here { IsNodeOf looker.now here.now }
    requires within { place < length nodes.now }
    requires share { IsShareOf share nodes.now }
    ensures { IfOk result (λ copied. copied ≡ true → (earlier : ℕ) × (n : TheNode) × (s : TheStanding) × (earlier < place) × (slice_get nodes.now earlier ≡ Some n) × (slice_get standings.now earlier ≡ Some s) × (n.cut ≡ false) × (found s ≡ Ok (reached_by here.now)) × (has_in_layer share earlier ≡ true)) }
{
    let words = words_of::<L>(looker, here);
    let Some(earlier) = seen.place(words) else {
        seen.note(words, place)?;
        return Ok(false);
    };
    Ok(is_same_at(looker, nodes, standings, share, earlier, place, here))
}

// the key of a node's state, and the order word of its cost so far
#[tactic(auto, using(cost_laws::specs::Laws::widened))]
fn words_of<L: CostLaw>(looker: &Looker<'_>, node: &Node) -> (u64, u64)
    requires law { IsLawOf looker.now L.minimize L.operator }
    requires node { IsNodeOf looker.now node.now }
{
    (looker.layout().state_key(&node.state), L::word(node.cost))
}

// whether an open node of the part stands at an earlier place than this one, for the same state at the same cost so far as this node
fn is_same_at(
    looker: &Looker<'_>,
    nodes: &[CertNode],
    standings: &[Standing],
    share: Share,
    earlier: usize,
    place: usize,
    here: &Node,
) -> bool
    requires fits { AllFit looker.now standings.now }
    requires here { IsNodeOf looker.now here.now }
    requires within { place < length nodes.now }
    requires share { IsShareOf share nodes.now }
    ensures { result ≡ true → (n : TheNode) × (s : TheStanding) × (earlier < place) × (slice_get nodes.now earlier ≡ Some n) × (slice_get standings.now earlier ≡ Some s) × (n.cut ≡ false) × (found s ≡ Ok (reached_by here.now)) × (has_in_layer share earlier ≡ true) }
{
    if earlier >= place {
        return false;
    }
    if !share.has(earlier) {
        return false;
    }
    let Some(n) = nodes.get(earlier) else {
        return false;
    };
    let Some(standing) = standings.get(earlier) else {
        return false;
    };
    if n.cut {
        return false;
    }
    is_same(looker, standing, here)
}

// whether a list leads to the same state at the same cost so far as this node
fn is_same(looker: &Looker<'_>, standing: &Standing, here: &Node) -> bool
    requires here { IsNodeOf looker.now here.now }
    requires fits { StandingFits looker.now standing.now }
    ensures { result ≡ true → found standing.now ≡ Ok (reached_by here.now) }
{
    match standing {
        Standing::Stands(node) => are_same(looker, node, here),
        Standing::Fails(_) => false,
    }
}

// whether two nodes have one state and one cost so far
fn are_same(looker: &Looker<'_>, node: &Node, here: &Node) -> bool
    requires node { IsNodeOf looker.now node.now }
    requires here { IsNodeOf looker.now here.now }
    ensures { result ≡ true → reached_by node.now ≡ reached_by here.now }
{
    if node.cost != here.cost {
        return false;
    }
    looker.layout().same(&node.state, &here.state)
}
