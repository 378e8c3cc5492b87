//! The layers of a certificate, one after another.

ghost use Rattle.std.specs.Prelude.{◌≡◌, ℕ, ◌+◌, ◌<◌, ◌^◌, [], Some, None, IfOk, OnOk, length, slice_get};
ghost use Rattle.eval_room.specs.Needs.{ServesModel};
ghost use Rattle.cost_laws.specs.Orders.{IsLawOf};
ghost use Rattle.state_layout.specs.Conditions.{IsLayoutOf};
ghost use Rattle.cert_types.specs.Lines.{line_of_layer, lines_of_list};
ghost use Rattle.cert_laws.specs.Shown.{layer_of};
ghost use Rattle.cert_types.specs.declared.nodes.CertNode.{CertNode as TheNode};
ghost use Rattle.cert_types.specs.Places.{IsPart, nodes_before};
ghost use Rattle.cert_laws.specs.Checks.{covering};
ghost use Rattle.cert_laws.specs.PartChecks.{layer_told_in, layers_told_in, part_fails_at};
ghost use Rattle.cert_check.specs.Looked.{AllFit, AreFound, CoverAlike, IsShareOf, found, has_in_layer, kept_before, pasts, with_new};
ghost use Rattle.cert_check.specs.declared.standings.Standing.{Standing as TheStanding};

use crate::clauses::node_fails;
use crate::copies::{Seen, is_copy};
use crate::looker::Looker;
use crate::shares::Share;
use crate::standings::{Standing, layer_stood, remember};
use cert_laws::{CertReason, Checked};
use cert_types::{Cert, CertNode, CheckPart};
use cost_laws::CostLaw;
use dom_store::{Covers, PastStore};
use dp_model::{Claim, Keep};
use std::alloc::{AllocError, Global};

/// The nodes of a layer. Behind the last layer there are none.
fn nodes_of(cert: &Cert, l: usize) -> &[CertNode]
    ensures { result.now ≡ layer_of cert.now.layers l }
{
    match cert.layers.list().get(l) {
        Some(nodes) => nodes.list(),
        None => &[],
    }
}

/// How many lines the list of a claim has.
fn lines_of_list(claim: &Claim) -> u32
    requires { lines_of_list claim.now < 2 ^ 32 }
    ensures { result ≡ lines_of_list claim.now }
{
    match claim {
        Claim::Optimal(found) => 1 + found.steps.list().len() as u32,
        Claim::Infeasible => 0,
    }
}

/// Keeps the nodes of the next layer that stand, beside those of earlier layers where they cover too.
fn keep_next<K: Covers>(
    alloc: Global,
    keep: Keep,
    past: &mut PastStore<K>,
    looker: &Looker<'_>,
    next: &[Standing],
) -> Result<(), AllocError>
    requires law { IsLawOf looker.now K.minimize K.operator }
    requires layout { IsLayoutOf looker.now past.old.layout }
    requires fits { AllFit looker.now next.now }
    ensures nodes { OnOk result (past.new.nodes ≡ with_new looker.now K.prune (kept_before keep past.old.nodes) (pasts next.now)) }
    ensures layout { IsLayoutOf looker.now past.new.layout }
{
    if keep == Keep::Layer {
        *past = PastStore::new(alloc, looker.layout())?;
    }
    remember(past, looker, next)
}

/// Why the line of the node at a place is rejected, if it is, where none of those before it is. An open node that is a copy of an earlier
/// one of the part needs no look.
fn line_fails<L: CostLaw, K: Covers>(
    looker: &Looker<'_>,
    alloc: Global,
    cert: &Cert,
    past: &PastStore<K>,
    nodes: &[CertNode],
    standings: &[Standing],
    share: Share,
    seen: &mut Seen,
    place: usize,
    stack: &mut [u64],
) -> Result<Option<CertReason>, AllocError>
    requires law { IsLawOf looker.now L.minimize L.operator }
    requires covering { IsLawOf looker.now K.minimize K.operator }
    requires prune { K.prune ≡ cert.now.prune }
    requires layout { IsLayoutOf looker.now past.now.layout }
    requires room { ServesModel looker.now (length stack.old) }
    requires fits { AllFit looker.now standings.now }
    requires within { place < length nodes.now }
    requires level { length standings.now ≡ length nodes.now }
    requires share { IsShareOf share nodes.now }
    requires before { (k : ℕ) (n : TheNode) (s : TheStanding) → k < place → slice_get nodes.now k ≡ Some n → slice_get standings.now k ≡ Some s → part_fails_at looker.now cert.now past.now.nodes (has_in_layer share k) n (found s) ≡ None }
    ensures { IfOk result (λ fails. (n : TheNode) (s : TheStanding) → slice_get nodes.now place ≡ Some n → slice_get standings.now place ≡ Some s → fails ≡ part_fails_at looker.now cert.now past.now.nodes (has_in_layer share place) n (found s)) }
{
    let copied = is_copy::<L>(looker, nodes, standings, share, seen, place)?;
    if copied {
        return Ok(None);
    }
    let looked = share.has(place);
    node_fails::<L, K>(
        looker,
        alloc,
        cert,
        past,
        nodes[place],
        looked,
        &standings[place],
        stack,
    )
}

/// What is told of the nodes of a layer, of which this is the first line, in a part.
fn layer_told<L: CostLaw, K: Covers>(
    looker: &Looker<'_>,
    alloc: Global,
    cert: &Cert,
    share: Share,
    l: usize,
    line: u32,
    past: &PastStore<K>,
    standings: &[Standing],
    stack: &mut [u64],
) -> Result<Checked, AllocError>
    requires law { IsLawOf looker.now L.minimize L.operator }
    requires covering { IsLawOf looker.now K.minimize K.operator }
    requires prune { K.prune ≡ cert.now.prune }
    requires layout { IsLayoutOf looker.now past.now.layout }
    requires room { ServesModel looker.now (length stack.old) }
    requires there { l < length cert.now.layers }
    requires line { line ≡ line_of_layer cert.now.first cert.now.claim cert.now.layers l }
    requires share { IsShareOf share (layer_of cert.now.layers l) }
    requires before { share.before ≡ nodes_before cert.now.layers l }
    requires found { AreFound looker.now cert.now l standings.now }
    requires fits { AllFit looker.now standings.now }
    requires past { CoverAlike looker.now K.prune past.now.nodes (covering looker.now cert.now cert.now.keep (l + 1)) }
    ensures { IfOk result (λ told. told ≡ layer_told_in share.part looker.now cert.now l 0 (layer_of cert.now.layers l)) }
{
    let nodes = nodes_of(cert, l);
    let mut seen = Seen::new(alloc);
    for place in 0..nodes.len() {
        let fails = line_fails::<L, K>(
            looker, alloc, cert, past, nodes, standings, share, &mut seen, place, stack,
        )?;
        if let Some(reason) = fails {
            let line = line + 1 + place as u32;
            return Ok(Checked::No { line, reason });
        }
    }
    Ok(Checked::Yes)
}

/// What is told of all layers in a part.
pub(crate) fn layers_told<L: CostLaw, K: Covers>(
    looker: &Looker<'_>,
    alloc: Global,
    cert: &Cert,
    part: CheckPart,
    stack: &mut [u64],
) -> Result<Checked, AllocError>
    requires law { IsLawOf looker.now L.minimize L.operator }
    requires covering { IsLawOf looker.now K.minimize K.operator }
    requires prune { K.prune ≡ cert.now.prune }
    requires room { ServesModel looker.now (length stack.old) }
    requires part { IsPart part }
    ensures { IfOk result (λ told. told ≡ layers_told_in part looker.now cert.now 0 cert.now.layers) }
{
    let mut past = PastStore::<K>::new(alloc, looker.layout())?;
    let mut here = layer_stood::<L>(looker, alloc, nodes_of(cert, 0), &[], stack)?;
    remember(&mut past, looker, &here)?;
    let mut line = cert.first + 4 + lines_of_list(&cert.claim);
    let mut before = 0;
    for l in 0..cert.layers.list().len() {
        let next = layer_stood::<L>(looker, alloc, nodes_of(cert, l + 1), &here, stack)?;
        keep_next::<K>(alloc, cert.keep, &mut past, looker, &next)?;
        let share = Share { part, before };
        match layer_told::<L, K>(looker, alloc, cert, share, l, line, &past, &here, stack)? {
            Checked::Yes => {}
            told => return Ok(told),
        }
        line += 1 + nodes_of(cert, l).len() as u32;
        before += nodes_of(cert, l).len() as u32;
        here = next;
    }
    Ok(Checked::Yes)
}
