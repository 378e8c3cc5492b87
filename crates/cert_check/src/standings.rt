//! Where the lists of a certificate's nodes lead.

ghost use Rattle.std.specs.Prelude.{◌≡◌, ◌<◌, ◌∷◌, [], Some, IfOk, IsTrue, OnOk, length, map};
ghost use Rattle.std.specs.List.{list_all};
ghost use Rattle.eval_room.specs.Needs.{ServesModel};
ghost use Rattle.dp_model.specs.StepTexts.{ground_of};
ghost use Rattle.cost_laws.specs.Orders.{IsLawOf};
ghost use Rattle.state_layout.specs.Conditions.{IsLayoutOf, IsNodeOf};
ghost use Rattle.cert_types.specs.Parents.{has_parent};
ghost use Rattle.cert_laws.specs.Checks.{entered, if_stands, led, start, stepped};
ghost use Rattle.dom_store.specs.Past.{past_node};
ghost use Rattle.cert_check.specs.Looked.{AllFit, StandingFits, found, pasts, reached_by, stood, with_new};

use crate::looker::Looker;
use cert_laws::CertReason;
use cert_types::{CertNode, CertStep};
use cost_laws::CostLaw;
use dom_store::{Covers, PastStore};
use spot_eval::{Look, SpotEnd};
use state_layout::Node;
use std::alloc::{AllocError, Global};

/// Where the list of a node leads: to an inner state, which is kept as a node of which only the state and the cost so far say
/// something; or the line of the node is rejected.
#[derive(Drop)]
pub(crate) enum Standing {
    Stands(Node),
    Fails(CertReason),
}

/// A state that must turn out to be inner.
fn entered<L: CostLaw>(looker: &Looker<'_>, node: Node, stack: &mut [u64]) -> Standing
    requires law { IsLawOf looker.now L.minimize L.operator }
    requires node { IsNodeOf looker.now node }
    requires room { ServesModel looker.now (length stack.old) }
    ensures found { found result ≡ entered looker.now node.state node.cost }
    ensures fits { StandingFits looker.now result }
{
    match looker.look::<L>(&node.state, false, node.cost, stack) {
        Ok(Look::Open(_)) => Standing::Stands(node),
        Ok(Look::Base(_)) => Standing::Fails(CertReason::Node),
        Ok(Look::NotAllowed) => Standing::Fails(CertReason::Node),
        Err(_) => Standing::Fails(CertReason::Fault),
    }
}

/// Where a transition that may step leads.
fn led<L: CostLaw>(
    looker: &Looker<'_>,
    alloc: Global,
    here: &Node,
    number: u32,
    stack: &mut [u64],
) -> Result<Standing, AllocError>
    requires law { IsLawOf looker.now L.minimize L.operator }
    requires node { IsNodeOf looker.now here.now }
    requires room { ServesModel looker.now (length stack.old) }
    ensures found { IfOk result (λ s. found s ≡ led looker.now (reached_by here.now) number (ground_of looker.now number)) }
    ensures fits { IfOk result (StandingFits looker.now) }
{
    let Some((transition, args)) = looker.model().step(number) else {
        return Ok(Standing::Fails(CertReason::Node));
    };
    match looker.moved::<L>(alloc, here, number, transition, args, stack) {
        Ok(next) => Ok(entered::<L>(looker, next, stack)),
        Err(SpotEnd::Fault(_)) => Ok(Standing::Fails(CertReason::Fault)),
        Err(SpotEnd::Memory) => Err(AllocError),
    }
}

/// Where a step leads, which must be considered and enabled.
fn stepped<L: CostLaw>(
    looker: &Looker<'_>,
    alloc: Global,
    here: &Node,
    number: u32,
    stack: &mut [u64],
) -> Result<Standing, AllocError>
    requires law { IsLawOf looker.now L.minimize L.operator }
    requires node { IsNodeOf looker.now here.now }
    requires room { ServesModel looker.now (length stack.old) }
    ensures found { IfOk result (λ s. found s ≡ stepped looker.now (reached_by here.now) number) }
    ensures fits { IfOk result (StandingFits looker.now) }
{
    match looker.may_step(&here.state, number, stack) {
        Ok(true) => led::<L>(looker, alloc, here, number, stack),
        Ok(false) => Ok(Standing::Fails(CertReason::Node)),
        Err(_) => Ok(Standing::Fails(CertReason::Fault)),
    }
}

/// The target, which must be inner too.
fn start<L: CostLaw>(
    looker: &Looker<'_>,
    alloc: Global,
    stack: &mut [u64],
) -> Result<Standing, AllocError>
    requires law { IsLawOf looker.now L.minimize L.operator }
    requires room { ServesModel looker.now (length stack.old) }
    ensures found { IfOk result (λ s. found s ≡ start looker.now) }
    ensures fits { IfOk result (StandingFits looker.now) }
{
    let state = looker.layout().pack(alloc, looker.model().target())?;
    let node = Node {
        state,
        cost: None,
        floor: None,
        parent: None,
        transition: 0,
    };
    Ok(entered::<L>(looker, node, stack))
}

/// Where a step from a node of the layer before leads.
fn made<L: CostLaw>(
    looker: &Looker<'_>,
    alloc: Global,
    step: CertStep,
    before: &[Standing],
    stack: &mut [u64],
) -> Result<Standing, AllocError>
    requires law { IsLawOf looker.now L.minimize L.operator }
    requires room { ServesModel looker.now (length stack.old) }
    requires before { AllFit looker.now before.now }
    requires parent { step.parent < length before.now }
    ensures found { IfOk result (λ s. found s ≡ stood looker.now before.now (Some step)) }
    ensures fits { IfOk result (StandingFits looker.now) }
{
    match &before[step.parent as usize] {
        Standing::Stands(here) => stepped::<L>(looker, alloc, here, step.dp_ground, stack),
        Standing::Fails(reason) => Ok(Standing::Fails(*reason)),
    }
}

/// Where the list of a node leads.
fn stood<L: CostLaw>(
    looker: &Looker<'_>,
    alloc: Global,
    n: CertNode,
    before: &[Standing],
    stack: &mut [u64],
) -> Result<Standing, AllocError>
    requires law { IsLawOf looker.now L.minimize L.operator }
    requires room { ServesModel looker.now (length stack.old) }
    requires before { AllFit looker.now before.now }
    requires parent { IsTrue (has_parent (length before.now) n) }
    ensures found { IfOk result (λ s. found s ≡ stood looker.now before.now n.made) }
    ensures fits { IfOk result (StandingFits looker.now) }
{
    match n.made {
        Some(step) => made::<L>(looker, alloc, step, before, stack),
        None => start::<L>(looker, alloc, stack),
    }
}

/// Where the lists of the nodes of a layer lead.
#[tactic(auto, using(crate::proofs::Rows::fits_more, crate::proofs::Rows::fits_none))]
pub(crate) fn layer_stood<L: CostLaw>(
    looker: &Looker<'_>,
    alloc: Global,
    nodes: &[CertNode],
    before: &[Standing],
    stack: &mut [u64],
) -> Result<Vec<Standing>, AllocError>
    requires law { IsLawOf looker.now L.minimize L.operator }
    requires room { ServesModel looker.now (length stack.old) }
    requires before { AllFit looker.now before.now }
    requires parents { IsTrue (list_all (has_parent (length before.now)) nodes.now) }
    ensures found { IfOk result (λ all. map found all.items ≡ map (λ n. stood looker.now before.now n.made) nodes.now) }
    ensures fits { IfOk result (λ all. AllFit looker.now all.items) }
{
    let mut all = Vec::new(alloc);
    for n in nodes {
        all.push(stood::<L>(looker, alloc, *n, before, stack)?)?;
    }
    Ok(all)
}

/// Keeps a node that stands, for what it covers, unless one that is kept covers it.
#[tactic(auto, using(crate::proofs::Tests::past_covers))]
fn remember_one<K: Covers>(
    past: &mut PastStore<K>,
    looker: &Looker<'_>,
    node: &Node,
) -> Result<(), AllocError>
    requires law { IsLawOf looker.now K.minimize K.operator }
    requires layout { IsLayoutOf looker.now past.old.layout }
    requires node { IsNodeOf looker.now node.now }
    ensures nodes { OnOk result (past.new.nodes ≡ with_new looker.now K.prune past.old.nodes (past_node node.now ∷ [])) }
    ensures layout { past.new.layout ≡ past.old.layout }
{
    if past.covered(looker.layout(), node) {
        return Ok(());
    }
    past.add(looker.layout(), node)
}

/// The same of where the list of a node leads.
fn remember_standing<K: Covers>(
    past: &mut PastStore<K>,
    looker: &Looker<'_>,
    standing: &Standing,
) -> Result<(), AllocError>
    requires law { IsLawOf looker.now K.minimize K.operator }
    requires layout { IsLayoutOf looker.now past.old.layout }
    requires fits { StandingFits looker.now standing.now }
    ensures nodes { OnOk result (past.new.nodes ≡ with_new looker.now K.prune past.old.nodes (if_stands (found standing.now))) }
    ensures layout { past.new.layout ≡ past.old.layout }
{
    match standing {
        Standing::Stands(node) => remember_one(past, looker, node),
        Standing::Fails(_) => Ok(()),
    }
}

/// Keeps the nodes that stand, for what they cover. Those that others cover are left out, so that a certificate with many nodes of
/// one state takes no longer than others.
pub(crate) fn remember<K: Covers>(
    past: &mut PastStore<K>,
    looker: &Looker<'_>,
    standings: &[Standing],
) -> Result<(), AllocError>
    requires law { IsLawOf looker.now K.minimize K.operator }
    requires layout { IsLayoutOf looker.now past.old.layout }
    requires fits { AllFit looker.now standings.now }
    ensures nodes { OnOk result (past.new.nodes ≡ with_new looker.now K.prune past.old.nodes (pasts standings.now)) }
    ensures layout { past.new.layout ≡ past.old.layout }
{
    for standing in standings {
        remember_standing(past, looker, standing)?;
    }
    Ok(())
}
