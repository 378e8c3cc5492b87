//! The clauses at the line of a node.

ghost use Rattle.std.specs.Prelude.{◌≡◌, ◌<◌, Some, None, Ok, IfOk, IfSome, length};
ghost use Rattle.eval_room.specs.Needs.{ServesModel};
ghost use Rattle.dp_model.specs.Costs.{InRange};
ghost use Rattle.dp_model.specs.StepTexts.{ground_of};
ghost use Rattle.dp_model.specs.declared.whole.Model.{Model as DpModel};
ghost use Rattle.cost_laws.specs.Orders.{InWideRange, IsLawOf};
ghost use Rattle.state_layout.specs.Conditions.{IsLayoutOf, IsNodeOf};
ghost use Rattle.spot_eval.specs.Moves.{first_enabled, forced_of, is_forced};
ghost use Rattle.spot_eval.specs.declared.looks.Look.TheVariants as looks;
ghost use Rattle.cert_laws.specs.Checks.{base_fails, cut_fails, is_high, looked_fails, must, step_fails, steps_fail, successor_fails, taken_fails};
ghost use Rattle.cert_laws.specs.PartChecks.{part_fails_at};
ghost use Rattle.cert_check.specs.Looked.{StandingFits, found, is_no_better, pick_fails, reached_by};

use crate::looker::Looker;
use crate::standings::Standing;
use cert_laws::CertReason;
use cert_types::{Cert, CertNode};
use cost_laws::CostLaw;
use dom_store::{Covers, PastStore};
use dp_model::{Claim, Found, Model, Spot};
use spot_eval::{Look, SpotEnd};
use state_layout::Node;
use std::alloc::{AllocError, Global};

/// Whether a number is no better than a claimed cost.
fn is_no_better(minimize: bool, found: &Found, n: i64) -> bool
    ensures { result ≡ is_no_better minimize found.now.cost n }
{
    if minimize {
        found.cost <= n
    } else {
        n <= found.cost
    }
}

/// Whether a number is no better than what is claimed. No cost is worse than that there is no legal list.
#[tactic(auto, using(crate::proofs::Tests::high_cost, crate::proofs::Tests::high_none))]
fn is_above(minimize: bool, claim: &Claim, n: i64) -> bool
    requires { InWideRange n }
    ensures { (m : DpModel) → m.minimize ≡ minimize → result ≡ is_high m claim.now (Some n) }
{
    match claim {
        Claim::Optimal(found) => is_no_better(minimize, found, n),
        Claim::Infeasible => false,
    }
}

/// Whether there is a number, and it is no better than what is claimed.
pub(crate) fn is_high(minimize: bool, claim: &Claim, n: Option<i64>) -> bool
    requires { IfSome n InWideRange }
    ensures { (m : DpModel) → m.minimize ≡ minimize → result ≡ is_high m claim.now n }
{
    match n {
        Some(n) => is_above(minimize, claim, n),
        None => false,
    }
}

/// The reason, where the test does not hold.
pub(crate) fn must(holds: bool, reason: CertReason) -> Option<CertReason>
    ensures { result ≡ must holds reason }
{
    if holds { None } else { Some(reason) }
}

/// Why the line of a cut node is rejected, if it is.
fn cut_fails<L: CostLaw>(
    looker: &Looker<'_>,
    cert: &Cert,
    here: &Node,
    stack: &mut [u64],
) -> Option<CertReason>
    requires law { IsLawOf looker.now L.minimize L.operator }
    requires node { IsNodeOf looker.now here.now }
    requires room { ServesModel looker.now (length stack.old) }
    ensures { result ≡ cut_fails looker.now cert.now (reached_by here.now) }
{
    match looker.floor::<L>(&here.state, cert.prune, here.cost, stack) {
        Ok(floor) => {
            let high = is_high(looker.model().minimize(), &cert.claim, floor);
            must(high, CertReason::Cut)
        }
        Err(_) => Some(CertReason::Fault),
    }
}

/// Why a base successor rejects a line, if it does.
#[tactic(auto, using(cost_laws::specs::Laws::in_wide_range))]
fn base_fails<L: CostLaw>(
    looker: &Looker<'_>,
    cert: &Cert,
    cost: Option<i64>,
    base: i64,
) -> Option<CertReason>
    requires law { IsLawOf looker.now L.minimize L.operator }
    requires cost { IfSome cost InRange }
    requires base { InRange base }
    ensures { result ≡ base_fails looker.now cert.now cost base }
{
    match spot_eval::joined_at::<L>(Spot::Total, cost, base) {
        Ok(total) => {
            let high = is_high(looker.model().minimize(), &cert.claim, Some(total));
            must(high, CertReason::Step)
        }
        Err(_) => Some(CertReason::Fault),
    }
}

/// Why an inner successor rejects a line, if it does.
#[tactic(auto, using(crate::proofs::Tests::past_covers))]
fn open_fails<K: Covers>(
    looker: &Looker<'_>,
    cert: &Cert,
    past: &PastStore<K>,
    next: &Node,
    floor: Option<i64>,
) -> Option<CertReason>
    requires law { IsLawOf looker.now K.minimize K.operator }
    requires prune { K.prune ≡ cert.now.prune }
    requires layout { IsLayoutOf looker.now past.now.layout }
    requires next { IsNodeOf looker.now next.now }
    requires floor { IfSome floor InWideRange }
    ensures { result ≡ successor_fails looker.now cert.now past.now.nodes next.now.state next.now.cost (looks.Open floor) }
{
    let high = is_high(looker.model().minimize(), &cert.claim, floor);
    let needless = high || past.covered(looker.layout(), next);
    must(needless, CertReason::Step)
}

/// Why a successor rejects a line, if it does.
fn looked_fails<L: CostLaw, K: Covers>(
    looker: &Looker<'_>,
    cert: &Cert,
    past: &PastStore<K>,
    next: &Node,
    stack: &mut [u64],
) -> Option<CertReason>
    requires law { IsLawOf looker.now L.minimize L.operator }
    requires covering { IsLawOf looker.now K.minimize K.operator }
    requires prune { K.prune ≡ cert.now.prune }
    requires layout { IsLayoutOf looker.now past.now.layout }
    requires next { IsNodeOf looker.now next.now }
    requires room { ServesModel looker.now (length stack.old) }
    ensures { result ≡ looked_fails looker.now cert.now past.now.nodes (reached_by next.now) }
{
    match looker.look::<L>(&next.state, cert.prune, next.cost, stack) {
        Ok(Look::NotAllowed) => None,
        Ok(Look::Base(base)) => base_fails::<L>(looker, cert, next.cost, base),
        Ok(Look::Open(floor)) => open_fails::<K>(looker, cert, past, next, floor),
        Err(_) => Some(CertReason::Fault),
    }
}

/// Why a step that may be taken rejects a line, if it does.
fn taken_fails<L: CostLaw, K: Covers>(
    looker: &Looker<'_>,
    alloc: Global,
    cert: &Cert,
    past: &PastStore<K>,
    here: &Node,
    number: u32,
    stack: &mut [u64],
) -> Result<Option<CertReason>, AllocError>
    requires law { IsLawOf looker.now L.minimize L.operator }
    requires covering { IsLawOf looker.now K.minimize K.operator }
    requires prune { K.prune ≡ cert.now.prune }
    requires layout { IsLayoutOf looker.now past.now.layout }
    requires node { IsNodeOf looker.now here.now }
    requires room { ServesModel looker.now (length stack.old) }
    ensures { IfOk result (λ fails. fails ≡ taken_fails looker.now cert.now past.now.nodes (reached_by here.now) number (ground_of looker.now number)) }
{
    let Some((transition, args)) = looker.model().step(number) else {
        return Ok(None);
    };
    match looker.moved::<L>(alloc, here, number, transition, args, stack) {
        Ok(next) => Ok(looked_fails::<L, K>(looker, cert, past, &next, stack)),
        Err(SpotEnd::Fault(_)) => Ok(Some(CertReason::Fault)),
        Err(SpotEnd::Memory) => Err(AllocError),
    }
}

/// Whether the ground transition with this number is forced.
fn is_forced(model: &Model, number: u32) -> bool
    ensures { result ≡ is_forced model.now number }
{
    let Some((transition, _)) = model.step(number) else {
        return false;
    };
    transition.forced()
}

/// Why a transition rejects the line of an open node, if it does, where no forced one is enabled.
fn step_fails<L: CostLaw, K: Covers>(
    looker: &Looker<'_>,
    alloc: Global,
    cert: &Cert,
    past: &PastStore<K>,
    here: &Node,
    number: u32,
    stack: &mut [u64],
) -> Result<Option<CertReason>, AllocError>
    requires law { IsLawOf looker.now L.minimize L.operator }
    requires covering { IsLawOf looker.now K.minimize K.operator }
    requires prune { K.prune ≡ cert.now.prune }
    requires layout { IsLayoutOf looker.now past.now.layout }
    requires node { IsNodeOf looker.now here.now }
    requires room { ServesModel looker.now (length stack.old) }
    requires clear { first_enabled looker.now here.now.state (forced_of looker.now) ≡ Ok None }
    ensures { IfOk result (λ fails. fails ≡ step_fails looker.now cert.now past.now.nodes (reached_by here.now) number) }
{
    if is_forced(looker.model(), number) {
        return Ok(None);
    }
    match looker.is_enabled(&here.state, number, stack) {
        Ok(true) => taken_fails::<L, K>(looker, alloc, cert, past, here, number, stack),
        Ok(false) => Ok(None),
        Err(_) => Ok(None),
    }
}

/// The same of a transition that was picked, if one was.
#[tactic(auto, using(spot_eval::proofs::Limits::few_grounds))]
fn picked_fails<L: CostLaw, K: Covers>(
    looker: &Looker<'_>,
    alloc: Global,
    cert: &Cert,
    past: &PastStore<K>,
    here: &Node,
    pick: Option<usize>,
    stack: &mut [u64],
) -> Result<Option<CertReason>, AllocError>
    requires law { IsLawOf looker.now L.minimize L.operator }
    requires covering { IsLawOf looker.now K.minimize K.operator }
    requires prune { K.prune ≡ cert.now.prune }
    requires layout { IsLayoutOf looker.now past.now.layout }
    requires node { IsNodeOf looker.now here.now }
    requires room { ServesModel looker.now (length stack.old) }
    requires clear { first_enabled looker.now here.now.state (forced_of looker.now) ≡ Ok None }
    requires there { IfSome pick (λ k. k < length looker.now.dp_ground) }
    ensures { IfOk result (λ fails. fails ≡ pick_fails looker.now cert.now past.now.nodes (reached_by here.now) pick) }
{
    match pick {
        Some(number) => {
            step_fails::<L, K>(looker, alloc, cert, past, here, number as u32, stack)
        }
        None => Ok(None),
    }
}

/// Why the line of an open node is rejected, if it is, where no forced transition is enabled: by the first transition that does so.
/// Rows of transitions that want one number each are passed over by one look.
fn others_fail<L: CostLaw, K: Covers>(
    looker: &Looker<'_>,
    alloc: Global,
    cert: &Cert,
    past: &PastStore<K>,
    here: &Node,
    stack: &mut [u64],
) -> Result<Option<CertReason>, AllocError>
    requires law { IsLawOf looker.now L.minimize L.operator }
    requires covering { IsLawOf looker.now K.minimize K.operator }
    requires prune { K.prune ≡ cert.now.prune }
    requires layout { IsLayoutOf looker.now past.now.layout }
    requires node { IsNodeOf looker.now here.now }
    requires room { ServesModel looker.now (length stack.old) }
    requires clear { first_enabled looker.now here.now.state (forced_of looker.now) ≡ Ok None }
    ensures { IfOk result (λ fails. fails ≡ steps_fail looker.now cert.now past.now.nodes (reached_by here.now)) }
{
    let count = looker.model().ground().list().len();
    let mut place = 0;
    while place < count {
        let leap = looker.leap_at(&here.state, place);
        let fails = picked_fails::<L, K>(looker, alloc, cert, past, here, leap.pick, stack)?;
        if fails.is_some() {
            return Ok(fails);
        }
        place = leap.next;
    }
    Ok(None)
}

/// Why the line of an open node is rejected, if it is: by the first transition that does so. A forced transition that is enabled is
/// the only one that may be taken, and none may be where one is a fault before.
fn steps_fail<L: CostLaw, K: Covers>(
    looker: &Looker<'_>,
    alloc: Global,
    cert: &Cert,
    past: &PastStore<K>,
    here: &Node,
    stack: &mut [u64],
) -> Result<Option<CertReason>, AllocError>
    requires law { IsLawOf looker.now L.minimize L.operator }
    requires covering { IsLawOf looker.now K.minimize K.operator }
    requires prune { K.prune ≡ cert.now.prune }
    requires layout { IsLayoutOf looker.now past.now.layout }
    requires node { IsNodeOf looker.now here.now }
    requires room { ServesModel looker.now (length stack.old) }
    ensures { IfOk result (λ fails. fails ≡ steps_fail looker.now cert.now past.now.nodes (reached_by here.now)) }
{
    match looker.first_forced(&here.state, stack) {
        Ok(Some(number)) => taken_fails::<L, K>(looker, alloc, cert, past, here, number, stack),
        Ok(None) => others_fail::<L, K>(looker, alloc, cert, past, here, stack),
        Err(_) => Ok(None),
    }
}

/// Why the line of a node is rejected, if it is. The steps from it, if it is open, are looked at or are not.
pub(crate) fn node_fails<L: CostLaw, K: Covers>(
    looker: &Looker<'_>,
    alloc: Global,
    cert: &Cert,
    past: &PastStore<K>,
    n: CertNode,
    looked: bool,
    standing: &Standing,
    stack: &mut [u64],
) -> Result<Option<CertReason>, AllocError>
    requires law { IsLawOf looker.now L.minimize L.operator }
    requires covering { IsLawOf looker.now K.minimize K.operator }
    requires prune { K.prune ≡ cert.now.prune }
    requires layout { IsLayoutOf looker.now past.now.layout }
    requires fits { StandingFits looker.now standing.now }
    requires room { ServesModel looker.now (length stack.old) }
    ensures { IfOk result (λ fails. fails ≡ part_fails_at looker.now cert.now past.now.nodes looked n (found standing.now)) }
{
    match standing {
        Standing::Fails(reason) => Ok(Some(*reason)),
        Standing::Stands(here) => {
            if n.cut {
                Ok(cut_fails::<L>(looker, cert, here, stack))
            } else if looked {
                steps_fail::<L, K>(looker, alloc, cert, past, here, stack)
            } else {
                Ok(None)
            }
        }
    }
}
