//! A certificate, whole.

ghost use Rattle.std.specs.Prelude.{◌≡◌, ◌+◌, ◌≤◌, ◌<◌, ◌^◌, [], ℕ, List, Option, Ok, Err, pos, IfOk, IfSome};
ghost use Rattle.cost_laws.specs.Orders.{IsLawOf};
ghost use Rattle.dp_model.specs.Costs.{InRange};
ghost use Rattle.dp_model.specs.declared.answers.Claim.{Claim as ClaimOf};
ghost use Rattle.dp_model.specs.declared.answers.Options.{Options as OptionsOf};
ghost use Rattle.dp_model.specs.declared.whole.Model.{Model as ModelOf};
ghost use Rattle.dp_outside.specs.Outside.{Rose};
ghost use Rattle.dp_steps.specs.States.{Base, Inner};
ghost use Rattle.state_layout.specs.Conditions.{IsNodeOf};
ghost use Rattle.successors.specs.Answers.{Answers};
ghost use Rattle.successors.specs.Starts.{StartFits, start_at};
ghost use Rattle.successors.specs.declared.starts.Start.{Start as StartOf};
ghost use Rattle.visit_laws.specs.Starts as begins;
ghost use Rattle.cert_types.specs.Lines.{line_of_end};
ghost use Rattle.cert_laws.specs.Shown.{ClaimHolds, claimed_word as word_claimed};
ghost use Rattle.cert_making.specs.Written.{HasHead, PutsTarget, Tells};
ghost use Rattle.cert_making.specs.declared.ends.CertEnd.TheVariants as ends;

use crate::claims::{claimed_word, is_cut};
use crate::ends::CertEnd;
use crate::progress::MOST_LINES;
use crate::searching::{put_last, search};
use cert_text::{put_head, put_layer};
use cert_types::CertNode;
use cost_laws::{CostLaw, MaxLeast, MaxMost, MaxPlus, MinLeast, MinMost, MinPlus};
use dom_store::{Dominating, Exact};
use dp_model::{Claim, FaultAt, FaultKind, Found, JoinOp, Model, Options, Seq, Spot, Written};
use dp_outside::Sink;
use state_layout::Node;
use std::alloc::{AllocError, Global};
use successors::{ExpandEnd, Expander, Start};

/// The number that the last line has of a certificate without layers. On `Err` there is no room for a layer of one node.
fn lines_of(claim: &Claim) -> Result<u64, AllocError>
    ensures { IfOk result (λ lines. (lines ≡ line_of_end 1 claim.now []) × (lines + 2 < 2 ^ 32)) }
{
    let lines = match claim {
        Claim::Optimal(found) => 6 + found.steps.list().len() as u64,
        Claim::Infeasible => 5,
    };
    if lines + 2 < MOST_LINES {
        Ok(lines)
    } else {
        Err(AllocError)
    }
}

/// What the target turns out to be.
fn start_of<L: CostLaw>(alloc: Global, model: &Model, prune: bool) -> Result<Start, ExpandEnd>
    requires { IsLawOf model.now L.minimize L.operator }
    ensures start { Answers result (start_at model.now prune) }
    ensures fits { IfOk result (StartFits model.now) }
{
    let mut expander = Expander::<L>::new(alloc, model, prune)?;
    expander.start(alloc)
}

/// Writes a certificate of the target's node alone, which is cut.
fn put_target<S: Sink>(out: &mut S, model: &Model) -> Result<Written, CertEnd>
    ensures { PutsTarget model.now (S.taken out.old) (S.taken out.new) (S.faults out.old) (S.faults out.new) result }
{
    put_layer(
        out,
        model,
        0,
        &[CertNode {
            made: None,
            cut: true,
        }],
    )?;
    put_last(out, 1)
}

/// What follows where the target is an inner state: a search, unless its floor is no better than the claim.
fn after_open<L: CostLaw, S: Sink>(
    alloc: Global,
    out: &mut S,
    model: &Model,
    options: &Options,
    claim: &Claim,
    claimed: u64,
    node: Node,
    lines: u64,
) -> Result<Written, CertEnd>
    requires law { IsLawOf model.now L.minimize L.operator }
    requires claim { ClaimHolds model.now claim.now }
    requires claimed { word_claimed model.now claim.now ≡ pos claimed }
    requires lines { (lines ≡ line_of_end 1 claim.now []) × (lines + 2 < 2 ^ 32) }
    requires head { (before : Option (List ℕ)) × HasHead model.now options.now claim.now before (S.taken out.old) }
    requires inner { Inner model.now model.now.target }
    requires node { IsNodeOf model.now node }
    requires start { begins.IsStart model.now options.now.prune node }
    ensures told { (before : Option (List ℕ)) → HasHead model.now options.now claim.now before (S.taken out.old) → Tells model.now options.now claim.now before (S.taken out.new) result }
    ensures failed { result ≡ Err ends.Write → Rose (S.faults out.old) (S.faults out.new) }
    ensures count { S.faults out.old ≤ S.faults out.new }
{
    if is_cut::<L>(&node, claimed) {
        return put_target(out, model);
    }
    if options.prune() {
        search::<L, Dominating<L>, S>(alloc, out, model, options, claim, claimed, node, lines)
    } else {
        search::<L, Exact<L>, S>(alloc, out, model, options, claim, claimed, node, lines)
    }
}

/// A solution without steps.
fn found_at_target(alloc: Global, cost: i64) -> Found
    ensures { result ≡ record { cost = cost; steps = [] } }
{
    Found {
        cost,
        steps: Seq::of(Vec::new(alloc)),
    }
}

/// What follows where the target is base: it ends a better list than the claimed one, or there is nothing to search.
fn after_base<L: CostLaw, S: Sink>(
    alloc: Global,
    out: &mut S,
    model: &Model,
    options: &Options,
    claim: &Claim,
    claimed: u64,
    cost: i64,
    lines: u64,
) -> Result<Written, CertEnd>
    requires law { IsLawOf model.now L.minimize L.operator }
    requires claim { ClaimHolds model.now claim.now }
    requires claimed { word_claimed model.now claim.now ≡ pos claimed }
    requires lines { (lines ≡ line_of_end 1 claim.now []) × (lines + 2 < 2 ^ 32) }
    requires head { (before : Option (List ℕ)) × HasHead model.now options.now claim.now before (S.taken out.old) }
    requires base { Base model.now model.now.target cost }
    requires range { InRange cost }
    ensures told { (before : Option (List ℕ)) → HasHead model.now options.now claim.now before (S.taken out.old) → Tells model.now options.now claim.now before (S.taken out.new) result }
    ensures failed { result ≡ Err ends.Write → Rose (S.faults out.old) (S.faults out.new) }
    ensures count { S.faults out.old ≤ S.faults out.new }
{
    let _ = model;
    let _ = options;
    let _ = claim;
    let _ = lines;
    if L::word(Some(cost)) < claimed {
        return Ok(Written::Better(found_at_target(alloc, cost)));
    }
    put_last(out, 0)
}

/// What follows by what the target is.
fn after_start<L: CostLaw, S: Sink>(
    alloc: Global,
    out: &mut S,
    model: &Model,
    options: &Options,
    claim: &Claim,
    claimed: u64,
    start: Start,
    lines: u64,
) -> Result<Written, CertEnd>
    requires law { IsLawOf model.now L.minimize L.operator }
    requires claim { ClaimHolds model.now claim.now }
    requires claimed { word_claimed model.now claim.now ≡ pos claimed }
    requires lines { (lines ≡ line_of_end 1 claim.now []) × (lines + 2 < 2 ^ 32) }
    requires head { (before : Option (List ℕ)) × HasHead model.now options.now claim.now before (S.taken out.old) }
    requires start { start_at model.now options.now.prune ≡ Ok start }
    requires fits { StartFits model.now start }
    ensures told { (before : Option (List ℕ)) → HasHead model.now options.now claim.now before (S.taken out.old) → Tells model.now options.now claim.now before (S.taken out.new) result }
    ensures failed { result ≡ Err ends.Write → Rose (S.faults out.old) (S.faults out.new) }
    ensures count { S.faults out.old ≤ S.faults out.new }
{
    match start {
        Start::NotAllowed => put_last(out, 0),
        Start::Base(cost) => {
            after_base::<L, S>(alloc, out, model, options, claim, claimed, cost, lines)
        }
        Start::Open(node) => {
            after_open::<L, S>(alloc, out, model, options, claim, claimed, node, lines)
        }
    }
}

/// The fault that is met in the target.
fn fault_at_target(alloc: Global, spot: Spot, kind: FaultKind) -> FaultAt
    ensures { result ≡ record { steps = []; spot = spot; kind = kind } }
{
    FaultAt {
        steps: Seq::of(Vec::new(alloc)),
        spot,
        kind,
    }
}

/// What follows where the target could not be looked at.
fn refused(alloc: Global, end: ExpandEnd) -> Result<Written, CertEnd>
    ensures told { (m : ModelOf) (options : OptionsOf) (claim : ClaimOf) (before now : Option (List ℕ)) → Answers {A = StartOf} (Err end) (start_at m options.prune) → HasHead m options claim before now → Tells m options claim before now result }
    ensures no_write { result ≡ Err ends.Write → ⊥ }
{
    match end {
        ExpandEnd::Fault { spot, kind, last } => {
            let _ = last;
            Ok(Written::Fault(fault_at_target(alloc, spot, kind)))
        }
        ExpandEnd::Memory => Err(CertEnd::Memory),
    }
}

/// Makes a certificate under a law of costs, behind its head.
fn make_by<L: CostLaw, S: Sink>(
    alloc: Global,
    out: &mut S,
    model: &Model,
    options: &Options,
    claim: &Claim,
    lines: u64,
) -> Result<Written, CertEnd>
    requires law { IsLawOf model.now L.minimize L.operator }
    requires claim { ClaimHolds model.now claim.now }
    requires lines { (lines ≡ line_of_end 1 claim.now []) × (lines + 2 < 2 ^ 32) }
    requires head { (before : Option (List ℕ)) × HasHead model.now options.now claim.now before (S.taken out.old) }
    ensures told { (before : Option (List ℕ)) → HasHead model.now options.now claim.now before (S.taken out.old) → Tells model.now options.now claim.now before (S.taken out.new) result }
    ensures failed { result ≡ Err ends.Write → Rose (S.faults out.old) (S.faults out.new) }
    ensures count { S.faults out.old ≤ S.faults out.new }
{
    let claimed = claimed_word::<L>(claim);
    match start_of::<L>(alloc, model, options.prune()) {
        Ok(start) => {
            after_start::<L, S>(alloc, out, model, options, claim, claimed, start, lines)
        }
        Err(end) => refused(alloc, end),
    }
}

/// Makes a certificate under the model's law of costs, behind its head.
fn make_under_law<S: Sink>(
    alloc: Global,
    out: &mut S,
    model: &Model,
    options: &Options,
    claim: &Claim,
    lines: u64,
) -> Result<Written, CertEnd>
    requires claim { ClaimHolds model.now claim.now }
    requires lines { (lines ≡ line_of_end 1 claim.now []) × (lines + 2 < 2 ^ 32) }
    requires head { (before : Option (List ℕ)) × HasHead model.now options.now claim.now before (S.taken out.old) }
    ensures told { (before : Option (List ℕ)) → HasHead model.now options.now claim.now before (S.taken out.old) → Tells model.now options.now claim.now before (S.taken out.new) result }
    ensures failed { result ≡ Err ends.Write → Rose (S.faults out.old) (S.faults out.new) }
    ensures count { S.faults out.old ≤ S.faults out.new }
{
    match (model.minimize(), model.join()) {
        (true, JoinOp::Plus) => make_by::<MinPlus, S>(alloc, out, model, options, claim, lines),
        (true, JoinOp::Most) => make_by::<MinMost, S>(alloc, out, model, options, claim, lines),
        (true, JoinOp::Least) => make_by::<MinLeast, S>(alloc, out, model, options, claim, lines),
        (false, JoinOp::Plus) => make_by::<MaxPlus, S>(alloc, out, model, options, claim, lines),
        (false, JoinOp::Most) => make_by::<MaxMost, S>(alloc, out, model, options, claim, lines),
        (false, JoinOp::Least) => make_by::<MaxLeast, S>(alloc, out, model, options, claim, lines),
    }
}

/// Writes a certificate of the claim behind what the sink took: a search of its own shows that no legal list is better than the
/// claimed one, or that there is none. It searches on one thread, layer by layer, and keeps every node that is not covered.
/// `options.workers` says nothing here. The list of a claim has to be legal at its cost.
///
/// The search may end before the certificate is whole: `Stopped` where the visits reach the budget, `Better` where it meets a solution
/// that is better than the claim, `Fault` where it meets a fault. What was written then are whole lines, without `end`. It takes
/// memory for the nodes of a layer, and none for their text; a certificate whose lines are too many for numbers of 32 bits ends
/// for want of memory.
pub fn put_certificate<S: Sink>(
    alloc: Global,
    model: &Model,
    options: &Options,
    claim: &Claim,
    out: &mut S,
) -> Result<Written, CertEnd>
    requires { ClaimHolds model.now claim.now }
    ensures told { Tells model.now options.now claim.now (S.taken out.old) (S.taken out.new) result }
    ensures failed { result ≡ Err ends.Write → Rose (S.faults out.old) (S.faults out.new) }
    ensures count { S.faults out.old ≤ S.faults out.new }
{
    let lines = lines_of(claim)?;
    put_head(out, model, options.keep(), options.prune(), claim)?;
    make_under_law(alloc, out, model, options, claim, lines)
}
