//! The check of a certificate.

ghost use Rattle.std.specs.Prelude.{◌≡◌, ◌<◌, ◌^◌, IfOk, length};
ghost use Rattle.eval_room.specs.Needs.{ServesModel};
ghost use Rattle.cost_laws.specs.Orders.{IsLawOf};
ghost use Rattle.dp_model.specs.declared.whole.Model.{Model as DpModel};
ghost use Rattle.spot_eval.specs.Ranges.{LookFits};
ghost use Rattle.cert_types.specs.Lines.{lines_of_list};
ghost use Rattle.cert_types.specs.Places.{IsPart};
ghost use Rattle.cert_laws.specs.Checks.{checked, claim_fails, is_alone, list_fails, target_fails, target_fails_by};
ghost use Rattle.cert_laws.specs.PartChecks.{checked_in};

use crate::clauses::{is_high, must};
use crate::layers::layers_told;
use crate::looker::{Looker, stack_for};
use cert_laws::{CertReason, Checked};
use cert_types::{Cert, CheckPart};
use cost_laws::{CostLaw, MaxLeast, MaxMost, MaxPlus, MinLeast, MinMost, MinPlus};
use dom_store::{Covers, Dominating, Exact};
use dp_model::{Claim, JoinOp, Model};
use replay_list::{Replayed, replay};
use spot_eval::Look;
use std::alloc::{AllocError, Global};

/// Whether layer 0 is one node alone.
fn is_alone(cert: &Cert) -> bool
    ensures { result ≡ is_alone cert.now.layers }
{
    match cert.layers.list().first() {
        Some(nodes) => nodes.list().len() == 1,
        None => false,
    }
}

/// Why what the target turns out to be rejects the first line, if it does.
fn target_fails_by(minimize: bool, cert: &Cert, look: Look) -> Option<CertReason>
    requires { LookFits look }
    ensures { (m : DpModel) → m.minimize ≡ minimize → result ≡ target_fails_by m cert.now look }
{
    match look {
        Look::NotAllowed => None,
        Look::Base(base) => must(
            is_high(minimize, &cert.claim, Some(base)),
            CertReason::Target,
        ),
        Look::Open(_) => Some(CertReason::Target),
    }
}

/// Why the first line is rejected, if it is.
fn target_fails<L: CostLaw>(
    looker: &Looker<'_>,
    alloc: Global,
    cert: &Cert,
    stack: &mut [u64],
) -> Result<Option<CertReason>, AllocError>
    requires law { IsLawOf looker.now L.minimize L.operator }
    requires room { ServesModel looker.now (length stack.old) }
    ensures { IfOk result (λ fails. fails ≡ target_fails looker.now cert.now) }
{
    if is_alone(cert) {
        return Ok(None);
    }
    let state = looker.layout().pack(alloc, looker.model().target())?;
    match looker.look::<L>(&state, false, None, stack) {
        Ok(look) => Ok(target_fails_by(looker.model().minimize(), cert, look)),
        Err(_) => Ok(Some(CertReason::Fault)),
    }
}

/// Why what a replay of the claimed list tells rejects the line of the claim, if it does.
fn list_fails(cost: i64, told: Replayed) -> Option<CertReason>
    ensures { result ≡ list_fails cost told }
{
    match told {
        Replayed::Legal { cost: total } => {
            must(cost <= total && total <= cost, CertReason::Claim)
        }
        Replayed::Illegal { .. } => Some(CertReason::Claim),
        Replayed::Faulted { .. } => Some(CertReason::Fault),
    }
}

/// Why the line of the claim is rejected, if it is.
fn claim_fails(
    alloc: Global,
    model: &Model,
    claim: &Claim,
) -> Result<Option<CertReason>, AllocError>
    requires { lines_of_list claim.now < 2 ^ 32 }
    ensures { IfOk result (λ fails. fails ≡ claim_fails model.now claim.now) }
{
    match claim {
        Claim::Optimal(found) => {
            let told = replay(alloc, model, &found.steps)?;
            Ok(list_fails(found.cost, told))
        }
        Claim::Infeasible => Ok(None),
    }
}

/// The check of a part of a certificate by a law of costs and by what covers.
fn check_by<L: CostLaw, K: Covers>(
    alloc: Global,
    model: &Model,
    cert: &Cert,
    part: CheckPart,
) -> Result<Checked, AllocError>
    requires law { IsLawOf model.now L.minimize L.operator }
    requires covering { IsLawOf model.now K.minimize K.operator }
    requires prune { K.prune ≡ cert.now.prune }
    requires part { IsPart part }
    ensures { IfOk result (λ told. told ≡ checked_in part model.now cert.now) }
{
    let looker = Looker::new(alloc, model)?;
    let mut stack = stack_for(alloc, model)?;
    if let Some(reason) = target_fails::<L>(&looker, alloc, cert, &mut stack)? {
        let line = cert.first;
        return Ok(Checked::No { line, reason });
    }
    if let Some(reason) = claim_fails(alloc, model, &cert.claim)? {
        let line = cert.first + 3;
        return Ok(Checked::No { line, reason });
    }
    layers_told::<L, K>(&looker, alloc, cert, part, &mut stack)
}

/// The check of a part of a certificate by a law of costs.
fn check_under<L: CostLaw>(
    alloc: Global,
    model: &Model,
    cert: &Cert,
    part: CheckPart,
) -> Result<Checked, AllocError>
    requires law { IsLawOf model.now L.minimize L.operator }
    requires part { IsPart part }
    ensures { IfOk result (λ told. told ≡ checked_in part model.now cert.now) }
{
    if cert.prune {
        check_by::<L, Dominating<L>>(alloc, model, cert, part)
    } else {
        check_by::<L, Exact<L>>(alloc, model, cert, part)
    }
}

/// Checks a part of a certificate: yes exactly where it shows its claim in the part, and else the first line of the file at which it fails
/// there, in the order of the text, and why.
pub fn check_part(
    alloc: Global,
    model: &Model,
    cert: &Cert,
    part: CheckPart,
) -> Result<Checked, AllocError>
    requires { IsPart part }
    ensures { IfOk result (λ told. told ≡ checked_in part model.now cert.now) }
{
    match (model.minimize(), model.join()) {
        (true, JoinOp::Plus) => check_under::<MinPlus>(alloc, model, cert, part),
        (true, JoinOp::Most) => check_under::<MinMost>(alloc, model, cert, part),
        (true, JoinOp::Least) => check_under::<MinLeast>(alloc, model, cert, part),
        (false, JoinOp::Plus) => check_under::<MaxPlus>(alloc, model, cert, part),
        (false, JoinOp::Most) => check_under::<MaxMost>(alloc, model, cert, part),
        (false, JoinOp::Least) => check_under::<MaxLeast>(alloc, model, cert, part),
    }
}

/// Checks a certificate: yes exactly where it shows its claim, and else the first line of the file at which it fails, in the
/// order of the text, and why.
pub fn check(alloc: Global, model: &Model, cert: &Cert) -> Result<Checked, AllocError>
    ensures { IfOk result (λ told. told ≡ checked model.now cert.now) }
{
    check_part(alloc, model, cert, CheckPart::whole())
}
