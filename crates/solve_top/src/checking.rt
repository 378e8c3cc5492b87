//! The check of a certificate, and what is printed of it.

ghost use Rattle.std.specs.Prelude.{◌≡◌, IfOk, IfSome};
ghost use Rattle.cert_types.specs.Places.{IsPart};
ghost use Rattle.cert_laws.specs.PartChecks.{checked_by};
ghost use Rattle.solve_report.specs.Puts.{Puts};
ghost use Rattle.solve_top.specs.Outcomes.{certified_text, checked_status, checked_text, part_text, reason_word, rejected_text, yes_text};

use cert_check::{check, check_part};
use cert_laws::{CertReason, Checked};
use cert_types::{Cert, CheckPart};
use dp_model::{Claim, Model};
use dp_outside::{Failed, Sink};
use run_ends::Status;
use solve_report::{Piece, put_line, put_pieces};
use std::alloc::{AllocError, Global};

/// Checks a certificate, or the part of it that was asked for.
pub fn check_asked(
    alloc: Global,
    model: &Model,
    cert: &Cert,
    part: Option<CheckPart>,
) -> Result<Checked, AllocError>
    requires { IfSome part IsPart }
    ensures { IfOk result (λ told. told ≡ checked_by part model.now cert.now) }
{
    match part {
        Some(part) => check_part(alloc, model, cert, part),
        None => check(alloc, model, cert),
    }
}

fn reason_word(reason: CertReason) -> &'static str
    ensures { result.now ≡ reason_word reason }
{
    match reason {
        CertReason::Claim => "Claim",
        CertReason::Target => "Target",
        CertReason::Node => "Node",
        CertReason::Cut => "Cut",
        CertReason::Step => "Step",
        CertReason::Fault => "Fault",
    }
}

/// Prints that a claim is certified.
fn put_certified<S: Sink>(out: &mut S, claim: &Claim) -> Result<(), Failed>
    ensures { Puts (S.taken out.old) (S.taken out.new) (S.faults out.old) (S.faults out.new)
        (certified_text claim.now) result }
{
    match claim {
        Claim::Optimal(found) => put_pieces(
            out,
            &[
                Piece::Text("verdict certified optimal "),
                Piece::Signed(found.cost),
            ],
        ),
        Claim::Infeasible => put_line(out, "verdict certified infeasible"),
    }
}

/// Prints that a claim is certified in a part.
fn put_certified_part<S: Sink>(out: &mut S, part: CheckPart, claim: &Claim) -> Result<(), Failed>
    ensures { Puts (S.taken out.old) (S.taken out.new) (S.faults out.old) (S.faults out.new)
        (part_text part claim.now) result }
{
    let index = u64::from(part.index);
    let count = u64::from(part.count);
    match claim {
        Claim::Optimal(found) => put_pieces(
            out,
            &[
                Piece::Text("verdict part "),
                Piece::Number(index),
                Piece::Text(" of "),
                Piece::Number(count),
                Piece::Text(" certified optimal "),
                Piece::Signed(found.cost),
            ],
        ),
        Claim::Infeasible => put_pieces(
            out,
            &[
                Piece::Text("verdict part "),
                Piece::Number(index),
                Piece::Text(" of "),
                Piece::Number(count),
                Piece::Text(" certified infeasible"),
            ],
        ),
    }
}

/// Prints a yes, of the whole or of a part.
fn put_yes<S: Sink>(out: &mut S, part: Option<CheckPart>, claim: &Claim) -> Result<(), Failed>
    ensures { Puts (S.taken out.old) (S.taken out.new) (S.faults out.old) (S.faults out.new)
        (yes_text part claim.now) result }
{
    match part {
        Some(part) => put_certified_part(out, part, claim),
        None => put_certified(out, claim),
    }
}

/// Prints that a line of a certificate is rejected, and why.
fn put_rejected<S: Sink>(out: &mut S, line: u32, reason: CertReason) -> Result<(), Failed>
    ensures { Puts (S.taken out.old) (S.taken out.new) (S.faults out.old) (S.faults out.new)
        (rejected_text line reason) result }
{
    put_pieces(
        out,
        &[
            Piece::Text("verdict rejected "),
            Piece::Number(u64::from(line)),
            Piece::Text(" "),
            Piece::Text(reason_word(reason)),
        ],
    )
}

/// Prints what the check of a certificate with this claim told, of the whole or of a part.
pub fn put_checked<S: Sink>(
    out: &mut S,
    part: Option<CheckPart>,
    claim: &Claim,
    told: Checked,
) -> Result<(), Failed>
    ensures { Puts (S.taken out.old) (S.taken out.new) (S.faults out.old) (S.faults out.new)
        (checked_text part claim.now told) result }
{
    match told {
        Checked::Yes => put_yes(out, part, claim),
        Checked::No { line, reason } => put_rejected(out, line, reason),
    }
}

/// The status of a run that checked a certificate.
pub fn checked_status(told: Checked) -> Status
    ensures { result ≡ checked_status told }
{
    match told {
        Checked::Yes => Status::Success,
        Checked::No { .. } => Status::Negative,
    }
}
