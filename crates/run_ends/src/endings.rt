//! How a run ends: with a verdict, or for want of memory.

ghost use Rattle.std.specs.Prelude.{◌≡◌, ◌≤◌, ◌⊎◌, codes};
ghost use Rattle.dp_outside.specs.Outside.{Rose, Takes, TakesFront};
ghost use Rattle.dp_base.specs.Bytes.{line};
ghost use Rattle.solve_report.specs.Lines.{verdict_text};
ghost use Rattle.run_ends.specs.Statuses.{verdict_status};

use crate::status::Status;
use dp_model::{Model, Verdict};
use dp_outside::{Failed, Sink};
use solve_report::{put_line, put_verdict};

/// The status of a verdict.
fn status_of(verdict: &Verdict) -> Status
    ensures { result ≡ verdict_status verdict.now }
{
    match verdict {
        Verdict::Optimal(_) | Verdict::Legal(_) => Status::Success,
        Verdict::Infeasible | Verdict::Illegal(_, _) => Status::Negative,
        Verdict::Stopped(_) => Status::Stopped,
        Verdict::Fault(_) => Status::Fault,
    }
}

/// Prints a verdict, and answers its status, or that of a failed write.
pub fn conclude<S: Sink>(out: &mut S, model: &Model, verdict: &Verdict) -> Status
    ensures printed { ((result ≡ verdict_status verdict.now) × Takes (S.taken out.old) (S.taken out.new) (verdict_text model.now verdict.now))
        ⊎ ((result ≡ Status.WriteFault) × TakesFront (S.taken out.old) (S.taken out.new) (verdict_text model.now verdict.now)) }
    ensures failed { result ≡ Status.WriteFault → Rose (S.faults out.old) (S.faults out.new) }
    ensures count { S.faults out.old ≤ S.faults out.new }
{
    match put_verdict(out, model, verdict) {
        Ok(()) => status_of(verdict),
        Err(Failed) => Status::WriteFault,
    }
}

/// Prints that memory ran out, and answers its status, or that of a failed write.
pub fn run_out<S: Sink>(out: &mut S) -> Status
    ensures printed { ((result ≡ Status.Memory) × Takes (S.taken out.old) (S.taken out.new) (line (codes "memory")))
        ⊎ ((result ≡ Status.WriteFault) × TakesFront (S.taken out.old) (S.taken out.new) (line (codes "memory"))) }
    ensures failed { result ≡ Status.WriteFault → Rose (S.faults out.old) (S.faults out.new) }
    ensures count { S.faults out.old ≤ S.faults out.new }
{
    match put_line(out, "memory") {
        Ok(()) => Status::Memory,
        Err(Failed) => Status::WriteFault,
    }
}
