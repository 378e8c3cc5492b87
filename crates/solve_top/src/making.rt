//! A search, and the certificate behind its verdict.

ghost use Rattle.std.specs.Prelude.{◌≡◌, ◌⊎◌, List, ℕ, IfSome, Option, None};
ghost use Rattle.dp_outside.specs.Outside.{Rose};
ghost use Rattle.dp_model.specs.declared.answers.Claim.{Claim};
ghost use Rattle.pass_ends.specs.Passes.{AreOptions};
ghost use Rattle.cert_laws.specs.Shown.{ClaimHolds};
ghost use Rattle.run_ends.specs.declared.status.Status.{Status};
ghost use Rattle.run_ends.specs.declared.status.Status.TheVariants as statuses;
ghost use Rattle.solve_top.specs.Behind.{Follows, Solves, SolvesBest, SolvesBy, WasPrinted, WritesBehind};
ghost use Rattle.solve_top.specs.Jobs as jobs;

use cert_making::{CertEnd, put_certificate};
use command_line::{Engine, Search};
use dp_model::{Claim, Keep, Model, Options};
use dp_outside::{Gate, Sink};
use run_ends::{Solved, Status, run_out, status_after};
use solve_best::solve_best;
use solve_passes::{Printing, solve};
use solve_report::put_written;
use std::alloc::Global;
use std::sync::Wait;
use std::thread::Threads;

/// Writes a certificate of a claim behind a verdict that has this status, and answers the status of the run.
fn put_behind<S: Sink>(
    alloc: Global,
    out: &mut S,
    model: &Model,
    options: &Options,
    claim: &Claim,
    status: Status,
) -> Status
    requires { ClaimHolds model.now claim.now }
    ensures printed { WritesBehind model.now options.now claim.now status (S.taken out.old) (S.taken out.new) result }
    ensures read_fault { result ≡ statuses.ReadFault → status ≡ statuses.ReadFault }
    ensures failed { result ≡ statuses.WriteFault → (status ≡ statuses.WriteFault) ⊎ Rose (S.faults out.old) (S.faults out.new) }
{
    match put_certificate(alloc, model, options, claim, out) {
        Ok(written) => status_after(put_written(out, model, &written), status),
        Err(CertEnd::Write) => Status::WriteFault,
        Err(CertEnd::Memory) => run_out(out),
    }
}

/// Writes a certificate of what a search claims behind the text that it printed, where one is asked for. Answers the status of the run.
fn certify<S: Sink>(
    alloc: Global,
    out: &mut S,
    model: &Model,
    options: &Options,
    certificate: bool,
    solved: &Solved,
) -> Status
    requires holds { IfSome solved.now.claim (ClaimHolds model.now) }
    requires unclaimed { solved.now.status ≡ statuses.WriteFault → solved.now.claim ≡ None }
    ensures printed { (before : Option (List ℕ)) (text : List ℕ) (claimed : Option Claim) (wanted : Status) → WasPrinted before (S.taken out.old) text claimed wanted solved.now
        → Follows certificate model.now options.now before (S.taken out.new) text claimed wanted result }
    ensures read_fault { result ≡ statuses.ReadFault → solved.now.status ≡ statuses.ReadFault }
    ensures failed { result ≡ statuses.WriteFault → ((solved.now.status ≡ statuses.WriteFault) × (S.faults out.new ≡ S.faults out.old)) ⊎ Rose (S.faults out.old) (S.faults out.new) }
{
    if !certificate {
        return solved.status;
    }
    match &solved.claim {
        Some(claim) => put_behind(alloc, out, model, options, claim, solved.status),
        None => solved.status,
    }
}

/// Searches a model layer by layer, and prints what it finds, and a certificate where one is asked for.
fn solve_by_layers<R: Threads + Wait + Sync, S: Sink, G: Gate>(
    rt: &R,
    alloc: Global,
    out: &mut S,
    gate: &G,
    model: &Model,
    search: &Search,
) -> Status
    requires { AreOptions search.now.options }
    ensures printed { Solves model.now search.now.options search.now.gap search.now.announce search.now.certificate (S.taken out.old) (S.taken out.new) result }
    ensures read_fault { result ≡ statuses.ReadFault → ⊥ }
    ensures failed { result ≡ statuses.WriteFault → Rose (S.faults out.old) (S.faults out.new) }
{
    let solved = solve(
        rt,
        alloc,
        out,
        model,
        &search.options,
        search.gap,
        Printing::All {
            announce: search.announce,
        },
        gate,
    );
    certify(
        alloc,
        out,
        model,
        &search.options,
        search.certificate,
        &solved,
    )
}

/// The options with which certificates are written of a search of the best node first: nodes of all layers cover.
fn keeping_all(options: &Options) -> Options
    ensures { result ≡ jobs.keeping_all options.now }
{
    Options {
        workers: options.workers(),
        budget: options.budget(),
        prune: options.prune(),
        keep: Keep::All,
    }
}

/// Searches a model with the best node first, and prints what it finds, and a certificate where one is asked for.
fn solve_best_first<R: Threads + Wait + Sync, S: Sink, G: Gate>(
    rt: &R,
    alloc: Global,
    out: &mut S,
    gate: &G,
    model: &Model,
    options: &Options,
    certificate: bool,
) -> Status
    requires { AreOptions options.now }
    ensures printed { SolvesBest model.now options.now certificate (S.taken out.old) (S.taken out.new) result }
    ensures read_fault { result ≡ statuses.ReadFault → ⊥ }
    ensures failed { result ≡ statuses.WriteFault → Rose (S.faults out.old) (S.faults out.new) }
{
    let solved = solve_best(rt, alloc, out, model, options, gate);
    let keeping = keeping_all(options);
    certify(alloc, out, model, &keeping, certificate, &solved)
}

/// Searches a model as it is asked for, and prints what it finds. Where a certificate is asked for, one of what the search claims is written
/// behind its verdict.
pub fn solve_and_certify<R: Threads + Wait + Sync, S: Sink, G: Gate>(
    rt: &R,
    alloc: Global,
    out: &mut S,
    gate: &G,
    model: &Model,
    search: &Search,
) -> Status
    requires { AreOptions search.now.options }
    ensures printed { SolvesBy search.now.engine model.now search.now.options search.now.gap search.now.announce search.now.certificate (S.taken out.old) (S.taken out.new) result }
    ensures read_fault { result ≡ statuses.ReadFault → ⊥ }
    ensures failed { result ≡ statuses.WriteFault → Rose (S.faults out.old) (S.faults out.new) }
{
    match search.engine {
        Engine::Beam => solve_by_layers(rt, alloc, out, gate, model, search),
        Engine::Best => solve_best_first(
            rt,
            alloc,
            out,
            gate,
            model,
            &search.options,
            search.certificate,
        ),
    }
}
