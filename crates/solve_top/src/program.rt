//! The top call: what the program does with its words.

ghost use Rattle.std.specs.Prelude.{◌≡◌, ◌≤◌, ◌<◌, ◌^◌, ◌⊎◌, ◌++◌, ℕ, List, Option, Some, None, IfSome, map, string_bytes, length};
ghost use Rattle.dp_outside.specs.Outside.{Rose};
ghost use Rattle.dp_base.specs.Bytes.{line};
ghost use Rattle.cert_types.specs.Places.{IsPart};
ghost use Rattle.command_line.specs.Jobs.{job_of};
ghost use Rattle.command_line.specs.declared.jobs.Job.TheVariants as jobs;
ghost use Rattle.model_gen.specs.Kinds.{least_size, most_size};
ghost use Rattle.pass_ends.specs.Passes.{AreOptions};
ghost use Rattle.replay_list.specs.Replays.{replayed};
ghost use Rattle.run_ends.specs.Statuses.{code_of};
ghost use Rattle.run_ends.specs.declared.status.Status.{Status};
ghost use Rattle.solve_report.specs.Lines.{file_name as name_of_file};
ghost use Rattle.solve_report.specs.Puts.{Puts};
ghost use Rattle.solve_top.specs.Answers.{SettlesFiles, SettlesGenerated, SettlesSmall};
ghost use Rattle.solve_top.specs.Certified.{Certifies};
ghost use Rattle.solve_top.specs.Jobs.{JobFits, gen_options};
ghost use Rattle.solve_top.specs.Outcomes.{Outcome, Checks, NoMeaning, ComesOf, Does, Printed, SearchesFor, SolvesGenerated, checked_text, gen_line, ground_line};
ghost use Rattle.solve_top.specs.Outcomes as outcomes;
ghost use Rattle.solve_top.specs.Parts.{part_lines};
ghost use Rattle.solve_top.specs.Runs.{outcome_of};
ghost use Rattle.solve_top.specs.Wholes.{SettlesWhole};
ghost use Rattle.solve_top.specs.declared.causes.NoModel.TheVariants as causes;

use crate::causes::NoModel;
use crate::checking::{check_asked, checked_status, put_checked};
use crate::generating::{generate_model, kind_name};
use crate::loading::{Claimed, Listed, load, load_claimed, load_listed};
use crate::making::solve_and_certify;
use crate::proving::{put_parts, searched_of};
use crate::replaying::verdict_on;
use cert_laws::Checked;
use cert_types::CheckPart;
use command_line::{Job, Search, WordsEnd, read_words};
use dp_base::Text;
use dp_model::{Claim, Keep, Model, Options};
use dp_outside::{Failed, Gate, Shelf, Sink};
use kept_model::Part;
use model_gen::GenKind;
use solve_passes::{Printing, Status, conclude, run_out, solve, status_after};
use solve_report::{Piece, file_name, put_line, put_pieces, put_refusal, put_show};
use std::alloc::{AllocError, Global};
use std::sync::Wait;
use std::thread::Threads;

/// How many visits a search of a generated model makes at most: as many as where no budget is given.
const GENERATED_BUDGET: u64 = 10_000_000;

/// Prints a line of words and the name of a file.
fn put_file_line<S: Sink>(out: &mut S, words: &str, file: u8) -> Result<(), Failed>
    ensures { Puts (S.taken out.old) (S.taken out.new) (S.faults out.old) (S.faults out.new)
        (line (words.now ++ name_of_file file)) result }
{
    put_pieces(out, &[Piece::Text(words), Piece::Text(file_name(file))])
}

/// Prints why there is no model, and answers the status.
fn put_cause<S: Sink>(out: &mut S, cause: &NoModel) -> Status
    ensures printed { Printed (S.taken out.old) (S.taken out.new) (outcome_of cause.now) result }
    ensures read_fault { result ≡ Status.ReadFault → (file : ℕ) × (cause.now ≡ causes.ReadFault file) }
    ensures failed { result ≡ Status.WriteFault → Rose (S.faults out.old) (S.faults out.new) }
    ensures count { S.faults out.old ≤ S.faults out.new }
{
    match cause {
        NoModel::ReadFault(file) => {
            status_after(put_file_line(out, "read fault ", *file), Status::ReadFault)
        }
        NoModel::TooLong(file) => {
            status_after(put_file_line(out, "too long ", *file), Status::TooLong)
        }
        NoModel::Refused {
            number,
            place,
            offset,
        } => status_after(put_refusal(out, *place, *offset, *number), Status::Refused),
        NoModel::Memory => run_out(out),
    }
}

/// Prints which words have a meaning, and answers the status.
fn put_usage<S: Sink>(out: &mut S) -> Status
    ensures printed { Printed (S.taken out.old) (S.taken out.new) NoMeaning result }
    ensures read_fault { result ≡ Status.ReadFault → ⊥ }
    ensures failed { result ≡ Status.WriteFault → Rose (S.faults out.old) (S.faults out.new) }
{
    let written = put_line(
        out,
        "usage: solve DOMAIN PROBLEM; replay DOMAIN PROBLEM LIST; show DOMAIN PROBLEM; gen KIND SIZE SEED; check DOMAIN PROBLEM CERT",
    );
    status_after(written, Status::Usage)
}

/// Solves a model, or what is proved of it, behind the lines that tell its parts.
fn solve_model<R: Threads + Wait + Sync, S: Sink, G: Gate>(
    rt: &R,
    alloc: Global,
    out: &mut S,
    gate: &G,
    model: Model,
    search: &Search,
) -> Status
    requires { AreOptions search.now.options }
    ensures printed { SearchesFor model search.now (S.taken out.old) (S.taken out.new) result }
    ensures read_fault { result ≡ Status.ReadFault → ⊥ }
    ensures failed { result ≡ Status.WriteFault → Rose (S.faults out.old) (S.faults out.new) }
{
    let Ok(searched) = searched_of(alloc, model, search.proved) else {
        return run_out(out);
    };
    match put_parts(out, &searched.parts) {
        Ok(()) => solve_and_certify(rt, alloc, out, gate, &searched.model, search),
        Err(Failed) => Status::WriteFault,
    }
}

/// Solves the model in two files.
fn solve_files<R: Threads + Wait + Sync, F: Shelf, S: Sink, G: Gate>(
    rt: &R,
    alloc: Global,
    shelf: &mut F,
    out: &mut S,
    gate: &G,
    domain: &Text,
    problem: &Text,
    search: &Search,
) -> Status
    requires { AreOptions search.now.options }
    ensures printed { Does (jobs.Solve domain.now problem.now search.now) (F.bytes_under shelf.old) (S.taken out.old) (S.taken out.new) result }
    ensures read_fault { result ≡ Status.ReadFault → Rose (F.faults shelf.old) (F.faults shelf.new) }
    ensures write_fault { result ≡ Status.WriteFault → Rose (S.faults out.old) (S.faults out.new) }
{
    match load(alloc, shelf, domain, problem) {
        Ok(model) => solve_model(rt, alloc, out, gate, model, search),
        Err(cause) => put_cause(out, &cause),
    }
}

/// Prints the verdict of the replay of a list, and answers the status.
fn put_replay<S: Sink>(alloc: Global, out: &mut S, listed: Listed) -> Status
    requires { length listed.steps < 2 ^ 32 }
    ensures printed { Printed (S.taken out.old) (S.taken out.new) (outcomes.Replayed listed.model listed.steps (replayed listed.model listed.steps)) result
        ⊎ Printed (S.taken out.old) (S.taken out.new) outcomes.NoMemory result }
    ensures read_fault { result ≡ Status.ReadFault → ⊥ }
    ensures failed { result ≡ Status.WriteFault → Rose (S.faults out.old) (S.faults out.new) }
{
    let Listed { model, steps } = listed;
    match verdict_on(alloc, &model, steps) {
        Ok(verdict) => conclude(out, &model, &verdict),
        Err(AllocError) => run_out(out),
    }
}

/// Replays the list in the last of three files in the model that the others mean.
fn replay_files<F: Shelf, S: Sink>(
    alloc: Global,
    shelf: &mut F,
    out: &mut S,
    domain: &Text,
    problem: &Text,
    list: &Text,
) -> Status
    ensures printed { Does (jobs.Replay domain.now problem.now list.now) (F.bytes_under shelf.old) (S.taken out.old) (S.taken out.new) result }
    ensures read_fault { result ≡ Status.ReadFault → Rose (F.faults shelf.old) (F.faults shelf.new) }
    ensures write_fault { result ≡ Status.WriteFault → Rose (S.faults out.old) (S.faults out.new) }
{
    match load_listed(alloc, shelf, domain, problem, list) {
        Ok(listed) => put_replay(alloc, out, listed),
        Err(cause) => put_cause(out, &cause),
    }
}

/// Prints the parts of a model that were told and what was told of a certificate with this claim.
fn put_told<S: Sink>(
    out: &mut S,
    parts: &[Part],
    part: Option<CheckPart>,
    claim: &Claim,
    told: Checked,
) -> Result<(), Failed>
    ensures { Puts (S.taken out.old) (S.taken out.new) (S.faults out.old) (S.faults out.new)
        (part_lines parts.now ++ checked_text part claim.now told) result }
{
    put_parts(out, parts)?;
    put_checked(out, part, claim, told)
}

/// Checks a certificate, or a part of it, over a model, or over what is proved of it, prints what is told of it, and answers the status.
fn put_check<S: Sink>(
    alloc: Global,
    out: &mut S,
    claimed: Claimed,
    proved: bool,
    part: Option<CheckPart>,
) -> Status
    requires { IfSome part IsPart }
    ensures printed { Checks claimed.model claimed.cert proved part (S.taken out.old) (S.taken out.new) result }
    ensures read_fault { result ≡ Status.ReadFault → ⊥ }
    ensures failed { result ≡ Status.WriteFault → Rose (S.faults out.old) (S.faults out.new) }
{
    let Claimed { model, cert } = claimed;
    let Ok(searched) = searched_of(alloc, model, proved) else {
        return run_out(out);
    };
    match check_asked(alloc, &searched.model, &cert, part) {
        Ok(told) => {
            let written = put_told(out, &searched.parts, part, &cert.claim, told);
            status_after(written, checked_status(told))
        }
        Err(AllocError) => run_out(out),
    }
}

/// Checks the certificate in the last of three files, over the model that the others mean or over what is proved of it.
fn check_files<F: Shelf, S: Sink>(
    alloc: Global,
    shelf: &mut F,
    out: &mut S,
    domain: &Text,
    problem: &Text,
    cert: &Text,
    proved: bool,
    part: Option<CheckPart>,
) -> Status
    requires { IfSome part IsPart }
    ensures printed { Does (jobs.Check domain.now problem.now cert.now proved part) (F.bytes_under shelf.old) (S.taken out.old) (S.taken out.new) result }
    ensures read_fault { result ≡ Status.ReadFault → Rose (F.faults shelf.old) (F.faults shelf.new) }
    ensures write_fault { result ≡ Status.WriteFault → Rose (S.faults out.old) (S.faults out.new) }
{
    match load_claimed(alloc, shelf, domain, problem, cert) {
        Ok(claimed) => put_check(alloc, out, claimed, proved, part),
        Err(cause) => put_cause(out, &cause),
    }
}

/// Prints what was understood of a model, and answers the status.
fn put_shown<S: Sink>(out: &mut S, model: &Model) -> Status
    ensures printed { Printed (S.taken out.old) (S.taken out.new) (outcomes.Shown model.now) result }
    ensures read_fault { result ≡ Status.ReadFault → ⊥ }
    ensures failed { result ≡ Status.WriteFault → Rose (S.faults out.old) (S.faults out.new) }
{
    status_after(put_show(out, model), Status::Success)
}

/// Says what was understood of the model in two files.
fn show_files<F: Shelf, S: Sink>(
    alloc: Global,
    shelf: &mut F,
    out: &mut S,
    domain: &Text,
    problem: &Text,
) -> Status
    ensures printed { Does (jobs.Show domain.now problem.now) (F.bytes_under shelf.old) (S.taken out.old) (S.taken out.new) result }
    ensures read_fault { result ≡ Status.ReadFault → Rose (F.faults shelf.old) (F.faults shelf.new) }
    ensures write_fault { result ≡ Status.WriteFault → Rose (S.faults out.old) (S.faults out.new) }
{
    match load(alloc, shelf, domain, problem) {
        Ok(model) => put_shown(out, &model),
        Err(cause) => put_cause(out, &cause),
    }
}

/// Prints which model is generated.
fn put_generated<S: Sink>(out: &mut S, kind: GenKind, size: u32, seed: u64) -> Result<(), Failed>
    ensures { Puts (S.taken out.old) (S.taken out.new) (S.faults out.old) (S.faults out.new)
        (gen_line kind size seed) result }
{
    let pieces = [
        Piece::Text("gen "),
        Piece::Text(kind_name(kind)),
        Piece::Text(" "),
        Piece::Number(u64::from(size)),
        Piece::Text(" "),
        Piece::Number(seed),
    ];
    put_pieces(out, &pieces)
}

/// Prints how many ground transitions a model has.
fn put_ground<S: Sink>(out: &mut S, model: &Model) -> Result<(), Failed>
    ensures { Puts (S.taken out.old) (S.taken out.new) (S.faults out.old) (S.faults out.new)
        (ground_line model.now) result }
{
    let count = model.dp_ground.list().len() as u64;
    put_pieces(out, &[Piece::Text("ground "), Piece::Number(count)])
}

/// Searches a generated model, and prints its number of ground transitions and the verdict.
fn solve_generated<R: Threads + Wait + Sync, S: Sink, G: Gate>(
    rt: &R,
    alloc: Global,
    out: &mut S,
    gate: &G,
    model: &Model,
    workers: u32,
) -> Status
    requires { AreOptions (gen_options workers) }
    ensures printed { SolvesGenerated model.now workers (S.taken out.old) (S.taken out.new) result }
    ensures read_fault { result ≡ Status.ReadFault → ⊥ }
    ensures failed { result ≡ Status.WriteFault → Rose (S.faults out.old) (S.faults out.new) }
{
    if put_ground(out, model).is_err() {
        return Status::WriteFault;
    }
    let options = Options {
        workers,
        budget: GENERATED_BUDGET,
        prune: true,
        keep: Keep::Layer,
    };
    let solved = solve(
        rt,
        alloc,
        out,
        model,
        &options,
        false,
        Printing::VerdictAlone,
        gate,
    );
    solved.status
}

/// Generates a model and searches it.
fn generate_and_solve<R: Threads + Wait + Sync, S: Sink, G: Gate>(
    rt: &R,
    alloc: Global,
    out: &mut S,
    gate: &G,
    kind: GenKind,
    size: u32,
    seed: u64,
    workers: u32,
) -> Status
    requires least { least_size kind ≤ size }
    requires most { size ≤ most_size kind }
    requires options { AreOptions (gen_options workers) }
    ensures printed { (files : List ℕ → Option (List ℕ)) → Does (jobs.Gen kind size seed workers) files (S.taken out.old) (S.taken out.new) result }
    ensures read_fault { result ≡ Status.ReadFault → ⊥ }
    ensures failed { result ≡ Status.WriteFault → Rose (S.faults out.old) (S.faults out.new) }
{
    if put_generated(out, kind, size, seed).is_err() {
        return Status::WriteFault;
    }
    match generate_model(alloc, kind, size, seed) {
        Ok(model) => solve_generated(rt, alloc, out, gate, &model, workers),
        Err(cause) => put_cause(out, &cause),
    }
}

/// Does a job.
fn perform_job<R: Threads + Wait + Sync, F: Shelf, S: Sink, G: Gate>(
    rt: &R,
    alloc: Global,
    shelf: &mut F,
    out: &mut S,
    gate: &G,
    job: &Job,
) -> Status
    requires { JobFits job.now }
    ensures printed { Does job.now (F.bytes_under shelf.old) (S.taken out.old) (S.taken out.new) result }
    ensures read_fault { result ≡ Status.ReadFault → Rose (F.faults shelf.old) (F.faults shelf.new) }
    ensures write_fault { result ≡ Status.WriteFault → Rose (S.faults out.old) (S.faults out.new) }
{
    match job {
        Job::Solve {
            domain,
            problem,
            search,
        } => solve_files(rt, alloc, shelf, out, gate, domain, problem, search),
        Job::Replay {
            domain,
            problem,
            list,
        } => replay_files(alloc, shelf, out, domain, problem, list),
        Job::Show { domain, problem } => show_files(alloc, shelf, out, domain, problem),
        Job::Check {
            domain,
            problem,
            cert,
            proved,
            part,
        } => check_files(alloc, shelf, out, domain, problem, cert, *proved, *part),
        Job::Gen {
            kind,
            size,
            seed,
            workers,
        } => generate_and_solve(rt, alloc, out, gate, *kind, *size, *seed, *workers),
    }
}

/// Prints why the words give no job, and answers the status.
fn put_no_job<S: Sink>(out: &mut S, end: WordsEnd) -> Status
    ensures printed { (words : List (List ℕ)) (files : List ℕ → Option (List ℕ)) → (end ≡ WordsEnd.Usage → job_of words ≡ None)
        → (outcome : Outcome) × ComesOf words files outcome × Printed (S.taken out.old) (S.taken out.new) outcome result }
    ensures read_fault { result ≡ Status.ReadFault → ⊥ }
    ensures failed { result ≡ Status.WriteFault → Rose (S.faults out.old) (S.faults out.new) }
{
    match end {
        WordsEnd::Usage => put_usage(out),
        WordsEnd::Memory => run_out(out),
    }
}

/// Does what the words ask for.
fn perform<R: Threads + Wait + Sync, F: Shelf, S: Sink, G: Gate>(
    rt: &R,
    alloc: Global,
    words: &Vec<String>,
    shelf: &mut F,
    out: &mut S,
    gate: &G,
) -> Status
    ensures printed { (outcome : Outcome) × ComesOf (map string_bytes words.now.items) (F.bytes_under shelf.old) outcome
        × Printed (S.taken out.old) (S.taken out.new) outcome result }
    ensures read_fault { result ≡ Status.ReadFault → Rose (F.faults shelf.old) (F.faults shelf.new) }
    ensures write_fault { result ≡ Status.WriteFault → Rose (S.faults out.old) (S.faults out.new) }
{
    match read_words(alloc, words) {
        Ok(job) => perform_job(rt, alloc, shelf, out, gate, &job),
        Err(end) => put_no_job(out, end),
    }
}

/// Runs the program: reads the words of the command line, without the program's own name, and does what they ask for. Prints to
/// the sink and answers the status, as a number that `Status` has a name for.
///
/// A search calls the gate at each turn of a shard. A turn waits for nobody but within its mailboxes, and a run waits for its threads.
pub fn run<R: Threads + Wait + Sync, F: Shelf, S: Sink, G: Gate>(
    rt: &R,
    alloc: Global,
    words: &Vec<String>,
    shelf: &mut F,
    out: &mut S,
    gate: &G,
) -> u8
    ensures printed { (outcome : Outcome) × (status : Status) × ComesOf (map string_bytes words.now.items) (F.bytes_under shelf.old) outcome
        × Printed (S.taken out.old) (S.taken out.new) outcome status × (result ≡ code_of status) }
    ensures read_fault { result ≡ 4 → Rose (F.faults shelf.old) (F.faults shelf.new) }
    ensures write_fault { result ≡ 5 → Rose (S.faults out.old) (S.faults out.new) }
    ensures settles { SettlesFiles (map string_bytes words.now.items) (F.bytes_under shelf.old) result }
    ensures settles_small { SettlesSmall (map string_bytes words.now.items) (F.bytes_under shelf.old) result }
    ensures settles_generated { SettlesGenerated (map string_bytes words.now.items) result }
    ensures settles_whole { SettlesWhole (map string_bytes words.now.items) (F.bytes_under shelf.old) (S.taken out.old) (S.taken out.new) result }
    ensures certifies { Certifies (map string_bytes words.now.items) (F.bytes_under shelf.old) (S.taken out.old) (S.taken out.new) result }
{
    perform(rt, alloc, words, shelf, out, gate).code()
}
