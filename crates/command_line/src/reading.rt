//! The job that the words ask for.

ghost use Rattle.std.specs.Prelude.{◌≡◌, None, Some, codes, map, option_map, string_bytes, IfOk, IsErrOf};
ghost use Rattle.clap.specs.Words.{first_value, found_of};
ghost use Rattle.command_line.specs.Jobs.{beam_or_best, check_job, has_such, is_on, is_proved, on_or_off, layer_or_all, options_of, part_of, proved_alone, pruning_of, search_by, search_of, solve_job, solve_words, replay_words, check_words, show_words, gen_words, gen_job, by_command, job_of};

use crate::commands::{check, found, generate, replay, show, solve};
use crate::jobs::{Engine, Job, Search, WordsEnd};
use crate::numbers::{number_in, number_or, part_in};
use cert_types::CheckPart;
use clap::ArgMatches;
use dp_base::Text;
use dp_model::{Keep, Options};
use model_gen::GenKind;
use std::alloc::{AllocError, Global};

/// The most workers, and the most visits.
const MOST_WORKERS: u64 = 64;

const MOST_VISITS: u64 = 1_099_511_627_776;

/// How many visits are made where the words say nothing of them.
const VISITS: u64 = 10_000_000;

/// By which of a model's dual bounds and preferences a search prunes.
#[derive(Clone, Copy)]
enum Pruning {
    /// By none.
    Off,
    /// By all of them: they are believed.
    On,
    /// By those that are proved.
    Proved,
}

impl Pruning {
    fn is_on(self) -> bool
        ensures { result ≡ is_on self }
    {
        match self {
            Pruning::Off => false,
            Pruning::On | Pruning::Proved => true,
        }
    }

    fn is_proved(self) -> bool
        ensures { result ≡ is_proved self }
    {
        match self {
            Pruning::Off | Pruning::On => false,
            Pruning::Proved => true,
        }
    }
}

fn owned(alloc: Global, text: &str) -> Result<Text, AllocError>
    ensures { IfOk result (λ t. t ≡ text.now) }
{
    Ok(Text::of(String::from_str(alloc, text)?))
}

/// Whether an option is on; where the words say nothing of it, it is as otherwise.
fn on_or_off(otherwise: bool, word: Option<&str>) -> Option<bool>
    ensures { result ≡ on_or_off otherwise (option_map (λ t. t.now) word.entry) }
{
    match word {
        None => Some(otherwise),
        Some("on") => Some(true),
        Some("off") => Some(false),
        Some(_) => None,
    }
}

/// By what a search prunes: by all dual bounds and preferences, where the words say nothing of it.
fn pruning_of(word: Option<&str>) -> Option<Pruning>
    ensures { result ≡ pruning_of (option_map (λ t. t.now) word.entry) }
{
    match word {
        None | Some("on") => Some(Pruning::On),
        Some("off") => Some(Pruning::Off),
        Some("proved") => Some(Pruning::Proved),
        Some(_) => None,
    }
}

/// Whether a certificate is checked as one of what is proved alone, which is the one thing that can be said of its pruning.
fn proved_alone(word: Option<&str>) -> Option<bool>
    ensures { result ≡ proved_alone (option_map (λ t. t.now) word.entry) }
{
    match word {
        None => Some(false),
        Some("proved") => Some(true),
        Some(_) => None,
    }
}

/// Which part of a certificate is checked: the whole, where the words say nothing of it.
fn part_of(word: Option<&str>) -> Option<Option<CheckPart>>
    ensures { result ≡ part_of (option_map (λ t. t.now) word.entry) }
{
    match word {
        None => Some(None),
        Some(text) => Some(Some(part_in(text)?)),
    }
}

/// Which kept nodes cover: those of a layer, where the words say nothing of it.
fn layer_or_all(word: Option<&str>) -> Option<Keep>
    ensures { result ≡ layer_or_all (option_map (λ t. t.now) word.entry) }
{
    match word {
        None | Some("layer") => Some(Keep::Layer),
        Some("all") => Some(Keep::All),
        Some(_) => None,
    }
}

/// How a search goes over the states: layer by layer, where the words say nothing of it.
fn beam_or_best(word: Option<&str>) -> Option<Engine>
    ensures { result ≡ beam_or_best (option_map (λ t. t.now) word.entry) }
{
    match word {
        None | Some("beam") => Some(Engine::Beam),
        Some("best") => Some(Engine::Best),
        Some(_) => None,
    }
}

/// Whether such a search has a bound and announces costs, as they are asked for.
fn has_such(engine: Engine, gap: bool, announce: bool) -> bool
    ensures { result ≡ has_such engine gap announce }
{
    match engine {
        Engine::Beam => true,
        Engine::Best => !(gap || announce),
    }
}

fn options_of(
    workers: Option<&str>,
    budget: Option<&str>,
    prune: bool,
    keep: Option<&str>,
) -> Option<Options>
    ensures { result ≡ options_of (option_map (λ t. t.now) workers.entry) (option_map (λ t. t.now) budget.entry) prune (option_map (λ t. t.now) keep.entry) }
{
    let workers = number_or(1, 1, MOST_WORKERS, workers)?;
    let budget = number_or(VISITS, 1, MOST_VISITS, budget)?;
    let keep = layer_or_all(keep)?;
    Some(Options {
        workers: workers as u32,
        budget,
        prune,
        keep,
    })
}

/// The options that were found in the words of a search, with pruning or without.
fn found_options(matches: &ArgMatches<'_>, prune: bool) -> Option<Options>
    ensures { result ≡ options_of (first_value (found_of matches.now) (codes "workers")) (first_value (found_of matches.now) (codes "budget")) prune (first_value (found_of matches.now) (codes "keep")) }
{
    let workers = matches.get_str("workers");
    let budget = matches.get_str("budget");
    options_of(workers, budget, prune, matches.get_str("keep"))
}

/// What was found in the words of a search, with pruning or without, and by what is proved alone or not.
fn search_by(matches: &ArgMatches<'_>, prune: bool, proved: bool) -> Option<Search>
    ensures { result ≡ search_by prune proved (first_value (found_of matches.now)) }
{
    let options = found_options(matches, prune)?;
    let gap = on_or_off(false, matches.get_str("gap"))?;
    let certificate = on_or_off(false, matches.get_str("certificate"))?;
    let engine = beam_or_best(matches.get_str("engine"))?;
    let announce = on_or_off(false, matches.get_str("announce"))?;
    has_such(engine, gap, announce).then_some(Search {
        options,
        proved,
        gap,
        certificate,
        engine,
        announce,
    })
}

/// What was found in the words of a search.
fn found_search(matches: &ArgMatches<'_>) -> Option<Search>
    ensures { result ≡ search_of (first_value (found_of matches.now)) }
{
    let pruning = pruning_of(matches.get_str("prune"))?;
    search_by(matches, pruning.is_on(), pruning.is_proved())
}

#[tactic(auto, using(crate::proofs::Faults::faulty, crate::proofs::Faults::free), unfolding(crate::specs::Jobs::solve_words))]
fn solve_words(alloc: Global, words: &Vec<String>) -> Result<Job, WordsEnd>
    ensures job { IfOk result (λ job. solve_words (map string_bytes words.now.items) ≡ Some job) }
    ensures usage { IsErrOf result WordsEnd.Usage → solve_words (map string_bytes words.now.items) ≡ None }
{
    let matches = found(solve(alloc)?, words)?;
    found_job(alloc, &matches)
}

/// The job of a search with what was found in its words.
fn found_job(alloc: Global, matches: &ArgMatches<'_>) -> Result<Job, WordsEnd>
    ensures job { IfOk result (λ job. solve_job (first_value (found_of matches.now)) ≡ Some job) }
    ensures usage { IsErrOf result WordsEnd.Usage → solve_job (first_value (found_of matches.now)) ≡ None }
{
    let (Some(domain), Some(problem)) = (matches.get_str("domain"), matches.get_str("problem"))
    else {
        return Err(WordsEnd::Usage);
    };
    let Some(search) = found_search(matches) else {
        return Err(WordsEnd::Usage);
    };
    Ok(Job::Solve {
        domain: owned(alloc, domain)?,
        problem: owned(alloc, problem)?,
        search,
    })
}

#[tactic(auto, using(crate::proofs::Faults::faulty, crate::proofs::Faults::free), unfolding(crate::specs::Jobs::replay_words))]
fn replay_words(alloc: Global, words: &Vec<String>) -> Result<Job, WordsEnd>
    ensures job { IfOk result (λ job. replay_words (map string_bytes words.now.items) ≡ Some job) }
    ensures usage { IsErrOf result WordsEnd.Usage → replay_words (map string_bytes words.now.items) ≡ None }
{
    let matches = found(replay(alloc)?, words)?;
    let (Some(domain), Some(problem), Some(list)) = (
        matches.get_str("domain"),
        matches.get_str("problem"),
        matches.get_str("list"),
    ) else {
        return Err(WordsEnd::Usage);
    };
    Ok(Job::Replay {
        domain: owned(alloc, domain)?,
        problem: owned(alloc, problem)?,
        list: owned(alloc, list)?,
    })
}

#[tactic(auto, using(crate::proofs::Faults::faulty, crate::proofs::Faults::free), unfolding(crate::specs::Jobs::check_words))]
fn check_words(alloc: Global, words: &Vec<String>) -> Result<Job, WordsEnd>
    ensures job { IfOk result (λ job. check_words (map string_bytes words.now.items) ≡ Some job) }
    ensures usage { IsErrOf result WordsEnd.Usage → check_words (map string_bytes words.now.items) ≡ None }
{
    let matches = found(check(alloc)?, words)?;
    let (Some(domain), Some(problem), Some(cert)) = (
        matches.get_str("domain"),
        matches.get_str("problem"),
        matches.get_str("cert"),
    ) else {
        return Err(WordsEnd::Usage);
    };
    let Some(proved) = proved_alone(matches.get_str("prune")) else {
        return Err(WordsEnd::Usage);
    };
    let Some(part) = part_of(matches.get_str("part")) else {
        return Err(WordsEnd::Usage);
    };
    Ok(Job::Check {
        domain: owned(alloc, domain)?,
        problem: owned(alloc, problem)?,
        cert: owned(alloc, cert)?,
        proved,
        part,
    })
}

#[tactic(auto, using(crate::proofs::Faults::faulty, crate::proofs::Faults::free), unfolding(crate::specs::Jobs::show_words))]
fn show_words(alloc: Global, words: &Vec<String>) -> Result<Job, WordsEnd>
    ensures job { IfOk result (λ job. show_words (map string_bytes words.now.items) ≡ Some job) }
    ensures usage { IsErrOf result WordsEnd.Usage → show_words (map string_bytes words.now.items) ≡ None }
{
    let matches = found(show(alloc)?, words)?;
    let (Some(domain), Some(problem)) = (matches.get_str("domain"), matches.get_str("problem"))
    else {
        return Err(WordsEnd::Usage);
    };
    Ok(Job::Show {
        domain: owned(alloc, domain)?,
        problem: owned(alloc, problem)?,
    })
}

/// The job of `gen` with these words.
fn gen_job(
    kind: Option<&str>,
    size: Option<&str>,
    seed: Option<&str>,
    workers: Option<&str>,
) -> Option<Job>
    ensures { result ≡ gen_job (option_map (λ t. t.now) kind.entry) (option_map (λ t. t.now) size.entry) (option_map (λ t. t.now) seed.entry) (option_map (λ t. t.now) workers.entry) }
{
    let (kind, size, seed) = (kind?, size?, seed?);
    let kind = GenKind::named(kind)?;
    let size = number_in(kind.least_size() as u64, kind.most_size() as u64, size)?;
    let seed = number_in(0, u64::MAX, seed)?;
    let workers = number_or(1, 1, MOST_WORKERS, workers)?;
    Some(Job::Gen {
        kind,
        size: size as u32,
        seed,
        workers: workers as u32,
    })
}

#[tactic(auto, using(crate::proofs::Faults::faulty, crate::proofs::Faults::free), unfolding(crate::specs::Jobs::gen_words))]
fn gen_words(alloc: Global, words: &Vec<String>) -> Result<Job, WordsEnd>
    ensures job { IfOk result (λ job. gen_words (map string_bytes words.now.items) ≡ Some job) }
    ensures usage { IsErrOf result WordsEnd.Usage → gen_words (map string_bytes words.now.items) ≡ None }
{
    let matches = found(generate(alloc)?, words)?;
    let kind = matches.get_str("kind");
    let size = matches.get_str("size");
    let seed = matches.get_str("seed");
    match gen_job(kind, size, seed, matches.get_str("workers")) {
        Some(job) => Ok(job),
        None => Err(WordsEnd::Usage),
    }
}

/// The job of the words of this command.
fn by_command(alloc: Global, command: &str, words: &Vec<String>) -> Result<Job, WordsEnd>
    ensures job { IfOk result (λ job. by_command command.now (map string_bytes words.now.items) ≡ Some job) }
    ensures usage { IsErrOf result WordsEnd.Usage → by_command command.now (map string_bytes words.now.items) ≡ None }
{
    match command {
        "solve" => solve_words(alloc, words),
        "replay" => replay_words(alloc, words),
        "check" => check_words(alloc, words),
        "show" => show_words(alloc, words),
        "gen" => gen_words(alloc, words),
        _ => Err(WordsEnd::Usage),
    }
}

/// The job that words ask for, without the program's own name: the command, its words and its options, in any order. An
/// option may stand as `--workers 2` or as `--workers=2`; none may stand twice, and `--` ends the options.
#[tactic(auto, unfolding(crate::specs::Jobs::job_of))]
pub fn read_words(alloc: Global, words: &Vec<String>) -> Result<Job, WordsEnd>
    ensures job { IfOk result (λ job. job_of (map string_bytes words.now.items) ≡ Some job) }
    ensures usage { IsErrOf result WordsEnd.Usage → job_of (map string_bytes words.now.items) ≡ None }
{
    let Some(command) = words.first() else {
        return Err(WordsEnd::Usage);
    };
    by_command(alloc, command.as_str(), words)
}
