//! The five commands, as `clap` reads their words.

ghost use Rattle.std.specs.Prelude.{◌≡◌, ◌≢◌, [], ℕ, List, true, false, map, string_bytes, codes, IfOk, IsErrOf, option_map};
ghost use Rattle.clap.specs.Words.{app_of, rule_of, first_value, found_of, is_simple, is_simple_and_free};
ghost use Rattle.command_line.specs.Commands.{word, option, plain, solve, replay, check, show, generate, value_in, faults_in};

use crate::jobs::WordsEnd;
use clap::error::ErrorKind;
use clap::{Arg, ArgMatches, Command};
use std::alloc::{AllocError, Global};

/// A word that must stand.
fn word<'a>(alloc: Global, id: &'a str) -> Arg<'a>
    ensures rule { rule_of result ≡ word id.now }
    ensures local { result.global ≡ false }
{
    Arg::new(alloc, id).required(true)
}

/// An option with a value.
fn option<'a>(alloc: Global, id: &'a str) -> Arg<'a>
    ensures rule { rule_of result ≡ option id.now }
    ensures local { result.global ≡ false }
{
    Arg::new(alloc, id).long(id)
}

/// A command without help and version flags.
fn plain<'a>(alloc: Global, name: &'a str) -> Command<'a>
    ensures { app_of result ≡ plain name.now }
{
    Command::new(alloc, name)
        .disable_help_flag(true)
        .disable_version_flag(true)
}

#[tactic(auto, unfolding(crate::specs::Commands::solve))]
pub(crate) fn solve<'a>(alloc: Global) -> Result<Command<'a>, AllocError>
    ensures { IfOk result (λ c. app_of c ≡ solve) }
{
    Ok(
        plain(alloc, "solve")
            .arg(word(alloc, "domain"))?
            .arg(word(alloc, "problem"))?
            .arg(option(alloc, "workers"))?
            .arg(option(alloc, "budget"))?
            .arg(option(alloc, "prune"))?
            .arg(option(alloc, "keep"))?
            .arg(option(alloc, "gap"))?
            .arg(option(alloc, "certificate"))?
            .arg(option(alloc, "engine"))?
            .arg(option(alloc, "announce"))?,
    )
}

#[tactic(auto, unfolding(crate::specs::Commands::replay))]
pub(crate) fn replay<'a>(alloc: Global) -> Result<Command<'a>, AllocError>
    ensures { IfOk result (λ c. app_of c ≡ replay) }
{
    Ok(
        plain(alloc, "replay")
            .arg(word(alloc, "domain"))?
            .arg(word(alloc, "problem"))?
            .arg(word(alloc, "list"))?,
    )
}

#[tactic(auto, unfolding(crate::specs::Commands::check))]
pub(crate) fn check<'a>(alloc: Global) -> Result<Command<'a>, AllocError>
    ensures { IfOk result (λ c. app_of c ≡ check) }
{
    Ok(
        plain(alloc, "check")
            .arg(word(alloc, "domain"))?
            .arg(word(alloc, "problem"))?
            .arg(word(alloc, "cert"))?
            .arg(option(alloc, "prune"))?
            .arg(option(alloc, "part"))?,
    )
}

#[tactic(auto, unfolding(crate::specs::Commands::show))]
pub(crate) fn show<'a>(alloc: Global) -> Result<Command<'a>, AllocError>
    ensures { IfOk result (λ c. app_of c ≡ show) }
{
    Ok(
        plain(alloc, "show")
            .arg(word(alloc, "domain"))?
            .arg(word(alloc, "problem"))?,
    )
}

#[tactic(auto, unfolding(crate::specs::Commands::generate))]
pub(crate) fn generate<'a>(alloc: Global) -> Result<Command<'a>, AllocError>
    ensures { IfOk result (λ c. app_of c ≡ generate) }
{
    Ok(
        plain(alloc, "gen")
            .arg(word(alloc, "kind"))?
            .arg(word(alloc, "size"))?
            .arg(word(alloc, "seed"))?
            .arg(option(alloc, "workers"))?,
    )
}

/// What a command finds in words, the first of which is its name.
pub(crate) fn found<'a>(
    command: Command<'a>,
    words: &'a Vec<String>,
) -> Result<ArgMatches<'a>, WordsEnd>
    requires simple { is_simple (app_of command) ≡ true }
    requires free { is_simple_and_free (app_of command) ≡ true }
    ensures well { IfOk result (λ m. faults_in (app_of command.entry) (map string_bytes words.entry.now.items) ≡ []) }
    ensures values { IfOk result (λ m. (id : List ℕ) → first_value (found_of m) id ≡ value_in (app_of command.entry) (map string_bytes words.entry.now.items) id) }
    ensures usage { IsErrOf result WordsEnd.Usage → faults_in (app_of command.entry) (map string_bytes words.entry.now.items) ≢ [] }
{
    match command.try_get_matches_from(words.as_slice()) {
        Ok(matches) => Ok(matches),
        Err(error) => match error.kind() {
            ErrorKind::OutOfMemory => Err(WordsEnd::Memory),
            _ => Err(WordsEnd::Usage),
        },
    }
}
