//! The two texts of a generated model.

ghost use Rattle.std.specs.Prelude.{◌≡◌, ◌≤◌, ◌++◌, string_bytes, IfOk, OnOk};
ghost use Rattle.std.specs.List.{flat_map};
ghost use Rattle.dp_base.specs.Bytes.{line};
ghost use Rattle.model_gen.specs.Kinds.{least_size, most_size};
ghost use Rattle.model_gen.specs.Texts.{lines, domain_text, problem_text};

use crate::domains::{PACK, PATH, TOUR};
use crate::kinds::GenKind;
use crate::problems::{pack_problem, path_problem, tour_problem};
use crate::rows::push_line;
use std::alloc::{AllocError, Global};

/// The text of a domain's lines.
fn domain_of(alloc: Global, lines: &[&str]) -> Result<String, AllocError>
    ensures { IfOk result (λ text. string_bytes text ≡ flat_map (λ words. line words.now) lines.now) }
{
    let mut text = String::new(alloc);
    for words in lines {
        push_line(&mut text, words)?;
    }
    Ok(text)
}

/// The text of a kind's domain.
fn domain_text(alloc: Global, kind: GenKind) -> Result<String, AllocError>
    ensures { IfOk result (λ text. string_bytes text ≡ domain_text kind) }
{
    match kind {
        GenKind::Path => domain_of(alloc, &PATH),
        GenKind::Pack => domain_of(alloc, &PACK),
        GenKind::Tour => domain_of(alloc, &TOUR),
    }
}

/// The text of a problem of a kind.
fn problem_text(alloc: Global, kind: GenKind, size: u32, seed: u64) -> Result<String, AllocError>
    requires least { least_size kind ≤ size }
    requires most { size ≤ most_size kind }
    ensures { IfOk result (λ text. string_bytes text ≡ problem_text kind size seed) }
{
    match kind {
        GenKind::Path => path_problem(alloc, size, seed),
        GenKind::Pack => pack_problem(alloc, size, seed),
        GenKind::Tour => tour_problem(alloc, size, seed),
    }
}

/// The texts of the domain and the problem of a model of a kind, with this size, whose numbers are drawn from this seed.
pub fn generate(
    alloc: Global,
    kind: GenKind,
    size: u32,
    seed: u64,
) -> Result<(Vec<u8>, Vec<u8>), AllocError>
    requires least { least_size kind ≤ size }
    requires most { size ≤ most_size kind }
    ensures domain { IfOk result (λ texts. texts.0.items ≡ domain_text kind) }
    ensures problem { IfOk result (λ texts. texts.1.items ≡ problem_text kind size seed) }
{
    let domain = domain_text(alloc, kind)?;
    let problem = problem_text(alloc, kind, size, seed)?;
    Ok((domain.into_bytes(), problem.into_bytes()))
}
