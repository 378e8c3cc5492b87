//! A certificate, read from a text.

ghost use Rattle.std.specs.Prelude.{◌≡◌, ◌<◌, ◌≤◌, false, ℕ, IfOk, List, length};
ghost use Rattle.std.specs.HashMap.{get_by_text};
ghost use Rattle.std.specs.Str.Lines.{lines};
ghost use Rattle.dp_base.specs.Results.{Answers, AnswersBy};
ghost use Rattle.step_names.specs.StepNames.{step_named};
ghost use Rattle.cert_types.specs.Parts.{parts_of};
ghost use Rattle.cert_text.specs.Named.{IsNamedIn};
ghost use Rattle.cert_text.specs.Said.{IsFew, IsSound, certificate_in, followed, next, placed, read_from, told, whole};
ghost use Rattle.cert_text.specs.declared.said.Said.TheVariants.{Nothing};

use crate::ends::CertTextEnd;
use crate::heads::{claimed, counted, listed, looked, pruned};
use crate::layers::{ended, layered};
use crate::said::Said;
use cert_types::Cert;
use dp_model::Model;
use indexmap::IndexMap;
use std::alloc::{AllocError, Global};
use step_names::{byte_place, decoded, line_place, names_of};

/// What is said with one more line, if it may follow.
fn next(
    alloc: Global,
    model: &Model,
    names: &IndexMap<String, u32>,
    number: u32,
    said: Said,
    line: &str,
) -> Result<Option<Said>, AllocError>
    requires names { (text : List ℕ) → get_by_text names.now text ≡ step_named model.now text }
    requires few { IsFew said }
    ensures { IfOk result (λ later. later ≡ next model.now number said line.now) }
{
    match said {
        Said::Nothing(marked) => Ok(Some(looked(marked, number, line))),
        Said::Kept(first, keep) => Ok(pruned(first, keep, line)),
        Said::Pruned(start) => Ok(claimed(alloc, start, line)),
        Said::Claimed(start, cost) => Ok(counted(alloc, start, cost, line)),
        Said::Steps(start, list) => listed(alloc, model, names, start, list, line),
        Said::Layers(start, claim, body) => {
            layered(alloc, model, names, start, claim, body, line)
        }
        Said::Ended(start, claim, layers) => Ok(ended(start, claim, layers, line)),
    }
}

/// The same, or the refusal of that line.
fn followed(
    alloc: Global,
    model: &Model,
    names: &IndexMap<String, u32>,
    number: u32,
    said: Said,
    line: &str,
) -> Result<Said, CertTextEnd>
    requires names { (text : List ℕ) → get_by_text names.now text ≡ step_named model.now text }
    requires few { IsFew said }
    ensures { Answers told result (followed model.now number said line.now) }
{
    match next(alloc, model, names, number, said, line)? {
        Some(later) => Ok(later),
        None => Err(CertTextEnd::Bad(line_place(number))),
    }
}

/// What was said, where no line follows.
fn finished(number: u32, said: Said) -> Result<Cert, CertTextEnd>
    requires { IsSound said }
    ensures { AnswersBy told parts_of result (placed (whole number said)) }
{
    match said {
        Said::Ended(start, claim, layers) => Ok(Cert {
            first: start.first,
            keep: start.keep,
            prune: start.prune,
            claim,
            layers,
        }),
        Said::Nothing(_) => Err(CertTextEnd::Bad(line_place(1))),
        _ => Err(CertTextEnd::Bad(line_place(number))),
    }
}

/// The certificate of a text.
fn certificate_of(alloc: Global, model: &Model, text: &str) -> Result<Cert, CertTextEnd>
    requires { length text.now ≤ 16777216 }
    ensures said { AnswersBy told parts_of result (placed (read_from model.now 1 (Nothing false) (lines text.now))) }
    ensures named { IfOk result (IsNamedIn model.now) }
{
    let names = names_of(alloc, model)?;
    let mut said = Said::Nothing(false);
    let mut number = 1;
    for line in text.lines() {
        said = followed(alloc, model, &names, number, said, line)?;
        number += 1;
    }
    finished(number, said)
}

/// The certificate that a text has from the first line `certificate 1` on which a line `keep layer` or `keep all` follows. A
/// line ends with a line feed, a carriage return and a line feed, or the end of the text.
pub fn read_certificate(alloc: Global, model: &Model, bytes: &[u8]) -> Result<Cert, CertTextEnd>
    requires { length bytes.now ≤ 16777216 }
    ensures said { AnswersBy told parts_of result (certificate_in model.now bytes.now) }
    ensures named { IfOk result (IsNamedIn model.now) }
{
    match decoded(bytes) {
        Ok(text) => certificate_of(alloc, model, text),
        Err(at) => Err(CertTextEnd::NotUtf8(byte_place(bytes, at))),
    }
}
