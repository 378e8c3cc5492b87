//! The model that the texts of a domain and a problem mean, the steps of it that a list means, and the certificate over it that a text
//! has.

ghost use Rattle.std.specs.Prelude.{◌≡◌, ◌≤◌, length, None, Ok, Err, IfOk, IfErr};
ghost use Rattle.yaml_tree.specs.Texts.{Spells};
ghost use Rattle.dypdl_rules.specs.Expressions.{Reading, IsReading};
ghost use Rattle.dypdl_load.specs.Meaning.{meaning, parts_of};
ghost use Rattle.replay_list.specs.StepLists.{steps_in};
ghost use Rattle.cert_types.specs.Parts.{parts_of as said_by};
ghost use Rattle.cert_text.specs.Said.{certificate_in};
ghost use Rattle.solve_top.specs.Texts.{IsUnreadAs, Means, IsRefused, IsNoCert, IsNoList, cert_refusal, lines_refusal, list_refusal};
ghost use Rattle.solve_top.specs.Runs.{cause_of, unread_as, RefusedBy};
ghost use Rattle.solve_top.specs.declared.causes.NoModel.TheVariants as causes;

use crate::causes::NoModel;
use cert_text::{CertTextEnd, read_certificate};
use cert_types::Cert;
use dp_base::Place;
use dp_model::{Model, Seq};
use dypdl_load::{LoadEnd, load};
use replay_list::{ListEnd, read_list};
use std::alloc::Global;
use yaml_scan::ScanEnd;
use yaml_tree::{Tree, YamlEnd};

/// A byte that begins no character of UTF-8.
const NOT_UTF8: u8 = 10;
/// A tab as indent.
const TAB_INDENT: u8 = 11;
/// A quote that is not closed on its line.
const BAD_QUOTE: u8 = 13;
/// Where no form goes on.
const UNREAD: u8 = 14;
/// A key that was there before in its map.
const TWICE_KEY: u8 = 15;
/// A node inside too many others.
const TOO_DEEP: u8 = 16;
/// A form of YAML that models do not use.
const OUT_OF_PROFILE: u8 = 17;
/// A line that is no step.
const UNKNOWN_STEP: u8 = 70;
/// A line with a transition's name and other arguments than it has.
const BAD_ARGUMENTS: u8 = 71;
/// A line that no certificate has there, or none where one must stand.
const BAD_CERTIFICATE: u8 = 72;

fn refused(number: u8, place: Place) -> NoModel
    ensures { result ≡ causes.Refused number place None }
{
    NoModel::Refused {
        number,
        place,
        offset: None,
    }
}

/// Why a file has no lines.
fn no_lines(end: ScanEnd) -> NoModel
    ensures { result ≡ cause_of (lines_refusal end) }
{
    match end {
        ScanEnd::NotUtf8(place) => refused(NOT_UTF8, place),
        ScanEnd::TabIndent(place) => refused(TAB_INDENT, place),
        ScanEnd::Memory => NoModel::Memory,
    }
}

/// Why a text has no tree.
fn no_tree(end: YamlEnd) -> NoModel
    ensures { result ≡ unread_as end }
{
    match end {
        YamlEnd::Scan(end) => no_lines(end),
        YamlEnd::BadQuote(place) => refused(BAD_QUOTE, place),
        YamlEnd::Unread(place) => refused(UNREAD, place),
        YamlEnd::TwiceKey(place) => refused(TWICE_KEY, place),
        YamlEnd::TooDeep(place) => refused(TOO_DEEP, place),
        YamlEnd::OutOfProfile(place, _) => refused(OUT_OF_PROFILE, place),
        YamlEnd::Memory => NoModel::Memory,
    }
}

/// The tree that the text of a file spells.
#[tactic(auto, using(crate::proofs::TextCauses::unread_by))]
fn read_tree(alloc: Global, file: u8, bytes: &[u8]) -> Result<Tree, NoModel>
    requires { length bytes.now ≤ 16777216 }
    ensures tree { IfOk result (λ tree. Spells file bytes.now tree) }
    ensures cause { IfErr result (RefusedBy (IsUnreadAs file bytes.now)) }
{
    match yaml_tree::read(alloc, file, bytes) {
        Ok(tree) => Ok(tree),
        Err(end) => Err(no_tree(end)),
    }
}

/// The model that the trees of both texts mean.
fn model_of_trees(alloc: Global, domain: &Tree, problem: &Tree) -> Result<Model, NoModel>
    ensures model { IfOk result (λ model. (read : Reading) → IsReading read → meaning read domain.now problem.now ≡ Ok (parts_of model)) }
    ensures cause { IfErr result (RefusedBy (λ r. (read : Reading) → IsReading read → meaning read domain.now problem.now ≡ Err r)) }
{
    match load(alloc, domain, problem) {
        Ok(model) => Ok(model),
        Err(
            LoadEnd::Refused {
                number,
                place,
                offset,
            },
        ) => Err(NoModel::Refused {
            number,
            place,
            offset,
        }),
        Err(LoadEnd::Memory) => Err(NoModel::Memory),
    }
}

/// The model that the texts of a domain and a problem mean.
pub fn model_of(alloc: Global, domain: &[u8], problem: &[u8]) -> Result<Model, NoModel>
    requires short { length domain.now ≤ 16777216 }
    requires short_too { length problem.now ≤ 16777216 }
    ensures model { IfOk result (λ model. Means domain.now problem.now model) }
    ensures cause { IfErr result (RefusedBy (IsRefused domain.now problem.now)) }
{
    let domain = read_tree(alloc, 1, domain)?;
    let problem = read_tree(alloc, 2, problem)?;
    model_of_trees(alloc, &domain, &problem)
}

/// Why a text is no list of steps.
fn no_list(end: ListEnd) -> NoModel
    ensures { result ≡ cause_of (list_refusal end) }
{
    match end {
        ListEnd::NotUtf8(place) => refused(NOT_UTF8, place),
        ListEnd::UnknownStep(place) => refused(UNKNOWN_STEP, place),
        ListEnd::BadArguments(place) => refused(BAD_ARGUMENTS, place),
        ListEnd::Memory => NoModel::Memory,
    }
}

/// The steps of a model that the text of a list means.
#[tactic(auto, using(crate::proofs::TextCauses::no_list_by))]
pub fn steps_of(alloc: Global, model: &Model, list: &[u8]) -> Result<Seq<u32>, NoModel>
    requires { length list.now ≤ 16777216 }
    ensures steps { IfOk result (λ steps. steps_in model.now list.now ≡ Ok steps) }
    ensures cause { IfErr result (RefusedBy (IsNoList model.now list.now)) }
{
    match read_list(alloc, model, list) {
        Ok(steps) => Ok(steps),
        Err(end) => Err(no_list(end)),
    }
}

/// Why a text has no certificate.
fn no_cert(end: CertTextEnd) -> NoModel
    ensures { result ≡ cause_of (cert_refusal end) }
{
    match end {
        CertTextEnd::NotUtf8(place) => refused(NOT_UTF8, place),
        CertTextEnd::Bad(place) => refused(BAD_CERTIFICATE, place),
        CertTextEnd::Memory => NoModel::Memory,
    }
}

/// The certificate over a model that a text has.
#[tactic(auto, using(crate::proofs::TextCauses::no_cert_by))]
pub fn cert_of(alloc: Global, model: &Model, text: &[u8]) -> Result<Cert, NoModel>
    requires { length text.now ≤ 16777216 }
    ensures cert { IfOk result (λ cert. certificate_in model.now text.now ≡ Ok (said_by cert)) }
    ensures cause { IfErr result (RefusedBy (IsNoCert model.now text.now)) }
{
    match read_certificate(alloc, model, text) {
        Ok(cert) => Ok(cert),
        Err(end) => Err(no_cert(end)),
    }
}
