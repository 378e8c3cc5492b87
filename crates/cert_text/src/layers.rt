//! The lines of layers and nodes.

ghost use Rattle.std.specs.Prelude.{◌≡◌, ◌++◌, ◌<◌, ◌^◌, IfOk, ℕ, List, codes, decimal, option_and_then};
ghost use Rattle.std.specs.Option.{option_copied};
ghost use Rattle.std.specs.HashMap.{get_by_text};
ghost use Rattle.step_names.specs.StepNames.{step_named};
ghost use Rattle.cert_text.specs.Said.{ended, flagged, is_end, last_width, layer_begun, layered, made_from, node_behind, node_said, parted, target_said, width_said, with_node};
ghost use Rattle.cert_text.specs.Words.{behind};

use crate::said::{Body, Said, Start};
use crate::words::{behind, number_said, word};
use cert_types::{CertNode, CertStep};
use dp_base::Seq;
use dp_model::{Claim, Model};
use indexmap::IndexMap;
use itoa::Buffer;
use std::alloc::{AllocError, Global};
use step_names::is_blank_line;

/// A node of the target's layer.
fn target_said(line: &str) -> Option<CertNode>
    ensures { result ≡ target_said line.now }
{
    if line == "node - open" {
        Some(CertNode {
            made: None,
            cut: false,
        })
    } else if line == "node - cut" {
        Some(CertNode {
            made: None,
            cut: true,
        })
    } else {
        None
    }
}

/// The step behind a flag.
fn step_behind(model: &Model, names: &IndexMap<String, u32>, flag: &str, text: &str) -> Option<u32>
    requires { (text : List ℕ) → get_by_text names.now text ≡ step_named model.now text }
    ensures { result ≡ option_and_then (step_named model.now) (behind flag.now text.now) }
{
    let step = names.get(behind(flag, text)?)?;
    Some(*step)
}

/// The step behind `open ` or `cut `, and whether it stands behind `cut `.
fn flagged(model: &Model, names: &IndexMap<String, u32>, text: &str) -> Option<(bool, u32)>
    requires { (text : List ℕ) → get_by_text names.now text ≡ step_named model.now text }
    ensures { result ≡ flagged model.now text.now }
{
    if let Some(step) = step_behind(model, names, "open ", text) {
        return Some((false, step));
    }
    let step = step_behind(model, names, "cut ", text)?;
    Some((true, step))
}

/// A node that was made from a place in the layer before, which has so many nodes.
fn made_from(
    model: &Model,
    names: &IndexMap<String, u32>,
    width: usize,
    parent: u64,
    text: &str,
) -> Option<CertNode>
    requires names { (text : List ℕ) → get_by_text names.now text ≡ step_named model.now text }
    requires width { width < 2 ^ 32 }
    ensures { result ≡ made_from model.now width parent text.now }
{
    if width as u64 <= parent {
        return None;
    }
    let (cut, dp_ground) = flagged(model, names, text)?;
    let parent = parent as u32;
    Some(CertNode {
        made: Some(CertStep { parent, dp_ground }),
        cut,
    })
}

/// The same, from the word of the place and what stands behind it.
fn parted(
    model: &Model,
    names: &IndexMap<String, u32>,
    width: usize,
    parent: &str,
    text: &str,
) -> Option<CertNode>
    requires names { (text : List ℕ) → get_by_text names.now text ≡ step_named model.now text }
    requires width { width < 2 ^ 32 }
    ensures { result ≡ parted model.now width (parent.now, text.now) }
{
    let parent = number_said(parent)?;
    made_from(model, names, width, parent, text)
}

/// A node of a later layer.
fn node_said(
    model: &Model,
    names: &IndexMap<String, u32>,
    width: usize,
    line: &str,
) -> Option<CertNode>
    requires names { (text : List ℕ) → get_by_text names.now text ≡ step_named model.now text }
    requires width { width < 2 ^ 32 }
    ensures { result ≡ node_said model.now width line.now }
{
    let text = behind("node ", line)?;
    let (parent, text) = word(text)?;
    parted(model, names, width, parent, text)
}

/// How many nodes the last layer has.
fn last_width(layers: &Seq<Seq<CertNode>>) -> usize
    ensures { result ≡ last_width layers.now }
{
    match layers.list().last() {
        Some(nodes) => nodes.list().len(),
        None => 0,
    }
}

/// A node of the layer behind these.
fn node_behind(
    model: &Model,
    names: &IndexMap<String, u32>,
    layers: &Seq<Seq<CertNode>>,
    line: &str,
) -> Option<CertNode>
    requires names { (text : List ℕ) → get_by_text names.now text ≡ step_named model.now text }
    requires width { last_width layers.now < 2 ^ 32 }
    ensures { result ≡ node_behind model.now layers.now line.now }
{
    if layers.list().is_empty() {
        target_said(line)
    } else {
        node_said(model, names, last_width(layers), line)
    }
}

/// Adds one of the nodes that are due.
fn with_node(alloc: Global, body: Body, node: CertNode) -> Result<Body, AllocError>
    ensures { IfOk result (λ b. b ≡ with_node body node) }
{
    let Body {
        mut layers,
        mut nodes,
        due,
    } = body;
    nodes.list_mut().push(node)?;
    if due != 1 {
        let due = due.saturating_sub(1);
        return Ok(Body { layers, nodes, due });
    }
    layers.list_mut().push(nodes)?;
    let nodes = Seq::of(Vec::new(alloc));
    Ok(Body {
        layers,
        nodes,
        due: 0,
    })
}

/// What stands behind two fronts, one after the other.
fn behind_two<'a>(first: &str, second: &str, line: &'a str) -> Option<&'a str>
    ensures { option_copied result ≡ behind (first.now ++ second.now) line.now }
{
    match behind(first, line) {
        Some(text) => behind(second, text),
        None => None,
    }
}

/// What stands behind `layer AT `.
fn behind_layer(at: u64, line: &str) -> Option<&str>
    ensures { option_copied result ≡ behind (codes "layer " ++ decimal at ++ codes " ") line.now }
{
    match behind_two("layer ", Buffer::new().format(at), line) {
        Some(text) => behind(" ", text),
        None => None,
    }
}

/// The number behind `layer AT `.
fn width_said(at: u64, line: &str) -> Option<u64>
    ensures { result ≡ width_said at line.now }
{
    let width = number_said(behind_layer(at, line)?)?;
    if width == 0 { None } else { Some(width) }
}

/// Whether a line is `end COUNT`.
fn is_end(count: u64, line: &str) -> bool
    ensures { result ≡ is_end count line.now }
{
    match behind("end ", line) {
        Some(text) => text == Buffer::new().format(count),
        None => false,
    }
}

/// A line behind whole layers.
fn layer_begun(
    alloc: Global,
    start: Start,
    claim: Claim,
    layers: Seq<Seq<CertNode>>,
    line: &str,
) -> Option<Said>
    ensures { result ≡ layer_begun start claim layers line.now }
{
    let count = layers.list().len() as u64;
    if is_end(count, line) {
        return Some(Said::Ended(start, claim, layers));
    }
    let due = width_said(count, line)?;
    let nodes = Seq::of(Vec::new(alloc));
    Some(Said::Layers(start, claim, Body { layers, nodes, due }))
}

/// A line behind the claim, up to the end.
pub(crate) fn layered(
    alloc: Global,
    model: &Model,
    names: &IndexMap<String, u32>,
    start: Start,
    claim: Claim,
    body: Body,
    line: &str,
) -> Result<Option<Said>, AllocError>
    requires names { (text : List ℕ) → get_by_text names.now text ≡ step_named model.now text }
    requires width { last_width body.layers < 2 ^ 32 }
    ensures { IfOk result (λ said. said ≡ layered model.now start claim body line.now) }
{
    if body.due == 0 {
        return Ok(layer_begun(alloc, start, claim, body.layers, line));
    }
    let Some(node) = node_behind(model, names, &body.layers, line) else {
        return Ok(None);
    };
    Ok(Some(Said::Layers(start, claim, with_node(alloc, body, node)?)))
}

/// A line behind the end.
pub(crate) fn ended(
    start: Start,
    claim: Claim,
    layers: Seq<Seq<CertNode>>,
    line: &str,
) -> Option<Said>
    ensures { result ≡ ended start claim layers line.now }
{
    if is_blank_line(line.as_bytes()) {
        Some(Said::Ended(start, claim, layers))
    } else {
        None
    }
}
