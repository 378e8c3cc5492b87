//! The lines of a certificate, written to a sink one after another. The lines of a layer's nodes are written many at once; what is
//! held of them takes no memory but the stack's.

ghost use Rattle.std.specs.Prelude.{◌≡◌, ◌++◌, length};
ghost use Rattle.std.specs.List.{flat_map};
ghost use Rattle.dp_base.specs.Bytes.{line};
ghost use Rattle.solve_report.specs.Adding.{Adds};
ghost use Rattle.solve_report.specs.Puts.{Puts};
ghost use Rattle.cert_text.specs.Texts.{claim_lines, end_line, flag_word, head_lines, keep_line, layer_lines, listed_lines, node_line, prune_line, text_of_lines};

use crate::held::{Held, write_held};
use cert_types::CertNode;
use dp_base::Seq;
use dp_model::{Claim, Found, Keep, Model};
use dp_outside::{Failed, Sink};
use solve_report::{Piece, put_line, put_pieces, put_step_behind, put_steps};

fn keep_line(keep: Keep) -> &'static str
    ensures { result.now ≡ keep_line keep }
{
    match keep {
        Keep::Layer => "keep layer",
        Keep::All => "keep all",
    }
}

fn prune_line(prune: bool) -> &'static str
    ensures { result.now ≡ prune_line prune }
{
    if prune { "prune on" } else { "prune off" }
}

/// How many steps there are.
fn length_of(steps: &Seq<u32>) -> u64
    ensures { result ≡ length steps.now }
{
    steps.list().len() as u64
}

/// Writes the number of steps, and a line for each.
fn put_listed<S: Sink>(out: &mut S, model: &Model, steps: &Seq<u32>) -> Result<(), Failed>
    ensures { Puts (S.taken out.old) (S.taken out.new) (S.faults out.old) (S.faults out.new)
        (text_of_lines (listed_lines model.now steps.now)) result }
{
    put_pieces(
        out,
        &[Piece::Text("steps "), Piece::Number(length_of(steps))],
    )?;
    put_steps(out, model, steps.list())
}

/// Writes the lines of a claimed list.
fn put_optimal<S: Sink>(out: &mut S, model: &Model, found: &Found) -> Result<(), Failed>
    ensures { Puts (S.taken out.old) (S.taken out.new) (S.faults out.old) (S.faults out.new)
        (text_of_lines (claim_lines model.now (Claim.Optimal found.now))) result }
{
    put_pieces(
        out,
        &[Piece::Text("claim optimal "), Piece::Signed(found.cost)],
    )?;
    put_listed(out, model, &found.steps)
}

/// Writes the lines of a claim.
fn put_claim<S: Sink>(out: &mut S, model: &Model, claim: &Claim) -> Result<(), Failed>
    ensures { Puts (S.taken out.old) (S.taken out.new) (S.faults out.old) (S.faults out.new)
        (text_of_lines (claim_lines model.now claim.now)) result }
{
    match claim {
        Claim::Optimal(found) => put_optimal(out, model, found),
        Claim::Infeasible => put_line(out, "claim infeasible"),
    }
}

/// Writes how the search was made.
fn put_settings<S: Sink>(out: &mut S, keep: Keep, prune: bool) -> Result<(), Failed>
    ensures { Puts (S.taken out.old) (S.taken out.new) (S.faults out.old) (S.faults out.new)
        (line (keep_line keep) ++ line (prune_line prune)) result }
{
    put_line(out, keep_line(keep))?;
    put_line(out, prune_line(prune))
}

/// Writes what stands behind the first line and in front of the layers.
fn put_behind_mark<S: Sink>(
    out: &mut S,
    model: &Model,
    keep: Keep,
    prune: bool,
    claim: &Claim,
) -> Result<(), Failed>
    ensures { Puts (S.taken out.old) (S.taken out.new) (S.faults out.old) (S.faults out.new)
        ((line (keep_line keep) ++ line (prune_line prune)) ++ text_of_lines (claim_lines model.now claim.now)) result }
{
    put_settings(out, keep, prune)?;
    put_claim(out, model, claim)
}

/// Writes the lines in front of the layers.
pub fn put_head<S: Sink>(
    out: &mut S,
    model: &Model,
    keep: Keep,
    prune: bool,
    claim: &Claim,
) -> Result<(), Failed>
    ensures { Puts (S.taken out.old) (S.taken out.new) (S.faults out.old) (S.faults out.new)
        (text_of_lines (head_lines model.now keep prune claim.now)) result }
{
    put_line(out, "certificate 1")?;
    put_behind_mark(out, model, keep, prune, claim)
}

fn flag_word(cut: bool) -> &'static str
    ensures { result.now ≡ flag_word cut }
{
    if cut { "cut" } else { "open" }
}

/// Writes the line of a node.
fn put_node<S: Sink>(out: &mut S, model: &Model, node: CertNode) -> Result<(), Failed>
    ensures { Puts (S.taken out.old) (S.taken out.new) (S.faults out.old) (S.faults out.new)
        (line (node_line model.now node)) result }
{
    match node.made {
        None => put_pieces(
            out,
            &[Piece::Text("node - "), Piece::Text(flag_word(node.cut))],
        ),
        Some(step) => put_step_behind(
            out,
            model,
            &[
                Piece::Text("node "),
                Piece::Number(u64::from(step.parent)),
                Piece::Text(" "),
                Piece::Text(flag_word(node.cut)),
                Piece::Text(" "),
            ],
            step.dp_ground,
        ),
    }
}

/// Writes what is held of lines, and then the line of a node.
fn add_behind<S: Sink>(
    out: &mut S,
    held: &mut Held,
    model: &Model,
    node: CertNode,
) -> Result<(), Failed>
    ensures { Adds (S.taken out.old) (S.taken out.new) (S.faults out.old) (S.faults out.new)
        held.old.bytes.items held.new.bytes.items (line (node_line model.now node)) result }
{
    write_held(out, held)?;
    put_node(out, model, node)
}

/// Adds the line of a node to those that are held, which are written where it has no room.
fn add_node<S: Sink>(
    out: &mut S,
    held: &mut Held,
    model: &Model,
    node: CertNode,
) -> Result<(), Failed>
    ensures { Adds (S.taken out.old) (S.taken out.new) (S.faults out.old) (S.faults out.new)
        held.old.bytes.items held.new.bytes.items (line (node_line model.now node)) result }
{
    let before = held.bytes.len();
    match put_node(held, model, node) {
        Ok(()) => Ok(()),
        Err(_) => {
            held.bytes.truncate(before);
            add_behind(out, held, model, node)
        }
    }
}

/// Adds the lines of nodes.
fn add_nodes<S: Sink>(
    out: &mut S,
    held: &mut Held,
    model: &Model,
    nodes: &[CertNode],
) -> Result<(), Failed>
    ensures { Adds (S.taken out.old) (S.taken out.new) (S.faults out.old) (S.faults out.new)
        held.old.bytes.items held.new.bytes.items (flat_map (λ n. line (node_line model.now n)) nodes.now) result }
{
    for node in nodes {
        add_node(out, held, model, *node)?;
    }
    Ok(())
}

/// Writes the lines of nodes.
fn put_nodes<S: Sink>(out: &mut S, model: &Model, nodes: &[CertNode]) -> Result<(), Failed>
    ensures { Puts (S.taken out.old) (S.taken out.new) (S.faults out.old) (S.faults out.new)
        (flat_map (λ n. line (node_line model.now n)) nodes.now) result }
{
    let mut held = Held::new();
    add_nodes(out, &mut held, model, nodes)?;
    write_held(out, &mut held)
}

/// How many nodes there are.
fn count_of(nodes: &[CertNode]) -> u64
    ensures { result ≡ length nodes.now }
{
    nodes.len() as u64
}

/// Writes the lines of a layer, by its number from 0 on.
pub fn put_layer<S: Sink>(
    out: &mut S,
    model: &Model,
    at: u64,
    nodes: &[CertNode],
) -> Result<(), Failed>
    ensures { Puts (S.taken out.old) (S.taken out.new) (S.faults out.old) (S.faults out.new)
        (text_of_lines (layer_lines model.now at nodes.now)) result }
{
    put_pieces(
        out,
        &[
            Piece::Text("layer "),
            Piece::Number(at),
            Piece::Text(" "),
            Piece::Number(count_of(nodes)),
        ],
    )?;
    put_nodes(out, model, nodes)
}

/// Writes the last line of a certificate of so many layers.
pub fn put_end<S: Sink>(out: &mut S, count: u64) -> Result<(), Failed>
    ensures { Puts (S.taken out.old) (S.taken out.new) (S.faults out.old) (S.faults out.new)
        (line (end_line count)) result }
{
    put_pieces(out, &[Piece::Text("end "), Piece::Number(count)])
}
