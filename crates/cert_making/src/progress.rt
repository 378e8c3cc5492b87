//! How far a certificate has come, and its layers as they are written.

ghost use Rattle.std.specs.Prelude.{◌≡◌, ◌+◌, ◌≤◌, ◌<◌, ◌^◌, List, Option, ℕ, length, OnOk, IfOk, IfErr};
ghost use Rattle.dp_model.specs.declared.answers.Claim.{Claim as ClaimOf};
ghost use Rattle.dp_model.specs.declared.answers.Options.{Options as OptionsOf};
ghost use Rattle.dp_outside.specs.Outside.{Rose};
ghost use Rattle.cert_types.specs.declared.nodes.CertNode.{CertNode as CertNodeOf};
ghost use Rattle.cert_making.specs.Makes.{IsUnwritten, Writes, with_layer};

use crate::ends::Halt;
use cert_text::put_layer;
use cert_types::CertNode;
use dp_model::Model;
use dp_outside::Sink;

/// A certificate has fewer lines than this.
pub(crate) const MOST_LINES: u64 = 4_294_967_296;

/// How far a certificate has come: how many layers are written, the number that its last line has behind them, and how many nodes
/// were visited before the layer that was closed last.
#[derive(Clone, Copy, Debug, PartialEq, Eq)]
pub struct Progress {
    pub layers: u64,
    pub lines: u64,
    pub first: u64,
}

/// The number of the last line behind one more layer. On `Err` it is too great.
fn lines_with(lines: u64, nodes: &[CertNode]) -> Result<u64, Halt>
    requires { lines < 2 ^ 32 }
    ensures ok { IfOk result (λ more. (more ≡ lines + (1 + length nodes.now)) × (more < 2 ^ 32)) }
    ensures err { IfErr result (λ halt. halt ≡ Halt.Memory) }
{
    match lines.checked_add(1 + nodes.len() as u64) {
        Some(more) if more < MOST_LINES => Ok(more),
        _ => Err(Halt::Memory),
    }
}

/// Writes a layer behind the others. One without nodes is not written.
pub(crate) fn write_layer<S: Sink>(
    out: &mut S,
    model: &Model,
    progress: &mut Progress,
    nodes: &[CertNode],
) -> Result<(), Halt>
    requires few { progress.old.lines < 2 ^ 32 }
    requires layers { progress.old.layers ≤ progress.old.lines }
    ensures written { (options : OptionsOf) (claim : ClaimOf) (before : Option (List ℕ)) (layers : List (List CertNodeOf)) → Writes model.now options claim before (S.taken out.old) layers progress.old
        → OnOk result (Writes model.now options claim before (S.taken out.new) (with_layer layers nodes.now) progress.new) }
    ensures stopped { (options : OptionsOf) (claim : ClaimOf) (before : Option (List ℕ)) (layers : List (List CertNodeOf)) → Writes model.now options claim before (S.taken out.old) layers progress.old
        → IfErr result (IsUnwritten model.now options claim before (S.taken out.new) layers nodes.now) }
    ensures failed { IfErr result (λ halt. halt ≡ Halt.Write → Rose (S.faults out.old) (S.faults out.new)) }
    ensures count { S.faults out.old ≤ S.faults out.new }
{
    if nodes.is_empty() {
        return Ok(());
    }
    let lines = lines_with(progress.lines, nodes)?;
    put_layer(out, model, progress.layers, nodes)?;
    progress.layers += 1;
    progress.lines = lines;
    Ok(())
}
