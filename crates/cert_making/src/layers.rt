//! The layers of a certificate: each is closed, written and visited, one after another.

ghost use Rattle.std.specs.Prelude.{◌≡◌, ◌≤◌, ℕ, List, Option, OnOk, IfOk, IfErr};
ghost use Rattle.dp_model.specs.declared.answers.Claim.{Claim as ClaimOf};
ghost use Rattle.dp_model.specs.declared.answers.Options.{Options as OptionsOf};
ghost use Rattle.dp_outside.specs.Outside.{Rose};
ghost use Rattle.pass_ledger.specs.Passes.{Pass};
ghost use Rattle.pass_ledger.specs.Records.{Done};
ghost use Rattle.shard_core.specs.Calls.{IsReady};
ghost use Rattle.shard_core.specs.Stands.{Suited};
ghost use Rattle.cert_types.specs.declared.nodes.CertNode.{CertNode as CertNodeOf};
ghost use Rattle.cert_making.specs.Makes.{Makes, Stops, Works, with_layer};

use crate::ends::Halt;
use crate::nodes::nodes_of;
use crate::progress::{Progress, write_layer};
use crate::visits::visit_layer;
use cert_types::CertNode;
use cost_laws::CostLaw;
use dom_store::Covers;
use dp_model::Model;
use dp_outside::Sink;
use shard_core::Shard;
use std::alloc::{AllocError, Global};

/// Closes the layer that the shard collected. Answers what is written of its nodes, whose parents were visited from `first` on. A
/// layer of which a node is dropped is want of memory.
fn close_layer<'m, L: CostLaw, K: Covers>(
    alloc: Global,
    shard: &mut Shard<'m, L, K>,
    first: u64,
) -> Result<Vec<CertNode>, AllocError>
    requires { (p : Pass) × (claimed : ℕ) × (budget : ℕ) × (layers : List (List CertNodeOf)) × Suited p L.minimize L.operator K.prune K.minimize K.operator × (a : Makes p claimed budget shard.old layers first) × IsReady p 0 a.shard_record }
    ensures { (p : Pass) (claimed budget : ℕ) (layers : List (List CertNodeOf)) → Suited p L.minimize L.operator K.prune K.minimize K.operator → (a : Makes p claimed budget shard.old layers first) → IsReady p 0 a.shard_record
        → IfOk result (λ nodes. Makes p claimed budget shard.new (with_layer layers nodes.items) shard.old.visited) }
{
    let closed = shard.close()?;
    if closed.dropped > 0 {
        return Err(AllocError);
    }
    nodes_of(alloc, &shard.waiting, first)
}

/// Closes the next layer, writes it, and visits its nodes.
fn next_layer<'m, L: CostLaw, K: Covers, S: Sink>(
    alloc: Global,
    out: &mut S,
    model: &Model,
    shard: &mut Shard<'m, L, K>,
    claimed: u64,
    budget: u64,
    progress: &mut Progress,
) -> Result<(), Halt>
    requires { (p : Pass) × (options : OptionsOf) × (claim : ClaimOf) × (before : Option (List ℕ)) × Suited p L.minimize L.operator K.prune K.minimize K.operator × (p.model ≡ model.now) × Works p options claim claimed budget shard.old before (S.taken out.old) progress.old }
    ensures goes_on { (p : Pass) (options : OptionsOf) (claim : ClaimOf) (before : Option (List ℕ)) → Suited p L.minimize L.operator K.prune K.minimize K.operator → p.model ≡ model.now → Works p options claim claimed budget shard.old before (S.taken out.old) progress.old
        → OnOk result (Works p options claim claimed budget shard.new before (S.taken out.new) progress.new) }
    ensures ends { (p : Pass) (options : OptionsOf) (claim : ClaimOf) (before : Option (List ℕ)) → Suited p L.minimize L.operator K.prune K.minimize K.operator → p.model ≡ model.now → Works p options claim claimed budget shard.old before (S.taken out.old) progress.old
        → IfErr result (Stops p options claim claimed budget shard.new before (S.taken out.new)) }
    ensures failed { IfErr result (λ halt. halt ≡ Halt.Write → Rose (S.faults out.old) (S.faults out.new)) }
    ensures count { S.faults out.old ≤ S.faults out.new }
{
    let first = shard.visited;
    let nodes = close_layer(alloc, shard, progress.first)?;
    write_layer(out, model, progress, nodes.as_slice())?;
    progress.first = first;
    visit_layer(shard, claimed, budget)
}

/// Makes the layers of a certificate, until no node is left.
pub(crate) fn make_layers<'m, L: CostLaw, K: Covers, S: Sink>(
    alloc: Global,
    out: &mut S,
    model: &Model,
    shard: &mut Shard<'m, L, K>,
    claimed: u64,
    budget: u64,
    progress: &mut Progress,
) -> Result<(), Halt>
    requires { (p : Pass) × (options : OptionsOf) × (claim : ClaimOf) × (before : Option (List ℕ)) × Suited p L.minimize L.operator K.prune K.minimize K.operator × (p.model ≡ model.now) × Works p options claim claimed budget shard.old before (S.taken out.old) progress.old }
    ensures done { (p : Pass) (options : OptionsOf) (claim : ClaimOf) (before : Option (List ℕ)) → Suited p L.minimize L.operator K.prune K.minimize K.operator → p.model ≡ model.now → Works p options claim claimed budget shard.old before (S.taken out.old) progress.old
        → OnOk result ((w : Works p options claim claimed budget shard.new before (S.taken out.new) progress.new) × Done p 0 w.makes.shard_record) }
    ensures ends { (p : Pass) (options : OptionsOf) (claim : ClaimOf) (before : Option (List ℕ)) → Suited p L.minimize L.operator K.prune K.minimize K.operator → p.model ≡ model.now → Works p options claim claimed budget shard.old before (S.taken out.old) progress.old
        → IfErr result (Stops p options claim claimed budget shard.new before (S.taken out.new)) }
    ensures failed { IfErr result (λ halt. halt ≡ Halt.Write → Rose (S.faults out.old) (S.faults out.new)) }
    ensures count { S.faults out.old ≤ S.faults out.new }
{
    'layers: for _ in 0..u32::MAX {
        if shard.is_done() {
            return Ok(());
        }
        next_layer(alloc, out, model, shard, claimed, budget, progress)?;
    }
    Err(Halt::Memory)
}
