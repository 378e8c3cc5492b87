//! The nodes of a layer are visited.

ghost use Rattle.std.specs.Prelude.{◌≡◌, ◌<◌, ℕ, List, [], length, IfErr, OnOk};
ghost use Rattle.pass_ledger.specs.Passes.{Pass};
ghost use Rattle.shard_core.specs.Calls.{IsReady};
ghost use Rattle.shard_core.specs.Stands.{Suited};
ghost use Rattle.cert_types.specs.declared.nodes.CertNode.{CertNode};
ghost use Rattle.cert_making.specs.Makes.{Ends, Makes};

use crate::claims::weigh;
use crate::ends::Halt;
use crate::letters::hand_over;
use cost_laws::CostLaw;
use dom_store::Covers;
use shard_core::{Shard, Visited};

/// Visits the first node that waits. Its successors are pruned by the claimed word.
fn visit_next<'m, L: CostLaw, K: Covers>(
    shard: &mut Shard<'m, L, K>,
    claimed: u64,
) -> Result<(), Halt>
    requires { (p : Pass) × (budget : ℕ) × (layers : List (List CertNode)) × (first : ℕ) × Suited p L.minimize L.operator K.prune K.minimize K.operator × (a : Makes p claimed budget shard.old layers first) × (0 < length a.shard_record.waiting) }
    ensures goes_on { (p : Pass) (budget : ℕ) (layers : List (List CertNode)) (first : ℕ) → Suited p L.minimize L.operator K.prune K.minimize K.operator → (a : Makes p claimed budget shard.old layers first)
        → 0 < length a.shard_record.waiting → length a.shard_record.visits < budget → OnOk result ((b : Makes p claimed budget shard.new layers first) × (length b.shard_record.waiting < length a.shard_record.waiting)) }
    ensures ends { (p : Pass) (budget : ℕ) (layers : List (List CertNode)) (first : ℕ) → Suited p L.minimize L.operator K.prune K.minimize K.operator → (a : Makes p claimed budget shard.old layers first)
        → 0 < length a.shard_record.waiting → IfErr result (Ends p claimed budget shard.new) }
{
    match shard.visit(claimed) {
        Visited::Done { offer } => weigh(offer, claimed),
        Visited::Fault(_) => Err(Halt::Fault),
        Visited::Memory => Err(Halt::Memory),
    }
}

/// Visits the nodes that wait, and takes the letters that this makes, until the next layer can be closed.
pub(crate) fn visit_layer<'m, L: CostLaw, K: Covers>(
    shard: &mut Shard<'m, L, K>,
    claimed: u64,
    budget: u64,
) -> Result<(), Halt>
    requires { (p : Pass) × (layers : List (List CertNode)) × (first : ℕ) × Suited p L.minimize L.operator K.prune K.minimize K.operator × Makes p claimed budget shard.old layers first }
    ensures goes_on { (p : Pass) (layers : List (List CertNode)) (first : ℕ) → Suited p L.minimize L.operator K.prune K.minimize K.operator → (a : Makes p claimed budget shard.old layers first)
        → OnOk result ((b : Makes p claimed budget shard.new layers first) × IsReady p 0 b.shard_record) }
    ensures ends { (p : Pass) (layers : List (List CertNode)) (first : ℕ) → Suited p L.minimize L.operator K.prune K.minimize K.operator → (a : Makes p claimed budget shard.old layers first)
        → IfErr result (Ends p claimed budget shard.new) }
{
    hand_over(shard)?;
    'nodes: while shard.waits() {
        if shard.visited >= budget {
            return Err(Halt::Budget);
        }
        visit_next(shard, claimed)?;
        hand_over(shard)?;
    }
    Ok(())
}
