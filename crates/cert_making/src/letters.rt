//! The one shard takes the letters that it hands out.

ghost use Rattle.std.specs.Prelude.{◌≡◌, ℕ, List, false, IfOk, OnOk};
ghost use Rattle.pass_ledger.specs.Passes.{Pass};
ghost use Rattle.shard_core.specs.Calls.{IsQuiet};
ghost use Rattle.shard_core.specs.Stands.{Suited};
ghost use Rattle.cert_types.specs.declared.nodes.CertNode.{CertNode};
ghost use Rattle.cert_making.specs.Makes.{HasHanded, Makes};

use cost_laws::CostLaw;
use dom_store::Covers;
use shard_core::Shard;
use std::alloc::AllocError;

/// The shard takes the next letter that it hands out. Answers whether there was one.
fn hand_next<'m, L: CostLaw, K: Covers>(shard: &mut Shard<'m, L, K>) -> Result<bool, AllocError>
    requires { (p : Pass) × (claimed : ℕ) × (budget : ℕ) × (layers : List (List CertNode)) × (first : ℕ) × Suited p L.minimize L.operator K.prune K.minimize K.operator × Makes p claimed budget shard.old layers first }
    ensures { (p : Pass) (claimed budget : ℕ) (layers : List (List CertNode)) (first : ℕ) → Suited p L.minimize L.operator K.prune K.minimize K.operator → (a : Makes p claimed budget shard.old layers first)
        → IfOk result (λ more. (b : Makes p claimed budget shard.new layers first) × HasHanded a.shard_record b.shard_record × (more ≡ false → IsQuiet p 0 b.shard_record)) }
{
    let Some((to, letter)) = shard.next_letter() else {
        return Ok(false);
    };
    let _ = to;
    let Ok(()) = shard.accept(letter) else {
        return Err(AllocError);
    };
    Ok(true)
}

/// The shard takes all letters that it hands out.
pub(crate) fn hand_over<'m, L: CostLaw, K: Covers>(
    shard: &mut Shard<'m, L, K>,
) -> Result<(), AllocError>
    requires { (p : Pass) × (claimed : ℕ) × (budget : ℕ) × (layers : List (List CertNode)) × (first : ℕ) × Suited p L.minimize L.operator K.prune K.minimize K.operator × Makes p claimed budget shard.old layers first }
    ensures { (p : Pass) (claimed budget : ℕ) (layers : List (List CertNode)) (first : ℕ) → Suited p L.minimize L.operator K.prune K.minimize K.operator → (a : Makes p claimed budget shard.old layers first)
        → OnOk result ((b : Makes p claimed budget shard.new layers first) × HasHanded a.shard_record b.shard_record × IsQuiet p 0 b.shard_record) }
{
    'letters: for _ in 0..u64::MAX {
        if !hand_next(shard)? {
            return Ok(());
        }
    }
    Err(AllocError)
}
