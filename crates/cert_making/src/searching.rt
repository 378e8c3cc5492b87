//! The search of a certificate, by one shard.

ghost use Rattle.std.specs.Prelude.{◌≡◌, ◌+◌, ◌≤◌, ◌<◌, ◌^◌, [], ℕ, List, Option, Ok, Err, pos, IfOk};
ghost use Rattle.cost_laws.specs.Orders.{IsLawOf};
ghost use Rattle.dp_model.specs.declared.answers.Claim.{Claim as ClaimOf};
ghost use Rattle.dp_model.specs.declared.answers.Options.{Options as OptionsOf};
ghost use Rattle.dp_outside.specs.Outside.{Rose};
ghost use Rattle.dp_steps.specs.States.{Inner};
ghost use Rattle.pass_ledger.specs.Passes.{Pass};
ghost use Rattle.shard_core.specs.Calls.{IsReady};
ghost use Rattle.shard_core.specs.Stands.{Suited};
ghost use Rattle.state_layout.specs.Conditions.{IsNodeOf};
ghost use Rattle.visit_laws.specs.Starts as begins;
ghost use Rattle.cert_types.specs.Lines.{line_of_end};
ghost use Rattle.cert_laws.specs.Shown.{ClaimHolds, claimed_word};
ghost use Rattle.cert_making.specs.Makes.{IsPassFor, Makes, Stops, Works};
ghost use Rattle.cert_making.specs.Written.{HasHead, PutsLast, Tells};
ghost use Rattle.cert_making.specs.declared.ends.CertEnd.TheVariants as ends;
ghost use Rattle.cert_making.specs.declared.ends.Halt.TheVariants as halts;

use crate::ends::{CertEnd, Halt};
use crate::layers::make_layers;
use crate::progress::Progress;
use crate::stops::{fault_by, found_by};
use cert_text::put_end;
use cost_laws::CostLaw;
use dom_store::Covers;
use dp_model::{Claim, Model, Options, Written};
use dp_outside::Sink;
use shard_core::Shard;
use state_layout::Node;
use std::alloc::{AllocError, Global};

/// How many nodes of a layer are kept at most. No layer has so many.
const WIDEST: u64 = 4_611_686_018_427_387_904;

/// The options of a search by one shard.
fn alone(options: &Options) -> Options
    ensures { result ≡ record options.now { workers = 1 } }
{
    Options {
        workers: 1,
        budget: options.budget(),
        prune: options.prune(),
        keep: options.keep(),
    }
}

/// The shard, which begins with the target's node.
fn make_shard<'m, L: CostLaw, K: Covers>(
    alloc: Global,
    model: &'m Model,
    options: &Options,
    node: Node,
) -> Result<Shard<'m, L, K>, AllocError>
    requires law { IsLawOf model.now L.minimize L.operator }
    requires node { IsNodeOf model.now node }
    ensures { (p : Pass) (claimed budget : ℕ) → Suited p L.minimize L.operator K.prune K.minimize K.operator → IsPassFor model.now options.now p → Inner model.now model.now.target → begins.IsStart model.now options.now.prune node
        → IfOk result (λ s. (a : Makes p claimed budget s [] 0) × IsReady p 0 a.shard_record) }
{
    Shard::new(alloc, model, &alone(options), 0, WIDEST, Some(node))
}

/// Tells why a search ended before its certificate was whole.
fn after_halt<'m, L: CostLaw, K: Covers>(
    alloc: Global,
    shard: Shard<'m, L, K>,
    halt: Halt,
    budget: u64,
) -> Result<Written, CertEnd>
    requires { (p : Pass) × (options : OptionsOf) × (claim : ClaimOf) × (claimed : ℕ) × (before : Option (List ℕ)) × (now : Option (List ℕ)) × Stops p options claim claimed budget shard before now halt }
    ensures told { (p : Pass) (options : OptionsOf) (claim : ClaimOf) (claimed : ℕ) (before now : Option (List ℕ)) → p.keep ≡ options.keep → p.prune ≡ options.prune → options.budget ≡ budget
        → claimed_word p.model claim ≡ pos claimed → Stops p options claim claimed budget shard.entry before now halt → Tells p.model options claim before now result }
    ensures write { result ≡ Err ends.Write → halt ≡ halts.Write }
{
    match halt {
        Halt::Budget => Ok(Written::Stopped(budget)),
        Halt::Better => Ok(Written::Better(found_by(alloc, shard)?)),
        Halt::Fault => Ok(Written::Fault(fault_by(alloc, shard)?)),
        Halt::Memory => Err(CertEnd::Memory),
        Halt::Write => Err(CertEnd::Write),
    }
}

/// Writes the last line of a certificate of so many layers.
pub(crate) fn put_last<S: Sink>(out: &mut S, layers: u64) -> Result<Written, CertEnd>
    ensures { PutsLast (S.taken out.old) (S.taken out.new) (S.faults out.old) (S.faults out.new) layers result }
{
    put_end(out, layers)?;
    Ok(Written::Whole)
}

/// Searches, and writes what stands behind the head of a certificate.
pub(crate) fn search<L: CostLaw, K: Covers, S: Sink>(
    alloc: Global,
    out: &mut S,
    model: &Model,
    options: &Options,
    claim: &Claim,
    claimed: u64,
    node: Node,
    lines: u64,
) -> Result<Written, CertEnd>
    requires law { IsLawOf model.now L.minimize L.operator }
    requires claim { ClaimHolds model.now claim.now }
    requires claimed { claimed_word model.now claim.now ≡ pos claimed }
    requires lines { (lines ≡ line_of_end 1 claim.now []) × (lines + 2 < 2 ^ 32) }
    requires head { (before : Option (List ℕ)) × HasHead model.now options.now claim.now before (S.taken out.old) }
    requires covering { IsLawOf model.now K.minimize K.operator }
    requires prune { K.prune ≡ options.now.prune }
    requires inner { Inner model.now model.now.target }
    requires node { IsNodeOf model.now node }
    requires start { begins.IsStart model.now options.now.prune node }
    ensures told { (before : Option (List ℕ)) → HasHead model.now options.now claim.now before (S.taken out.old) → Tells model.now options.now claim.now before (S.taken out.new) result }
    ensures failed { result ≡ Err ends.Write → Rose (S.faults out.old) (S.faults out.new) }
    ensures count { S.faults out.old ≤ S.faults out.new }
{
    let _ = claim;
    let mut shard = make_shard::<L, K>(alloc, model, options, node)?;
    let mut progress = Progress {
        layers: 0,
        lines,
        first: 0,
    };
    let budget = options.budget();
    if let Err(halt) = make_layers(
        alloc,
        out,
        model,
        &mut shard,
        claimed,
        budget,
        &mut progress,
    ) {
        return after_halt(alloc, shard, halt, budget);
    }
    put_last(out, progress.layers)
}
