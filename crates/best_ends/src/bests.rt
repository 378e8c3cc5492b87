//! The best solution that the shards of a search hold.

ghost use Rattle.std.specs.Prelude.{◌≡◌, ◌++◌, ◌∷◌, [], ℕ, List, reverse, IfSome, IfOk};
ghost use Rattle.cost_laws.specs.Orders.{InWideRange, IsLawOf};
ghost use Rattle.path_log.specs.Paths.{LeadsBack};
ghost use Rattle.board_words.specs.Steps.{best_known};
ghost use Rattle.board_words.specs.declared.seat.View.{View};
ghost use Rattle.best_ledger.specs.Searches.{BestSearch, pass_of};
ghost use Rattle.best_ledger.specs.declared.records.BestRecord.{BestRecord};
ghost use Rattle.pass_ends.specs.Ends.{IsLegal, IsLowered};
ghost use Rattle.best_ends.specs.Ends.{IsBestOf};
ghost use Rattle.best_ends.specs.Left.{AreLeft, AreWide, IsBestHeld};
ghost use Rattle.pass_ends.specs.Bests.{better_held};

use crate::tally::BestTally;
use best_shard::BestShardEnd;
use cost_laws::CostLaw;
use dp_model::{Found, Seq};
use pass_ledger::Held;
use path_log::{PathLog, walk};
use std::alloc::{AllocError, Global};

/// The better of two solutions that may be held; of equals the first.
fn better_of<L: CostLaw>(first: Option<Held>, second: Option<Held>) -> Option<Held>
    requires first { IfSome first (λ h. InWideRange h.cost) }
    requires second { IfSome second (λ h. InWideRange h.cost) }
    ensures { result ≡ better_held L.minimize L.operator first second }
{
    match (first, second) {
        (Some(a), Some(b)) if L::better(b.cost, a.cost) => Some(b),
        (Some(a), _) => Some(a),
        (None, b) => b,
    }
}

/// The best of what the shards hold, and the first of equals.
fn best_held<L: CostLaw>(ends: &[BestShardEnd]) -> Option<Held>
    requires { AreWide ends.now }
    ensures { IsBestHeld L.minimize L.operator ends.now result }
{
    let mut best: Option<Held> = None;
    for end in ends {
        best = better_of::<L>(best, end.held);
    }
    best
}

/// The list of a held solution: the way to its visit, and its transition.
fn found_at(alloc: Global, logs: &Vec<PathLog>, held: Held) -> Result<Found, AllocError>
    requires { (back : List ℕ) × LeadsBack logs.now.items held.parent back }
    ensures cost { IfOk result (λ f. f.cost ≡ held.cost) }
    ensures steps { (back : List ℕ) → LeadsBack logs.now.items held.parent back → IfOk result (λ f. f.steps ≡ reverse back ++ held.transition ∷ []) }
{
    let mut steps = walk(alloc, logs, held.parent)?;
    steps.push(held.transition)?;
    Ok(Found {
        cost: held.cost,
        steps: Seq::of(steps),
    })
}

/// The best solution that the shards hold, with its list.
pub(crate) fn found_in<L: CostLaw>(
    alloc: Global,
    tally: &BestTally,
    cause: u64,
) -> Result<Option<Found>, AllocError>
    requires { (b : BestSearch) × (records : List BestRecord) × (before : View) × (after : View) × IsLawOf b.model L.minimize L.operator × AreLeft b records before after tally.now cause }
    ensures legal { (b : BestSearch) (records : List BestRecord) (before after : View) → IsLawOf b.model L.minimize L.operator → AreLeft b records before after tally.now cause → IfOk result (IsLegal b.model) }
    ensures best { (b : BestSearch) (records : List BestRecord) (before after : View) → IsLawOf b.model L.minimize L.operator → AreLeft b records before after tally.now cause → IfOk result (λ best. IsLowered (pass_of b) (best_known before) best (best_known after)) }
    ensures held { (b : BestSearch) (records : List BestRecord) (before after : View) → IsLawOf b.model L.minimize L.operator → AreLeft b records before after tally.now cause → IfOk result (IsBestOf b records) }
{
    let _ = cause;
    match best_held::<L>(&tally.ends) {
        Some(held) => Ok(Some(found_at(alloc, &tally.logs, held)?)),
        None => Ok(None),
    }
}
