//! The answer of a pass.

ghost use Rattle.std.specs.Prelude.{◌≡◌, ◌≤◌, ◌<◌, ◌↔◌, IsTrue, ℕ, List, None, IfOk};
ghost use Rattle.cost_laws.specs.Orders.{IsLawOf};
ghost use Rattle.board_words.specs.declared.seat.View.{View};
ghost use Rattle.pass_ledger.specs.Passes.{Pass};
ghost use Rattle.pass_ledger.specs.declared.records.ShardRecord.{ShardRecord};
ghost use Rattle.pass_ends.specs.Ends.{IsCause, IsPassEnd};
ghost use Rattle.pass_ends.specs.Left.{AreDropped, AreLeft};
ghost use Rattle.dp_model.specs.declared.answers.Cause.TheVariants as causes;

use crate::bests::found_in;
use crate::faults::fault_in;
use crate::floors::{Dropped, dropped_in};
use crate::tally::Tally;
use cost_laws::CostLaw;
use dp_model::{Cause, Found};
use std::alloc::{AllocError, Global};

/// How many nodes of a layer a shard can keep in whatever memory: fewer than 2^56. A pass whose shards keep as many has run out of
/// it.
const MOST_SHARE: u64 = 72_057_594_037_927_936;

/// How a pass ended.
///
/// `visited` is how many of the numbers that it drew are below the budget, `dropped` how many nodes its shards dropped, and `best`
/// the best solution that they hold, of the first shard among those that hold one as good. `least_floor` is the best floor of the
/// dropped nodes: `None` where none was dropped, or where one has no floor. Of a pass that was halted for want of memory `dropped` is only told: no
/// clause ties it.
#[derive(Debug, Drop)]
pub enum PassEnd {
    /// Each shard closed all its layers.
    Closed {
        visited: u64,
        dropped: u64,
        least_floor: Option<i64>,
        best: Option<Found>,
    },
    /// A shard halted the pass. Of several causes a fault goes before want of memory, and this before a spent budget.
    Halted {
        cause: Cause,
        visited: u64,
        dropped: u64,
        best: Option<Found>,
    },
}

/// The answer of a pass that memory ran out in.
pub fn out_of_memory(visited: u64, dropped: u64) -> PassEnd
    ensures { result ≡ PassEnd.Halted causes.Memory visited dropped None }
{
    PassEnd::Halted {
        cause: Cause::Memory,
        visited,
        dropped,
        best: None,
    }
}

/// Whether no memory can hold what a shard of the pass kept: it dropped a node, so it kept as many as the share.
fn is_beyond_memory(tally: &Tally, dropped: Dropped) -> bool
    ensures { IsTrue result ↔ ((0 < dropped.count) × (MOST_SHARE ≤ tally.now.share)) }
{
    dropped.count > 0 && tally.share >= MOST_SHARE
}

/// The answer of a pass that was not halted.
fn closed<L: CostLaw>(
    alloc: Global,
    tally: &Tally,
    cause: u64,
    dropped: Dropped,
) -> Result<PassEnd, AllocError>
    requires left { (p : Pass) × (records : List ShardRecord) × (before : View) × (after : View) × IsLawOf p.model L.minimize L.operator × AreLeft p records before after tally.now cause }
    requires no_halt { cause ≡ 0 }
    ensures { (p : Pass) (records : List ShardRecord) (before after : View) → IsLawOf p.model L.minimize L.operator → AreLeft p records before after tally.now cause
        → AreDropped p records dropped.count dropped.least_floor → IfOk result (IsPassEnd p before after) }
{
    if is_beyond_memory(tally, dropped) {
        return Err(AllocError);
    }
    Ok(PassEnd::Closed {
        visited: tally.visited,
        dropped: dropped.count,
        least_floor: dropped.least_floor,
        best: found_in::<L>(alloc, tally, cause)?,
    })
}

/// The answer of a pass that was halted.
fn halted(tally: &Tally, dropped: Dropped, cause: Cause, best: Option<Found>) -> PassEnd
    ensures { result ≡ PassEnd.Halted cause tally.now.visited dropped.count best }
{
    PassEnd::Halted {
        cause,
        visited: tally.visited,
        dropped: dropped.count,
        best,
    }
}

/// Why a pass was halted, by the halt word.
fn cause_of(alloc: Global, tally: &Tally, cause: u64) -> Result<Cause, AllocError>
    requires left { (p : Pass) × (records : List ShardRecord) × (before : View) × (after : View) × AreLeft p records before after tally.now cause }
    requires halt { 1 ≤ cause }
    ensures { (p : Pass) (records : List ShardRecord) (before after : View) → AreLeft p records before after tally.now cause → IfOk result (IsCause p before after) }
{
    match cause {
        1 => Ok(Cause::Budget),
        2 => Ok(Cause::Memory),
        _ => Ok(Cause::Fault(fault_in(alloc, tally, cause)?)),
    }
}

/// The answer by the halt word, 0 where there was no halt.
fn answer_by<L: CostLaw>(
    alloc: Global,
    tally: &Tally,
    cause: u64,
    dropped: Dropped,
) -> Result<PassEnd, AllocError>
    requires { (p : Pass) × (records : List ShardRecord) × (before : View) × (after : View) × IsLawOf p.model L.minimize L.operator × AreLeft p records before after tally.now cause }
    ensures { (p : Pass) (records : List ShardRecord) (before after : View) → IsLawOf p.model L.minimize L.operator → AreLeft p records before after tally.now cause
        → AreDropped p records dropped.count dropped.least_floor → IfOk result (IsPassEnd p before after) }
{
    if cause == 0 {
        return closed::<L>(alloc, tally, cause, dropped);
    }
    let why = cause_of(alloc, tally, cause)?;
    let best = found_in::<L>(alloc, tally, cause)?;
    Ok(halted(tally, dropped, why, best))
}

/// The answer of a pass whose shards have ended, by what they handed back and the halt word. Where memory runs out for it, it is
/// that of a pass that memory ran out in.
pub fn answer<L: CostLaw>(alloc: Global, tally: &Tally, cause: u64) -> PassEnd
    requires { (p : Pass) × (records : List ShardRecord) × (before : View) × (after : View) × IsLawOf p.model L.minimize L.operator × AreLeft p records before after tally.now cause }
    ensures { (p : Pass) (records : List ShardRecord) (before after : View) → IsLawOf p.model L.minimize L.operator → AreLeft p records before after tally.now cause
        → IsPassEnd p before after result }
{
    let Some(dropped) = dropped_in::<L>(&tally.ends) else {
        return out_of_memory(tally.visited, u64::MAX);
    };
    match answer_by::<L>(alloc, tally, cause, dropped) {
        Ok(end) => end,
        Err(AllocError) => out_of_memory(tally.visited, dropped.count),
    }
}
