//! The answer of a best-first search.

ghost use Rattle.std.specs.Prelude.{◌≡◌, ◌≤◌, List, None, IfOk};
ghost use Rattle.best_ends.specs.Ends.{IsBestEnd};
ghost use Rattle.best_ends.specs.Left.{AreLeft};
ghost use Rattle.best_ledger.specs.Searches.{BestSearch, pass_of};
ghost use Rattle.best_ledger.specs.declared.records.BestRecord.{BestRecord};
ghost use Rattle.board_words.specs.declared.seat.View.{View};
ghost use Rattle.cost_laws.specs.Orders.{IsLawOf};
ghost use Rattle.dp_model.specs.declared.answers.Cause.TheVariants as causes;
ghost use Rattle.pass_ends.specs.Ends.{IsCause};

use crate::bests::found_in;
use crate::faults::fault_in;
use crate::tally::BestTally;
use cost_laws::CostLaw;
use dp_model::{Cause, Found};
use std::alloc::{AllocError, Global};

/// How a best-first search ended.
///
/// `visited` is how many of the numbers that it drew are below the budget, and `best` the best solution that its shards hold, of the
/// first shard among those that hold one as good.
#[derive(Debug, Drop)]
pub enum BestEnd {
    /// No node is open, and no letter is left.
    Closed {
        visited: u64,
        best: Option<Found>,
    },
    /// A shard halted the search. Of several causes a fault goes before want of memory, and this before a spent budget.
    Halted {
        cause: Cause,
        visited: u64,
        best: Option<Found>,
    },
}

/// The answer of a search that memory ran out in.
pub fn out_of_memory(visited: u64) -> BestEnd
    ensures { result ≡ BestEnd.Halted causes.Memory visited None }
{
    BestEnd::Halted {
        cause: Cause::Memory,
        visited,
        best: None,
    }
}

/// Why a search was halted, by the halt word.
fn cause_of(alloc: Global, tally: &BestTally, cause: u64) -> Result<Cause, AllocError>
    requires left { (b : BestSearch) × (records : List BestRecord) × (before : View) × (after : View) × AreLeft b records before after tally.now cause }
    requires halt { 1 ≤ cause }
    ensures { (b : BestSearch) (records : List BestRecord) (before after : View) → AreLeft b records before after tally.now cause → IfOk result (IsCause (pass_of b) before after) }
{
    match cause {
        1 => Ok(Cause::Budget),
        2 => Ok(Cause::Memory),
        _ => Ok(Cause::Fault(fault_in(alloc, tally, cause)?)),
    }
}

/// The answer by the halt word, 0 where there was no halt.
fn answer_by<L: CostLaw>(
    alloc: Global,
    tally: &BestTally,
    cause: u64,
) -> Result<BestEnd, AllocError>
    requires { (b : BestSearch) × (records : List BestRecord) × (before : View) × (after : View) × IsLawOf b.model L.minimize L.operator × AreLeft b records before after tally.now cause }
    ensures { (b : BestSearch) (records : List BestRecord) (before after : View) → IsLawOf b.model L.minimize L.operator → AreLeft b records before after tally.now cause → IfOk result (IsBestEnd b before after) }
{
    if cause == 0 {
        return Ok(BestEnd::Closed {
            visited: tally.visited,
            best: found_in::<L>(alloc, tally, cause)?,
        });
    }
    Ok(BestEnd::Halted {
        cause: cause_of(alloc, tally, cause)?,
        visited: tally.visited,
        best: found_in::<L>(alloc, tally, cause)?,
    })
}

/// The answer of a search whose shards have ended, by what they handed back and the halt word. Where memory runs out for it, it is that
/// of a search that memory ran out in.
pub fn answer<L: CostLaw>(alloc: Global, tally: &BestTally, cause: u64) -> BestEnd
    requires { (b : BestSearch) × (records : List BestRecord) × (before : View) × (after : View) × IsLawOf b.model L.minimize L.operator × AreLeft b records before after tally.now cause }
    ensures { (b : BestSearch) (records : List BestRecord) (before after : View) → IsLawOf b.model L.minimize L.operator → AreLeft b records before after tally.now cause → IsBestEnd b before after result }
{
    match answer_by::<L>(alloc, tally, cause) {
        Ok(end) => end,
        Err(AllocError) => out_of_memory(tally.visited),
    }
}
