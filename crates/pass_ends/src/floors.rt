//! How many nodes the shards of a pass dropped, and the best floor of these.

ghost use Rattle.std.specs.Prelude.{◌≡◌, ◌+◌, List, IfSome};
ghost use Rattle.cost_laws.specs.Orders.{InWideRange, IsLawOf};
ghost use Rattle.pass_ledger.specs.Passes.{Pass};
ghost use Rattle.pass_ledger.specs.declared.records.ShardRecord.{ShardRecord};
ghost use Rattle.path_log.specs.Paths.{Log};
ghost use Rattle.shard_core.specs.Floors.{floor_of};
ghost use Rattle.pass_ends.specs.Left.{AreDropped, AreEnds};

use cost_laws::CostLaw;
use shard_core::{ShardEnd, merged_floor};

/// How many nodes were dropped, and their best floor: `None` where none was dropped, or where one has no floor.
#[derive(Clone, Copy, Debug, PartialEq, Eq)]
pub(crate) struct Dropped {
    pub count: u64,
    pub least_floor: Option<i64>,
}

/// What all shards dropped. None where no number of 64 bits tells how many.
pub(crate) fn dropped_in<L: CostLaw>(ends: &[ShardEnd]) -> Option<Dropped>
    requires { (p : Pass) × (records : List ShardRecord) × (logs : List Log) × IsLawOf p.model L.minimize L.operator × AreEnds p records ends.now logs }
    ensures { (p : Pass) (records : List ShardRecord) (logs : List Log) → IsLawOf p.model L.minimize L.operator → AreEnds p records ends.now logs → IfSome result (λ d. AreDropped p records d.count d.least_floor) }
{
    let mut dropped = Dropped {
        count: 0,
        least_floor: None,
    };
    for end in ends {
        dropped = add_dropped::<L>(dropped, end)?;
    }
    Some(dropped)
}

/// What a further shard dropped is added.
fn add_dropped<L: CostLaw>(dropped: Dropped, end: &ShardEnd) -> Option<Dropped>
    requires before { IfSome dropped.least_floor InWideRange }
    requires more { IfSome end.now.least_floor InWideRange }
    ensures count { IfSome result (λ d. d.count ≡ dropped.count + end.now.dropped) }
    ensures floor { IfSome result (λ d. d.least_floor ≡ floor_of L.minimize L.operator dropped.count end.now.dropped dropped.least_floor end.now.least_floor) }
{
    let count = dropped.count.checked_add(end.dropped)?;
    let least_floor = merged_floor::<L>(
        dropped.count,
        end.dropped,
        dropped.least_floor,
        end.least_floor,
    );
    Some(Dropped { count, least_floor })
}
