//! What follows a closed pass, under the law of costs of a model.

ghost use Rattle.std.specs.Prelude.{◌≡◌, ◌<◌, IfSome, Some};
ghost use Rattle.cost_laws.specs.Orders.{InWideRange};
ghost use Rattle.width_loop.specs.Gaps.{bound_after as next_bound, gap_share, gap_turn};

use crate::progress::Progress;
use cost_laws::CostLaw;
use dp_model::Model;
use solve_start::by_law;
use width_loop::{GapSummary, Turn, bound_after};

/// What follows a closed pass, under a law of costs; its bound is counted in.
fn turn_by<L: CostLaw>(progress: &mut Progress, summary: &GapSummary) -> Turn
    requires share { progress.old.schedule.share < 4611686018427387904 }
    requires floor { IfSome summary.now.least_floor InWideRange }
    requires best { IfSome summary.now.best InWideRange }
    requires bound { IfSome progress.old.bound InWideRange }
    ensures turn { result ≡ gap_turn L.minimize L.operator progress.old.schedule.share (Some summary.now) }
    ensures progress { progress.new ≡ record progress.old {
      schedule = record { share = gap_share L.minimize L.operator progress.old.schedule.share (Some summary.now) };
      bound = next_bound L.minimize progress.old.bound summary.now;
    } }
{
    progress.bound = bound_after::<L>(progress.bound, summary);
    progress.schedule.next_gap::<L>(Some(summary))
}

/// What follows a closed pass of a search of the model; its bound is counted in.
pub(crate) fn turn_after(model: &Model, progress: &mut Progress, summary: &GapSummary) -> Turn
    requires share { progress.old.schedule.share < 4611686018427387904 }
    requires floor { IfSome summary.now.least_floor InWideRange }
    requires best { IfSome summary.now.best InWideRange }
    requires bound { IfSome progress.old.bound InWideRange }
    ensures turn { result ≡ gap_turn model.now.minimize model.now.join progress.old.schedule.share (Some summary.now) }
    ensures progress { progress.new ≡ record progress.old {
      schedule = record { share = gap_share model.now.minimize model.now.join progress.old.schedule.share (Some summary.now) };
      bound = next_bound model.now.minimize progress.old.bound summary.now;
    } }
{
    by_law!(model, turn_by(progress, summary))
}
