//! Guards of the definitions that a run is promised by: what they say of records and models that are written out.
#![tactic(auto)]

ghost use Rattle.record_guards.specs.Announced.{LawWorkedAnnounced};
ghost use Rattle.record_guards.specs.Bounds.{LawWorkedBounds};
ghost use Rattle.record_guards.specs.Records.{LawWorkedRecords, LawWorkedWords};
ghost use Rattle.record_guards.specs.Settled.{LawSettled, LawWorkedModels};

/// The record of a search of the worked model in two passes is right, and so is one that was stopped in the second pass. Records that
/// say the same solution twice, are stopped too early or with a budget that is enough, keep the share, end too early, or find a
/// solution before they end as infeasible, are not.
pub fn law_worked_records()
    ensures records { LawWorkedRecords }
    ensures words { LawWorkedWords }
{}

/// A bound is told where the gap is asked for, a search with floors was stopped, and a pass was closed before; and nowhere else.
pub fn law_worked_bounds()
    ensures { LawWorkedBounds }
{}

/// Which status numbers settle a search, and which models are small enough for a budget.
pub fn law_worked_settled()
    ensures settled { LawSettled }
    ensures models { LawWorkedModels }
{}

/// Passes that announce the costs of lists, each better than the one before, and their best at last, are right. Those that keep the best
/// back, but for the last one before want of memory, or tell what no list costs, are not.
pub fn law_worked_announced()
    ensures { LawWorkedAnnounced }
{}
