//! What a best-first search that was stopped has proved of all legal lists, by the best floor of its frontier, as a law.
#![tactic(auto)]

ghost use Rattle.best_gap.specs.Laws.{LawFrontier, LawBound};
ghost use Rattle.best_gap.specs.Worked.{LawWorkedGap};

/// A best-first search that was halted at any moment, and met no fault. Its frontier are the open nodes and those in letters that were
/// made and not taken.
///
/// `frontier`: where pruning is on and the model has a dual bound, all nodes of the frontier have floors, and the best of these is the
/// floor of a state that a path leads to, for that path's cost so far; where the model is honest, no legal list is better than both
/// this floor and the best word. Else none of them has a floor. `bound`: so the better of this floor and of the best solution's cost is
/// a bound of all legal lists.
pub fn law_best_gap()
    ensures frontier { LawFrontier }
    ensures bound { LawBound }
{}

/// A search that was stopped with a letter on its way, written out: the floor of the letter's node is the best of the frontier, and there is
/// a legal list of just this cost. So it is no bound of all lists to leave the letter out.
pub fn law_best_gap_worked()
    ensures { LawWorkedGap }
{}
