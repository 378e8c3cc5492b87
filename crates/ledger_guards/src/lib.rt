//! Guards of the definitions that ledgers and their bounds stand on: what they say of small models and lists that are written out.
#![tactic(auto)]

ghost use Rattle.ledger_guards.specs.Floors.{LawWorkedFloor};
ghost use Rattle.ledger_guards.specs.Forced.{LawWorkedForced};
ghost use Rattle.ledger_guards.specs.Shares.{LawWorkedShares};
ghost use Rattle.ledger_guards.specs.Shuttle.{LawWorkedSmall};
ghost use Rattle.ledger_guards.specs.Stay.{LawWorkedStay};

/// A model of two states with a round that leaves the cost as it is: no round betters its cost, so twelve visits are enough. In a
/// model in which each step betters the cost, a round does.
pub fn law_worked_small()
    ensures { LawWorkedSmall }
{}

/// The best floor of nodes is exactly the best of their floors: no other number is, and there is none where a node has no floor.
pub fn law_worked_floor()
    ensures { LawWorkedFloor }
{}

/// Of two nodes a share of one keeps the better one and drops the other; neither may it keep none, nor the worse one.
pub fn law_worked_shares()
    ensures { LawWorkedShares }
{}

/// Where a forced transition is enabled no other one is considered: a visit accounts for it, and for no other.
pub fn law_worked_forced()
    ensures { LawWorkedForced }
{}

/// A round of one step that leaves the cost as it is makes a list that is not lean. Where the step betters the cost the list is lean.
pub fn law_worked_stay()
    ensures { LawWorkedStay }
{}
