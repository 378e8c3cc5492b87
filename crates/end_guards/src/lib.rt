//! Guards of the definitions that the end of a pass stands on: what they say of views, visits, layers and ledgers that are written out.
#![tactic(auto)]

ghost use Rattle.end_guards.specs.Boards.{LawWorkedBoard, LawWorkedMail, LawWorkedSeats};
ghost use Rattle.end_guards.specs.Ends.{LawWorkedCauses, LawWorkedClosed, LawWorkedDraws, LawWorkedHalted};
ghost use Rattle.end_guards.specs.Layers.{LawWorkedBusy, LawWorkedSplits};
ghost use Rattle.end_guards.specs.Visits.{LawPassOf, LawWorkedFinds, LawWorkedOffers};

/// The answer of a pass, over views and ledgers that are written out. A halt of another cause is no spent budget, and a fault that no
/// list meets is no cause. Of a closed pass the numbers are those of its ledger and no others. A halted pass with a better solution
/// lowers the best word to that of the solution, and else leaves it as it was.
pub fn law_worked_ends()
    ensures causes { LawWorkedCauses }
    ensures draws { LawWorkedDraws }
    ensures closed { LawWorkedClosed }
    ensures halted { LawWorkedHalted }
{}

/// A visit that meets a fault is not one that is done; what is offered is what is held anew; and the pass that options ask for has
/// their numbers.
pub fn law_worked_visits()
    ensures finds { LawWorkedFinds }
    ensures offers { LawWorkedOffers }
    ensures pass { LawPassOf }
{}

/// What the past covers is not kept again, nothing is dropped where the share is not full, and a layer of which one state is on its
/// way is busy.
pub fn law_worked_layers()
    ensures splits { LawWorkedSplits }
    ensures busy { LawWorkedBusy }
{}

/// A number at the limit is late; the best word never rises; a shard meets a halt only where one was raised, and prunes by no word
/// less than what it saw; and what a taker leaves comes after what it took.
pub fn law_worked_seats()
    ensures board { LawWorkedBoard }
    ensures seats { LawWorkedSeats }
    ensures mail { LawWorkedMail }
{}
