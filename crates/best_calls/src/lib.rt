//! What is known of the costs that the shards of a best-first search call while it runs, as laws.
#![tactic(auto)]

ghost use Rattle.best_calls.specs.Called.{LawCalled, LawCried, LawLeft};

/// Each cost that a shard called is that of a solution that it held when it called, and what it holds is no worse: each event of the
/// shard keeps this, and so does a further call.
pub fn law_best_called()
    ensures { LawCalled }
{}

/// Each cost that the crier took, and each that was left, is the cost of a legal list, and the best word is no worse.
pub fn law_best_cried()
    ensures cried { LawCried }
    ensures left { LawLeft }
{}
