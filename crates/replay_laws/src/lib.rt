//! Laws of replays: what the replay of a list of steps tells is what a model means. There is no code: each public function
//! is a law, and its contract is what is proved.
#![tactic(auto)]

ghost use Rattle.replay_laws.specs.Replays.{FaultMet, IllegalFound, LegalFound};

/// What the replay of a list tells: that it is legal, exactly where it is, and at its cost; or the first step that is not
/// legal, and why; or a fault that the steps done before meet.
pub fn law_replay()
    ensures legal { LegalFound }
    ensures illegal { IllegalFound }
    ensures faulted { FaultMet }
{}
