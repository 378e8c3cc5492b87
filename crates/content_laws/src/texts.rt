//! Texts written out, and the models that they mean.

ghost use Rattle.content_laws.specs.Worked.{LawLadder, LawQuarry};

/// Two small texts, as trees, mean a model that is written out: with an object type, a variable, a table of which one cell is
/// given, a base case without conditions, `reduce: max` and a target. Two others mean one whose base case has a condition.
pub fn texts_mean_a_model()
    ensures cells { LawQuarry }
    ensures condition { LawLadder }
{}
