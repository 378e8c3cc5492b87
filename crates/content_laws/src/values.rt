//! What two files give: which costs are better, lists that stand in both, and the target's values.

ghost use Rattle.content_laws.specs.Lists.{LawLists};
ghost use Rattle.content_laws.specs.Reduce.{LawReduce};
ghost use Rattle.content_laws.specs.Targets.{LawTarget, LawTargetOf};

/// The word under `reduce` of the problem, or else of the domain, decides which costs are better: with `max` the greater,
/// with `min` or without a word the lesser, and no other word is read.
pub fn reduce_decides()
    ensures { LawReduce }
{}

/// Transitions, constraints, base cases and dual bounds that stand in both files count from both: the domain's come before the
/// problem's, and each is what its item alone stands for.
pub fn both_files_count()
    ensures { LawLists }
{}

/// The target's value of each variable is the one that is written under the variable's name.
pub fn target_is_given()
    ensures alone { LawTarget }
    ensures in_model { LawTargetOf }
{}
