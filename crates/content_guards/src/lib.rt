//! Guards of the definitions that texts are read by: what the items of a list give to the parts of a model.
#![tactic(auto)]

ghost use Rattle.content_guards.specs.Depot.{LawDepot};
ghost use Rattle.content_guards.specs.Dresses.{LawDress};
ghost use Rattle.content_guards.specs.StepTexts.{LawFileSteps, LawReadOfFiles, LawStepTexts};
ghost use Rattle.content_guards.specs.Transitions.{LawCosts, LawTransitions, LawTransitionsOf};
ghost use Rattle.content_guards.specs.Variables.{LawPreferences, LawVariables, LawVariablesOf};

/// Each state variable has the name, the kind, the object type and the preference that its item of the domain's list has, and the
/// words `less` and `greater` say which of two values is the better one.
pub fn variables_are_given()
    ensures alone { LawVariables }
    ensures in_model { LawVariablesOf }
    ensures preferences { LawPreferences }
{}

/// Each transition has the name that its item has, and its parameters, preconditions, effects and weight are what the item's stand for,
/// in order; it is forced exactly where the item says so. The transitions of the domain come before those of the problem. A cost is `cost` alone, or `cost`
/// and a number, on either side, joined by `+`, `max` or `min`.
pub fn transitions_are_given()
    ensures alone { LawTransitions }
    ensures in_model { LawTransitionsOf }
    ensures costs { LawCosts }
{}

/// Two texts, as trees, mean a model that is written out: with a set, an element and a number as variables, two of them with a
/// preference, a table of truth values, `reduce: min` of the problem over `max` of the domain, and in each of both files a transition,
/// a constraint, a base case and a dual bound. One of the transitions has a parameter and a `forall`, the other one is forced.
pub fn rules_mean_a_model()
    ensures { LawDepot }
{}

/// A text in block style may have a byte order mark, a line `---` with a comment before it, and carriage returns, all of them together.
pub fn block_text_may_be_dressed()
    ensures { LawDress }
{}

/// The step texts of a model that two trees mean are lines, and no two ground transitions have the same one. So what is written of a
/// certificate for a model of two files is read back, behind lines in UTF-8 that hide none.
pub fn loaded_steps_are_lines()
    ensures of_trees { LawStepTexts }
    ensures of_files { LawFileSteps }
    ensures read_back { LawReadOfFiles }
{}
