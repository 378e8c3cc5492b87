//! What holds of every model that two trees mean.

ghost use Rattle.std.specs.Prelude.{◌≡◌, ◌<◌, ℕ, length, Ok};
ghost use Rattle.dp_model.specs.StepTexts.{step_text};
ghost use Rattle.dp_model.specs.declared.whole.Model.{Model};
ghost use Rattle.yaml_tree.specs.declared.tree.Tree.{Tree};
ghost use Rattle.dypdl_ground.specs.Grounds.{all_grounded};
ghost use Rattle.dypdl_rules.specs.Expressions.{Reading, IsReading};
ghost use Rattle.dypdl_load.specs.Meaning.{meaning, parts_of};

/// A law: there is a reading of expressions, and no other.
pub fn one_reading()
    ensures some { (read : Reading) × IsReading read }
    ensures one { (read other : Reading) → IsReading read → IsReading other → read ≡ other }
{}

/// A law: two trees mean at most one model.
pub fn one_model()
    ensures { (read other : Reading) (domain problem : Tree) (a b : Model) → IsReading read → IsReading other
        → meaning read domain problem ≡ Ok (parts_of a) → meaning other domain problem ≡ Ok (parts_of b) → a ≡ b }
{}

/// A law: the ground transitions of a model are all choices of arguments, in order of definition, the first parameter
/// slowest.
pub fn all_choices()
    ensures { (read : Reading) (domain problem : Tree) (m : Model) → meaning read domain problem ≡ Ok (parts_of m)
        → m.dp_ground ≡ all_grounded m.objects m.variables m.transitions }
{}

/// A law: no two steps of a model are written in the same way.
pub fn steps_differ()
    ensures { (read : Reading) (domain problem : Tree) (m : Model) → meaning read domain problem ≡ Ok (parts_of m)
        → (i j : ℕ) → i < j → j < length m.dp_ground → step_text m i ≡ step_text m j → ⊥ }
{}
