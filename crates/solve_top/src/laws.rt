//! What holds of all texts of a domain and a problem.

ghost use Rattle.std.specs.Prelude.{◌≡◌, ℕ, List};
ghost use Rattle.dp_model.specs.declared.whole.Model.{Model};
ghost use Rattle.dypdl_nodes.specs.Reads.{Refusal};
ghost use Rattle.solve_top.specs.Texts.{Means, IsRefused};

/// A law: two texts mean at most one model, those that mean one are not refused, and none are refused in two ways.
pub fn one_model()
    ensures one { (domain problem : List ℕ) (a b : Model) → Means domain problem a → Means domain problem b → a ≡ b }
    ensures no_refusal { (domain problem : List ℕ) (m : Model) (r : Refusal) → Means domain problem m → IsRefused domain problem r → ⊥ }
    ensures one_refusal { (domain problem : List ℕ) (r s : Refusal) → IsRefused domain problem r → IsRefused domain problem s → r ≡ s }
{}
