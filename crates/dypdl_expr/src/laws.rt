//! What holds of all texts.

ghost use Rattle.std.specs.Prelude.{◌≡◌, ◌⊎◌, ℕ, List};
ghost use Rattle.dypdl_expr.specs.Grammar.{Reads};
ghost use Rattle.dypdl_expr.specs.Refusals.{Refused};
ghost use Rattle.dypdl_expr.specs.declared.expr.Expr.{Expr};
ghost use Rattle.dypdl_expr.specs.declared.expr.ExprEnd.{ExprEnd};

/// A law: a text is at most one expression, one that is an expression has no refusal, and none has two.
pub fn one_reading()
    ensures one_expression { (text : List ℕ) (a b : Expr) → Reads text a → Reads text b → a ≡ b }
    ensures no_refusal { (text : List ℕ) (e : Expr) (r : ExprEnd)
        → Reads text e → Refused text r → ⊥ }
    ensures one_refusal { (text : List ℕ) (r s : ExprEnd)
        → Refused text r → Refused text s → r ≡ s }
{}

/// A law: each text is an expression or has a first refusal.
pub fn some_reading()
    ensures { (text : List ℕ)
        → ((e : Expr) × Reads text e) ⊎ ((r : ExprEnd) × Refused text r) }
{}
