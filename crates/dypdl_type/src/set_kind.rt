//! Which operands of `=`, `!=` and `sum` are sets.

ghost use Rattle.std.specs.Prelude.{◌≡◌};
ghost use Rattle.dypdl_words.specs.Seen.{head_seen};
ghost use Rattle.dypdl_type.specs.Forms.{typings};
ghost use Rattle.dypdl_type.specs.Typing.{typing, list_holds_set};

use dypdl_expr::Expr;
use dypdl_words::{HeadForm, Operator, Scope, are_sets, head_form, word_form, word_holds_set};

/// Whether an expression is of set kind as an operand of `=`, `!=` and `sum`.
#[cycle(holds_set)]
#[tactic(auto, unfolding(crate::specs::Typing::typing))]
pub(crate) fn holds_set(scope: &Scope<'_>, e: &Expr) -> bool
    ensures { result ≡ (typing scope.now e.now).holds_set }
{
    match e {
        Expr::Word(_, word) => word_holds_set(word_form(scope, word.as_text())),
        Expr::List(_, items) => match items.list().as_slice() {
            [Expr::Word(_, word), operands @ ..] => {
                list_holds_set(scope, head_form(scope, word.as_text()), operands)
            }
            _ => false,
        },
        Expr::Bars(_, _) => false,
    }
}

/// Whether a list with this head is of set kind. An `if` is where its second operand is.
#[cycle(holds_set)]
#[tactic(auto, unfolding(crate::specs::Typing::list_holds_set))]
fn list_holds_set(scope: &Scope<'_>, head: HeadForm<'_>, operands: &[Expr]) -> bool
    ensures { result ≡ list_holds_set (head_seen head.entry) (typings scope.now operands.now) }
{
    match head {
        HeadForm::Operation(Operator::Sets(_) | Operator::Complement | Operator::Changes(_)) =>
            true,
        HeadForm::Operation(Operator::If) => match operands {
            [_, second, ..] => holds_set(scope, second),
            _ => false,
        },
        HeadForm::Table(_, shape) => are_sets(shape.cells),
        _ => false,
    }
}
