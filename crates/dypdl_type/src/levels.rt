//! How deep a tree may be. A tree is read and dropped by calls that go as deep as it is, so its depth is bounded, and
//! with it the stack that they take.

ghost use Rattle.std.specs.Prelude.{◌<◌, IfSome};

use dypdl_expr::Expr;

/// How many levels a tree may have: enough for an operator of 1,200 operands, or of 1,000 operands inside a hundred
/// `if`s.
pub(crate) const MOST_LEVELS: u32 = 1_200;

/// How many levels are left below an expression, if it has any. Operands are folded from the left into a tree that is
/// as deep as they are many, so each of them after the first takes a level.
pub(crate) fn levels_below(levels: u32, e: &Expr) -> Option<u32>
    ensures { IfSome result (λ below. below < levels) }
{
    let taken = match e {
        Expr::List(_, items) => items.list().len().saturating_sub(2).max(1),
        Expr::Word(_, _) | Expr::Bars(_, _) => 1,
    };
    levels.checked_sub(u32::try_from(taken).ok()?)
}
