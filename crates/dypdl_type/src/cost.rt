//! The cost expressions of transitions.

ghost use Rattle.std.specs.Prelude.{◌≡◌};
ghost use Rattle.dp_base.specs.Results.{Answers};
ghost use Rattle.dypdl_words.specs.Ends.{told};
ghost use Rattle.dypdl_type.specs.Typing.{typing, join_named, word_is_cost, weight_of, cost_typing};

use crate::levels::MOST_LEVELS;
use crate::typing::number;
use dp_model::{JoinOp, Num};
use dypdl_expr::Expr;
use dypdl_words::{Scope, TypeEnd, is_cost};
use std::alloc::Global;

/// How a transition changes the cost so far: not at all, or by joining its weight.
#[derive(Debug, Drop)]
pub enum CostForm {
    Bare,
    Joined(JoinOp, Num),
}

fn join_named(word: &str) -> Option<JoinOp>
    ensures { result ≡ join_named word.now }
{
    match word {
        "+" => Some(JoinOp::Plus),
        "max" => Some(JoinOp::Most),
        "min" => Some(JoinOp::Least),
        _ => None,
    }
}

#[tactic(auto, unfolding(crate::specs::Typing::typing))]
fn is_cost_word(scope: &Scope<'_>, e: &Expr) -> bool
    ensures { result ≡ word_is_cost (typing scope.now e.now).word }
{
    match e {
        Expr::Word(_, word) => is_cost(word.as_text()),
        Expr::List(_, _) | Expr::Bars(_, _) => false,
    }
}

/// The weight beside `cost`.
fn weight(alloc: Global, scope: &Scope<'_>, a: &Expr, b: &Expr) -> Result<Num, TypeEnd>
    ensures { Answers told result (weight_of (typing scope.now a.now) (typing scope.now b.now)) }
{
    match (is_cost_word(scope, a), is_cost_word(scope, b)) {
        (true, false) => number(alloc, scope, MOST_LEVELS, b),
        (false, true) => number(alloc, scope, MOST_LEVELS, a),
        _ => Err(TypeEnd::CostForm(0)),
    }
}

/// The cost form of an expression.
#[tactic(auto, unfolding(crate::specs::Typing::cost_typing, crate::specs::Typing::typing))]
pub(crate) fn cost(alloc: Global, scope: &Scope<'_>, e: &Expr) -> Result<CostForm, TypeEnd>
    ensures { Answers told result (cost_typing scope.now e.now) }
{
    let items = match e {
        Expr::Word(_, word) if is_cost(word.as_text()) => return Ok(CostForm::Bare),
        Expr::List(_, items) => items.list(),
        Expr::Word(_, _) | Expr::Bars(_, _) => return Err(TypeEnd::CostForm(0)),
    };
    let [Expr::Word(_, word), a, b] = items.as_slice() else {
        return Err(TypeEnd::CostForm(0));
    };
    let Some(op) = join_named(word.as_text()) else {
        return Err(TypeEnd::CostForm(0));
    };
    Ok(CostForm::Joined(op, weight(alloc, scope, a, b)?))
}
