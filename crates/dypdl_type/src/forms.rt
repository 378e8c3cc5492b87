//! What an expression is in a place: its head and the number of its operands are tested, and the operands are not
//! typed yet.

ghost use Rattle.std.specs.Prelude.{◌≡◌, IfOk};
ghost use Rattle.dp_base.specs.Results.{AnswersBy};
ghost use Rattle.dypdl_words.specs.Ends.{told};
ghost use Rattle.dypdl_words.specs.Seen.{head_seen};
ghost use Rattle.dypdl_type.specs.Forms.{Finds, typings, number_of, IsMatched, members_of_form, condition_of};
ghost use Rattle.dypdl_type.specs.Typing.{typing, are_enough, sets_are_enough, number_operator, number_list, members_operator, members_list, comparison_of, set_test, condition_operator, condition_list, sum_of, summed_table};

use crate::set_kind::holds_set;
use dp_model::{Compare, NumOp, SetOp};
use dypdl_expr::Expr;
use dypdl_words::{
    CellKind, Change, Connective, HeadForm, Named, Operator, Scope, SetRelation, SetTest, TypeEnd,
    WordForm, are_truths, are_whole, fits, head_form, head_refused, word_form, word_refused,
};

/// What an expression is where a number is wanted.
#[derive(Clone, Copy)]
pub(crate) enum NumberForm<'e> {
    Word(u32, WordForm<'e>),
    Size(&'e Expr),
    /// Folded from the left: the first operand, and one more or several.
    Operation(NumOp, &'e Expr, &'e [Expr]),
    Choice(&'e Expr, &'e Expr, &'e Expr),
    Cell(u32, &'e [Expr]),
    /// A table, the object types of its arguments, and an operand for each.
    Sum(u32, &'e [u32], &'e [Expr]),
}

/// What an expression is where a set is wanted. A cell has its object type.
#[derive(Clone, Copy)]
pub(crate) enum MembersForm<'e> {
    Word(u32, WordForm<'e>),
    Operation(SetOp, &'e Expr, &'e [Expr]),
    Complement(&'e Expr),
    Change(Change, &'e Expr, &'e Expr),
    Choice(&'e Expr, &'e Expr, &'e Expr),
    Cell(u32, u32, &'e [Expr]),
}

/// What an expression is where a condition is wanted.
#[derive(Clone, Copy)]
pub(crate) enum ConditionForm<'e> {
    Word(u32, WordForm<'e>),
    Numbers(Compare, &'e Expr, &'e Expr),
    Sets(SetRelation, &'e Expr, &'e Expr),
    IsIn(&'e Expr, &'e Expr),
    IsEmpty(&'e Expr),
    Not(&'e Expr),
    Connection(Connective, &'e Expr, &'e [Expr]),
    Choice(&'e Expr, &'e Expr, &'e Expr),
    Cell(u32, &'e [Expr]),
}

/// Whether an operation on numbers has so many operands after the first.
fn are_enough(op: NumOp, more: usize) -> bool
    ensures { result ≡ are_enough op more }
{
    match op {
        NumOp::Plus | NumOp::Times | NumOp::Most | NumOp::Least => more > 0,
        NumOp::Minus | NumOp::Over | NumOp::Rest => more == 1,
    }
}

/// Whether an operation on sets has so many operands after the first.
fn sets_are_enough(op: SetOp, more: usize) -> bool
    ensures { result ≡ sets_are_enough op more }
{
    match op {
        SetOp::Union | SetOp::Intersection => more > 0,
        SetOp::Difference => more == 1,
    }
}

/// The table of a `sum`: one of whole numbers, of no object type, with at least one argument.
#[tactic(auto, unfolding(crate::specs::Typing::summed_table, crate::specs::Typing::typing))]
fn summed_table<'e>(scope: &'e Scope<'_>, e: &Expr) -> Result<(u32, &'e [u32]), TypeEnd>
    ensures { AnswersBy told (λ x. (x.0, x.1.now)) result (summed_table scope.now (typing scope.now e.now).at (typing scope.now e.now).word) }
{
    match e {
        Expr::Word(at, word) => match word_form(scope, word.as_text()) {
            WordForm::Name(Named::Table(t, shape)) => match shape.cells {
                CellKind::Integer if !shape.args.list().is_empty() => Ok((*t, shape.args.list())),
                _ => Err(TypeEnd::WrongKind(*at)),
            },
            other => Err(word_refused(*at, other)),
        },
        Expr::List(at, _) | Expr::Bars(at, _) => Err(TypeEnd::WrongKind(*at)),
    }
}

/// A `sum` of a table over its arguments.
fn sum_form<'e>(
    scope: &'e Scope<'_>,
    at: u32,
    table: &'e Expr,
    operands: &'e [Expr],
) -> Result<NumberForm<'e>, TypeEnd>
    ensures found { Finds (number_of scope.now) result (sum_of scope.now at (typing scope.now table.now) (typings scope.now operands.now)) }
    ensures matched { IfOk result IsMatched }
{
    let (t, objects) = summed_table(scope, table)?;
    if operands.len() != objects.len() {
        return Err(TypeEnd::WrongCount(at));
    }
    Ok(NumberForm::Sum(t, objects, operands))
}

/// An operator's list where a number is wanted.
#[tactic(auto, unfolding(crate::specs::Typing::number_operator))]
fn number_operator_form<'e>(
    scope: &'e Scope<'_>,
    at: u32,
    operator: Operator,
    operands: &'e [Expr],
) -> Result<NumberForm<'e>, TypeEnd>
    ensures found { Finds (number_of scope.now) result (number_operator scope.now at operator (typings scope.now operands.now)) }
    ensures matched { IfOk result IsMatched }
{
    match (operator, operands) {
        (Operator::Number(op), [first, more @ ..]) if are_enough(op, more.len()) => {
            Ok(NumberForm::Operation(op, first, more))
        }
        (Operator::If, [c, a, b]) => Ok(NumberForm::Choice(c, a, b)),
        (Operator::Sum, [table, more @ ..]) if !more.is_empty() => sum_form(scope, at, table, more),
        (Operator::Number(_) | Operator::If | Operator::Sum, _) => Err(TypeEnd::WrongCount(at)),
        _ => Err(TypeEnd::WrongKind(at)),
    }
}

/// A list with this head where a number is wanted.
#[tactic(auto, unfolding(crate::specs::Typing::number_list))]
fn number_list_form<'e>(
    scope: &'e Scope<'_>,
    at: u32,
    head: HeadForm<'e>,
    operands: &'e [Expr],
) -> Result<NumberForm<'e>, TypeEnd>
    ensures found { Finds (number_of scope.now) result (number_list scope.now at (head_seen head.entry) (typings scope.now operands.now)) }
    ensures matched { IfOk result IsMatched }
{
    match head {
        HeadForm::Operation(operator) => number_operator_form(scope, at, operator, operands),
        HeadForm::Table(t, shape) if are_whole(shape.cells) => {
            if operands.len() != shape.args.list().len() {
                return Err(TypeEnd::WrongCount(at));
            }
            Ok(NumberForm::Cell(t, operands))
        }
        other => Err(head_refused(at, other)),
    }
}

/// What an expression is where a number is wanted.
#[tactic(auto, unfolding(crate::specs::Typing::typing))]
pub(crate) fn number_form<'e>(scope: &'e Scope<'_>, e: &'e Expr) -> Result<NumberForm<'e>, TypeEnd>
    ensures found { Finds (number_of scope.now) result (typing scope.now e.now).number }
    ensures matched { IfOk result IsMatched }
{
    match e {
        Expr::Word(at, word) => Ok(NumberForm::Word(*at, word_form(scope, word.as_text()))),
        Expr::List(at, items) => match items.list().as_slice() {
            [Expr::Word(_, word), operands @ ..] => {
                number_list_form(scope, *at, head_form(scope, word.as_text()), operands)
            }
            _ => Err(TypeEnd::WrongKind(*at)),
        },
        Expr::Bars(_, inner) => Ok(NumberForm::Size(inner.get())),
    }
}

/// An operator's list where a set is wanted.
#[tactic(auto, unfolding(crate::specs::Typing::members_operator))]
fn members_operator_form<'e>(
    scope: &'e Scope<'_>,
    at: u32,
    wanted: Option<u32>,
    operator: Operator,
    operands: &'e [Expr],
) -> Result<MembersForm<'e>, TypeEnd>
    ensures { Finds (members_of_form scope.now wanted) result (members_operator at wanted operator (typings scope.now operands.now)) }
{
    match (operator, operands) {
        (Operator::Sets(op), [first, more @ ..]) if sets_are_enough(op, more.len()) => {
            Ok(MembersForm::Operation(op, first, more))
        }
        (Operator::Complement, [e]) => Ok(MembersForm::Complement(e)),
        (Operator::Changes(change), [n, e]) => Ok(MembersForm::Change(change, n, e)),
        (Operator::If, [c, a, b]) => Ok(MembersForm::Choice(c, a, b)),
        (Operator::Sets(_) | Operator::Complement | Operator::Changes(_) | Operator::If, _) => {
            Err(TypeEnd::WrongCount(at))
        }
        _ => Err(TypeEnd::WrongKind(at)),
    }
}

/// A list with this head where a set is wanted.
#[tactic(auto, unfolding(crate::specs::Typing::members_list))]
fn members_list_form<'e>(
    scope: &'e Scope<'_>,
    at: u32,
    wanted: Option<u32>,
    head: HeadForm<'e>,
    operands: &'e [Expr],
) -> Result<MembersForm<'e>, TypeEnd>
    ensures { Finds (members_of_form scope.now wanted) result (members_list at wanted (head_seen head.entry) (typings scope.now operands.now)) }
{
    match head {
        HeadForm::Operation(operator) => {
            members_operator_form(scope, at, wanted, operator, operands)
        }
        HeadForm::Table(t, shape) => match shape.cells {
            CellKind::Set(object) if fits(wanted, object) => {
                if operands.len() != shape.args.list().len() {
                    return Err(TypeEnd::WrongCount(at));
                }
                Ok(MembersForm::Cell(object, t, operands))
            }
            _ => Err(TypeEnd::WrongKind(at)),
        },
        other => Err(head_refused(at, other)),
    }
}

/// What an expression is where a set is wanted, of this object type if any.
#[tactic(auto, unfolding(crate::specs::Typing::typing))]
pub(crate) fn members_form<'e>(
    scope: &'e Scope<'_>,
    wanted: Option<u32>,
    e: &'e Expr,
) -> Result<MembersForm<'e>, TypeEnd>
    ensures { Finds (members_of_form scope.now wanted) result ((typing scope.now e.now).members wanted) }
{
    match e {
        Expr::Word(at, word) => Ok(MembersForm::Word(*at, word_form(scope, word.as_text()))),
        Expr::List(at, items) => match items.list().as_slice() {
            [Expr::Word(_, word), operands @ ..] => {
                members_list_form(
                    scope,
                    *at,
                    wanted,
                    head_form(scope, word.as_text()),
                    operands,
                )
            }
            _ => Err(TypeEnd::WrongKind(*at)),
        },
        Expr::Bars(at, _) => Err(TypeEnd::WrongKind(*at)),
    }
}

/// A comparison: of two sets where the first operand of `=` or `!=` is of set kind, and else of two numbers.
#[tactic(auto, unfolding(crate::specs::Typing::comparison_of))]
fn comparison_form<'e>(
    scope: &'e Scope<'_>,
    op: Compare,
    a: &'e Expr,
    b: &'e Expr,
) -> ConditionForm<'e>
    ensures { condition_of scope.now result ≡ comparison_of op (typing scope.now a.now) (typing scope.now b.now) }
{
    match op {
        Compare::Same if holds_set(scope, a) => ConditionForm::Sets(SetRelation::Same, a, b),
        Compare::Other if holds_set(scope, a) => ConditionForm::Sets(SetRelation::Other, a, b),
        _ => ConditionForm::Numbers(op, a, b),
    }
}

/// What is asked of sets.
#[tactic(auto, unfolding(crate::specs::Typing::set_test))]
fn set_test_form<'e>(
    scope: &'e Scope<'_>,
    at: u32,
    test: SetTest,
    operands: &'e [Expr],
) -> Result<ConditionForm<'e>, TypeEnd>
    ensures { Finds (condition_of scope.now) result (set_test at test (typings scope.now operands.now)) }
{
    match (test, operands) {
        (SetTest::IsIn, [n, e]) => Ok(ConditionForm::IsIn(n, e)),
        (SetTest::IsSubset, [a, b]) => Ok(ConditionForm::Sets(SetRelation::Within, a, b)),
        (SetTest::IsEmpty, [e]) => Ok(ConditionForm::IsEmpty(e)),
        _ => Err(TypeEnd::WrongCount(at)),
    }
}

/// An operator's list where a condition is wanted.
#[tactic(auto, unfolding(crate::specs::Typing::condition_operator))]
fn condition_operator_form<'e>(
    scope: &'e Scope<'_>,
    at: u32,
    operator: Operator,
    operands: &'e [Expr],
) -> Result<ConditionForm<'e>, TypeEnd>
    ensures { Finds (condition_of scope.now) result (condition_operator at operator (typings scope.now operands.now)) }
{
    match (operator, operands) {
        (Operator::Compares(op), [a, b]) => Ok(comparison_form(scope, op, a, b)),
        (Operator::Connects(op), [first, more @ ..]) if !more.is_empty() => {
            Ok(ConditionForm::Connection(op, first, more))
        }
        (Operator::Not, [c]) => Ok(ConditionForm::Not(c)),
        (Operator::Tests(test), _) => set_test_form(scope, at, test, operands),
        (Operator::If, [c, a, b]) => Ok(ConditionForm::Choice(c, a, b)),
        (Operator::Compares(_) | Operator::Connects(_) | Operator::Not | Operator::If, _) => {
            Err(TypeEnd::WrongCount(at))
        }
        _ => Err(TypeEnd::WrongKind(at)),
    }
}

/// A list with this head where a condition is wanted.
#[tactic(auto, unfolding(crate::specs::Typing::condition_list))]
fn condition_list_form<'e>(
    scope: &'e Scope<'_>,
    at: u32,
    head: HeadForm<'e>,
    operands: &'e [Expr],
) -> Result<ConditionForm<'e>, TypeEnd>
    ensures { Finds (condition_of scope.now) result (condition_list at (head_seen head.entry) (typings scope.now operands.now)) }
{
    match head {
        HeadForm::Operation(operator) => condition_operator_form(scope, at, operator, operands),
        HeadForm::Table(t, shape) if are_truths(shape.cells) => {
            if operands.len() != shape.args.list().len() {
                return Err(TypeEnd::WrongCount(at));
            }
            Ok(ConditionForm::Cell(t, operands))
        }
        other => Err(head_refused(at, other)),
    }
}

/// What an expression is where a condition is wanted.
#[tactic(auto, unfolding(crate::specs::Typing::typing))]
pub(crate) fn condition_form<'e>(
    scope: &'e Scope<'_>,
    e: &'e Expr,
) -> Result<ConditionForm<'e>, TypeEnd>
    ensures { Finds (condition_of scope.now) result (typing scope.now e.now).condition }
{
    match e {
        Expr::Word(at, word) => Ok(ConditionForm::Word(*at, word_form(scope, word.as_text()))),
        Expr::List(at, items) => match items.list().as_slice() {
            [Expr::Word(_, word), operands @ ..] => {
                condition_list_form(scope, *at, head_form(scope, word.as_text()), operands)
            }
            _ => Err(TypeEnd::WrongKind(*at)),
        },
        Expr::Bars(at, _) => Err(TypeEnd::WrongKind(*at)),
    }
}
