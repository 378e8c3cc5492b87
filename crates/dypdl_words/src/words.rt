//! What a word is in an expression, and at the head of a list.

ghost use Rattle.std.specs.Prelude.{◌≡◌, ◌<◌, Bool, IsTrue, length};
ghost use Rattle.std.specs.Str.{all_ascii_digits};
ghost use Rattle.std.specs.Str.Parse.{without_leading_sign, signed_digits_value};
ghost use Rattle.dypdl_words.specs.Scopes.{name_in, param_in};
ghost use Rattle.dypdl_words.specs.Words.{begins_number, number_in_range, number_meaning, is_cost, name_meaning, meaning, operator_named, is_left_out, head_of, is_reserved};
ghost use Rattle.dypdl_words.specs.Seen.{meaning_seen, head_seen};

use crate::scope::{Named, Scope, Shape};
use dp_model::{Compare, NumOp, SetOp};

/// An operator of expressions.
#[derive(Debug, Clone, Copy)]
pub enum Operator {
    Number(NumOp),
    Sets(SetOp),
    If,
    Sum,
    Complement,
    Changes(Change),
    Compares(Compare),
    Connects(Connective),
    Not,
    Tests(SetTest),
}

/// How `add` and `remove` change a set.
#[derive(Debug, Clone, Copy)]
pub enum Change {
    Add,
    Remove,
}

#[derive(Debug, Clone, Copy)]
pub enum Connective {
    And,
    Or,
}

/// What is asked of sets.
#[derive(Debug, Clone, Copy)]
pub enum SetTest {
    IsIn,
    IsSubset,
    IsEmpty,
}

/// What a word stands for where an expression is wanted. A whole number is `None` where it is out
/// of range.
#[derive(Clone, Copy)]
pub enum WordForm<'s> {
    Whole(Option<i64>),
    Continuous,
    Cost,
    Truth(bool),
    Param(u32),
    Name(&'s Named),
    Unknown,
}

/// What a word stands for at the head of a list.
#[derive(Clone, Copy)]
pub enum HeadForm<'s> {
    Operation(Operator),
    Table(u32, &'s Shape),
    Cost,
    /// An operator of continuous numbers.
    LeftOut,
    Unknown,
}

/// The greatest whole number of a model; the least is its negative.
const GREATEST: i64 = 4_611_686_018_427_387_903;

/// A word's bytes without a sign in front.
fn unsigned(word: &[u8]) -> &[u8]
    ensures { result.now ≡ without_leading_sign word.now }
{
    match word {
        [b'+' | b'-', digits @ ..] => digits,
        _ => word,
    }
}

/// Whether a word begins with a digit, or with a sign and a digit.
#[tactic(auto, unfolding(crate::specs::Words::begins_number))]
pub fn begins_number(word: &str) -> bool
    ensures { result ≡ begins_number word.now }
{
    unsigned(word.as_bytes())
        .first()
        .is_some_and(|byte| byte.is_ascii_digit())
}

fn are_digits(bytes: &[u8]) -> bool
    ensures { result ≡ all_ascii_digits bytes.now }
{
    bytes.iter().all(|byte| byte.is_ascii_digit())
}

/// The number of one or more digits, after a sign if any, where it is in range.
fn whole_number(word: &str) -> Option<i64>
    requires some { 0 < length (without_leading_sign word.now) }
    requires digits { IsTrue (all_ascii_digits (without_leading_sign word.now)) }
    ensures { result ≡ number_in_range (signed_digits_value 10 word.now) }
{
    let n = word.parse::<i64>().ok()?;
    (-GREATEST <= n && n <= GREATEST).then_some(n)
}

/// Whether a word is `cost`.
#[tactic(auto, unfolding(crate::specs::Words::is_cost))]
pub fn is_cost(word: &str) -> bool
    ensures { result ≡ is_cost word.now }
{
    word == "cost"
}

/// What a word that begins as a number stands for.
#[tactic(auto, unfolding(crate::specs::Words::number_meaning, crate::specs::Words::begins_number))]
fn number_form(word: &str) -> WordForm<'static>
    requires { IsTrue (begins_number word.now) }
    ensures { meaning_seen result ≡ number_meaning word.now }
{
    if are_digits(unsigned(word.as_bytes())) {
        WordForm::Whole(whole_number(word))
    } else {
        WordForm::Continuous
    }
}

/// What a word stands for as the name of a parameter, a variable or a table.
fn name_form<'s>(scope: &'s Scope<'_>, word: &str) -> WordForm<'s>
    ensures { meaning_seen result ≡ name_meaning (param_in scope.now word.now) (name_in scope.now word.now) }
{
    match (scope.param(word), scope.name(word)) {
        (Some(p), _) => WordForm::Param(p),
        (None, Some(name)) => WordForm::Name(name),
        (None, None) => WordForm::Unknown,
    }
}

/// What a word stands for in a scope where an expression is wanted.
#[tactic(auto, unfolding(crate::specs::Words::meaning, crate::specs::Words::is_cost))]
pub fn word_form<'s>(scope: &'s Scope<'_>, word: &str) -> WordForm<'s>
    ensures { meaning_seen result ≡ meaning scope.now word.now }
{
    if begins_number(word) {
        return number_form(word);
    }
    match word {
        "cost" => WordForm::Cost,
        "true" => WordForm::Truth(true),
        "false" => WordForm::Truth(false),
        _ => name_form(scope, word),
    }
}

#[tactic(auto, unfolding(crate::specs::Words::operator_named))]
fn operator_named(word: &str) -> Option<Operator>
    ensures { result ≡ operator_named word.now }
{
    Some(match word {
        "+" => Operator::Number(NumOp::Plus),
        "*" => Operator::Number(NumOp::Times),
        "max" => Operator::Number(NumOp::Most),
        "min" => Operator::Number(NumOp::Least),
        "-" => Operator::Number(NumOp::Minus),
        "/" => Operator::Number(NumOp::Over),
        "%" => Operator::Number(NumOp::Rest),
        "if" => Operator::If,
        "sum" => Operator::Sum,
        "union" => Operator::Sets(SetOp::Union),
        "intersection" => Operator::Sets(SetOp::Intersection),
        "difference" => Operator::Sets(SetOp::Difference),
        "~" => Operator::Complement,
        "add" => Operator::Changes(Change::Add),
        "remove" => Operator::Changes(Change::Remove),
        "=" => Operator::Compares(Compare::Same),
        "!=" => Operator::Compares(Compare::Other),
        "<" => Operator::Compares(Compare::Less),
        "<=" => Operator::Compares(Compare::AtMost),
        ">" => Operator::Compares(Compare::More),
        ">=" => Operator::Compares(Compare::AtLeast),
        "and" => Operator::Connects(Connective::And),
        "or" => Operator::Connects(Connective::Or),
        "not" => Operator::Not,
        "is_in" => Operator::Tests(SetTest::IsIn),
        "is_subset" => Operator::Tests(SetTest::IsSubset),
        "is_empty" => Operator::Tests(SetTest::IsEmpty),
        _ => return None,
    })
}

/// Whether a word is an operator of continuous numbers.
#[tactic(auto, unfolding(crate::specs::Words::is_left_out))]
fn is_left_out(word: &str) -> bool
    ensures { result ≡ is_left_out word.now }
{
    matches!(
        word,
        "ceil" | "floor" | "round" | "trunc" | "sqrt" | "log" | "pow"
    )
}

/// What a word stands for in a scope at the head of a list.
#[tactic(auto, unfolding(crate::specs::Words::head_of))]
pub fn head_form<'s>(scope: &'s Scope<'_>, word: &str) -> HeadForm<'s>
    ensures { head_seen result ≡ head_of scope.now word.now }
{
    if let Some(operator) = operator_named(word) {
        return HeadForm::Operation(operator);
    }
    if is_cost(word) {
        return HeadForm::Cost;
    }
    if is_left_out(word) {
        return HeadForm::LeftOut;
    }
    match scope.name(word) {
        Some(Named::Table(t, shape)) => HeadForm::Table(*t, shape),
        Some(Named::Variable(_, _)) | None => HeadForm::Unknown,
    }
}

/// Whether a word is one of the language, so that nothing else may have its name.
#[tactic(auto, unfolding(crate::specs::Words::is_cost))]
pub fn is_reserved(word: &str) -> bool
    ensures { result ≡ is_reserved word.now }
{
    operator_named(word).is_some() || matches!(word, "cost" | "true" | "false") || is_left_out(word)
}
