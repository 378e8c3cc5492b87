//! The trees that words stand for in each place, and what words and heads are refused as.

ghost use Rattle.std.specs.Prelude.{◌≡◌};
ghost use Rattle.dp_base.specs.Results.{Answers};
ghost use Rattle.dypdl_words.specs.Ends.{told};
ghost use Rattle.dypdl_words.specs.Seen.{meaning_seen, head_seen};
ghost use Rattle.dypdl_words.specs.Leaves.{are_whole, are_truths, are_sets, fits, number_named, number_word, members_named, members_word, condition_named, condition_word, word_refused, word_holds_set, head_refused};

use crate::ends::TypeEnd;
use crate::scope::{CellKind, Named};
use crate::words::{HeadForm, WordForm};
use dp_base::Seq;
use dp_model::{Cond, Num, SetEx, VarKind};
use std::alloc::Global;

pub fn are_whole(cells: CellKind) -> bool
    ensures { result ≡ are_whole cells }
{
    matches!(cells, CellKind::Integer | CellKind::Element)
}

pub fn are_truths(cells: CellKind) -> bool
    ensures { result ≡ are_truths cells }
{
    matches!(cells, CellKind::Truth)
}

pub fn are_sets(cells: CellKind) -> bool
    ensures { result ≡ are_sets cells }
{
    matches!(cells, CellKind::Set(_))
}

/// Whether an object type is the wanted one, if any is wanted.
pub fn fits(wanted: Option<u32>, object: u32) -> bool
    ensures { result ≡ fits wanted object }
{
    match wanted {
        Some(wanted) => wanted == object,
        None => true,
    }
}

fn number_named(alloc: Global, at: u32, name: &Named) -> Result<Num, TypeEnd>
    ensures { Answers told result (number_named at name.now) }
{
    match name {
        Named::Variable(v, VarKind::Integer | VarKind::Element(_)) => Ok(Num::Var(*v)),
        Named::Table(t, shape) if are_whole(shape.cells) => {
            if !shape.args.list().is_empty() {
                return Err(TypeEnd::WrongCount(at));
            }
            Ok(Num::Cell(*t, Seq::of(Vec::new(alloc))))
        }
        Named::Variable(_, VarKind::Set(_)) | Named::Table(_, _) => Err(TypeEnd::WrongKind(at)),
    }
}

/// The tree of a word where a number is wanted.
#[tactic(auto, unfolding(crate::specs::Leaves::number_word))]
pub fn number_word(alloc: Global, at: u32, form: WordForm<'_>) -> Result<Num, TypeEnd>
    ensures { Answers told result (number_word at (meaning_seen form.entry)) }
{
    match form {
        WordForm::Whole(Some(n)) => Ok(Num::Fixed(n)),
        WordForm::Whole(None) => Err(TypeEnd::BadNumber(at)),
        WordForm::Continuous => Err(TypeEnd::Continuous(at)),
        WordForm::Cost => Err(TypeEnd::CostPlace(at)),
        WordForm::Truth(_) => Err(TypeEnd::WrongKind(at)),
        WordForm::Param(p) => Ok(Num::Param(p)),
        WordForm::Name(name) => number_named(alloc, at, name),
        WordForm::Unknown => Err(TypeEnd::UnknownName(at)),
    }
}

/// What a word is refused as that stands for no set and no condition.
pub fn word_refused(at: u32, form: WordForm<'_>) -> TypeEnd
    ensures { result ≡ word_refused at (meaning_seen form.entry) }
{
    match form {
        WordForm::Continuous => TypeEnd::Continuous(at),
        WordForm::Cost => TypeEnd::CostPlace(at),
        WordForm::Unknown => TypeEnd::UnknownName(at),
        _ => TypeEnd::WrongKind(at),
    }
}

fn members_named(
    alloc: Global,
    at: u32,
    wanted: Option<u32>,
    name: &Named,
) -> Result<(u32, SetEx), TypeEnd>
    ensures { Answers told result (members_named at wanted name.now) }
{
    match name {
        Named::Variable(v, VarKind::Set(object)) if fits(wanted, *object) => {
            Ok((*object, SetEx::Var(*v)))
        }
        Named::Table(t, shape) => match shape.cells {
            CellKind::Set(object) if fits(wanted, object) => {
                if !shape.args.list().is_empty() {
                    return Err(TypeEnd::WrongCount(at));
                }
                Ok((object, SetEx::Cell(*t, Seq::of(Vec::new(alloc)))))
            }
            _ => Err(TypeEnd::WrongKind(at)),
        },
        Named::Variable(_, _) => Err(TypeEnd::WrongKind(at)),
    }
}

/// The tree of a word where a set is wanted, of this object type if any, with its object type.
#[tactic(auto, unfolding(crate::specs::Leaves::members_word))]
pub fn members_word(
    alloc: Global,
    at: u32,
    wanted: Option<u32>,
    form: WordForm<'_>,
) -> Result<(u32, SetEx), TypeEnd>
    ensures { Answers told result (members_word at wanted (meaning_seen form.entry)) }
{
    match form {
        WordForm::Name(name) => members_named(alloc, at, wanted, name),
        other => Err(word_refused(at, other)),
    }
}

fn condition_named(alloc: Global, at: u32, name: &Named) -> Result<Cond, TypeEnd>
    ensures { Answers told result (condition_named at name.now) }
{
    match name {
        Named::Table(t, shape) if are_truths(shape.cells) => {
            if !shape.args.list().is_empty() {
                return Err(TypeEnd::WrongCount(at));
            }
            Ok(Cond::Cell(*t, Seq::of(Vec::new(alloc))))
        }
        Named::Variable(_, _) | Named::Table(_, _) => Err(TypeEnd::WrongKind(at)),
    }
}

/// The tree of a word where a condition is wanted.
#[tactic(auto, unfolding(crate::specs::Leaves::condition_word))]
pub fn condition_word(alloc: Global, at: u32, form: WordForm<'_>) -> Result<Cond, TypeEnd>
    ensures { Answers told result (condition_word at (meaning_seen form.entry)) }
{
    match form {
        WordForm::Truth(b) => Ok(Cond::Fixed(b)),
        WordForm::Name(name) => condition_named(alloc, at, name),
        other => Err(word_refused(at, other)),
    }
}

/// Whether a word is of set kind as an operand of `=`, `!=` and `sum`.
#[tactic(auto, unfolding(crate::specs::Leaves::word_holds_set))]
pub fn word_holds_set(form: WordForm<'_>) -> bool
    ensures { result ≡ word_holds_set (meaning_seen form.entry) }
{
    match form {
        WordForm::Name(Named::Variable(_, VarKind::Set(_))) => true,
        WordForm::Name(Named::Table(_, shape)) => are_sets(shape.cells),
        _ => false,
    }
}

/// What a list is refused as whose head gives nothing of the wanted kind.
pub fn head_refused(at: u32, head: HeadForm<'_>) -> TypeEnd
    ensures { result ≡ head_refused at (head_seen head.entry) }
{
    match head {
        HeadForm::Cost => TypeEnd::CostPlace(at),
        HeadForm::LeftOut => TypeEnd::Continuous(at),
        HeadForm::Unknown => TypeEnd::UnknownName(at),
        HeadForm::Operation(_) | HeadForm::Table(_, _) => TypeEnd::WrongKind(at),
    }
}
