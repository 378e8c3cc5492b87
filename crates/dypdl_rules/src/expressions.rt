//! Expressions in scalars, in each kind of place.

ghost use Rattle.std.specs.Prelude.{◌≡◌, ◌≤◌, List, ℕ, Result, length};
ghost use Rattle.dp_base.specs.Results.{Answers};
ghost use Rattle.dypdl_expr.specs.declared.expr.Expr.{Expr as ExprSeen};
ghost use Rattle.dypdl_expr.specs.declared.expr.ExprEnd.{ExprEnd as TextEnd};
ghost use Rattle.dypdl_words.specs.declared.ends.TypeEnd.{TypeEnd as TypeEndSeen};
ghost use Rattle.dypdl_words.specs.Ends.{told as type_told};
ghost use Rattle.dypdl_type.specs.Typing.{typing, members_of, cost_typing};
ghost use Rattle.dypdl_nodes.specs.Reads.{told};
ghost use Rattle.dypdl_rules.specs.Declarations.{names_with};
ghost use Rattle.dypdl_rules.specs.Expressions.{Reading, IsReading, text_told, text_placed, type_placed, expression_of, typed_by};

use crate::declarations::Declared;
use dp_base::Place;
use dp_model::{Cond, Num, SetEx};
use dypdl_expr::{Expr, ExprEnd, read_expr};
use dypdl_nodes::{LoadEnd, text_of};
use dypdl_type::{CostForm, TypeEnd, type_cond, type_cost, type_num, type_set};
use std::alloc::Global;
use yaml_tree::Tree;

/// The longest text that is read as an expression. No file has a longer one.
const LONGEST: usize = 16_777_216;

/// The expression that a text is. A longer text than any file has is answered with want of memory.
fn expression_in(alloc: Global, text: &str) -> Result<Expr, ExprEnd>
    ensures { (read : Reading) → IsReading read → Answers text_told result (read text.now) }
{
    if text.len() > LONGEST {
        return Err(ExprEnd::Memory);
    }
    read_expr(alloc, text)
}

/// A text's refusal, at the place of its scalar.
fn text_placed<T>(place: Place, read: Result<T, ExprEnd>) -> Result<T, LoadEnd>
    ensures { (d : Result T TextEnd) → Answers text_told read d → Answers told result (text_placed place d) }
{
    let (number, offset) = match read {
        Ok(value) => return Ok(value),
        Err(ExprEnd::BadToken(offset)) => (20, offset),
        Err(ExprEnd::Unbalanced(offset)) => (21, offset),
        Err(ExprEnd::Empty(offset)) => (22, offset),
        Err(ExprEnd::Rest(offset)) => (23, offset),
        Err(ExprEnd::TooNested(offset)) => (24, offset),
        Err(ExprEnd::Memory) => return Err(LoadEnd::Memory),
    };
    Err(LoadEnd::Refused {
        number,
        place,
        offset: Some(offset),
    })
}

/// A typing's refusal, at the place of its scalar.
fn type_placed<T>(place: Place, typed: Result<T, TypeEnd>) -> Result<T, LoadEnd>
    ensures { (d : Result T TypeEndSeen) → Answers type_told typed d → Answers told result (type_placed place d) }
{
    let (number, offset) = match typed {
        Ok(value) => return Ok(value),
        Err(TypeEnd::UnknownName(offset)) => (30, offset),
        Err(TypeEnd::WrongKind(offset)) => (31, offset),
        Err(TypeEnd::WrongCount(offset)) => (32, offset),
        Err(TypeEnd::CostPlace(offset)) => (33, offset),
        Err(TypeEnd::Continuous(offset)) => (34, offset),
        Err(TypeEnd::BadNumber(offset)) => (42, offset),
        Err(TypeEnd::CostForm(offset)) => (47, offset),
        Err(TypeEnd::Memory) => return Err(LoadEnd::Memory),
    };
    Err(LoadEnd::Refused {
        number,
        place,
        offset: Some(offset),
    })
}

fn expression(alloc: Global, tree: &Tree) -> Result<Expr, LoadEnd>
    ensures { (read : Reading) → IsReading read → Answers told result (expression_of read tree.now) }
{
    let text = text_of(tree)?;
    text_placed(tree.place(), expression_in(alloc, text))
}

/// The number expression in a scalar.
pub(crate) fn number(alloc: Global, declared: &Declared<'_>, tree: &Tree) -> Result<Num, LoadEnd>
    ensures { (read : Reading) → IsReading read → Answers told result
        (typed_by read (λ e. (typing (names_with declared.now.lists declared.now.params) e).number) tree.now) }
{
    let e = expression(alloc, tree)?;
    type_placed(tree.place(), type_num(alloc, declared.scope(), &e))
}

/// The set expression in a scalar, of this object type.
pub(crate) fn members(
    alloc: Global,
    declared: &Declared<'_>,
    object: u32,
    tree: &Tree,
) -> Result<SetEx, LoadEnd>
    ensures { (read : Reading) → IsReading read → Answers told result
        (typed_by read (λ e. members_of object (typing (names_with declared.now.lists declared.now.params) e)) tree.now) }
{
    let e = expression(alloc, tree)?;
    type_placed(tree.place(), type_set(alloc, declared.scope(), object, &e))
}

/// The condition in a scalar.
pub(crate) fn condition(
    alloc: Global,
    declared: &Declared<'_>,
    tree: &Tree,
) -> Result<Cond, LoadEnd>
    ensures { (read : Reading) → IsReading read → Answers told result
        (typed_by read (λ e. (typing (names_with declared.now.lists declared.now.params) e).condition) tree.now) }
{
    let e = expression(alloc, tree)?;
    type_placed(tree.place(), type_cond(alloc, declared.scope(), &e))
}

/// The cost expression in a scalar.
pub(crate) fn cost(alloc: Global, declared: &Declared<'_>, tree: &Tree) -> Result<CostForm, LoadEnd>
    ensures { (read : Reading) → IsReading read → Answers told result
        (typed_by read (cost_typing (names_with declared.now.lists declared.now.params)) tree.now) }
{
    let e = expression(alloc, tree)?;
    type_placed(tree.place(), type_cost(alloc, declared.scope(), &e))
}
