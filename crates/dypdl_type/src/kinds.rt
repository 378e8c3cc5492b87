//! The typing of an expression in each place, for the layers above.

ghost use Rattle.std.specs.Prelude.{◌≡◌, List, IfOk, IsTrue, length};
ghost use Rattle.dp_model.specs.declared.parts.ObjectType.{ObjectType};
ghost use Rattle.dp_model.specs.Typing.{is_num, is_set, is_cond};
ghost use Rattle.dp_base.specs.Results.{Answers};
ghost use Rattle.dypdl_words.specs.Ends.{told};
ghost use Rattle.dypdl_type.specs.Typing.{typing, members_of, cost_typing};
ghost use Rattle.dypdl_type.specs.Fitting.{is_cost_form};

use crate::cost::{CostForm, cost};
use crate::levels::MOST_LEVELS;
use crate::typing::{condition, members, number};
use dp_model::{Cond, Num, SetEx};
use dypdl_expr::Expr;
use dypdl_words::{Scope, TypeEnd};
use std::alloc::Global;

/// The tree of an expression where a number is wanted.
pub fn type_num(alloc: Global, scope: &Scope<'_>, e: &Expr) -> Result<Num, TypeEnd>
    // The tree, or the first refusal.
    ensures typing { Answers told result (typing scope.now e.now).number }
    // The tree is well typed over the lists that the scope was made of.
    ensures typed { IfOk result (λ n. (os : List ObjectType)
        → IsTrue (is_num os scope.now.variables scope.now.tables n (length scope.now.params))) }
{
    number(alloc, scope, MOST_LEVELS, e)
}

/// The tree of an expression where an element is wanted: the same as that of a number, since an element's range is
/// tested where it is used.
pub fn type_elem(alloc: Global, scope: &Scope<'_>, e: &Expr) -> Result<Num, TypeEnd>
    ensures typing { Answers told result (typing scope.now e.now).number }
    ensures typed { IfOk result (λ n. (os : List ObjectType)
        → IsTrue (is_num os scope.now.variables scope.now.tables n (length scope.now.params))) }
{
    type_num(alloc, scope, e)
}

/// The tree of an expression where a set of an object type is wanted.
pub fn type_set(alloc: Global, scope: &Scope<'_>, object: u32, e: &Expr) -> Result<SetEx, TypeEnd>
    ensures typing { Answers told result (members_of object (typing scope.now e.now)) }
    ensures typed { IfOk result (λ s. (os : List ObjectType)
        → ((is_set os scope.now.variables scope.now.tables s).0 ≡ object)
        × IsTrue ((is_set os scope.now.variables scope.now.tables s).1 (length scope.now.params))) }
{
    let (_, set) = members(alloc, scope, MOST_LEVELS, Some(object), e)?;
    Ok(set)
}

/// The tree of an expression where a condition is wanted.
pub fn type_cond(alloc: Global, scope: &Scope<'_>, e: &Expr) -> Result<Cond, TypeEnd>
    ensures typing { Answers told result (typing scope.now e.now).condition }
    ensures typed { IfOk result (λ c. (os : List ObjectType)
        → IsTrue (is_cond os scope.now.variables scope.now.tables c (length scope.now.params))) }
{
    condition(alloc, scope, MOST_LEVELS, e)
}

/// How a transition with this cost expression changes the cost so far.
pub fn type_cost(alloc: Global, scope: &Scope<'_>, e: &Expr) -> Result<CostForm, TypeEnd>
    ensures typing { Answers told result (cost_typing scope.now e.now) }
    ensures typed { IfOk result (λ c. (os : List ObjectType)
        → IsTrue (is_cost_form os scope.now.variables scope.now.tables c (length scope.now.params))) }
{
    cost(alloc, scope, e)
}
