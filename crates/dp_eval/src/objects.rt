//! The object type of a set expression, which is the same in each state.

ghost use Rattle.std.specs.Prelude.{◌≡◌};
ghost use Rattle.dp_model.specs.Evaluation.{count_of, set_value};

use crate::tables::{cells_object, count_of, variable_object};
use dp_model::{Model, PlainState, SetEx};

/// The object type of a set expression: of an operation and of a choice, that of the first set.
fn set_object(model: &Model, e: &SetEx, s: &PlainState) -> u32
    ensures { result ≡ (set_value model.now s.now e.now).0 }
{
    match e {
        SetEx::Var(v) => variable_object(model, *v),
        SetEx::Cell(t, _) => cells_object(model, *t),
        SetEx::Op(_, a, _) => set_object(model, a.get(), s),
        SetEx::Not(a) => set_object(model, a.get(), s),
        SetEx::With(_, a) => set_object(model, a.get(), s),
        SetEx::Without(_, a) => set_object(model, a.get(), s),
        SetEx::If(_, a, _) => set_object(model, a.get(), s),
    }
}

/// How many members that object type has.
pub fn set_count(model: &Model, e: &SetEx, s: &PlainState) -> u32
    ensures { result ≡ count_of model.now (set_value model.now s.now e.now).0 }
{
    count_of(model, set_object(model, e, s))
}
