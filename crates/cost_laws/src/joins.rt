//! What each operator does to two costs. `None` is the unit.

ghost use Rattle.std.specs.Prelude.{◌≡◌, IfSome};
ghost use Rattle.dp_model.specs.Costs.{InRange, join as joined};
ghost use Rattle.dp_model.specs.declared.parts.JoinOp.TheVariants.{Plus, Most, Least};

pub(crate) fn plus(a: Option<i64>, b: Option<i64>) -> Option<i64>
    requires left { IfSome a InRange }
    requires right { IfSome b InRange }
    ensures { result ≡ joined Plus a b }
{
    match (a, b) {
        (Some(x), Some(y)) => Some(x + y),
        (Some(x), None) => Some(x),
        (None, y) => y,
    }
}

pub(crate) fn most(a: Option<i64>, b: Option<i64>) -> Option<i64>
    ensures { result ≡ joined Most a b }
{
    match (a, b) {
        (Some(x), Some(y)) => Some(x.max(y)),
        (Some(x), None) => Some(x),
        (None, y) => y,
    }
}

pub(crate) fn least(a: Option<i64>, b: Option<i64>) -> Option<i64>
    ensures { result ≡ joined Least a b }
{
    match (a, b) {
        (Some(x), Some(y)) => Some(x.min(y)),
        (Some(x), None) => Some(x),
        (None, y) => y,
    }
}
