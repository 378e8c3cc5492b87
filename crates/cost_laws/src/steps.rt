//! Joins of several costs, under any law.

ghost use Rattle.std.specs.Prelude.{◌≡◌, IfSome};
ghost use Rattle.dp_model.specs.Costs.{InRange, join as joined};

use crate::law::CostLaw;

/// Joins a cost so far with two weights, one after the other. It is the same as joining it with the join of both.
pub fn join_in_turn<L: CostLaw>(
    cost: Option<i64>,
    first: Option<i64>,
    second: Option<i64>,
) -> Option<i64>
    requires cost { IfSome cost InRange }
    requires first { IfSome first InRange }
    requires second { IfSome second InRange }
    requires between { IfSome (joined L.operator cost first) InRange }
    ensures in_turn { result ≡ joined L.operator (joined L.operator cost first) second }
    ensures at_once { result ≡ joined L.operator cost (joined L.operator first second) }
{
    L::join(L::join(cost, first), second)
}
