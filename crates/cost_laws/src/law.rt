//! What a law of costs promises.

ghost use Rattle.std.specs.Prelude.{◌≡◌, ◌<◌, ◌↔◌, IsTrue, IfSome, Some, Option, Bool, ℤ, pos, ◌<ℤ◌};
ghost use Rattle.dp_model.specs.Costs.{InRange, IsBetter, join as joined, order_word};
ghost use Rattle.dp_model.specs.declared.parts.JoinOp.{JoinOp};
ghost use Rattle.cost_laws.specs.Orders.{InWideRange, IsAssociative, HasUnit, IsIsotoneBefore, IsIsotoneAfter, IsBetterByWord};

use crate::words::NO_INCUMBENT;

/// A law of costs. A cost so far is a number, or `None` where no weight was joined yet.
pub trait CostLaw {
    /// Whether the lesser of two costs is better.
    ghost minimize: { Bool };

    /// How costs are joined.
    ghost operator: { JoinOp };

    /// Joins a cost so far with a weight. `None` is the unit.
    fn join(a: Option<i64>, b: Option<i64>) -> Option<i64>
        requires left { IfSome a InRange }
        requires right { IfSome b InRange }
        ensures { result ≡ joined operator a b };

    /// The order word of a cost so far: the lesser is better. `2^63 + c` for a number where the lesser cost is better, and
    /// else `2^63 - c`; `None` has the word of 0 under `+`, and else the best word or the worst, as the operator's unit has.
    fn word(a: Option<i64>) -> u64
        requires { IfSome a InWideRange }
        ensures word { pos result ≡ order_word minimize operator a }
        ensures below { result < NO_INCUMBENT };

    /// Whether a cost is strictly better than another.
    fn better(a: i64, b: i64) -> bool
        requires left { InWideRange a }
        requires right { InWideRange b }
        ensures cost { IsTrue result ↔ IsBetter minimize a b }
        ensures words { IsTrue result ↔ (order_word minimize operator (Some a) <ℤ order_word minimize operator (Some b)) }
    {
        Self::word(Some(a)) < Self::word(Some(b))
    }

    /// Costs are joined in any order.
    ghost joins_in_any_order: { IsAssociative operator };

    /// `None` is the unit.
    ghost has_unit: { HasUnit operator };

    /// A cost that is no worse stays so with a weight joined onto it.
    ghost keeps_order_before: { IsIsotoneBefore minimize operator };

    /// A weight that is no worse leads to a cost that is no worse.
    ghost keeps_order_after: { IsIsotoneAfter minimize operator };

    /// The better of two costs has the lesser word.
    ghost better_by_word: { IsBetterByWord minimize operator };
}
