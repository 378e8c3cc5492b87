//! The laws under which the greater cost is better.

ghost use Rattle.std.specs.Prelude.{false};
ghost use Rattle.dp_model.specs.declared.parts.JoinOp.TheVariants.{Plus, Most, Least};
ghost use Rattle.cost_laws.specs.Laws.{associative, unit, isotone_before, isotone_after, better_by_word};

use crate::joins::{least, most, plus};
use crate::law::CostLaw;
use crate::words::{BEST_WORD, WORD_OF_ZERO, WORST_WORD, falling};

/// The greater cost is better, and weights are added.
#[derive(Clone, Copy, Debug, PartialEq, Eq)]
pub struct MaxPlus;

impl CostLaw for MaxPlus {
    ghost minimize = { false };

    ghost operator = { Plus };

    ghost joins_in_any_order = { associative Plus };

    ghost has_unit = { unit Plus };

    ghost keeps_order_before = { isotone_before false Plus };

    ghost keeps_order_after = { isotone_after false Plus };

    ghost better_by_word = { better_by_word false Plus };

    fn join(a: Option<i64>, b: Option<i64>) -> Option<i64> {
        plus(a, b)
    }

    fn word(a: Option<i64>) -> u64 {
        match a {
            Some(c) => falling(c),
            None => WORD_OF_ZERO,
        }
    }
}

/// The greater cost is better, and the greatest weight counts.
#[derive(Clone, Copy, Debug, PartialEq, Eq)]
pub struct MaxMost;

impl CostLaw for MaxMost {
    ghost minimize = { false };

    ghost operator = { Most };

    ghost joins_in_any_order = { associative Most };

    ghost has_unit = { unit Most };

    ghost keeps_order_before = { isotone_before false Most };

    ghost keeps_order_after = { isotone_after false Most };

    ghost better_by_word = { better_by_word false Most };

    fn join(a: Option<i64>, b: Option<i64>) -> Option<i64> {
        most(a, b)
    }

    fn word(a: Option<i64>) -> u64 {
        match a {
            Some(c) => falling(c),
            None => WORST_WORD,
        }
    }
}

/// The greater cost is better, and the least weight counts.
#[derive(Clone, Copy, Debug, PartialEq, Eq)]
pub struct MaxLeast;

impl CostLaw for MaxLeast {
    ghost minimize = { false };

    ghost operator = { Least };

    ghost joins_in_any_order = { associative Least };

    ghost has_unit = { unit Least };

    ghost keeps_order_before = { isotone_before false Least };

    ghost keeps_order_after = { isotone_after false Least };

    ghost better_by_word = { better_by_word false Least };

    fn join(a: Option<i64>, b: Option<i64>) -> Option<i64> {
        least(a, b)
    }

    fn word(a: Option<i64>) -> u64 {
        match a {
            Some(c) => falling(c),
            None => BEST_WORD,
        }
    }
}
