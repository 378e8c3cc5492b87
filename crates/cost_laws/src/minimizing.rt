//! The laws under which the lesser cost is better.

ghost use Rattle.std.specs.Prelude.{true};
ghost use Rattle.dp_model.specs.declared.parts.JoinOp.TheVariants.{Plus, Most, Least};
ghost use Rattle.cost_laws.specs.Laws.{associative, unit, isotone_before, isotone_after, better_by_word};

use crate::joins::{least, most, plus};
use crate::law::CostLaw;
use crate::words::{BEST_WORD, WORD_OF_ZERO, WORST_WORD, rising};

/// The lesser cost is better, and weights are added.
#[derive(Clone, Copy, Debug, PartialEq, Eq)]
pub struct MinPlus;

impl CostLaw for MinPlus {
    ghost minimize = { true };

    ghost operator = { Plus };

    ghost joins_in_any_order = { associative Plus };

    ghost has_unit = { unit Plus };

    ghost keeps_order_before = { isotone_before true Plus };

    ghost keeps_order_after = { isotone_after true Plus };

    ghost better_by_word = { better_by_word true Plus };

    fn join(a: Option<i64>, b: Option<i64>) -> Option<i64> {
        plus(a, b)
    }

    fn word(a: Option<i64>) -> u64 {
        match a {
            Some(c) => rising(c),
            None => WORD_OF_ZERO,
        }
    }
}

/// The lesser cost is better, and the greatest weight counts.
#[derive(Clone, Copy, Debug, PartialEq, Eq)]
pub struct MinMost;

impl CostLaw for MinMost {
    ghost minimize = { true };

    ghost operator = { Most };

    ghost joins_in_any_order = { associative Most };

    ghost has_unit = { unit Most };

    ghost keeps_order_before = { isotone_before true Most };

    ghost keeps_order_after = { isotone_after true Most };

    ghost better_by_word = { better_by_word true Most };

    fn join(a: Option<i64>, b: Option<i64>) -> Option<i64> {
        most(a, b)
    }

    fn word(a: Option<i64>) -> u64 {
        match a {
            Some(c) => rising(c),
            None => BEST_WORD,
        }
    }
}

/// The lesser cost is better, and the least weight counts.
#[derive(Clone, Copy, Debug, PartialEq, Eq)]
pub struct MinLeast;

impl CostLaw for MinLeast {
    ghost minimize = { true };

    ghost operator = { Least };

    ghost joins_in_any_order = { associative Least };

    ghost has_unit = { unit Least };

    ghost keeps_order_before = { isotone_before true Least };

    ghost keeps_order_after = { isotone_after true Least };

    ghost better_by_word = { better_by_word true Least };

    fn join(a: Option<i64>, b: Option<i64>) -> Option<i64> {
        least(a, b)
    }

    fn word(a: Option<i64>) -> u64 {
        match a {
            Some(c) => rising(c),
            None => WORST_WORD,
        }
    }
}
