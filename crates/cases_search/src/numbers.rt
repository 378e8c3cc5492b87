//! The numbers that stand behind a command's word.

ghost use Rattle.std.specs.Prelude.{IfSome, ◌≤◌};
ghost use Rattle.dp_model.specs.Costs.{InRange};
ghost use Rattle.cost_laws.specs.Orders.{InWideRange};

/// The greatest number of a model: 2^62 - 1.
const GREATEST: i64 = 4_611_686_018_427_387_903;

/// The greatest number that has an order word: 2^63 - 2.
const WIDEST: i64 = i64::MAX - 1;

/// A cost so far. Any word but a number in the range of models is none.
pub(crate) fn cost_of(word: &str) -> Option<i64>
    ensures { IfSome result InRange }
{
    let cost = word.parse::<i64>().ok()?;
    if -GREATEST <= cost && cost <= GREATEST {
        Some(cost)
    } else {
        None
    }
}

/// A number with an order word. Any word but such a number is none.
pub(crate) fn floor_of(word: &str) -> Option<i64>
    ensures { IfSome result InWideRange }
{
    let floor = word.parse::<i64>().ok()?;
    if -WIDEST <= floor && floor <= WIDEST {
        Some(floor)
    } else {
        None
    }
}

/// Costs in no order, a different one for each index.
pub(crate) fn scattered(index: u32) -> Option<i64>
    ensures { IfSome result InRange }
{
    let cost = i64::from(index.wrapping_mul(2_654_435_761));
    if cost <= GREATEST { Some(cost) } else { None }
}

/// How many shards there are, at least 1. Any word but such a number is 1.
pub(crate) fn count_of(word: &str) -> u32
    ensures { 1 ≤ result }
{
    match word.parse::<u32>() {
        Ok(count) if count >= 1 => count,
        _ => 1,
    }
}

/// The first of two words, which stand with a space between them, and the other.
pub(crate) fn two_words(text: &str) -> (&str, &str) {
    text.split_once(' ').unwrap_or((text, ""))
}
