//! Order words: the lesser is better.

ghost use Rattle.std.specs.Prelude.{◌≡◌, ◌<◌, pos, ◌+ℤ◌, ◌-ℤ◌};
ghost use Rattle.cost_laws.specs.Orders.{InWideRange};

/// Stands for no incumbent: it is above the order word of every cost.
pub const NO_INCUMBENT: u64 = u64::MAX;

pub(crate) const WORD_OF_ZERO: u64 = 1 << 63;

pub(crate) const BEST_WORD: u64 = 0;

pub(crate) const WORST_WORD: u64 = NO_INCUMBENT - 1;

// 2^63 + c
pub(crate) fn rising(c: i64) -> u64
    requires { InWideRange c }
    ensures word { pos result ≡ pos 9223372036854775808 +ℤ c }
    ensures below { result < NO_INCUMBENT }
{
    (i128::from(WORD_OF_ZERO) + i128::from(c)) as u64
}

// 2^63 - c
pub(crate) fn falling(c: i64) -> u64
    requires { InWideRange c }
    ensures word { pos result ≡ pos 9223372036854775808 -ℤ c }
    ensures below { result < NO_INCUMBENT }
{
    (i128::from(WORD_OF_ZERO) - i128::from(c)) as u64
}
