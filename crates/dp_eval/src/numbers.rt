//! Numbers: the range of results, operations, comparisons, and numbers as members of an object type.

ghost use Rattle.std.specs.Prelude.{◌≡◌, ◌≢◌, pos, ◌*ℤ◌, int_rem};
ghost use Rattle.dp_model.specs.Costs.{ranged};
ghost use Rattle.dp_model.specs.Evaluation.{operate, compares, member_of};

use dp_model::{Compare, FaultKind, NumOp};

/// Every number of a model lies between the negative of this one and it.
const GREATEST: i128 = 4_611_686_018_427_387_903;

/// The number, if it is in range.
pub fn ranged(n: i128) -> Result<i64, FaultKind>
    ensures { result ≡ ranged n }
{
    if -GREATEST <= n && n <= GREATEST {
        Ok(n as i64)
    } else {
        Err(FaultKind::Range)
    }
}

/// The quotient, rounded toward zero.
fn divided(a: i64, b: i64) -> Result<i64, FaultKind>
    ensures { result ≡ operate NumOp.Over a b }
{
    if b == 0 {
        return Err(FaultKind::ZeroDivisor);
    }
    ranged(i128::from(a) / i128::from(b))
}

/// What the division leaves, with the dividend's sign.
fn rest(a: i64, b: i64) -> i128
    requires { b ≢ pos 0 }
    ensures { result ≡ int_rem a b }
{
    i128::from(a) % i128::from(b)
}

/// What a division leaves, whose divisor is tested.
fn rest_of(a: i64, b: i64) -> Result<i64, FaultKind>
    ensures { result ≡ operate NumOp.Rest a b }
{
    if b == 0 {
        return Err(FaultKind::ZeroDivisor);
    }
    ranged(rest(a, b))
}

fn product(a: i64, b: i64) -> i128
    ensures { result ≡ a *ℤ b }
{
    i128::from(a) * i128::from(b)
}

/// An operation, whose result is tested.
pub fn operate(op: NumOp, a: i64, b: i64) -> Result<i64, FaultKind>
    ensures { result ≡ operate op a b }
{
    match op {
        NumOp::Plus => ranged(i128::from(a) + i128::from(b)),
        NumOp::Minus => ranged(i128::from(a) - i128::from(b)),
        NumOp::Times => ranged(product(a, b)),
        NumOp::Over => divided(a, b),
        NumOp::Rest => rest_of(a, b),
        NumOp::Most => Ok(a.max(b)),
        NumOp::Least => Ok(a.min(b)),
    }
}

/// Whether two numbers compare so.
pub fn compares(op: Compare, a: i64, b: i64) -> bool
    ensures { result ≡ compares op a b }
{
    match op {
        Compare::Same => a == b,
        Compare::Other => a != b,
        Compare::Less => a < b,
        Compare::AtMost => a <= b,
        Compare::More => a > b,
        Compare::AtLeast => a >= b,
    }
}

/// A number as a member of an object type with this count.
pub fn member_of(count: u32, n: i64) -> Result<u32, FaultKind>
    ensures { result ≡ member_of count n }
{
    if n < 0 {
        return Err(FaultKind::Negative);
    }
    if n >= i64::from(count) {
        return Err(FaultKind::Index);
    }
    Ok(n as u32)
}
