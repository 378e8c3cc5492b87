//! Sums that are at least 0.

ghost use Rattle.std.specs.Prelude.{◌≡◌, ℕ, ℤ, IfOk, IsTrue};
ghost use Rattle.poly_terms.specs.Fits.{IsNeverNegative};

use crate::sides::by_all_sides;
use poly_rules::at_least_zero;
use poly_terms::{Atom, Term};
use std::alloc::{AllocError, Global};

/// How deep the rules go that know nothing of quotients.
const DEPTH: u32 = 8;

/// How many greater and lesser numbers are taken apart one after the other.
const SIDES: u32 = 4;

/// Whether a sum is at least 0, whatever its atoms are. `false` says that it is not shown.
pub fn never_negative(alloc: Global, table: &[Atom], terms: &[Term]) -> Result<bool, AllocError>
    ensures { IfOk result (λ shown. IsTrue shown → IsNeverNegative table.now terms.now) }
{
    if at_least_zero(alloc, table, terms, DEPTH)? {
        Ok(true)
    } else {
        by_all_sides(alloc, table, terms, SIDES)
    }
}
