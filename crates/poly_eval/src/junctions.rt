//! How two bits are joined.

ghost use Rattle.std.specs.Prelude.{◌≡◌, ℕ, Bool, ℤ, IfOk};
ghost use Rattle.poly_terms.specs.Worth.{worth, as_bit};
ghost use Rattle.poly_terms.specs.Fits.{Fits};
ghost use Rattle.poly_eval.specs.Bits.{joined_by};

use crate::operations::{combined, product};
use crate::untold::Untold;
use poly_terms::{Atom, Term};
use std::alloc::Global;

/// How two truth values are joined.
#[derive(Clone, Copy, Debug, PartialEq, Eq)]
pub enum Junction {
    Both,
    Either,
    /// The first holds, and the second does not.
    OnlyFirst,
    /// One holds, and the other does not.
    Unlike,
}

/// The bit of two joined ones.
pub fn joined(
    alloc: Global,
    table: &[Atom],
    op: Junction,
    a: &[Term],
    b: &[Term],
) -> Result<Vec<Term>, Untold>
    ensures { IfOk result (λ p. (v : ℕ → ℤ) (x y : Bool) → Fits table.now v → as_bit x ≡ worth v a.now → as_bit y ≡ worth v b.now → as_bit (joined_by op x y) ≡ worth v p.items) }
{
    let product = product(alloc, table, a, b)?;
    match op {
        Junction::Both => Ok(product),
        Junction::Either => {
            let sum = combined(alloc, a, 1, b)?;
            combined(alloc, &sum, -1, &product)
        }
        Junction::OnlyFirst => combined(alloc, a, -1, &product),
        Junction::Unlike => {
            let sum = combined(alloc, a, 1, b)?;
            combined(alloc, &sum, -2, &product)
        }
    }
}
