//! Rows of bits: one for each member of an object type.

ghost use Rattle.std.specs.Prelude.{◌≡◌, ◌≤◌, ℕ, Bool, ℤ, pos, not, length, if◌then◌else◌, IfOk, IfSome, ◌<◌, true, ◌&&◌, ◌||◌};
ghost use Rattle.dp_model.specs.Evaluation.{has};
ghost use Rattle.poly_terms.specs.Worth.{worth, as_bit};
ghost use Rattle.poly_terms.specs.Fits.{Fits};
ghost use Rattle.poly_eval.specs.Shows.{Extends};
ghost use Rattle.poly_eval.specs.Bits.{Tells, joined_by, many_of, none_of};

use crate::bits::{at_most_zero, chosen, negated, truth};
use crate::junctions::{Junction, joined};
use crate::operations::same_sum;
use crate::untold::Untold;
use dp_base::Seq;
use poly_terms::{Atom, Term, add_times, constant};
use std::alloc::Global;

/// A conjunction is multiplied out where that takes no more terms than this.
const SHORT: usize = 4;

/// The same row once more.
pub fn same_row(alloc: Global, row: &[Seq<Term>]) -> Result<Vec<Seq<Term>>, Untold>
    ensures many { IfOk result (λ same. length same.items ≡ length row.now) }
    ensures bits { IfOk result (λ same. (v : ℕ → ℤ) (f : ℕ → Bool) → Tells v row.now f → Tells v same.items f) }
{
    let mut same = Vec::new(alloc);
    for bit in row {
        same.push(Seq::of(same_sum(alloc, bit.list())?))?;
    }
    Ok(same)
}

/// The bits of what does not hold.
pub fn complements(alloc: Global, row: &[Seq<Term>]) -> Result<Vec<Seq<Term>>, Untold>
    ensures many { IfOk result (λ others. length others.items ≡ length row.now) }
    ensures bits { IfOk result (λ others. (v : ℕ → ℤ) (f : ℕ → Bool) → Tells v row.now f → Tells v others.items (λ j. not (f j))) }
{
    let mut others = Vec::new(alloc);
    for bit in row {
        others.push(Seq::of(negated(alloc, bit.list())?))?;
    }
    Ok(others)
}

/// Two rows of one length, joined place by place.
pub fn joined_rows(
    alloc: Global,
    table: &[Atom],
    op: Junction,
    a: &[Seq<Term>],
    b: &[Seq<Term>],
) -> Result<Vec<Seq<Term>>, Untold>
    ensures many { IfOk result (λ row. (length a.now ≡ length b.now) × (length row.items ≡ length a.now)) }
    ensures bits { IfOk result (λ row. (v : ℕ → ℤ) (f g : ℕ → Bool) → Fits table.now v → Tells v a.now f → Tells v b.now g → Tells v row.items (λ j. joined_by op (f j) (g j))) }
{
    if a.len() != b.len() {
        return Err(Untold::Form);
    }
    let mut row = Vec::new(alloc);
    for i in 0..a.len() {
        row.push(Seq::of(joined(alloc, table, op, a[i].list(), b[i].list())?))?;
    }
    Ok(row)
}

/// Of two rows of one length the one that a condition chooses.
pub fn chosen_row(
    alloc: Global,
    table: &[Atom],
    c: &[Term],
    a: &[Seq<Term>],
    b: &[Seq<Term>],
) -> Result<Vec<Seq<Term>>, Untold>
    ensures many { IfOk result (λ row. (length a.now ≡ length b.now) × (length row.items ≡ length a.now)) }
    ensures bits { IfOk result (λ row. (v : ℕ → ℤ) (held : Bool) (f g : ℕ → Bool) → Fits table.now v → as_bit held ≡ worth v c.now → Tells v a.now f → Tells v b.now g → Tells v row.items (λ j. if held then f j else g j)) }
{
    if a.len() != b.len() {
        return Err(Untold::Form);
    }
    let mut row = Vec::new(alloc);
    for i in 0..a.len() {
        row.push(Seq::of(chosen(alloc, table, c, a[i].list(), b[i].list())?))?;
    }
    Ok(row)
}

fn contains(set: &[u32], member: u32) -> bool
    ensures { result ≡ has set.now member }
{
    set.iter().any(|k| *k == member)
}

/// The bits of a set that is known, among so many members.
pub fn row_of(alloc: Global, set: &[u32], count: u32) -> Result<Vec<Seq<Term>>, Untold>
    ensures many { IfOk result (λ row. length row.items ≡ count) }
    ensures bits { IfOk result (λ row. (v : ℕ → ℤ) → Tells v row.items (has set.now)) }
{
    let mut row = Vec::new(alloc);
    for k in 0..count {
        row.push(Seq::of(truth(alloc, contains(set, k))?))?;
    }
    Ok(row)
}

/// So many bits that are 1.
pub fn full_row(alloc: Global, count: u32) -> Result<Vec<Seq<Term>>, Untold>
    ensures many { IfOk result (λ row. length row.items ≡ count) }
    ensures bits { IfOk result (λ row. (v : ℕ → ℤ) → Tells v row.items (λ j. true)) }
{
    let empty = row_of(alloc, &[], count)?;
    complements(alloc, &empty)
}

/// At how many places of a row the bits are 1.
pub fn total(alloc: Global, row: &[Seq<Term>]) -> Result<Vec<Term>, Untold>
    ensures { IfOk result (λ sum. (v : ℕ → ℤ) (f : ℕ → Bool) → Tells v row.now f → worth v sum.items ≡ pos (many_of (length row.now) f)) }
{
    let mut sum = Vec::new(alloc);
    for bit in row {
        if !add_times(&mut sum, 1, bit.list())? {
            return Err(Untold::Form);
        }
    }
    Ok(sum)
}

/// A bit that is 1 where another one is and this one is not.
fn without_bit(
    alloc: Global,
    table: &[Atom],
    all: &[Term],
    bit: &[Term],
) -> Result<Vec<Term>, Untold>
    ensures { IfOk result (λ p. (v : ℕ → ℤ) (x y : Bool) → Fits table.now v → as_bit x ≡ worth v all.now → as_bit y ≡ worth v bit.now → as_bit (x && not y) ≡ worth v p.items) }
{
    joined(alloc, table, Junction::OnlyFirst, all, bit)
}

/// The bit of a row without any 1, multiplied out, if that takes few terms.
fn short_product(
    alloc: Global,
    table: &[Atom],
    row: &[Seq<Term>],
) -> Result<Option<Vec<Term>>, Untold>
    ensures { IfOk result (λ answer. IfSome answer (λ p. (v : ℕ → ℤ) (f : ℕ → Bool) → Fits table.now v → Tells v row.now f → as_bit (none_of (length row.now) f) ≡ worth v p.items)) }
{
    let mut all = constant(alloc, 1)?;
    for bit in row {
        all = without_bit(alloc, table, &all, bit.list())?;
        if all.len() > SHORT {
            return Ok(None);
        }
    }
    Ok(Some(all))
}

/// The bit of a row without any 1: a product of few terms, or else a comparison, since then the sum of the row is at most 0.
pub fn none_in(alloc: Global, table: &mut Vec<Atom>, row: &[Seq<Term>]) -> Result<Vec<Term>, Untold>
    ensures value { IfOk result (λ p. (v : ℕ → ℤ) (f : ℕ → Bool) → Fits table.new.items v → Tells v row.now f → as_bit (none_of (length row.now) f) ≡ worth v p.items) }
    ensures grows { Extends table.old.items table.new.items }
{
    if let Some(all) = short_product(alloc, table, row)? {
        return Ok(all);
    }
    let sum = total(alloc, row)?;
    at_most_zero(alloc, table, sum)
}

/// The bit of two conditions of which both hold.
pub fn both(
    alloc: Global,
    table: &mut Vec<Atom>,
    x: Vec<Term>,
    y: Vec<Term>,
) -> Result<Vec<Term>, Untold>
    ensures value { IfOk result (λ p. (v : ℕ → ℤ) (a b : Bool) → Fits table.new.items v → as_bit a ≡ worth v x.items → as_bit b ≡ worth v y.items → as_bit (a && b) ≡ worth v p.items) }
    ensures grows { Extends table.old.items table.new.items }
{
    let row = [Seq::of(negated(alloc, &x)?), Seq::of(negated(alloc, &y)?)];
    none_in(alloc, table, &row)
}

/// The bit of two conditions of which one holds at least.
pub fn either(
    alloc: Global,
    table: &mut Vec<Atom>,
    x: Vec<Term>,
    y: Vec<Term>,
) -> Result<Vec<Term>, Untold>
    ensures value { IfOk result (λ p. (v : ℕ → ℤ) (a b : Bool) → Fits table.new.items v → as_bit a ≡ worth v x.items → as_bit b ≡ worth v y.items → as_bit (a || b) ≡ worth v p.items) }
    ensures grows { Extends table.old.items table.new.items }
{
    let neither = none_in(alloc, table, &[Seq::of(x), Seq::of(y)])?;
    negated(alloc, &neither)
}
