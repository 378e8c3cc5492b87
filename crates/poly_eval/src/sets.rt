//! Sets as rows of bits.

ghost use Rattle.std.specs.Prelude.{◌≡◌, ◌<◌, ℕ, ℤ, pos, List, length, not, ◌&&◌, ◌||◌, ◌==◌, Bool, if◌then◌else◌, IfOk, IfSome, IsTrue, ◌∷◌, []};
ghost use Rattle.std.specs.List.{list_all};
ghost use Rattle.std.specs.Str.{bytes_eq};
ghost use Rattle.dp_model.specs.Typing.{is_set_below};
ghost use Rattle.dp_model.specs.Evaluation.{has, members_where, set_operation};
ghost use Rattle.poly_terms.specs.Worth.{worth, as_bit};
ghost use Rattle.poly_terms.specs.Fits.{Fits};
ghost use Rattle.wide_values.specs.Wide.{wide_member};
ghost use Rattle.poly_eval.specs.Shows.{AreBits, Extends};
ghost use Rattle.poly_eval.specs.Bits.{Tells, joined_by};

use crate::bits::negated;
use crate::junctions::Junction;
use crate::operations::{constant_of, same_sum};
use crate::rows::{chosen_row, complements, joined_rows, none_in, row_of, total};
use crate::untold::Untold;
use dp_base::Seq;
use dp_model::SetOp;
use poly_terms::{Atom, Term};
use std::alloc::Global;

/// The member that a sum is without any atom.
pub fn member_of(p: &[Term], count: usize) -> Option<u32>
    ensures { IfSome result (λ k. (k < count) × ((v : ℕ → ℤ) → worth v p.now ≡ pos k)) }
{
    let member = u32::try_from(constant_of(p)?).ok()?;
    if (member as usize) < count {
        Some(member)
    } else {
        None
    }
}

/// How many members a set has.
pub fn size_of(alloc: Global, row: Vec<Seq<Term>>) -> Result<Vec<Term>, Untold>
    ensures { IfOk result (λ p. (v : ℕ → ℤ) (a : List ℕ) → AreBits v row.items a → pos (length a) ≡ worth v p.items) }
{
    total(alloc, &row)
}

/// The bit of a set without members.
pub fn is_empty(
    alloc: Global,
    table: &mut Vec<Atom>,
    row: Vec<Seq<Term>>,
) -> Result<Vec<Term>, Untold>
    ensures value { IfOk result (λ p. (v : ℕ → ℤ) (a : List ℕ) → Fits table.new.items v → AreBits v row.items a → as_bit (length a == 0) ≡ worth v p.items) }
    ensures grows { Extends table.old.items table.new.items }
{
    none_in(alloc, table, &row)
}

/// The bit of a number that is a member of a set.
pub fn is_in(alloc: Global, x: Vec<Term>, row: Vec<Seq<Term>>) -> Result<Vec<Term>, Untold>
    ensures { IfOk result (λ p. (v : ℕ → ℤ) (z : ℤ) (a : List ℕ) → z ≡ worth v x.items → AreBits v row.items a → as_bit (has a (wide_member z)) ≡ worth v p.items) }
{
    let member = member_of(&x, row.len()).ok_or(Untold::Form)?;
    same_sum(alloc, row[member as usize].list())
}

/// The bit of a set whose members are all in another one.
pub fn is_within(
    alloc: Global,
    table: &mut Vec<Atom>,
    x: Vec<Seq<Term>>,
    y: Vec<Seq<Term>>,
) -> Result<Vec<Term>, Untold>
    ensures value { IfOk result (λ p. (v : ℕ → ℤ) (a b : List ℕ) → Fits table.new.items v → AreBits v x.items a → AreBits v y.items b → as_bit (list_all (has b) a) ≡ worth v p.items) }
    ensures grows { Extends table.old.items table.new.items }
{
    let row = joined_rows(alloc, table, Junction::OnlyFirst, &x, &y)?;
    none_in(alloc, table, &row)
}

/// The bit of two sets with the same members.
pub fn is_same(
    alloc: Global,
    table: &mut Vec<Atom>,
    x: Vec<Seq<Term>>,
    y: Vec<Seq<Term>>,
) -> Result<Vec<Term>, Untold>
    ensures value { IfOk result (λ p. (v : ℕ → ℤ) (a b : List ℕ) → Fits table.new.items v → AreBits v x.items a → AreBits v y.items b → as_bit (bytes_eq a b) ≡ worth v p.items) }
    ensures grows { Extends table.old.items table.new.items }
{
    let row = joined_rows(alloc, table, Junction::Unlike, &x, &y)?;
    none_in(alloc, table, &row)
}

/// The bit of two sets with other members.
pub fn is_other(
    alloc: Global,
    table: &mut Vec<Atom>,
    x: Vec<Seq<Term>>,
    y: Vec<Seq<Term>>,
) -> Result<Vec<Term>, Untold>
    ensures value { IfOk result (λ p. (v : ℕ → ℤ) (a b : List ℕ) → Fits table.new.items v → AreBits v x.items a → AreBits v y.items b → as_bit (not (bytes_eq a b)) ≡ worth v p.items) }
    ensures grows { Extends table.old.items table.new.items }
{
    let same = is_same(alloc, table, x, y)?;
    negated(alloc, &same)
}

/// How the bits of a set operation are joined.
fn junction_of(op: SetOp) -> Junction
    ensures { (count : ℕ) (a b : List ℕ) → set_operation op count a b ≡ members_where count (λ j. joined_by result (has a j) (has b j)) }
{
    match op {
        SetOp::Union => Junction::Either,
        SetOp::Intersection => Junction::Both,
        SetOp::Difference => Junction::OnlyFirst,
    }
}

/// A set operation.
pub fn operated_set(
    alloc: Global,
    table: &[Atom],
    op: SetOp,
    x: Vec<Seq<Term>>,
    y: Vec<Seq<Term>>,
) -> Result<Vec<Seq<Term>>, Untold>
    ensures many { IfOk result (λ row. length row.items ≡ length x.items) }
    ensures bits { IfOk result (λ row. (v : ℕ → ℤ) (a b : List ℕ) → Fits table.now v → AreBits v x.items a → AreBits v y.items b → AreBits v row.items (set_operation op (length x.items) a b)) }
{
    joined_rows(alloc, table, junction_of(op), &x, &y)
}

/// The members of an object type that a set lacks.
pub fn complement(alloc: Global, x: Vec<Seq<Term>>) -> Result<Vec<Seq<Term>>, Untold>
    ensures many { IfOk result (λ row. length row.items ≡ length x.items) }
    ensures bits { IfOk result (λ row. (v : ℕ → ℤ) (a : List ℕ) → AreBits v x.items a → AreBits v row.items (members_where (length x.items) (λ k. not (has a k)))) }
{
    complements(alloc, &x)
}

/// The row of one member, which a sum is without any atom.
pub fn single(alloc: Global, x: Vec<Term>, count: usize) -> Result<Vec<Seq<Term>>, Untold>
    ensures many { IfOk result (λ row. length row.items ≡ count) }
    ensures bits { IfOk result (λ row. (v : ℕ → ℤ) (z : ℤ) → z ≡ worth v x.items → Tells v row.items (λ j. j == wide_member z)) }
{
    let member = member_of(&x, count).ok_or(Untold::Form)?;
    let many = u32::try_from(count).map_err(|_| Untold::Form)?;
    row_of(alloc, &[member], many)
}

/// A set with one more member.
pub fn with_member(
    alloc: Global,
    table: &[Atom],
    x: Vec<Term>,
    y: Vec<Seq<Term>>,
) -> Result<Vec<Seq<Term>>, Untold>
    ensures many { IfOk result (λ row. length row.items ≡ length y.items) }
    ensures bits { IfOk result (λ row. (v : ℕ → ℤ) (z : ℤ) (a : List ℕ) → Fits table.now v → z ≡ worth v x.items → AreBits v y.items a → AreBits v row.items (members_where (length y.items) (λ k. k == wide_member z || has a k))) }
{
    let one = single(alloc, x, y.len())?;
    joined_rows(alloc, table, Junction::Either, &one, &y)
}

/// A set without a member.
pub fn without_member(
    alloc: Global,
    table: &[Atom],
    x: Vec<Term>,
    y: Vec<Seq<Term>>,
) -> Result<Vec<Seq<Term>>, Untold>
    ensures many { IfOk result (λ row. length row.items ≡ length y.items) }
    ensures bits { IfOk result (λ row. (v : ℕ → ℤ) (z : ℤ) (a : List ℕ) → Fits table.now v → z ≡ worth v x.items → AreBits v y.items a → AreBits v row.items (members_where (length y.items) (λ k. not (k == wide_member z) && has a k))) }
{
    let one = single(alloc, x, y.len())?;
    let others = complements(alloc, &one)?;
    joined_rows(alloc, table, Junction::Both, &others, &y)
}

/// Of two sets the one that a condition chooses.
pub fn chosen_set(
    alloc: Global,
    table: &[Atom],
    c: Vec<Term>,
    x: Vec<Seq<Term>>,
    y: Vec<Seq<Term>>,
) -> Result<Vec<Seq<Term>>, Untold>
    ensures many { IfOk result (λ row. length row.items ≡ length x.items) }
    ensures bits { IfOk result (λ row. (v : ℕ → ℤ) (held : Bool) (a b : List ℕ) → Fits table.now v → as_bit held ≡ worth v c.items → AreBits v x.items a → AreBits v y.items b → AreBits v row.items (if held then a else b)) }
{
    chosen_row(alloc, table, &c, &x, &y)
}

/// The row of one member, which a sum is without any atom, as a set.
pub fn single_set(alloc: Global, x: Vec<Term>, count: u32) -> Result<Vec<Seq<Term>>, Untold>
    ensures { IfOk result (λ row. (v : ℕ → ℤ) (z : ℤ) → z ≡ worth v x.items → AreBits v row.items (wide_member z ∷ [])) }
{
    let member = member_of(&x, count as usize).ok_or(Untold::Form)?;
    row_of(alloc, &[member], count)
}

/// The bit of a row that says where a condition does not hold of a member of a set.
pub fn no_failure(
    alloc: Global,
    table: &mut Vec<Atom>,
    row: Vec<Seq<Term>>,
) -> Result<Vec<Term>, Untold>
    ensures value { IfOk result (λ p. (v : ℕ → ℤ) (a : List ℕ) (g : ℕ → Bool) → Fits table.new.items v → IsTrue (is_set_below (length row.items) a) → Tells v row.items (λ j. has a j && not (g j)) → as_bit (list_all g a) ≡ worth v p.items) }
    ensures grows { Extends table.old.items table.new.items }
{
    none_in(alloc, table, &row)
}
