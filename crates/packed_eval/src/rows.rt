//! Comparisons along a row of a table, as the members of a `forall` see them: what is the same for each member is found
//! once, and of each member only its cell is read.

ghost use Rattle.std.specs.Prelude.{◌≡◌, ℕ, ◌+◌, ◌++◌, ◌∷◌, [], Ok, pos, length, ◌+ℤ◌, IfSome, IsTrue};
ghost use Rattle.std.specs.Result.{result_ok};
ghost use Rattle.dp_model.specs.Costs.{ranged};
ghost use Rattle.dp_model.specs.Evaluation.{num_value, cond_value, each_holds};
ghost use Rattle.state_layout.specs.Packing.{state_in};
ghost use Rattle.eval_room.specs.Fits.{num_fits, cond_fits, all_fit};
ghost use Rattle.bit_sets.specs.Sets.{members_of};
ghost use Rattle.packed_words.specs.Ranges.{range_members, IsRange};
ghost use Rattle.packed_words.specs.Sets.{one_word};
ghost use Rattle.packed_eval.specs.Rows.{sum_at, side_at, met_by, all_met, IsSideOf, IsSumOf, AreSidesOf, IsAlone, HasCells, IsRowOf, IsPart};

use dp_base::Seq;
use dp_model::{Compare, Cond, Num, NumOp};
use packed_words::{
    Range, Scene, compares, counts, lowest, member_of, next_of, number_in, numbers_in, parameter,
    without_lowest,
};

/// Every number of a model lies between the negative of this one and it.
const GREATEST: i64 = 4_611_686_018_427_387_903;

/// One side of a comparison.
#[derive(Clone, Copy)]
pub enum Side<'a> {
    /// A number that is the same for each member.
    Alone(i64),
    /// The sum of such a number and the cell of a row that the member names.
    Along(i64, &'a [i64]),
}

/// A comparison of two sides.
#[derive(Clone, Copy)]
pub struct Sides<'a> {
    pub op: Compare,
    pub left: Side<'a>,
    pub right: Side<'a>,
}

/// Whether a condition holds with each of these members as one more parameter, up to the first where it does not. `None`
/// stands for a condition of another form, for a row that has no cell for a member, and for a sum out of range.
#[inline(always)]
pub fn held_along(at: &Scene<'_>, range: Range, c: &Cond) -> Option<bool>
    requires words { IsRange at.now.model.now range }
    requires fits { (room : ℕ) × IsTrue (cond_fits at.now.model.now c.now (length at.now.args.now + 1) room) }
    ensures { IfSome result (λ held. each_holds
        (λ k. cond_value at.now.model.now (state_in at.now.words.now) c.now (at.now.args.now ++ k ∷ []))
        (range_members (state_in at.now.words.now) range) ≡ Ok held) }
{
    let sides = sides_of(at, c)?;
    all_met(at, range, &sides)
}

/// The sides of a comparison in which the member is one more parameter. `None` stands for a condition or a side of another
/// form, and for a row that its table does not have whole.
#[inline(always)]
fn sides_of<'a>(at: &Scene<'a>, c: &Cond) -> Option<Sides<'a>>
    requires { (room : ℕ) × IsTrue (cond_fits at.now.model.now c.now (length at.now.args.now + 1) room) }
    ensures { IfSome result (λ sides. AreSidesOf at.now.model.now (state_in at.now.words.now) at.now.args.now c.now sides) }
{
    match c {
        Cond::Numbers(op, a, b) => {
            let left = side_of(at, a)?;
            let right = side_of(at, b)?;
            Some(Sides {
                op: *op,
                left,
                right,
            })
        }
        _ => None,
    }
}

/// Whether a comparison holds for each of these members, up to the first where it does not.
#[inline(always)]
fn all_met(at: &Scene<'_>, range: Range, sides: &Sides<'_>) -> Option<bool>
    requires { IsRange at.now.model.now range }
    ensures { result ≡ all_met sides.now (range_members (state_in at.now.words.now) range) }
{
    match range {
        Range::Word(word) => all_met_in(word, sides),
        _ => all_met_in_turn(at, range, sides),
    }
}

/// The same for the members of a set in one word.
#[inline(never)]
fn all_met_in(word: u64, sides: &Sides<'_>) -> Option<bool>
    ensures { result ≡ all_met sides.now (members_of (one_word word)) }
{
    let mut left = word;
    while let Some(member) = lowest(left) {
        if !met_by(sides, member)? {
            return Some(false);
        }
        left = without_lowest(left, member);
    }
    Some(true)
}

/// The same, where the members are found one after another.
#[inline(never)]
fn all_met_in_turn(at: &Scene<'_>, range: Range, sides: &Sides<'_>) -> Option<bool>
    requires { IsRange at.now.model.now range }
    ensures { result ≡ all_met sides.now (range_members (state_in at.now.words.now) range) }
{
    let mut from = 0;
    while let Some(member) = next_of(at, range, from) {
        if !met_by(sides, member)? {
            return Some(false);
        }
        from = member + 1;
    }
    Some(true)
}

/// Whether a comparison holds for a member. `None` where a row has no cell for it, and where a sum is out of range.
#[inline(always)]
fn met_by(sides: &Sides<'_>, member: u32) -> Option<bool>
    ensures { result ≡ met_by sides.now member }
{
    let x = side_at(&sides.left, member)?;
    let y = side_at(&sides.right, member)?;
    Some(compares(sides.op, x, y))
}

/// What a side is for a member.
#[inline(always)]
fn side_at(side: &Side<'_>, member: u32) -> Option<i64>
    ensures { result ≡ side_at side.now member }
{
    match side {
        Side::Alone(n) => Some(*n),
        Side::Along(start, row) => sum_at(*start, row, member),
    }
}

/// The sum of a number and the cell that a member names, if it is there and the sum is in range.
#[inline(always)]
fn sum_at(start: i64, row: &[i64], member: u32) -> Option<i64>
    ensures { result ≡ sum_at start row.now member }
{
    match row.get(member as usize) {
        Some(cell) => added(start, *cell),
        None => None,
    }
}

/// The sum of two numbers, if it is in range.
#[inline(always)]
fn added(a: i64, b: i64) -> Option<i64>
    ensures { result ≡ result_ok (ranged (a +ℤ b)) }
{
    let sum = a.checked_add(b)?;
    if -GREATEST <= sum && sum <= GREATEST {
        Some(sum)
    } else {
        None
    }
}

/// What an expression is on one side of a comparison.
#[inline(never)]
fn side_of<'a>(at: &Scene<'a>, e: &Num) -> Option<Side<'a>>
    requires { (room : ℕ) × IsTrue (num_fits at.now.model.now e.now (length at.now.args.now + 1) room) }
    ensures { IfSome result (λ side. IsSideOf at.now.model.now (state_in at.now.words.now) at.now.args.now e.now side) }
{
    match e {
        Num::Cell(t, ns) => {
            let row = row_of(at, *t, ns)?;
            Some(Side::Along(0, row))
        }
        Num::Op(NumOp::Plus, a, b) => sum_of(at, a.get(), b.get()),
        _ => {
            let n = alone(at, e)?;
            Some(Side::Alone(n))
        }
    }
}

/// What the sum of two expressions is on one side: one of them names a cell, and the other is the same for each member.
#[inline(always)]
fn sum_of<'a>(at: &Scene<'a>, a: &Num, b: &Num) -> Option<Side<'a>>
    requires left { (room : ℕ) × IsTrue (num_fits at.now.model.now a.now (length at.now.args.now + 1) room) }
    requires right { (room : ℕ) × IsTrue (num_fits at.now.model.now b.now (length at.now.args.now + 1) room) }
    ensures { IfSome result (λ side. IsSumOf at.now.model.now (state_in at.now.words.now) at.now.args.now a.now b.now side) }
{
    match b {
        Num::Cell(t, ns) => {
            let start = alone(at, a)?;
            let row = row_of(at, *t, ns)?;
            Some(Side::Along(start, row))
        }
        _ => cell_and(at, a, b),
    }
}

/// The same where the cell comes first.
#[inline(always)]
fn cell_and<'a>(at: &Scene<'a>, a: &Num, b: &Num) -> Option<Side<'a>>
    requires left { (room : ℕ) × IsTrue (num_fits at.now.model.now a.now (length at.now.args.now + 1) room) }
    requires right { (room : ℕ) × IsTrue (num_fits at.now.model.now b.now (length at.now.args.now + 1) room) }
    ensures { IfSome result (λ side. IsSumOf at.now.model.now (state_in at.now.words.now) at.now.args.now a.now b.now side) }
{
    match a {
        Num::Cell(t, ns) => {
            let start = alone(at, b)?;
            let row = row_of(at, *t, ns)?;
            Some(Side::Along(start, row))
        }
        _ => None,
    }
}

/// A number that is the same for each member: one that is written, a variable's, or that of a parameter that is in force.
#[inline(always)]
fn alone(at: &Scene<'_>, e: &Num) -> Option<i64>
    requires { (room : ℕ) × IsTrue (num_fits at.now.model.now e.now (length at.now.args.now + 1) room) }
    ensures { IfSome result (λ z. IsAlone at.now.model.now (state_in at.now.words.now) at.now.args.now e.now z) }
{
    match e {
        Num::Fixed(n) => Some(*n),
        Num::Var(v) => Some(number_in(at, *v)),
        Num::Param(p) => {
            if (*p as usize) < at.args.len() {
                Some(parameter(at, *p))
            } else {
                None
            }
        }
        _ => None,
    }
}

/// Whether an expression is the member.
#[inline(always)]
fn is_member(at: &Scene<'_>, e: &Num) -> bool
    ensures { IsTrue result → (k : ℕ) → num_value at.now.model.now (state_in at.now.words.now) e.now (at.now.args.now ++ k ∷ []) ≡ Ok (pos k) }
{
    match e {
        Num::Param(p) => *p as usize == at.args.len(),
        _ => false,
    }
}

/// The cells of a table that these arguments name, the last of which is the member.
#[inline(always)]
fn row_of<'a>(at: &Scene<'a>, t: u32, ns: &Seq<Num>) -> Option<&'a [i64]>
    requires { (room : ℕ) × IsTrue (all_fit at.now.model.now ns.now (length at.now.args.now + 1) room) }
    ensures { IfSome result (λ row. IsRowOf at.now.model.now (state_in at.now.words.now) at.now.args.now t ns.now row.now) }
{
    match ns.list().as_slice() {
        [n] => {
            if is_member(at, n) {
                only_row(at, t)
            } else {
                None
            }
        }
        [n, last] => {
            if is_member(at, last) {
                let z = alone(at, n)?;
                row_at(at, t, z)
            } else {
                None
            }
        }
        _ => None,
    }
}

/// The cells of a table of one argument.
#[inline(always)]
fn only_row<'a>(at: &Scene<'a>, t: u32) -> Option<&'a [i64]>
    ensures { IfSome result (λ row. HasCells at.now.model.now t [] row.now) }
{
    match counts(at, t) {
        [count] => cells_from(numbers_in(at.model, t), 0, *count),
        _ => None,
    }
}

/// The cells of a table of two arguments, of which the first is a number.
#[inline(always)]
fn row_at<'a>(at: &Scene<'a>, t: u32, z: i64) -> Option<&'a [i64]>
    ensures { IfSome result (λ row. HasCells at.now.model.now t (z ∷ []) row.now) }
{
    match counts(at, t) {
        [count, last] => match member_of(*count, z) {
            Ok(member) => cells_from(
                numbers_in(at.model, t),
                member as usize * *last as usize,
                *last,
            ),
            Err(_) => None,
        },
        _ => None,
    }
}

/// So many cells from a place on, if all are there.
#[inline(always)]
fn cells_from(cells: &[i64], place: usize, count: u32) -> Option<&[i64]>
    ensures { IfSome result (λ row. IsPart cells.now place count row.now) }
{
    if place <= cells.len() && count as usize <= cells.len() - place {
        Some(&cells[place..place + count as usize])
    } else {
        None
    }
}
