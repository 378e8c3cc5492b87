//! What stands between two evaluations: the set in a table's cell at a place that may be a fault, whether a number is a member, and how many there are.

ghost use Rattle.std.specs.Prelude.{◌≡◌, ◌≤◌, ◌==◌, Result, List, ℤ, pos, Ok, IfOk, OnOk, IsTrue, length};
ghost use Rattle.bit_sets.specs.Sets.{members_of};
ghost use Rattle.dp_model.specs.Typing.{is_set_kind, kind_at};
ghost use Rattle.dp_model.specs.Evaluation.{count_of, table_counts, cells_of, cells_object, set_cell, set_in, object_of_kind, kind_of};
ghost use Rattle.dp_model.specs.declared.answers.FaultKind.{FaultKind as Fault};
ghost use Rattle.state_layout.specs.Packing.{state_in};
ghost use Rattle.state_layout.specs.Signatures.{word_count};
ghost use Rattle.eval_room.specs.Fits.{set_fits, operand_fits};
ghost use Rattle.packed_words.specs.Operands.{Tells, at_operands, is_member_in};
ghost use Rattle.packed_words.specs.Places.{placed_at};
ghost use Rattle.packed_words.specs.Sets.{IsClean, one_word};

use dp_model::{FaultKind, SetEx};
use eval_room::set_count;
use packed_words::{
    Scene, cell_count, cell_word, copy_cell, has_in, has_member, is_empty_word, member_of, next_in,
    set_slot, size, word_has, word_of, word_size,
};

/// How many members the object type of a set expression has, which fits so much stack. Those of a variable and of a cell are
/// read where they stand.
#[inline(always)]
pub fn count_in(at: &Scene<'_>, e: &SetEx, stack: &[u64]) -> u32
    requires { IsTrue (operand_fits at.now.model.now (set_fits at.now.model.now e.now) (length at.now.args.now) (length stack.now)) }
    ensures value { result ≡ count_of at.now.model.now (set_fits at.now.model.now e.now).0 }
    ensures few { result ≤ 4096 }
{
    match e {
        SetEx::Var(v) => set_slot(at, *v).count,
        SetEx::Cell(t, _) => cell_count(at, *t),
        _ => set_count(at.model, e),
    }
}

/// Writes a set in one word to the words of its object type.
pub fn write_word(count: u32, word: u64, out: &mut [u64])
    requires few { count ≤ 64 }
    requires clean { IsClean count (one_word word) }
    requires length { length out.old ≡ word_count count }
    ensures members { members_of out.new ≡ members_of (one_word word) }
    ensures clean { IsClean count out.new }
{
    if count > 0 {
        out[0] = word;
    }
}

/// The set in a table's cell at the place of its arguments, which may be a fault, in one word.
pub fn word_placed(
    at: &Scene<'_>,
    t: u32,
    placed: Result<usize, FaultKind>,
) -> Result<u64, FaultKind>
    requires { count_of at.now.model.now (cells_object (cells_of at.now.model.now t)) ≤ 64 }
    ensures members { (operands : Result (List ℤ) Fault) → placed ≡ placed_at (table_counts at.now.model.now t) operands
        → Tells (λ w. members_of (one_word w)) result (at_operands at.now.model.now t (set_cell (cells_of at.now.model.now t)) operands) }
    ensures clean { (operands : Result (List ℤ) Fault) → placed ≡ placed_at (table_counts at.now.model.now t) operands
        → IfOk result (λ w. IsClean (count_of at.now.model.now (cells_object (cells_of at.now.model.now t))) (one_word w)) }
{
    match placed {
        Ok(place) => Ok(cell_word(at, t, place)),
        Err(kind) => Err(kind),
    }
}

/// Whether a number is a member of a set in one word.
pub fn word_member(count: u32, word: u64, z: i64) -> Result<bool, FaultKind>
    requires { count ≤ 64 }
    ensures { result ≡ is_member_in count z (Ok (members_of (one_word word))) }
{
    let member = member_of(count, z)?;
    Ok(word_has(word, member))
}

/// How many members a set in one word has, as a number.
pub fn word_size_in(word: u64) -> i64
    ensures { result ≡ pos (length (members_of (one_word word))) }
{
    i64::from(word_size(word))
}

/// Writes the set in a table's cell at the place of its arguments, which may be a fault.
pub fn set_placed(
    at: &Scene<'_>,
    t: u32,
    placed: Result<usize, FaultKind>,
    out: &mut [u64],
) -> Result<(), FaultKind>
    requires { length out.old ≡ word_count (count_of at.now.model.now (cells_object (cells_of at.now.model.now t))) }
    ensures members { (operands : Result (List ℤ) Fault) → placed ≡ placed_at (table_counts at.now.model.now t) operands
        → Tells (λ _. members_of out.new) result (at_operands at.now.model.now t (set_cell (cells_of at.now.model.now t)) operands) }
    ensures clean { (operands : Result (List ℤ) Fault) → placed ≡ placed_at (table_counts at.now.model.now t) operands
        → OnOk result (IsClean (count_of at.now.model.now (cells_object (cells_of at.now.model.now t))) out.new) }
{
    match placed {
        Ok(place) => {
            copy_cell(at, t, place, out);
            Ok(())
        }
        Err(kind) => Err(kind),
    }
}

/// Whether a number is a member of a set.
pub fn member_in(count: u32, a: &[u64], z: i64) -> Result<bool, FaultKind>
    requires { length a.now ≡ word_count count }
    ensures { result ≡ is_member_in count z (Ok (members_of a.now)) }
{
    let member = member_of(count, z)?;
    Ok(has_member(count, a, member))
}

/// Whether a number is a member of the set that a variable holds.
#[inline(never)]
pub fn member_at(at: &Scene<'_>, v: u32, count: u32, z: i64) -> Result<bool, FaultKind>
    requires { IsTrue (is_set_kind (kind_at at.now.model.now.variables v)) }
    ensures { result ≡ is_member_in count z (Ok (set_in (state_in at.now.words.now) v)) }
{
    let member = member_of(count, z)?;
    Ok(has_in(at, v, member))
}

/// Whether a number is a member of the set that a variable holds, in one word or more.
#[inline(always)]
pub fn is_in_var(at: &Scene<'_>, v: u32, z: i64) -> Result<bool, FaultKind>
    requires { IsTrue (is_set_kind (kind_at at.now.model.now.variables v)) }
    ensures { result ≡ is_member_in (count_of at.now.model.now (object_of_kind (kind_of at.now.model.now v))) z (Ok (set_in (state_in at.now.words.now) v)) }
{
    let count = set_slot(at, v).count;
    if count <= 64 {
        word_member(count, word_of(at, v), z)
    } else {
        member_at(at, v, count, z)
    }
}

/// Whether the set that a variable holds has no members.
#[inline(always)]
pub fn is_empty_var(at: &Scene<'_>, v: u32) -> bool
    requires { IsTrue (is_set_kind (kind_at at.now.model.now.variables v)) }
    ensures { result ≡ (length (set_in (state_in at.now.words.now) v) == 0) }
{
    if set_slot(at, v).count <= 64 {
        is_empty_word(word_of(at, v))
    } else {
        match next_in(at, v, 0) {
            Some(_) => false,
            None => true,
        }
    }
}

/// How many members a set has, as a number.
pub fn size_in(count: u32, a: &[u64]) -> i64
    requires len { length a.now ≡ word_count count }
    requires few { count ≤ 4096 }
    ensures { result ≡ pos (length (members_of a.now)) }
{
    size(count, a) as i64
}
