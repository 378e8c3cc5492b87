//! Sums of a table's cells over sets that lie in words, one behind another.

ghost use Rattle.std.specs.Prelude.{◌≡◌, ◌≤◌, ◌<◌, ◌+◌, ◌*◌, ℕ, ◌∷◌, [], length, slice_index, IfSome, None, min};
ghost use Rattle.std.proofs.Common.{inl};
ghost use Rattle.bit_sets.specs.Sets.{members_of};
ghost use Rattle.dp_model.specs.Costs.{ranged};
ghost use Rattle.dp_model.specs.Evaluation.{member_of, table_counts, ways, total_of};
ghost use Rattle.state_layout.specs.Signatures.{word_count};
ghost use Rattle.packed_words.specs.Places.{most, advanced};
ghost use Rattle.packed_words.specs.Operands.{Tells};
ghost use Rattle.packed_words.specs.Sets.{IsClean, IsNext, one_word};
ghost use Rattle.packed_words.specs.Totals.{total_by};
ghost use Rattle.packed_eval.specs.Sums.{sum_of_one, words_of, sets_in, total_over, cell_at, fault_in, waits_on, Chooses, AreFew, bound_for, IsWithin, term_value, chosen_in, sum_chosen};

use bit_sets::next_member;
use dp_model::{FaultKind, Model};
use packed_words::{
    after_first, lowest, member_of, number_at, numbers_in, ranged, with, without_lowest, word_with,
    words_for,
};

/// An argument of a sum that was evaluated, of an object type with at most 64 members.
#[derive(Clone, Copy)]
pub enum Term {
    /// The one member that a number is, if it is one.
    One(i64),
    /// The members of a set, in one word.
    Many(u64),
}

/// The first of some counts, or 0 where there is none.
pub fn first_of(counts: &[u32]) -> u32
    ensures { result ≡ slice_index counts.now 0 }
{
    if counts.len() > 0 { counts[0] } else { 0 }
}

/// Writes the empty set.
fn clear(out: &mut [u64])
    ensures members { members_of out.new ≡ [] }
    ensures clean { (count : ℕ) → IsClean count out.new }
{
    for k in 0..out.len() {
        out[k] = 0;
    }
}

/// Writes the set of one member.
fn write_one(count: u32, member: u32, out: &mut [u64])
    requires len { length out.old ≡ word_count count }
    requires member { member < count }
    ensures { members_of out.new ≡ member ∷ [] }
{
    clear(out);
    with(count, out, member);
}

/// Writes the set of the one member that a number is. A fault of it waits, and one that waits already stays.
pub fn one_member(
    count: u32,
    waits: Option<FaultKind>,
    z: i64,
    out: &mut [u64],
) -> Option<FaultKind>
    requires { length out.old ≡ word_count count }
    ensures waits { result ≡ waits_on count waits (inl z) }
    ensures member { result ≡ None → Chooses count (inl z) (members_of out.new) }
{
    match waits {
        Some(kind) => Some(kind),
        None => write_member(count, z, out),
    }
}

/// Writes the set of the one member that a number is, or says its fault.
fn write_member(count: u32, z: i64, out: &mut [u64]) -> Option<FaultKind>
    requires { length out.old ≡ word_count count }
    ensures waits { result ≡ fault_in (member_of count z) }
    ensures member { result ≡ None → Chooses count (inl z) (members_of out.new) }
{
    match member_of(count, z) {
        Ok(member) => {
            write_one(count, member, out);
            None
        }
        Err(kind) => Some(kind),
    }
}

/// The place with one argument more.
fn next_place(at: usize, count: u32, member: u32) -> usize
    ensures { result ≡ advanced at count member }
{
    at.saturating_mul(count as usize)
        .saturating_add(member as usize)
}

/// The first member of a set in words that is not below a number.
fn next_held(set: &[u64], from: u32) -> Option<u32>
    requires { length set.now ≤ 64 }
    ensures value { IsNext result from (members_of set.now) }
    ensures below { IfSome result (λ k. (from ≤ k) × (k < 8192)) }
{
    next_member(set, from)
}

/// The row behind a place: its cells with one argument more, of the members from 0 on.
fn row_of(cells: &[i64], at: usize, count: u32) -> &[i64]
    ensures { (place : ℕ) → at ≡ min most place
        → (k : ℕ) → cell_at result.now k ≡ cell_at cells.now (place * count + k) }
{
    let start = next_place(at, count, 0).min(cells.len());
    &cells[start..]
}

/// The total of a row's cells over a set that lies in words.
#[inline(never)]
fn total_held(row: &[i64], set: &[u64]) -> i128
    requires { length set.now ≤ 64 }
    ensures value { result ≡ total_by (cell_at row.now) (members_of set.now) }
    ensures within { IsWithin (bound_for 1) result }
{
    let mut total = 0;
    let mut from = 0;
    while let Some(member) = next_held(set, from) {
        total += i128::from(number_at(row, member as usize));
        from = member + 1;
    }
    total
}

/// The total of the cells behind a place, over the set of the last argument, which lies in words.
fn total_last(cells: &[i64], at: usize, count: u32, set: &[u64]) -> i128
    requires { length set.now ≤ 64 }
    ensures value { (place : ℕ) → at ≡ min most place
        → result ≡ total_by (λ k. cell_at cells.now (place * count + k)) (members_of set.now) }
    ensures within { IsWithin (bound_for 1) result }
{
    let row = row_of(cells, at, count);
    match set {
        [word] => total_in(row, *word),
        _ => total_held(row, set),
    }
}

/// The total of the cells behind a place, over the sets of the last two arguments, which lie in words.
fn total_of_two(
    cells: &[i64],
    at: usize,
    count: u32,
    last: u32,
    set: &[u64],
    behind: &[u64],
) -> i128
    requires first { length set.now ≤ 64 }
    requires second { length behind.now ≤ 64 }
    ensures value { (place : ℕ) → at ≡ min most place
        → result ≡ total_by (λ k. total_by (λ j. cell_at cells.now ((place * count + k) * last + j)) (members_of behind.now)) (members_of set.now) }
    ensures within { IsWithin (bound_for 2) result }
{
    let mut total = 0;
    let mut from = 0;
    while let Some(member) = next_held(set, from) {
        total += total_last(cells, next_place(at, count, member), last, behind);
        from = member + 1;
    }
    total
}

/// The total of the cells behind a place, over sets that lie in words one behind another.
fn total_from(cells: &[i64], at: usize, counts: &[u32], held: &[u64]) -> i128
    requires few { AreFew counts.now }
    requires len { length held.now ≡ words_of counts.now }
    ensures value { (place : ℕ) → at ≡ min most place
        → result ≡ total_over (cell_at cells.now) place counts.now (sets_in counts.now held.now) }
    ensures within { IsWithin (bound_for (length counts.now)) result }
{
    if counts.is_empty() {
        return i128::from(number_at(cells, at));
    }
    let count = first_of(counts);
    let rest = after_first(counts);
    let (set, behind) = held.split_at(words_for(count));
    if rest.is_empty() {
        return total_last(cells, at, count, set);
    }
    let mut total = 0;
    let mut from = 0;
    while let Some(member) = next_held(set, from) {
        total += total_from(cells, next_place(at, count, member), rest, behind);
        from = member + 1;
    }
    total
}

/// The total of a table's cells over sets that lie in words one behind another.
fn total_of(cells: &[i64], counts: &[u32], held: &[u64]) -> i128
    requires few { AreFew counts.now }
    requires len { length held.now ≡ words_of counts.now }
    ensures { result ≡ total_over (cell_at cells.now) 0 counts.now (sets_in counts.now held.now) }
{
    match counts {
        [count, last] => {
            let (set, behind) = held.split_at(words_for(*count));
            total_of_two(cells, 0, *count, *last, set, behind)
        }
        _ => total_from(cells, 0, counts, held),
    }
}

/// The sum of a table over sets of its arguments' object types, which lie in words one behind another.
pub fn sum_held(model: &Model, t: u32, counts: &[u32], held: &[u64]) -> Result<i64, FaultKind>
    requires counts { counts.now ≡ table_counts model.now t }
    requires len { length held.now ≡ words_of counts.now }
    ensures { result ≡ ranged (total_of model.now t (ways (sets_in counts.now held.now))) }
{
    ranged(total_of(numbers_in(model, t), counts, held))
}

/// The total of the cells of a set's members, which lie in one word.
fn total_in(cells: &[i64], word: u64) -> i128
    ensures value { result ≡ total_by (cell_at cells.now) (members_of (one_word word)) }
    ensures within { IsWithin (bound_for 1) result }
{
    let mut total = 0;
    let mut left = word;
    while let Some(member) = lowest(left) {
        total += i128::from(number_at(cells, member as usize));
        left = without_lowest(left, member);
    }
    total
}

/// The sum of a table of one argument over a set in one word.
pub fn sum_word(model: &Model, t: u32, word: u64) -> Result<i64, FaultKind>
    requires { (count : ℕ) × (table_counts model.now t ≡ count ∷ []) }
    ensures { result ≡ ranged (total_of model.now t (ways (members_of (one_word word) ∷ []))) }
{
    ranged(total_in(numbers_in(model, t), word))
}

/// The sum of a table of one argument over the one member that a number is.
pub fn sum_at(model: &Model, t: u32, count: u32, z: i64) -> Result<i64, FaultKind>
    requires counts { table_counts model.now t ≡ count ∷ [] }
    requires few { count ≤ 64 }
    ensures { result ≡ sum_of_one model.now t count z }
{
    let member = member_of(count, z)?;
    sum_word(model, t, word_with(count, 0, member))
}

/// The members that an argument chooses, in one word.
#[inline(always)]
fn chosen_word(count: u32, term: Term) -> Result<u64, FaultKind>
    requires { count ≤ 64 }
    ensures { Tells (λ w. members_of (one_word w)) result (chosen_in count (term_value term)) }
{
    match term {
        Term::One(z) => {
            let member = member_of(count, z)?;
            Ok(word_with(count, 0, member))
        }
        Term::Many(word) => Ok(word),
    }
}

/// The total of a table's cells over two sets that lie in one word each: for each member of the first, its row is found
/// once.
fn total_in_rows(cells: &[i64], last: u32, set: u64, behind: u64) -> i128
    ensures { result ≡ total_by (λ k. total_by (λ j. cell_at cells.now (k * last + j)) (members_of (one_word behind))) (members_of (one_word set)) }
{
    let mut total = 0;
    let mut left = set;
    while let Some(member) = lowest(left) {
        total += total_in(row_of(cells, member as usize, last), behind);
        left = without_lowest(left, member);
    }
    total
}

/// The sum of a table of two arguments that were evaluated, of object types with at most 64 members. A fault of the first
/// comes before one of the second.
#[inline(always)]
pub fn sum_of_two(
    model: &Model,
    t: u32,
    count: u32,
    last: u32,
    first: Term,
    second: Term,
) -> Result<i64, FaultKind>
    requires counts { table_counts model.now t ≡ count ∷ last ∷ [] }
    requires few { count ≤ 64 }
    requires few_last { last ≤ 64 }
    ensures { result ≡ sum_chosen model.now t (term_value first ∷ term_value second ∷ []) }
{
    let set = chosen_word(count, first)?;
    let behind = chosen_word(last, second)?;
    ranged(total_in_rows(numbers_in(model, t), last, set, behind))
}
