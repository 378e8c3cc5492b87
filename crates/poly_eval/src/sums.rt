//! Sums of a table over the members of sets that are rows of bits.

ghost use Rattle.std.specs.Prelude.{◌≡◌, ℕ, ℤ, List, ◌+ℤ◌, ◌*ℤ◌, IsTrue, IfOk, OnOk, drop, slice_get, unwrap_or, pos};
ghost use Rattle.dp_model.specs.Evaluation.{ways, total_of};
ghost use Rattle.poly_terms.specs.Worth.{worth};
ghost use Rattle.poly_terms.specs.Fits.{Fits};
ghost use Rattle.poly_eval.specs.Bits.{AreChoices};
ghost use Rattle.poly_eval.specs.Totals.{total_at, place_after};

use crate::bits::is_zero;
use crate::operations::product;
use crate::tables::{number_at, numbers_in, table_counts};
use crate::untold::Untold;
use dp_base::Seq;
use dp_model::Model;
use poly_terms::{Atom, Term, add_times, constant};
use std::alloc::Global;

/// A sum of more terms than this is not told.
const MOST_SUMMED: usize = 4096;

/// The place with one more argument, where counts are left for it and those after it.
fn place_after(place: usize, counts: &[u32], member: usize) -> Result<usize, Untold>
    ensures { IfOk result (λ next. next ≡ place_after place counts.now member) }
{
    match counts {
        [count, ..] => place
            .checked_mul(*count as usize)
            .and_then(|first| first.checked_add(member))
            .ok_or(Untold::Form),
        [] => Ok(place),
    }
}

fn after_first(counts: &[u32]) -> &[u32]
    ensures { result.now ≡ drop 1 counts.now }
{
    match counts {
        [_, rest @ ..] => rest,
        [] => counts,
    }
}

/// What the cells of a sum are looked up in.
#[derive(Clone, Copy)]
struct Summed<'a> {
    alloc: Global,
    table: &'a [Atom],
    cells: &'a [i64],
}

/// Adds a multiple of a cell to a sum.
fn add_cell(
    at: &Summed<'_>,
    sum: &mut Vec<Term>,
    factor: &[Term],
    place: usize,
) -> Result<(), Untold>
    ensures { OnOk result ((v : ℕ → ℤ) → worth v sum.new.items ≡ worth v sum.old.items +ℤ worth v factor.now *ℤ unwrap_or (slice_get at.now.cells.now place) (pos 0)) }
{
    let cell = number_at(at.cells, place).ok_or(Untold::Form)?;
    if sum.len() <= MOST_SUMMED && add_times(sum, cell, factor)? {
        Ok(())
    } else {
        Err(Untold::Form)
    }
}

/// Adds a multiple of the cells behind a place: at each way to choose one member of each set that is left.
fn add_cells(
    at: &Summed<'_>,
    sum: &mut Vec<Term>,
    factor: &[Term],
    place: usize,
    counts: &[u32],
    rows: &[Seq<Seq<Term>>],
) -> Result<(), Untold>
    ensures { OnOk result ((v : ℕ → ℤ) (sets : List (List ℕ)) → Fits at.now.table.now v → AreChoices v rows.now sets
        → worth v sum.new.items ≡ worth v sum.old.items +ℤ worth v factor.now *ℤ total_at at.now.cells.now place counts.now (ways sets)) }
{
    if is_zero(factor) {
        return Ok(());
    }
    let [first, others @ ..] = rows else {
        return add_cell(at, sum, factor, place);
    };
    let bits = first.list().as_slice();
    for member in 0..bits.len() {
        let more = product(at.alloc, at.table, factor, bits[member].list())?;
        let next = place_after(place, counts, member)?;
        add_cells(at, sum, &more, next, after_first(counts), others)?;
    }
    Ok(())
}

/// The sum of a table over the members of the sets that its arguments are.
pub fn sum_of(
    alloc: Global,
    model: &Model,
    table: &[Atom],
    t: u32,
    rows: Vec<Seq<Seq<Term>>>,
) -> Result<Vec<Term>, Untold>
    ensures { IfOk result (λ p. (v : ℕ → ℤ) (sets : List (List ℕ)) → Fits table.now v → AreChoices v rows.items sets → total_of model.now t (ways sets) ≡ worth v p.items) }
{
    let counts = table_counts(alloc, model, t)?;
    let one = constant(alloc, 1)?;
    let mut sum = Vec::new(alloc);
    let at = Summed {
        alloc,
        table,
        cells: numbers_in(model, t),
    };
    add_cells(&at, &mut sum, &one, 0, &counts, &rows)?;
    Ok(sum)
}
