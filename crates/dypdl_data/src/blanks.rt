//! Tables all of whose cells have the default.

ghost use Rattle.std.specs.Prelude.{◌≡◌, ◌<◌, IfOk, OnErr, map, replicate};
ghost use Rattle.dp_model.specs.Typing.{cell_count};
ghost use Rattle.dypdl_data.specs.Sizes.{most_words};
ghost use Rattle.dypdl_data.specs.Tables.{filled, is_element, blank_table};

use crate::kinds::{Cell, CellKind, TableHead};
use crate::sizes::{MOST_WORDS, cell_count};
use dp_base::Seq;
use dp_model::{Cells, ObjectType, TableData};
use std::alloc::{AllocError, Global};

fn copied(alloc: Global, set: &[u32]) -> Result<Seq<u32>, AllocError>
    ensures { IfOk result (λ copy. copy ≡ set.now) }
{
    let mut copy = Vec::with_capacity(alloc, set.len())?;
    copy.extend_from_slice(set)?;
    Ok(Seq::of(copy))
}

fn copies(alloc: Global, count: usize, set: &[u32]) -> Result<Vec<Seq<u32>>, AllocError>
    ensures { IfOk result (λ sets. sets.items ≡ replicate count set.now) }
{
    let mut sets = Vec::with_capacity(alloc, count)?;
    for _ in 0..count {
        sets.push(copied(alloc, set)?)?;
    }
    Ok(sets)
}

/// So many cells of a kind with this value.
fn filled(alloc: Global, kind: CellKind, count: usize, cell: Cell) -> Result<Cells, AllocError>
    ensures { IfOk result (λ cells. cells ≡ filled kind count cell) }
{
    Ok(match (kind, cell) {
        (CellKind::Integer | CellKind::Element, Cell::Number(n)) => {
            Cells::Numbers(Seq::of(vec![in alloc; n; count]?))
        }
        (CellKind::Truth, Cell::Truth(truth)) => {
            Cells::Truths(Seq::of(vec![in alloc; truth; count]?))
        }
        (CellKind::Set(object), Cell::Members(set)) => {
            Cells::Sets(object, Seq::of(copies(alloc, count, set.list())?))
        }
        _ => Cells::Numbers(Seq::of(Vec::new(alloc))),
    })
}

/// How many cells a table has. Memory is wanting only where they are more than a model may have.
#[tactic(auto, using(crate::proofs::Caps::capped_is, crate::proofs::Caps::capped_above))]
fn cells_to_fill(objects: &Seq<ObjectType>, args: &[u32]) -> Result<usize, AllocError>
    ensures count { IfOk result (λ count. count ≡ cell_count objects.now args.now) }
    ensures many { OnErr result (most_words < cell_count objects.now args.now) }
{
    let count = cell_count(objects, args);
    if count > MOST_WORDS {
        return Err(AllocError);
    }
    Ok(count as usize)
}

fn is_element(kind: CellKind) -> bool
    ensures { result ≡ is_element kind }
{
    match kind {
        CellKind::Element => true,
        CellKind::Integer | CellKind::Truth | CellKind::Set(_) => false,
    }
}

fn blank_table(
    alloc: Global,
    objects: &Seq<ObjectType>,
    head: TableHead,
) -> Result<TableData, AllocError>
    ensures { IfOk result (λ t. t ≡ blank_table objects.now head) }
{
    let TableHead {
        name,
        args,
        kind,
        default,
    } = head;
    let count = cells_to_fill(objects, args.list())?;
    Ok(TableData {
        name,
        args,
        element: is_element(kind),
        cells: filled(alloc, kind, count, default)?,
    })
}

/// The tables of these heads, all of whose cells have their defaults.
pub fn blank_tables(
    alloc: Global,
    objects: &Seq<ObjectType>,
    heads: Vec<TableHead>,
) -> Result<Vec<TableData>, AllocError>
    ensures { IfOk result (λ tables. tables.items ≡ map (blank_table objects.now) heads.items) }
{
    let mut tables = Vec::with_capacity(alloc, heads.len())?;
    for head in heads {
        tables.push(blank_table(alloc, objects, head)?)?;
    }
    Ok(tables)
}
