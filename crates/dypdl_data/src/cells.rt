//! The cells that a problem gives.

ghost use Rattle.std.specs.Prelude.{◌≡◌, ◌<◌, ◌≤◌, ◌^◌, ◌*◌, ◌+◌, ◌∷◌, IfOk, OnErr, length, map, slice_set, slice_get, option_map, get_or, true, false};
ghost use Rattle.dp_base.specs.Results.{Answers, AnswersBy};
ghost use Rattle.dp_model.specs.Typing.{type_count};
ghost use Rattle.dypdl_nodes.specs.Reads.{told};
ghost use Rattle.dypdl_data.specs.Cells.{place_by, place_of, kind_of_cells, with_cell, held_count, filling_step, filled_by, listed, cells_given, table_given, changed_table, table_names};
ghost use Rattle.dypdl_data.specs.Fillings.{filling};

use crate::heads::{cell_of, type_count};
use crate::kinds::{Cell, CellKind};
use dp_base::Seq;
use dp_model::{Cells, ObjectType, TableData};
use dypdl_nodes::rules::{BAD_INDEX, TWICE_NAME, WRONG_SHAPE};
use dypdl_nodes::{LoadEnd, entries_of, index_of, items_of, refused};
use std::alloc::{AllocError, Global};
use std::mem;
use yaml_tree::{Pair, Tree};

fn arg_counts(
    alloc: Global,
    objects: &Seq<ObjectType>,
    args: &[u32],
) -> Result<Vec<u32>, AllocError>
    ensures { IfOk result (λ counts. counts.items ≡ map (type_count objects.now) args.now) }
{
    let mut counts = Vec::with_capacity(alloc, args.len())?;
    for object in args {
        counts.push(type_count(objects, *object))?;
    }
    Ok(counts)
}

/// The place of one more argument's member behind the place by the arguments before it. Memory is wanting only where no word
/// holds the place: no cell is there.
fn next_place(at: usize, count: u32, member: u32) -> Result<usize, AllocError>
    ensures place { IfOk result (λ place. place ≡ at * count + member) }
    ensures far { OnErr result (2 ^ 64 ≤ at * count + member) }
{
    let row = at.checked_mul(count as usize).ok_or(AllocError)?;
    row.checked_add(member as usize).ok_or(AllocError)
}

/// The place of a cell in row order, the first argument slowest, behind the place by the arguments before these.
fn place_by(at: usize, counts: &[u32], items: &[Tree]) -> Result<usize, LoadEnd>
    ensures { Answers told result (place_by at counts.now items.now) }
{
    let [count, counts @ ..] = counts else {
        return Ok(at);
    };
    let [item, items @ ..] = items else {
        return Ok(at);
    };
    place_by(
        next_place(at, *count, index_of(*count, item)?)?,
        counts,
        items,
    )
}

/// The place of the cell that a key names in a table whose arguments have these counts.
fn place_of(counts: &[u32], key: &Tree) -> Result<usize, LoadEnd>
    ensures { Answers told result (place_of counts.now key.now) }
{
    match (key, counts) {
        (Tree::Scalar(_, _), [count]) => Ok(next_place(0, *count, index_of(*count, key)?)?),
        (Tree::List(_, items), _) if items.list().len() == counts.len() => {
            place_by(0, counts, items.list())
        }
        _ => Err(refused(WRONG_SHAPE, key.place())),
    }
}

fn kind_of_cells(element: bool, cells: &Cells) -> CellKind
    ensures { result ≡ kind_of_cells element cells.now }
{
    match cells {
        Cells::Numbers(_) if element => CellKind::Element,
        Cells::Numbers(_) => CellKind::Integer,
        Cells::Truths(_) => CellKind::Truth,
        Cells::Sets(object, _) => CellKind::Set(*object),
    }
}

#[tactic(auto, using(std::proofs::lemmas::List::set_past))]
fn with_item<T: Drop>(items: Seq<T>, place: usize, item: T) -> Seq<T>
    ensures { result ≡ slice_set items place item }
{
    let mut items = items.into_list();
    if place < items.len() {
        items[place] = item;
    }
    Seq::of(items)
}

/// These cells with another value in one place. A value of another kind changes nothing.
fn with_cell(cells: Cells, place: usize, cell: Cell) -> Cells
    ensures { result ≡ with_cell cells place cell }
{
    match (cells, cell) {
        (Cells::Numbers(items), Cell::Number(n)) => Cells::Numbers(with_item(items, place, n)),
        (Cells::Truths(items), Cell::Truth(truth)) => Cells::Truths(with_item(items, place, truth)),
        (Cells::Sets(object, items), Cell::Members(set)) => {
            Cells::Sets(object, with_item(items, place, set))
        }
        (cells, _) => cells,
    }
}

/// Cells, and which of them were given.
#[derive(Drop)]
pub struct Filled {
    pub cells: Cells,
    pub given: Vec<bool>,
}

fn was_given(given: &[bool], place: usize) -> bool
    ensures { result ≡ get_or given.now place false }
{
    place < given.len() && given[place]
}

#[tactic(auto, using(std::proofs::lemmas::List::set_past))]
fn with_mark(mut given: Vec<bool>, place: usize) -> Vec<bool>
    ensures { result.items ≡ slice_set given.items place true }
{
    if place < given.len() {
        given[place] = true;
    }
    given
}

/// One more cell. `TWICE_NAME` at the key of a cell that was given.
fn fill_cell(
    alloc: Global,
    objects: &Seq<ObjectType>,
    counts: &[u32],
    kind: CellKind,
    filled: Filled,
    pair: &Pair,
) -> Result<Filled, LoadEnd>
    ensures { AnswersBy told filling result (filling_step objects.now counts.now kind (filling filled) pair.now) }
{
    let place = place_of(counts, &pair.key)?;
    if was_given(&filled.given, place) {
        return Err(refused(TWICE_NAME, pair.key.place()));
    }
    let cell = cell_of(alloc, objects, kind, &pair.value)?;
    let Filled { cells, given } = filled;
    Ok(Filled {
        cells: with_cell(cells, place, cell),
        given: with_mark(given, place),
    })
}

/// How many cells there are.
fn held_count(cells: &Cells) -> usize
    ensures { result ≡ held_count cells.now }
{
    match cells {
        Cells::Numbers(items) => items.list().len(),
        Cells::Truths(items) => items.list().len(),
        Cells::Sets(_, items) => items.list().len(),
    }
}

/// The cells of a table with arguments, of which a map gives some.
fn filled_by(
    alloc: Global,
    objects: &Seq<ObjectType>,
    counts: &[u32],
    kind: CellKind,
    held: Cells,
    tree: &Tree,
) -> Result<Cells, LoadEnd>
    ensures { Answers told result (filled_by objects.now counts.now kind held tree.now) }
{
    let entries = entries_of(tree)?;
    let given = vec![in alloc; false; held_count(&held)]?;
    let mut filled = Filled { cells: held, given };
    for pair in entries {
        filled = fill_cell(alloc, objects, counts, kind, filled, pair)?;
    }
    let Filled { cells, given: _ } = filled;
    Ok(cells)
}

/// The cells that a tree gives from a place on: by no counts the one there, else those that lists as deep as there are counts
/// give. `at` is the place by the arguments before these.
#[cycle(listed)]
fn listed(
    alloc: Global,
    objects: &Seq<ObjectType>,
    kind: CellKind,
    counts: &[u32],
    at: usize,
    held: Cells,
    tree: &Tree,
) -> Result<Cells, LoadEnd>
    ensures { Answers told result (listed objects.now kind counts.now at held tree.now) }
{
    let [count, counts @ ..] = counts else {
        let cell = cell_of(alloc, objects, kind, tree)?;
        return Ok(with_cell(held, at, cell));
    };
    items_listed(alloc, objects, kind, *count, counts, at, held, tree)
}

/// The cells that the items of a list give: item i belongs to index i of an argument with this count, and cells of missing
/// items stay. `BAD_INDEX` at an item whose index is not below the count.
#[cycle(listed)]
fn items_listed(
    alloc: Global,
    objects: &Seq<ObjectType>,
    kind: CellKind,
    count: u32,
    counts: &[u32],
    at: usize,
    held: Cells,
    tree: &Tree,
) -> Result<Cells, LoadEnd>
    ensures { Answers told result (listed objects.now kind (count ∷ counts.now) at held tree.now) }
{
    let mut cells = held;
    let mut next = 0;
    for item in items_of(tree)? {
        if next >= count {
            return Err(refused(BAD_INDEX, item.place()));
        }
        let place = next_place(at, count, next)?;
        cells = listed(alloc, objects, kind, counts, place, cells, item)?;
        next += 1;
    }
    Ok(cells)
}

/// The cells of a table, of which some are given: of one without arguments the one that it has, of another by lists as deep
/// as it has arguments or by a map.
fn cells_given(
    alloc: Global,
    objects: &Seq<ObjectType>,
    args: &[u32],
    kind: CellKind,
    held: Cells,
    tree: &Tree,
) -> Result<Cells, LoadEnd>
    ensures { Answers told result (cells_given objects.now args.now kind held tree.now) }
{
    if args.is_empty() {
        let cell = cell_of(alloc, objects, kind, tree)?;
        return Ok(with_cell(held, 0, cell));
    }
    let counts = arg_counts(alloc, objects, args)?;
    match tree {
        Tree::List(_, _) => listed(alloc, objects, kind, &counts, 0, held, tree),
        Tree::Scalar(_, _) | Tree::Map(_, _) => {
            filled_by(alloc, objects, &counts, kind, held, tree)
        }
    }
}

/// Gives cells of a table. After a refusal the table is not to be used.
pub fn give_table(
    alloc: Global,
    objects: &Seq<ObjectType>,
    table: &mut TableData,
    tree: &Tree,
) -> Result<(), LoadEnd>
    ensures given { AnswersBy told (λ _. table.new) result (table_given objects.now table.old tree.now) }
    ensures named { IfOk result (λ _. table.new.name ≡ table.old.name) }
{
    let kind = kind_of_cells(table.element, &table.cells);
    let held = mem::replace(&mut table.cells, Cells::Truths(Seq::of(Vec::new(alloc))));
    table.cells = cells_given(alloc, objects, table.args.list(), kind, held, tree)?;
    Ok(())
}

/// Gives cells of the table with this number.
pub fn give_cells(
    alloc: Global,
    objects: &Seq<ObjectType>,
    tables: &mut Vec<TableData>,
    number: usize,
    tree: &Tree,
) -> Result<(), LoadEnd>
    requires { number < length tables.old.items }
    ensures given { AnswersBy told (λ _. tables.new.items) result (changed_table objects.now tables.old.items number tree.now (slice_get tables.old.items number)) }
    ensures named { IfOk result (λ _. table_names tables.new.items ≡ table_names tables.old.items) }
{
    give_table(alloc, objects, &mut tables[number], tree)
}
