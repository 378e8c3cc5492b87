//! What evaluators keep of a model's tables, made once: how many members each argument may have, and the words of sets.

ghost use Rattle.std.specs.Prelude.{◌≡◌, ◌++◌, ◌∷◌, [], ℕ, List, IfOk, map};
ghost use Rattle.dp_model.specs.Evaluation.{count_of, counts_of, cells_object};
ghost use Rattle.dp_model.specs.declared.whole.Model.{Model as DpModel};
ghost use Rattle.state_layout.specs.Signatures.{set_words};
ghost use Rattle.packed_words.specs.Tables.{sets_of, shape_of, AreTablesOf};

use crate::sets::words_for;
use crate::steps::count_of;
use dp_base::Seq;
use dp_model::{Cells, Model, TableData};
use std::alloc::{AllocError, Global};

/// What is kept of a table: how many members the object type of each argument has, how many that of its sets has, and the
/// words of each set, in order of its cells.
#[derive(Debug, Drop)]
pub struct Shape {
    pub counts: Seq<u32>,
    pub members: u32,
    pub sets: Seq<Seq<u64>>,
}

/// What is kept of each table of a model.
#[derive(Debug, Drop)]
pub struct Tables {
    pub shapes: Seq<Shape>,
}

impl Tables {
    /// What is kept of the tables of a model.
    pub fn of(alloc: Global, model: &Model) -> Result<Tables, AllocError>
        ensures { IfOk result (λ tables. AreTablesOf model.now tables) }
    {
        let mut shapes = Vec::new(alloc);
        for table in model.tables.list() {
            shapes.push(shape_of(alloc, model, table)?)?;
        }
        Ok(Tables {
            shapes: Seq::of(shapes),
        })
    }
}

fn shape_of(alloc: Global, model: &Model, table: &TableData) -> Result<Shape, AllocError>
    ensures { IfOk result (λ shape. shape ≡ shape_of model.now table.now) }
{
    let members = count_of(model, cells_object(&table.cells));
    let counts = counts_for(alloc, model, table.args.list())?;
    let sets = packed_cells(alloc, members, &table.cells)?;
    Ok(Shape {
        counts: Seq::of(counts),
        members,
        sets: Seq::of(sets),
    })
}

/// The object type of a table's sets.
fn cells_object(cells: &Cells) -> u32
    ensures { result ≡ cells_object cells.now }
{
    match cells {
        Cells::Sets(object, _) => *object,
        _ => 0,
    }
}

/// How many members each of these object types has.
fn counts_for(alloc: Global, model: &Model, objects: &[u32]) -> Result<Vec<u32>, AllocError>
    ensures { IfOk result (λ counts. counts.items ≡ counts_of model.now objects.now) }
{
    let mut counts = Vec::new(alloc);
    for object in objects {
        counts.push(count_of(model, *object))?;
    }
    Ok(counts)
}

fn packed_cells(alloc: Global, count: u32, cells: &Cells) -> Result<Vec<Seq<u64>>, AllocError>
    ensures { IfOk result (λ packed. packed.items ≡ map (set_words count) (sets_of cells.now)) }
{
    match cells {
        Cells::Sets(_, sets) => packed_sets(alloc, count, sets.list()),
        _ => Ok(Vec::new(alloc)),
    }
}

fn packed_sets(alloc: Global, count: u32, sets: &[Seq<u32>]) -> Result<Vec<Seq<u64>>, AllocError>
    ensures { IfOk result (λ packed. packed.items ≡ map (set_words count) sets.now) }
{
    let mut packed = Vec::new(alloc);
    for set in sets {
        packed.push(packed_set(alloc, count, set.list())?)?;
    }
    Ok(packed)
}

/// The words of a set, in one walk over its members.
fn packed_set(alloc: Global, count: u32, set: &[u32]) -> Result<Seq<u64>, AllocError>
    ensures { IfOk result (λ words. words ≡ set_words count set.now) }
{
    let mut words = vec![in alloc; 0u64; words_for(count)]?;
    for member in set {
        put_member(&mut words, *member);
    }
    Ok(Seq::of(words))
}

/// Adds a member to the words of a set. One that is in none of the words changes nothing.
fn put_member(words: &mut [u64], member: u32)
    ensures { (count : ℕ) (set : List ℕ) → words.old ≡ set_words count set → words.new ≡ set_words count (set ++ member ∷ []) }
{
    let place = (member / 64) as usize;
    if place < words.len() {
        words[place] |= 1 << (member % 64);
    }
}
