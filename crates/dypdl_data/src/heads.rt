//! Tables as a domain declares them, without the cells that a problem gives.

ghost use Rattle.std.specs.Prelude.{◌≡◌, ◌≤◌, ◌++◌, ◌∷◌, [], IfOk, option_map};
ghost use Rattle.dp_base.specs.Results.{Answers, AnswersBy};
ghost use Rattle.dp_model.specs.Typing.{type_count};
ghost use Rattle.dypdl_nodes.specs.Reads.{told};
ghost use Rattle.dypdl_data.specs.Names.{new_name};
ghost use Rattle.dypdl_data.specs.Tables.{cell_of, plain_cell, default_of, type_named, type_of, cell_kind_of, arg_step, args_of, head_of, head_names, head_step};

use crate::kinds::{Cell, CellKind, TableHead, TypeWord};
use crate::members::members_of;
use crate::names::{Names, word_name};
use crate::object_types::{ObjectTypes, owned};
use crate::state_variables::{StateVariables, object_at};
use dp_base::{Place, Seq};
use dp_model::ObjectType;
use dypdl_nodes::rules::{CONTINUOUS, TWICE_NAME, WRONG_SHAPE};
use dypdl_nodes::{
    LoadEnd, items_or_none, keyed, needed, number_of, refused, text_of, truth_of, value_in,
};
use std::alloc::Global;
use yaml_tree::{Pair, Tree};

/// How many members an object type has.
pub fn type_count(objects: &Seq<ObjectType>, object: u32) -> u32
    ensures { result ≡ type_count objects.now object }
{
    match objects.list().get(object as usize) {
        Some(object) => object.count,
        None => 0,
    }
}

/// The value of a cell. Elements may be any whole numbers of a model.
pub fn cell_of(
    alloc: Global,
    objects: &Seq<ObjectType>,
    kind: CellKind,
    tree: &Tree,
) -> Result<Cell, LoadEnd>
    ensures { Answers told result (cell_of objects.now kind tree.now) }
{
    match kind {
        CellKind::Integer | CellKind::Element => Ok(Cell::Number(number_of(tree)?)),
        CellKind::Truth => Ok(Cell::Truth(truth_of(tree)?)),
        CellKind::Set(object) => {
            let count = type_count(objects, object);
            Ok(Cell::Members(members_of(alloc, count, tree)?))
        }
    }
}

/// The value of cells that are not given, where a table has no default.
fn plain_cell(alloc: Global, kind: CellKind) -> Cell
    ensures { result ≡ plain_cell kind }
{
    match kind {
        CellKind::Integer | CellKind::Element => Cell::Number(0),
        CellKind::Truth => Cell::Truth(false),
        CellKind::Set(_) => Cell::Members(Seq::of(Vec::new(alloc))),
    }
}

fn default_of(
    alloc: Global,
    objects: &Seq<ObjectType>,
    kind: CellKind,
    tree: Option<&Tree>,
) -> Result<Cell, LoadEnd>
    ensures { Answers told result (default_of objects.now kind (option_map (λ t. t.now) tree.entry)) }
{
    match tree {
        Some(tree) => cell_of(alloc, objects, kind, tree),
        None => Ok(plain_cell(alloc, kind)),
    }
}

fn type_named(at: Place, word: &str) -> Result<TypeWord, LoadEnd>
    ensures { Answers told result (type_named at word.now) }
{
    match word {
        "integer" => Ok(TypeWord::Integer),
        "element" => Ok(TypeWord::Element),
        "bool" | "boolean" => Ok(TypeWord::Truth),
        "set" => Ok(TypeWord::Set),
        "continuous" => Err(refused(CONTINUOUS, at)),
        _ => Err(refused(WRONG_SHAPE, at)),
    }
}

fn type_of(tree: &Tree) -> Result<TypeWord, LoadEnd>
    ensures { Answers told result (type_of tree.now) }
{
    type_named(tree.place(), text_of(tree)?)
}

/// What the cells are. Only a table of sets needs an object type for them.
fn cell_kind_of(
    objects: &ObjectTypes<'_>,
    at: Place,
    entries: &[Pair],
    word: TypeWord,
) -> Result<CellKind, LoadEnd>
    ensures { Answers told result (cell_kind_of objects.now.list at entries.now word) }
{
    match word {
        TypeWord::Integer => Ok(CellKind::Integer),
        TypeWord::Element => Ok(CellKind::Element),
        TypeWord::Truth => Ok(CellKind::Truth),
        TypeWord::Set => Ok(CellKind::Set(object_at(objects, at, entries)?)),
    }
}

fn take_arg(objects: &ObjectTypes<'_>, args: &mut Vec<u32>, item: &Tree) -> Result<(), LoadEnd>
    ensures { AnswersBy told (λ _. args.new.items) result (arg_step objects.now.list args.old.items item.now) }
{
    args.push(objects.known(item)?)?;
    Ok(())
}

/// The object types of a table's arguments.
fn args_of(
    alloc: Global,
    objects: &ObjectTypes<'_>,
    tree: Option<&Tree>,
) -> Result<Seq<u32>, LoadEnd>
    ensures { Answers told result (args_of objects.now.list (option_map (λ t. t.now) tree.entry)) }
{
    let mut args = Vec::new(alloc);
    for item in items_or_none(4, tree)? {
        take_arg(objects, &mut args, item)?;
    }
    Ok(Seq::of(args))
}

/// Takes a name that none of these, of the object types and of the variables is.
#[tactic(auto, using(crate::proofs::Texts::among_append))]
fn new_name<'a>(
    objects: &Names<'_>,
    variables: &Names<'_>,
    names: &mut Names<'a>,
    tree: &'a Tree,
) -> Result<&'a str, LoadEnd>
    ensures name { AnswersBy told (λ word. word.now) result (new_name (objects.now ++ (variables.now ++ names.old)) tree.now) }
    ensures added { IfOk result (λ word. names.new ≡ names.old ++ word.now ∷ []) }
{
    let word = word_name(tree)?;
    if objects.has(word) || variables.has(word) || !names.add(word)? {
        return Err(refused(TWICE_NAME, tree.place()));
    }
    Ok(word)
}

#[tactic(auto, unfolding(crate::specs::Tables::head_of))]
fn head_of<'a>(
    alloc: Global,
    objects: &ObjectTypes<'_>,
    variables: &Names<'_>,
    names: &mut Names<'a>,
    item: &'a Tree,
) -> Result<TableHead, LoadEnd>
    ensures head { Answers told result (head_of objects.now.list (objects.now.names ++ (variables.now ++ names.old)) item.now) }
    ensures named { IfOk result (λ h. names.new ≡ names.old ++ h.name ∷ []) }
{
    let place = item.place();
    let entries = keyed(&["name", "type", "args", "object", "default"], item)?;
    let name = needed(place, entries, "name")?;
    let word = needed(place, entries, "type")?;
    let name = new_name(&objects.names, variables, names, name)?;
    let word = type_of(word)?;
    let args = args_of(alloc, objects, value_in(entries, "args"))?;
    let kind = cell_kind_of(objects, place, entries, word)?;
    let default = default_of(alloc, &objects.list, kind, value_in(entries, "default"))?;
    Ok(TableHead {
        name: owned(alloc, name)?,
        args,
        kind,
        default,
    })
}

/// One more table, whose name none of the object types, the variables and the tables so far has.
pub fn take_head<'a>(
    alloc: Global,
    objects: &ObjectTypes<'_>,
    variables: &StateVariables<'_>,
    names: &mut Names<'a>,
    heads: &mut Vec<TableHead>,
    item: &'a Tree,
) -> Result<(), LoadEnd>
    requires { names.old ≡ head_names heads.old.items }
    ensures head { AnswersBy told (λ _. heads.new.items) result (head_step objects.now.list variables.now.list heads.old.items item.now) }
    ensures named { IfOk result (λ _. names.new ≡ head_names heads.new.items) }
{
    heads.push(head_of(alloc, objects, &variables.names, names, item)?)?;
    Ok(())
}
