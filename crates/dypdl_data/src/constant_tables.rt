//! The tables that a domain declares, with the cells that a problem gives.

ghost use Rattle.std.specs.Prelude.{◌≡◌, ◌≤◌, IfOk, length, option_map};
ghost use Rattle.dp_base.specs.Results.{Answers, AnswersBy};
ghost use Rattle.dypdl_nodes.specs.Reads.{told};
ghost use Rattle.dypdl_data.specs.Tables.{head_names, heads_of, listed_heads};
ghost use Rattle.dypdl_data.specs.Cells.{table_names, value_step, values_of, tables_of};

use crate::blanks::blank_tables;
use crate::cells::give_cells;
use crate::heads::take_head;
use crate::kinds::TableHead;
use crate::names::Names;
use crate::object_types::ObjectTypes;
use crate::sizes::few_words;
use crate::state_variables::StateVariables;
use dp_base::Seq;
use dp_model::{ObjectType, TableData};
use dypdl_nodes::rules::UNKNOWN_NAME;
use dypdl_nodes::{LoadEnd, entries_or_none, few_items};
use std::alloc::Global;
use yaml_tree::{Pair, Tree};

/// The tables of a model, and the numbers of their names.
#[derive(Drop)]
pub struct ConstantTables<'a> {
    pub names: Names<'a>,
    pub list: Seq<TableData>,
    pub ghost named: { names ≡ table_names list },
}

/// Tables that are declared, and the numbers of their names.
#[derive(Drop)]
struct Heads<'a> {
    names: Names<'a>,
    list: Vec<TableHead>,
}

fn listed_heads<'a>(
    alloc: Global,
    objects: &ObjectTypes<'_>,
    variables: &StateVariables<'_>,
    tree: &'a Tree,
) -> Result<Heads<'a>, LoadEnd>
    ensures heads { AnswersBy told (λ h. h.list.items) result (listed_heads objects.now.list variables.now.list tree.now) }
    ensures named { IfOk result (λ h. h.names ≡ head_names h.list.items) }
{
    let items = few_items(1024, tree)?;
    let mut names = Names::new(alloc);
    let mut list = Vec::new(alloc);
    for item in items {
        take_head(alloc, objects, variables, &mut names, &mut list, item)?;
    }
    few_words(&objects.list, tree.place(), &list)?;
    Ok(Heads { names, list })
}

fn heads_of<'a>(
    alloc: Global,
    objects: &ObjectTypes<'_>,
    variables: &StateVariables<'_>,
    tree: Option<&'a Tree>,
) -> Result<Heads<'a>, LoadEnd>
    ensures heads { AnswersBy told (λ h. h.list.items) result (heads_of objects.now.list variables.now.list (option_map (λ t. t.now) tree.entry)) }
    ensures named { IfOk result (λ h. h.names ≡ head_names h.list.items) }
{
    match tree {
        Some(tree) => listed_heads(alloc, objects, variables, tree),
        None => Ok(Heads {
            names: Names::new(alloc),
            list: Vec::new(alloc),
        }),
    }
}

/// Gives cells of the table that a key names.
fn take_value(
    alloc: Global,
    objects: &Seq<ObjectType>,
    names: &Names<'_>,
    tables: &mut Vec<TableData>,
    pair: &Pair,
) -> Result<(), LoadEnd>
    requires { names.now ≡ table_names tables.old.items }
    ensures value { AnswersBy told (λ _. tables.new.items) result (value_step objects.now tables.old.items pair.now) }
    ensures named { IfOk result (λ _. names.now ≡ table_names tables.new.items) }
{
    let number = names.known_key(UNKNOWN_NAME, &pair.key)?;
    give_cells(alloc, objects, tables, number, &pair.value)
}

fn take_values(
    alloc: Global,
    objects: &Seq<ObjectType>,
    names: &Names<'_>,
    tables: &mut Vec<TableData>,
    tree: Option<&Tree>,
) -> Result<(), LoadEnd>
    requires { names.now ≡ table_names tables.old.items }
    ensures values { AnswersBy told (λ _. tables.new.items) result (values_of objects.now tables.old.items (option_map (λ t. t.now) tree.entry)) }
    ensures named { IfOk result (λ _. names.now ≡ table_names tables.new.items) }
{
    for pair in entries_or_none(tree)? {
        take_value(alloc, objects, names, tables, pair)?;
    }
    Ok(())
}

/// The tables that a domain declares, at most 1,024, with the cells that a problem gives. The names of object types,
/// variables and tables are different.
#[tactic(auto, using(crate::proofs::Named::blank_names))]
pub fn tables<'a>(
    alloc: Global,
    objects: &ObjectTypes<'_>,
    variables: &StateVariables<'_>,
    declared: Option<&'a Tree>,
    given: Option<&Tree>,
) -> Result<ConstantTables<'a>, LoadEnd>
    ensures { AnswersBy told (λ t. t.list) result (tables_of objects.now.list variables.now.list (option_map (λ t. t.now) declared.entry) (option_map (λ t. t.now) given.entry)) }
{
    let Heads { names, list } = heads_of(alloc, objects, variables, declared)?;
    let mut tables = blank_tables(alloc, &objects.list, list)?;
    take_values(alloc, &objects.list, &names, &mut tables, given)?;
    Ok(ConstantTables {
        names,
        list: Seq::of(tables),
    })
}
