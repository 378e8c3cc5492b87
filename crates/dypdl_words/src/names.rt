//! The names of a scope: how they are put into a map, and what they stand for.

ghost use Rattle.std.specs.Prelude.{◌≡◌, ◌<◌, ◌^◌, ℕ, List, length, if◌then◌else◌, IfOk, OnOk};
ghost use Rattle.std.specs.HashMap.{get_by_text};
ghost use Rattle.std.specs.Option.{option_or};
ghost use Rattle.std.specs.Str.{bytes_eq};
ghost use Rattle.dypdl_words.specs.Scopes.{cell_kind, shape_of, innermost, AddsVariables, AddsTables, Holds};

use crate::scope::{CellKind, Named, Param, Shape};
use dp_base::Seq;
use dp_model::{Cells, TableData, Variable};
use indexmap::IndexMap;
use std::alloc::{AllocError, Global};

fn cell_kind(element: bool, cells: &Cells) -> CellKind
    ensures { result ≡ cell_kind element cells.now }
{
    match cells {
        Cells::Numbers(_) if element => CellKind::Element,
        Cells::Numbers(_) => CellKind::Integer,
        Cells::Truths(_) => CellKind::Truth,
        Cells::Sets(object, _) => CellKind::Set(*object),
    }
}

fn shape_of(alloc: Global, table: &TableData) -> Result<Shape, AllocError>
    ensures { IfOk result (λ shape. shape ≡ shape_of table.now) }
{
    Ok(Shape {
        args: Seq::of(Vec::from_slice(alloc, table.args().list())?),
        cells: cell_kind(table.element(), table.cells()),
    })
}

/// Puts a name there, unless it is there.
fn push_name(
    alloc: Global,
    names: &mut IndexMap<String, Named>,
    name: &str,
    named: Named,
) -> Result<(), AllocError>
    ensures { OnOk result ((word : List ℕ) → get_by_text names.new word
        ≡ option_or (get_by_text names.old word)
        (if bytes_eq name.now word then Some named else None)) }
{
    if !names.contains_key(name) {
        names.insert(String::from_str(alloc, name)?, named)?;
    }
    Ok(())
}

/// The names of the variables, each with its number and its kind.
fn push_variables(
    alloc: Global,
    names: &mut IndexMap<String, Named>,
    variables: &[Variable],
) -> Result<(), AllocError>
    ensures { OnOk result (AddsVariables names.old names.new variables.now) }
{
    for (at, variable) in variables.iter().enumerate() {
        let number = u32::try_from(at).map_err(|_| AllocError)?;
        let named = Named::Variable(number, variable.kind());
        push_name(alloc, names, variable.name().as_text(), named)?;
    }
    Ok(())
}

/// The names of the tables, each with its number and its shape.
fn push_tables(
    alloc: Global,
    names: &mut IndexMap<String, Named>,
    tables: &[TableData],
) -> Result<(), AllocError>
    ensures { OnOk result (AddsTables names.old names.new tables.now) }
{
    for (at, table) in tables.iter().enumerate() {
        let number = u32::try_from(at).map_err(|_| AllocError)?;
        let named = Named::Table(number, shape_of(alloc, table)?);
        push_name(alloc, names, table.name().as_text(), named)?;
    }
    Ok(())
}

/// The names of the variables, and then those of the tables.
pub(crate) fn names_of(
    alloc: Global,
    variables: &Seq<Variable>,
    tables: &Seq<TableData>,
) -> Result<IndexMap<String, Named>, AllocError>
    ensures { IfOk result (λ names. Holds names variables.now tables.now) }
{
    let mut names = IndexMap::new(alloc);
    push_variables(alloc, &mut names, variables.list())?;
    push_tables(alloc, &mut names, tables.list())?;
    Ok(names)
}

/// The place of the last parameter of a name.
pub(crate) fn innermost(params: &[Param], word: &str) -> Option<u32>
    requires { length params.now < 2 ^ 32 }
    ensures { result ≡ innermost 0 params.now word.now }
{
    let mut found = None;
    for (at, param) in params.iter().enumerate() {
        if param.name.as_text() == word {
            found = Some(at as u32);
        }
    }
    found
}
