//! The names that the expressions of the cases may use.

use dp_base::{Seq, Text};
use dp_model::{Cells, ObjectType, Over, Preference, TableData, VarKind, Variable};
use dypdl_type::Scope;
use std::alloc::{AllocError, Global};

/// What the cells of a table are.
#[derive(Clone, Copy, Debug, Drop)]
enum CellKind {
    Integer,
    Element,
    Truth,
    Set(u32),
}

static OBJECTS: [(&str, u32); 2] = [("city", 4), ("item", 3)];

static VARIABLES: [(&str, VarKind); 8] = [
    ("i", VarKind::Integer),
    ("j", VarKind::Integer),
    ("e", VarKind::Element(0)),
    ("f", VarKind::Element(1)),
    ("s", VarKind::Set(0)),
    ("u", VarKind::Set(0)),
    ("v", VarKind::Set(1)),
    ("q", VarKind::Integer),
];

/// Tables of each kind, and at last two whose names stand for something else before them. Each has the object types of
/// its arguments, of which the first so many count.
static TABLES: [(&str, CellKind, usize, [u32; 2]); 14] = [
    ("n0", CellKind::Integer, 0, [0, 0]),
    ("n1", CellKind::Integer, 1, [0, 0]),
    ("n2", CellKind::Integer, 2, [0, 1]),
    ("e0", CellKind::Element, 0, [0, 0]),
    ("e1", CellKind::Element, 1, [0, 0]),
    ("b0", CellKind::Truth, 0, [0, 0]),
    ("b1", CellKind::Truth, 1, [0, 0]),
    ("b2", CellKind::Truth, 2, [0, 1]),
    ("s0", CellKind::Set(0), 0, [0, 0]),
    ("s1", CellKind::Set(0), 1, [1, 0]),
    ("s2", CellKind::Set(0), 2, [0, 1]),
    ("v1", CellKind::Set(1), 1, [0, 0]),
    ("n1", CellKind::Truth, 0, [0, 0]),
    ("i", CellKind::Integer, 1, [0, 0]),
];

fn text(alloc: Global, name: &str) -> Result<Text, AllocError> {
    Ok(Text::of(String::from_str(alloc, name)?))
}

fn objects(alloc: Global) -> Result<Seq<ObjectType>, AllocError> {
    let mut objects = Vec::new(alloc);
    for (name, count) in OBJECTS.iter() {
        let name = text(alloc, name)?;
        objects.push(ObjectType {
            name,
            count: *count,
        })?;
    }
    Ok(Seq::of(objects))
}

pub(crate) fn variables(alloc: Global) -> Result<Seq<Variable>, AllocError> {
    let mut variables = Vec::new(alloc);
    for (name, kind) in VARIABLES.iter() {
        variables.push(Variable {
            name: text(alloc, name)?,
            kind: *kind,
            preference: Preference::Without,
        })?;
    }
    Ok(Seq::of(variables))
}

/// A table without cells, since a scope asks only for their kind.
fn table(alloc: Global, name: &str, kind: CellKind, args: &[u32]) -> Result<TableData, AllocError> {
    Ok(TableData {
        name: text(alloc, name)?,
        args: Seq::of(Vec::from_slice(alloc, args)?),
        element: matches!(kind, CellKind::Element),
        cells: match kind {
            CellKind::Integer | CellKind::Element => Cells::Numbers(Seq::of(Vec::new(alloc))),
            CellKind::Truth => Cells::Truths(Seq::of(Vec::new(alloc))),
            CellKind::Set(object) => Cells::Sets(object, Seq::of(Vec::new(alloc))),
        },
    })
}

pub(crate) fn tables(alloc: Global) -> Result<Seq<TableData>, AllocError> {
    let mut tables = Vec::new(alloc);
    for (name, kind, count, args) in TABLES.iter() {
        let args = args.get(..*count).unwrap_or(&[]);
        tables.push(table(alloc, name, *kind, args)?)?;
    }
    Ok(Seq::of(tables))
}

/// The scope of the cases. The parameters are `p`, `q`, which hides the variable, and another `p`, which hides the first.
pub(crate) fn scope<'m>(
    alloc: Global,
    variables: &'m Seq<Variable>,
    tables: &'m Seq<TableData>,
) -> Result<Scope<'m>, AllocError> {
    let mut scope = Scope::new(alloc, &objects(alloc)?, variables, tables)?;
    scope.push_param(alloc, &text(alloc, "p")?, Over::Object(0))?;
    scope.push_param(alloc, &text(alloc, "q")?, Over::Members(4))?;
    scope.push_param(alloc, &text(alloc, "p")?, Over::Object(1))?;
    Ok(scope)
}
