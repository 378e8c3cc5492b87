//! What a table holds, and one of its cells.

use dp_base::{Seq, Text};

/// The word of a table's `type`.
#[derive(Clone, Copy, Debug, PartialEq, Eq)]
pub enum TypeWord {
    Integer,
    Element,
    Truth,
    Set,
}

/// What the cells of a table are. `Set` names the object type of the members.
#[derive(Clone, Copy, Debug, PartialEq, Eq)]
pub enum CellKind {
    Integer,
    Element,
    Truth,
    Set(u32),
}

/// The value of a cell. The members of a set are ascending.
#[derive(Debug, Drop)]
pub enum Cell {
    Number(i64),
    Truth(bool),
    Members(Seq<u32>),
}

/// A table as a domain declares it: without its cells, each of which has the default until it is given.
#[derive(Debug, Drop)]
pub struct TableHead {
    pub name: Text,
    pub args: Seq<u32>,
    pub kind: CellKind,
    pub default: Cell,
}
