//! The names in force where an expression stands.

ghost use Rattle.std.specs.Prelude.{◌≡◌, ◌<◌, ◌^◌, ◌∷◌, ◌++◌, [], ℕ, length, IfOk, OnOk, OnErr};
ghost use Rattle.std.specs.Option.{option_copied};
ghost use Rattle.dypdl_words.specs.declared.scope.Param.{Param as ParamSeen};
ghost use Rattle.dypdl_words.specs.Scopes.{name_in, param_in};

use crate::names::{innermost, names_of};
use dp_base::{Seq, Text};
use dp_model::{ObjectType, Over, TableData, VarKind, Variable};
use indexmap::IndexMap;
use std::alloc::{AllocError, Global};
use std::marker::Model;

/// What the cells of a table are: whole numbers, elements, truth values, or sets of an object type.
#[derive(Debug, Clone, Copy, PartialEq, Eq)]
pub enum CellKind {
    Integer,
    Element,
    Truth,
    Set(u32),
}

/// A table without its name and its cells: the object types of its arguments, and the kind of its cells.
#[derive(Debug, Drop)]
pub struct Shape {
    pub args: Seq<u32>,
    pub cells: CellKind,
}

/// What a name stands for: a variable or a table, by its number.
#[derive(Debug, Drop)]
pub enum Named {
    Variable(u32, VarKind),
    Table(u32, Shape),
}

/// A parameter in force, and what it ranges over.
#[derive(Debug, Drop)]
pub struct Param {
    pub name: Text,
    pub over: Over,
}

/// The names that an expression may use: those of a model's variables and tables, and of the parameters in force. Of
/// two equal names of variables or tables the first counts, and of two parameters the innermost one. Contracts see the
/// lists that it was made of, and the parameters, the innermost one last.
#[derive(Drop)]
pub struct Scope<'m> {
    variables: &'m Seq<Variable>,
    tables: &'m Seq<TableData>,
    names: IndexMap<String, Named>,
    params: Vec<Param>,
}

impl<'m> Model for Scope<'m> {
    ghost use Rattle.std.specs.Prelude.{◌<◌, ◌^◌, length};
    ghost use Rattle.dypdl_words.specs.Scopes.{Names, Holds};

    ghost Value = { Names };

    ghost view = { λ s. record { variables = s.variables.now; tables = s.tables.now; params = s.params.items } };

    ghost invariant = { λ s. Holds s.names s.variables.now s.tables.now × (length s.params.items < 2 ^ 32) };
}

impl<'m> Scope<'m> {
    /// The names of a model's variables and tables, and no parameters. The object types are those that the kinds,
    /// arguments and cells name.
    pub fn new(
        alloc: Global,
        _objects: &Seq<ObjectType>,
        variables: &'m Seq<Variable>,
        tables: &'m Seq<TableData>,
    ) -> Result<Scope<'m>, AllocError>
        ensures { IfOk result (λ scope. scope ≡ record { variables = variables.now; tables = tables.now; params = [] }) }
    {
        let names = names_of(alloc, variables, tables)?;
        Ok(Scope {
            variables,
            tables,
            names,
            params: Vec::new(alloc),
        })
    }

    /// Puts one more parameter into force. On an error nothing changes.
    pub fn push_param(&mut self, alloc: Global, name: &Text, over: Over) -> Result<(), AllocError>
        ensures pushed { OnOk result (self.new ≡ record self.old { params = self.old.params ++ record { name = name.now; over = over } ∷ [] }) }
        ensures err { OnErr result (self.new ≡ self.old) }
    {
        if self.params.len() >= 0xffff_ffff {
            return Err(AllocError);
        }
        let name = Text::of(String::from_str(alloc, name.as_text())?);
        self.params.push(Param { name, over })?;
        Ok(())
    }

    /// Puts the innermost parameter out of force.
    pub fn pop_param(&mut self)
        requires { 0 < length self.old.params }
        ensures popped { (last : ParamSeen) × (self.old ≡ record self.new { params = self.new.params ++ last ∷ [] }) }
    {
        let _ = self.params.pop();
    }

    /// The variable or the table of a name.
    pub fn name(&self, word: &str) -> Option<&Named>
        ensures { option_copied result ≡ name_in self.now word.now }
    {
        self.names.get(word)
    }

    /// The number of the innermost parameter of a name.
    pub fn param(&self, word: &str) -> Option<u32>
        ensures { result ≡ param_in self.now word.now }
    {
        innermost(&self.params, word)
    }
}
