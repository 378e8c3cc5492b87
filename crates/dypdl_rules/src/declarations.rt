//! What expressions may name: object types, variables and tables, and the parameters in force.

ghost use Rattle.std.specs.Prelude.{◌≡◌, ◌++◌, ◌∷◌, ◌<◌, ◌-◌, [], List, ℕ, length, take, map, IfOk, OnOk, OnErr, if◌then◌else◌, Some, None};
ghost use Rattle.std.specs.HashMap.{get_by_text};
ghost use Rattle.std.specs.Option.{option_or};
ghost use Rattle.std.specs.Str.{bytes_eq};
ghost use Rattle.dypdl_data.specs.Names.{number_named};
ghost use Rattle.dypdl_data.specs.Objects.{object_names};
ghost use Rattle.dypdl_nodes.specs.Shapes.{is_among};
ghost use Rattle.dypdl_rules.specs.Declarations.{IsVariable, Numbers, taken_names};

use dp_base::Seq;
use dp_model::{ObjectType, TableData, VarKind, Variable};
use dypdl_type::Scope;
use dypdl_words::{Named, Param};
use indexmap::IndexMap;
use std::alloc::{AllocError, Global};
use std::marker::Model;

/// The object types, variables and tables of a model, and the parameters in force, by their names. Of two equal names
/// of object types the first counts, as of two variables.
#[derive(Drop)]
pub struct Declared<'a> {
    objects: &'a Seq<ObjectType>,
    numbers: IndexMap<String, u32>,
    scope: Scope<'a>,
}

impl<'a> Model for Declared<'a> {
    ghost use Rattle.dypdl_data.specs.Objects.{object_names};
    ghost use Rattle.dypdl_rules.specs.Declarations.{InForce, Numbers};

    ghost Value = { InForce };

    ghost view = { λ d. record {
      lists = record { objects = d.objects.now; variables = d.scope.variables; tables = d.scope.tables };
      params = d.scope.params;
    } };

    ghost invariant = { λ d. Numbers d.numbers (object_names d.objects.now) };
}

/// Puts a name there, unless it is there.
fn push_name(
    alloc: Global,
    numbers: &mut IndexMap<String, u32>,
    name: &str,
    number: u32,
) -> Result<(), AllocError>
    ensures { OnOk result ((word : List ℕ) → get_by_text numbers.new word
        ≡ option_or (get_by_text numbers.old word)
        (if bytes_eq word name.now then Some number else None)) }
{
    if !numbers.contains_key(name) {
        numbers.insert(String::from_str(alloc, name)?, number)?;
    }
    Ok(())
}

/// The number of the first object type of each name.
fn numbers_of(alloc: Global, objects: &[ObjectType]) -> Result<IndexMap<String, u32>, AllocError>
    ensures { IfOk result (λ numbers. Numbers numbers (object_names objects.now)) }
{
    let mut numbers = IndexMap::new(alloc);
    for (at, object) in objects.iter().enumerate() {
        let number = u32::try_from(at).map_err(|_| AllocError)?;
        push_name(alloc, &mut numbers, object.name().as_text(), number)?;
    }
    Ok(numbers)
}

impl<'a> Declared<'a> {
    /// What these lists declare. No parameters are in force.
    pub fn new(
        alloc: Global,
        objects: &'a Seq<ObjectType>,
        variables: &'a Seq<Variable>,
        tables: &'a Seq<TableData>,
    ) -> Result<Declared<'a>, AllocError>
        ensures { IfOk result (λ d. d ≡ record {
          lists = record { objects = objects.now; variables = variables.now; tables = tables.now };
          params = [];
        }) }
    {
        Ok(Declared {
            objects,
            numbers: numbers_of(alloc, objects.list())?,
            scope: Scope::new(alloc, objects, variables, tables)?,
        })
    }

    /// The names that expressions may use.
    pub(crate) fn scope(&self) -> &Scope<'a>
        ensures { result.now ≡ record {
          variables = self.now.lists.variables;
          tables = self.now.lists.tables;
          params = self.now.params;
        } }
    {
        &self.scope
    }

    /// The number of the object type of a name.
    pub(crate) fn object(&self, word: &str) -> Option<u32>
        ensures { result ≡ number_named (object_names self.now.lists.objects) word.now }
    {
        self.numbers.get(word).copied()
    }

    /// The number and the kind of the variable of a name.
    pub(crate) fn variable(&self, word: &str) -> Option<(u32, VarKind)>
        ensures { IsVariable self.now.lists.variables word.now result }
    {
        let Some(named) = self.scope.name(word) else {
            return None;
        };
        match named {
            Named::Variable(number, kind) => Some((*number, *kind)),
            Named::Table(_, _) => None,
        }
    }

    /// Whether an object type, a variable or a table has this name.
    pub(crate) fn has(&self, word: &str) -> bool
        ensures { result ≡ is_among (taken_names self.now.lists) word.now }
    {
        self.numbers.contains_key(word) || self.scope.name(word).is_some()
    }

    /// Puts one more parameter into force. On an error nothing changes.
    pub(crate) fn push_param(&mut self, alloc: Global, param: &Param) -> Result<(), AllocError>
        ensures ok { OnOk result (self.new ≡ record self.old { params = self.old.params ++ param.now ∷ [] }) }
        ensures err { OnErr result (self.new ≡ self.old) }
    {
        self.scope.push_param(alloc, &param.name, param.over)
    }

    /// Puts the innermost parameter out of force.
    #[tactic(auto, using(crate::proofs::Lists::front))]
    pub(crate) fn pop_param(&mut self)
        requires { 0 < length self.old.params }
        ensures { self.new ≡ record self.old { params = take (length self.old.params - 1) self.old.params } }
    {
        self.scope.pop_param();
    }
}
