//! The parts of a model: object types, variables, tables, transitions, base cases, and states.

ghost use Rattle.std.specs.Prelude.{◌≡◌};

use crate::trees::{Cond, Num, Over, SetEx};
use dp_base::{Seq, Text};

/// An object type: its members are numbered from 0 to one less than `count`.
#[derive(Debug, Drop)]
pub struct ObjectType {
    pub name: Text,
    pub count: u32,
}

impl ObjectType {
    /// Its name.
    pub fn name(&self) -> &Text
        ensures { result.now ≡ self.now.name }
    {
        &self.name
    }

    /// How many members it has.
    pub fn count(&self) -> u32
        ensures { result ≡ self.now.count }
    {
        self.count
    }
}

/// What a variable holds. `Element` and `Set` name an object type.
#[derive(Clone, Copy, Debug, PartialEq, Eq)]
pub enum VarKind {
    Element(u32),
    Integer,
    Set(u32),
}

/// Which values of a resource variable dominate others: none, the lesser, or the greater.
#[derive(Clone, Copy, Debug, PartialEq, Eq)]
pub enum Preference {
    Without,
    Less,
    Greater,
}

/// A state variable.
#[derive(Debug, Drop)]
pub struct Variable {
    pub name: Text,
    pub kind: VarKind,
    pub preference: Preference,
}

impl Variable {
    /// Its name.
    pub fn name(&self) -> &Text
        ensures { result.now ≡ self.now.name }
    {
        &self.name
    }

    /// What it holds.
    pub fn kind(&self) -> VarKind
        ensures { result ≡ self.now.kind }
    {
        self.kind
    }

    /// Which of its values dominate others.
    pub fn preference(&self) -> Preference
        ensures { result ≡ self.now.preference }
    {
        self.preference
    }
}

/// The cells of a table in row order, the first argument slowest. `Sets` has the object type of its sets, and
/// each set's members ascending.
#[derive(Debug, Drop)]
pub enum Cells {
    Numbers(Seq<i64>),
    Truths(Seq<bool>),
    Sets(u32, Seq<Seq<u32>>),
}

/// A table of constants. `args` names the object type of each argument.
#[derive(Debug, Drop)]
pub struct TableData {
    pub name: Text,
    pub args: Seq<u32>,
    pub element: bool,
    pub cells: Cells,
}

impl TableData {
    /// Its name.
    pub fn name(&self) -> &Text
        ensures { result.now ≡ self.now.name }
    {
        &self.name
    }

    /// The object type of each argument.
    pub fn args(&self) -> &Seq<u32>
        ensures { result.now ≡ self.now.args }
    {
        &self.args
    }

    /// Whether its numbers are members of an object type.
    pub fn element(&self) -> bool
        ensures { result ≡ self.now.element }
    {
        self.element
    }

    /// Its cells, in row order.
    pub fn cells(&self) -> &Cells
        ensures { result.now ≡ self.now.cells }
    {
        &self.cells
    }
}

/// What a transition does to one variable, named by its number.
#[derive(Debug, Drop)]
pub enum Effect {
    Number(u32, Num),
    Members(u32, SetEx),
}

/// A transition, with parameters that are not replaced by values yet. Its cost expression joins `weight` to the
/// cost; without a weight the cost stays.
#[derive(Debug, Drop)]
pub struct Transition {
    pub name: Text,
    pub params: Seq<Over>,
    pub forced: bool,
    pub preconditions: Seq<Cond>,
    pub effects: Seq<Effect>,
    pub weight: Option<Num>,
}

impl Transition {
    /// Its name.
    pub fn name(&self) -> &Text
        ensures { result.now ≡ self.now.name }
    {
        &self.name
    }

    /// What each parameter ranges over.
    pub fn params(&self) -> &Seq<Over>
        ensures { result.now ≡ self.now.params }
    {
        &self.params
    }

    /// Whether it is tested before others, and alone where it is enabled.
    pub fn forced(&self) -> bool
        ensures { result ≡ self.now.forced }
    {
        self.forced
    }

    /// What must hold, in the order of trial.
    pub fn preconditions(&self) -> &Seq<Cond>
        ensures { result.now ≡ self.now.preconditions }
    {
        &self.preconditions
    }

    /// What it does to each variable that it sets.
    pub fn effects(&self) -> &Seq<Effect>
        ensures { result.now ≡ self.now.effects }
    {
        &self.effects
    }

    /// What is joined to the cost.
    pub fn weight(&self) -> &Option<Num>
        ensures { result.now ≡ self.now.weight }
    {
        &self.weight
    }
}

/// A ground transition: a transition, named by its number, and a value for each parameter.
#[derive(Debug, Drop)]
pub struct Ground {
    pub transition: u32,
    pub args: Seq<u32>,
}

impl Ground {
    /// The number of its transition.
    pub fn transition(&self) -> u32
        ensures { result ≡ self.now.transition }
    {
        self.transition
    }

    /// The values of the parameters.
    pub fn args(&self) -> &Seq<u32>
        ensures { result.now ≡ self.now.args }
    {
        &self.args
    }
}

/// A base case: a state that meets all its conditions is base, with this cost.
#[derive(Debug, Drop)]
pub struct BaseCase {
    pub conditions: Seq<Cond>,
    pub cost: Num,
}

impl BaseCase {
    /// What a base state meets.
    pub fn conditions(&self) -> &Seq<Cond>
        ensures { result.now ≡ self.now.conditions }
    {
        &self.conditions
    }

    /// What such a state costs.
    pub fn cost(&self) -> &Num
        ensures { result.now ≡ self.now.cost }
    {
        &self.cost
    }
}

/// The value of a variable. The members of a set are ascending.
#[derive(Debug, Drop)]
pub enum PlainValue {
    Number(i64),
    Members(Seq<u32>),
}

/// A state: the value of each variable, in order.
#[derive(Debug, Drop)]
pub struct PlainState {
    pub values: Seq<PlainValue>,
}

impl PlainState {
    /// The value of each variable.
    pub fn values(&self) -> &Seq<PlainValue>
        ensures { result.now ≡ self.now.values }
    {
        &self.values
    }
}

/// How costs are joined.
#[derive(Clone, Copy, Debug, PartialEq, Eq)]
pub enum JoinOp {
    Plus,
    Most,
    Least,
}
