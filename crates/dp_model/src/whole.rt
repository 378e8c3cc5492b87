//! A model as a whole, and what every model keeps.

ghost use Rattle.std.specs.Prelude.{◌≡◌, IsTrue};
ghost use Rattle.dp_model.specs.Typing.{are_trees, are_variables, are_tables, is_state, are_grounded};
ghost use Rattle.dp_model.specs.Limits.{are_few_names, are_few_rules};

use crate::parts::{
    BaseCase, Ground, JoinOp, ObjectType, PlainState, TableData, Transition, Variable,
};
use crate::trees::{Cond, Num};
use dp_base::{Seq, Text};

/// A DyPDL model. `minimize` says whether the lesser of two costs is better. `ground` has the ground transitions
/// in order of definition, which every list of steps names by their numbers.
///
/// A model keeps that the object types which its variables and tables name are there, that each table has a cell in
/// range for each choice of arguments, that every expression in it is well typed over them, that its target gives
/// each variable a value of its kind, that each ground transition gives each parameter a value, and that its lists
/// are no longer than the language allows.
#[derive(Debug, Drop)]
pub struct Model {
    pub domain: Text,
    pub problem: Text,
    pub minimize: bool,
    pub join: JoinOp,
    pub objects: Seq<ObjectType>,
    pub variables: Seq<Variable>,
    pub tables: Seq<TableData>,
    pub transitions: Seq<Transition>,
    pub dp_ground: Seq<Ground>,
    pub constraints: Seq<Cond>,
    pub base_cases: Seq<BaseCase>,
    pub bounds: Seq<Num>,
    pub target: PlainState,
    pub ghost kinds: { IsTrue (are_variables objects variables) },
    pub ghost cells: { IsTrue (are_tables objects tables) },
    pub ghost typed: { IsTrue (are_trees objects variables tables transitions constraints base_cases bounds) },
    pub ghost held: { IsTrue (is_state objects variables target) },
    pub ghost grounded: { IsTrue (are_grounded objects variables transitions dp_ground) },
    pub ghost few_names: { IsTrue (are_few_names objects variables tables) },
    pub ghost few_rules: { IsTrue (are_few_rules transitions dp_ground constraints base_cases bounds) },
}

impl Model {
    /// The domain's name.
    pub fn domain(&self) -> &Text
        ensures { result.now ≡ self.now.domain }
    {
        &self.domain
    }

    /// The problem's name.
    pub fn problem(&self) -> &Text
        ensures { result.now ≡ self.now.problem }
    {
        &self.problem
    }

    /// Whether the lesser of two costs is better.
    pub fn minimize(&self) -> bool
        ensures { result ≡ self.now.minimize }
    {
        self.minimize
    }

    /// How costs are joined.
    pub fn join(&self) -> JoinOp
        ensures { result ≡ self.now.join }
    {
        self.join
    }

    /// The object types.
    pub fn objects(&self) -> &Seq<ObjectType>
        ensures { result.now ≡ self.now.objects }
    {
        &self.objects
    }

    /// The state variables.
    pub fn variables(&self) -> &Seq<Variable>
        ensures { result.now ≡ self.now.variables }
    {
        &self.variables
    }

    /// The tables.
    pub fn tables(&self) -> &Seq<TableData>
        ensures { result.now ≡ self.now.tables }
    {
        &self.tables
    }

    /// The transitions, with their parameters.
    pub fn transitions(&self) -> &Seq<Transition>
        ensures { result.now ≡ self.now.transitions }
    {
        &self.transitions
    }

    /// The ground transitions, in order of definition.
    pub fn ground(&self) -> &Seq<Ground>
        ensures { result.now ≡ self.now.dp_ground }
    {
        &self.dp_ground
    }

    /// What every allowed state meets.
    pub fn constraints(&self) -> &Seq<Cond>
        ensures { result.now ≡ self.now.constraints }
    {
        &self.constraints
    }

    /// The base cases.
    pub fn base_cases(&self) -> &Seq<BaseCase>
        ensures { result.now ≡ self.now.base_cases }
    {
        &self.base_cases
    }

    /// The dual bounds.
    pub fn bounds(&self) -> &Seq<Num>
        ensures { result.now ≡ self.now.bounds }
    {
        &self.bounds
    }

    /// The target state.
    pub fn target(&self) -> &PlainState
        ensures { result.now ≡ self.now.target }
    {
        &self.target
    }
}
