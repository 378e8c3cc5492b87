//! The model that the trees of a domain and a problem mean.

ghost use Rattle.std.specs.Prelude.{◌≡◌, ◌≤◌, [], length, IfOk};
ghost use Rattle.dp_base.specs.Results.{Answers, AnswersBy};
ghost use Rattle.yaml_tree.specs.Fields.{tree_place};
ghost use Rattle.dypdl_nodes.specs.Reads.{told};
ghost use Rattle.dypdl_data.specs.Target.{target_of};
ghost use Rattle.dypdl_rules.specs.Expressions.{Reading, IsReading};
ghost use Rattle.dypdl_load.specs.Together.{transitions_of};
ghost use Rattle.dypdl_load.specs.Meaning.{declared_of, data_of, some_base, state_rules_of, rules_of, grounded_of, parts_with, meaning, parts_of};
ghost use Rattle.dypdl_load.specs.Facts.{Facts};
ghost use Rattle.dypdl_load.specs.Seen.{settings_seen, lists_seen, data_seen, state_rules_seen, rules_seen, parts_seen};

use crate::settings::{Settings, read_settings};
use crate::together::{grounds_of, join_of, texts_of};
use dp_base::{Place, Seq, Text};
use dp_model::{
    BaseCase, Cond, Ground, JoinOp, Model, Num, ObjectType, PlainState, TableData, Transition,
    Variable,
};
use dypdl_data::{ConstantTables, ObjectTypes, StateVariables, objects, tables, target, variables};
use dypdl_nodes::rules::NO_BASE;
use dypdl_nodes::{LoadEnd, refused, value_in};
use dypdl_rules::{Declared, Move, base_cases, bounds, constraints, moves};
use std::alloc::{AllocError, Global};
use yaml_tree::Tree;

/// What both files declare: object types with their numbers, variables, and tables with their cells.
#[derive(Drop)]
pub struct Lists<'a> {
    pub objects: ObjectTypes<'a>,
    pub variables: StateVariables<'a>,
    pub tables: ConstantTables<'a>,
}

/// What both files declare, without their names' numbers, and the target.
#[derive(Drop)]
pub struct Data {
    pub objects: Seq<ObjectType>,
    pub variables: Seq<Variable>,
    pub tables: Seq<TableData>,
    pub target: PlainState,
}

/// What both files say of states.
#[derive(Drop)]
pub struct StateRules {
    pub constraints: Seq<Cond>,
    pub base_cases: Seq<BaseCase>,
    pub bounds: Seq<Num>,
}

/// What both files say of states and steps.
#[derive(Drop)]
pub struct Rules {
    pub moves: Seq<Move>,
    pub join: JoinOp,
    pub constraints: Seq<Cond>,
    pub base_cases: Seq<BaseCase>,
    pub bounds: Seq<Num>,
}

/// The parts of a model.
#[derive(Drop)]
pub struct Parts {
    pub domain: Text,
    pub problem: Text,
    pub minimize: bool,
    pub join: JoinOp,
    pub objects: Seq<ObjectType>,
    pub variables: Seq<Variable>,
    pub tables: Seq<TableData>,
    pub transitions: Seq<Transition>,
    pub grounds: Seq<Ground>,
    pub constraints: Seq<Cond>,
    pub base_cases: Seq<BaseCase>,
    pub bounds: Seq<Num>,
    pub target: PlainState,
}

/// What both files declare. `problem` is the place of the problem.
#[tactic(auto, unfolding(crate::specs::Meaning::declared_of))]
fn lists_of<'a>(
    alloc: Global,
    problem: Place,
    settings: &Settings<'a>,
) -> Result<Lists<'a>, LoadEnd>
    ensures { AnswersBy told lists_seen result (declared_of problem (settings_seen settings.now)) }
{
    let declared = settings.domain.entries;
    let given = settings.problem.entries;
    let objects = objects(
        alloc,
        problem,
        value_in(declared, "objects"),
        value_in(given, "object_numbers"),
    )?;
    let variables = variables(alloc, &objects, settings.domain.needed)?;
    let tables = tables(
        alloc,
        &objects,
        &variables,
        value_in(declared, "tables"),
        value_in(given, "table_values"),
    )?;
    Ok(Lists {
        objects,
        variables,
        tables,
    })
}

/// The target, which the problem must have.
fn read_target(
    alloc: Global,
    settings: &Settings<'_>,
    lists: &Lists<'_>,
) -> Result<PlainState, LoadEnd>
    ensures { Answers told result (target_of (lists_seen lists.now).objects (lists_seen lists.now).variables
        (settings_seen settings.now).problem.needed) }
{
    target(
        alloc,
        &lists.objects.list,
        &lists.variables,
        settings.problem.needed,
    )
}

/// What both files declare, and the target. `problem` is the place of the problem.
#[tactic(auto, unfolding(crate::specs::Meaning::data_of))]
fn read_data(alloc: Global, problem: Place, settings: &Settings<'_>) -> Result<Data, LoadEnd>
    ensures { AnswersBy told data_seen result (data_of problem (settings_seen settings.now)) }
{
    let lists = lists_of(alloc, problem, settings)?;
    let target = read_target(alloc, settings, &lists)?;
    let Lists {
        objects,
        variables,
        tables,
    } = lists;
    Ok(Data {
        objects: objects.list,
        variables: variables.list,
        tables: tables.list,
        target,
    })
}

/// A model has a base case. `domain` is the place of the domain.
fn check_base(domain: Place, base_cases: &Seq<BaseCase>) -> Result<(), LoadEnd>
    ensures { AnswersBy told (λ _. base_cases.now) result (some_base domain base_cases.now) }
{
    if base_cases.list().is_empty() {
        return Err(refused(NO_BASE, domain));
    }
    Ok(())
}

/// What both files say of states. `domain` is the place of the domain.
#[tactic(auto, unfolding(crate::specs::Meaning::state_rules_of))]
fn read_state_rules(
    alloc: Global,
    domain: Place,
    settings: &Settings<'_>,
    declared: &mut Declared<'_>,
) -> Result<StateRules, LoadEnd>
    requires { declared.old.params ≡ [] }
    ensures { (read : Reading) → IsReading read → AnswersBy told state_rules_seen result
        (state_rules_of read domain (settings_seen settings.now) declared.old.lists) }
{
    let first = settings.domain.entries;
    let second = settings.problem.entries;
    let constraints = constraints(
        alloc,
        declared,
        value_in(first, "constraints"),
        value_in(second, "constraints"),
    )?;
    let base_cases = base_cases(
        alloc,
        declared,
        value_in(first, "base_cases"),
        value_in(second, "base_cases"),
    )?;
    let bounds = bounds(
        alloc,
        declared,
        value_in(first, "dual_bounds"),
        value_in(second, "dual_bounds"),
    )?;
    check_base(domain, &base_cases)?;
    Ok(StateRules {
        constraints,
        base_cases,
        bounds,
    })
}

/// What both files say of states and steps. `domain` is the place of the domain.
#[tactic(auto, unfolding(crate::specs::Meaning::rules_of))]
fn read_rules(
    alloc: Global,
    domain: Place,
    settings: &Settings<'_>,
    given: &Data,
) -> Result<Rules, LoadEnd>
    ensures rules { (read : Reading) → IsReading read → AnswersBy told rules_seen result
        (rules_of read domain (settings_seen settings.now) (data_seen given.now).declared) }
    ensures few { IfOk result (λ r. length r.moves ≤ 65536) }
{
    let mut declared = Declared::new(alloc, &given.objects, &given.variables, &given.tables)?;
    let moves = moves(
        alloc,
        &mut declared,
        value_in(settings.domain.entries, "transitions"),
        value_in(settings.problem.entries, "transitions"),
    )?;
    let join = join_of(moves.list())?;
    let StateRules {
        constraints,
        base_cases,
        bounds,
    } = read_state_rules(alloc, domain, settings, &mut declared)?;
    Ok(Rules {
        moves,
        join,
        constraints,
        base_cases,
        bounds,
    })
}

/// The ground transitions, where no two steps have one text.
fn read_grounds(alloc: Global, given: &Data, moves: &[Move]) -> Result<Seq<Ground>, LoadEnd>
    requires { length moves.now ≤ 65536 }
    ensures { Answers told result (grounded_of (data_seen given.now).declared moves.now) }
{
    let grounds = grounds_of(alloc, &given.objects, &given.variables, moves)?;
    texts_of(alloc, moves, grounds.list())?;
    Ok(grounds)
}

fn transitions_of(alloc: Global, moves: Seq<Move>) -> Result<Seq<Transition>, AllocError>
    ensures { IfOk result (λ ts. ts ≡ transitions_of moves) }
{
    let mut transitions = Vec::new(alloc);
    for item in moves.into_list() {
        transitions.push(item.transition)?;
    }
    Ok(Seq::of(transitions))
}

fn owned(alloc: Global, text: &str) -> Result<Text, AllocError>
    ensures { IfOk result (λ t. t ≡ text.now) }
{
    Ok(Text::of(String::from_str(alloc, text)?))
}

/// The parts of a model that were read.
fn assembled(
    alloc: Global,
    settings: &Settings<'_>,
    given: Data,
    rules: Rules,
    grounds: Seq<Ground>,
) -> Result<Parts, AllocError>
    ensures { IfOk result (λ p. parts_seen p ≡ parts_with (settings_seen settings.now)
        (data_seen given).declared (data_seen given).target (rules_seen rules) grounds) }
{
    let domain = owned(alloc, settings.domain_title)?;
    let problem = owned(alloc, settings.problem_title)?;
    let transitions = transitions_of(alloc, rules.moves)?;
    Ok(Parts {
        domain,
        problem,
        minimize: settings.minimize,
        join: rules.join,
        objects: given.objects,
        variables: given.variables,
        tables: given.tables,
        transitions,
        grounds,
        constraints: rules.constraints,
        base_cases: rules.base_cases,
        bounds: rules.bounds,
        target: given.target,
    })
}

/// The parts of the model that two trees mean.
#[tactic(auto, unfolding(crate::specs::Meaning::meaning))]
fn read_parts<'a>(alloc: Global, domain: &'a Tree, problem: &'a Tree) -> Result<Parts, LoadEnd>
    ensures { (read : Reading) → IsReading read → AnswersBy told parts_seen result
        (meaning read domain.now problem.now) }
{
    let settings = read_settings(domain, problem)?;
    let given = read_data(alloc, problem.place(), &settings)?;
    let rules = read_rules(alloc, domain.place(), &settings, &given)?;
    let grounds = read_grounds(alloc, &given, rules.moves.list())?;
    Ok(assembled(alloc, &settings, given, rules, grounds)?)
}

/// The model of these parts, which fit together.
fn model_of(parts: Parts) -> Model
    requires { Facts (parts_seen parts) }
    ensures { parts_of result ≡ parts_seen parts }
{
    Model {
        domain: parts.domain,
        problem: parts.problem,
        minimize: parts.minimize,
        join: parts.join,
        objects: parts.objects,
        variables: parts.variables,
        tables: parts.tables,
        transitions: parts.transitions,
        dp_ground: parts.grounds,
        constraints: parts.constraints,
        base_cases: parts.base_cases,
        bounds: parts.bounds,
        target: parts.target,
    }
}

/// The model that the trees of a domain and a problem mean.
///
/// # Errors
/// The first refusal, in the order of the settings of both files, what they declare, the target, the rules, and what is
/// asked of all steps together; or want of memory.
pub fn load(alloc: Global, domain: &Tree, problem: &Tree) -> Result<Model, LoadEnd>
    ensures { (read : Reading) → IsReading read → AnswersBy told parts_of result
        (meaning read domain.now problem.now) }
{
    Ok(model_of(read_parts(alloc, domain, problem)?))
}
