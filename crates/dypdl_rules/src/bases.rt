//! Base cases, state constraints and dual bounds of the domain and of the problem.

ghost use Rattle.std.specs.Prelude.{◌≡◌, ◌≤◌, ◌++◌, ◌∷◌, ◌-◌, [], List, IfOk, OnOk, length, option_map};
ghost use Rattle.dp_base.specs.Results.{Answers, AnswersBy, each};
ghost use Rattle.dypdl_nodes.specs.Reads.{told};
ghost use Rattle.dypdl_rules.specs.Expressions.{Reading, IsReading};
ghost use Rattle.dypdl_rules.specs.BaseCases.{number_in, base_cost_of, listed_case, mapped_case, base_case_of, base_case_step, bound_step, constraints_of, base_cases_of, bounds_of};

use crate::conditions::{conditions_in, push_conditions};
use crate::declarations::Declared;
use crate::expressions;
use dp_base::{Place, Seq};
use dp_model::{BaseCase, Cond, Num};
use dypdl_nodes::{LoadEnd, few_items, items_or_none, known_keys, needed, value_in};
use std::alloc::Global;
use yaml_tree::{Pair, Tree};

/// How many conditions a base case may have.
const MOST_CONDITIONS: usize = 256;

/// How many constraints and how many base cases a model may have.
const MOST_RULES: usize = 65_536;

/// How many dual bounds a model may have.
const MOST_BOUNDS: usize = 1_024;

/// A number expression where no parameters are in force.
#[tactic(auto, unfolding(crate::specs::BaseCases::number_in))]
fn number_in(alloc: Global, declared: &Declared<'_>, tree: &Tree) -> Result<Num, LoadEnd>
    requires { declared.now.params ≡ [] }
    ensures { (read : Reading) → IsReading read → Answers told result (number_in read declared.now.lists tree.now) }
{
    expressions::number(alloc, declared, tree)
}

/// The cost of a base case, 0 where none is given.
fn base_cost(alloc: Global, declared: &Declared<'_>, tree: Option<&Tree>) -> Result<Num, LoadEnd>
    requires { declared.now.params ≡ [] }
    ensures { (read : Reading) → IsReading read → Answers told result
        (base_cost_of read declared.now.lists (option_map (λ t. t.now) tree.entry)) }
{
    match tree {
        Some(tree) => number_in(alloc, declared, tree),
        None => Ok(Num::Fixed(0)),
    }
}

/// A base case that is a list of conditions.
fn listed_case(alloc: Global, declared: &mut Declared<'_>, tree: &Tree) -> Result<BaseCase, LoadEnd>
    requires { declared.old.params ≡ [] }
    ensures base_case { (read : Reading) → IsReading read → Answers told result (listed_case read declared.old.lists tree.now) }
    ensures same { OnOk result (declared.new ≡ declared.old) }
{
    let items = few_items(MOST_CONDITIONS, tree)?;
    Ok(BaseCase {
        conditions: conditions_in(alloc, declared, items)?,
        cost: Num::Fixed(0),
    })
}

/// A base case that is a map.
fn mapped_case(
    alloc: Global,
    declared: &mut Declared<'_>,
    place: Place,
    entries: &[Pair],
) -> Result<BaseCase, LoadEnd>
    requires { declared.old.params ≡ [] }
    ensures base_case { (read : Reading) → IsReading read → Answers told result
        (mapped_case read declared.old.lists place entries.now) }
    ensures same { OnOk result (declared.new ≡ declared.old) }
{
    let known = known_keys(&["conditions", "cost"], entries)?;
    let items = few_items(MOST_CONDITIONS, needed(place, known, "conditions")?)?;
    let conditions = conditions_in(alloc, declared, items)?;
    let cost = base_cost(alloc, declared, value_in(known, "cost"))?;
    Ok(BaseCase { conditions, cost })
}

fn base_case(alloc: Global, declared: &mut Declared<'_>, tree: &Tree) -> Result<BaseCase, LoadEnd>
    requires { declared.old.params ≡ [] }
    ensures base_case { (read : Reading) → IsReading read → Answers told result (base_case_of read declared.old.lists tree.now) }
    ensures same { OnOk result (declared.new ≡ declared.old) }
{
    match tree {
        Tree::Map(place, entries) => mapped_case(alloc, declared, *place, entries.list()),
        Tree::List(_, _) | Tree::Scalar(_, _) => listed_case(alloc, declared, tree),
    }
}

fn push_base_cases(
    alloc: Global,
    declared: &mut Declared<'_>,
    cases: &mut Vec<BaseCase>,
    items: &[Tree],
) -> Result<(), LoadEnd>
    requires { declared.old.params ≡ [] }
    ensures cases { (read : Reading) → IsReading read → AnswersBy told (λ _. cases.new.items) result
        (each (base_case_step read declared.old.lists) cases.old.items items.now) }
    ensures same { OnOk result (declared.new ≡ declared.old) }
{
    for item in items {
        let case = base_case(alloc, declared, item)?;
        cases.push(case)?;
    }
    Ok(())
}

fn push_bounds(
    alloc: Global,
    declared: &Declared<'_>,
    bounds: &mut Vec<Num>,
    items: &[Tree],
) -> Result<(), LoadEnd>
    requires { declared.now.params ≡ [] }
    ensures { (read : Reading) → IsReading read → AnswersBy told (λ _. bounds.new.items) result
        (each (bound_step read declared.now.lists) bounds.old.items items.now) }
{
    for item in items {
        let bound = number_in(alloc, declared, item)?;
        bounds.push(bound)?;
    }
    Ok(())
}

/// The state constraints of the domain and then those of the problem.
pub fn constraints(
    alloc: Global,
    declared: &mut Declared<'_>,
    domain: Option<&Tree>,
    problem: Option<&Tree>,
) -> Result<Seq<Cond>, LoadEnd>
    requires { declared.old.params ≡ [] }
    ensures constraints { (read : Reading) → IsReading read → Answers told result
        (constraints_of read declared.old.lists (option_map (λ t. t.now) domain.entry) (option_map (λ t. t.now) problem.entry)) }
    ensures same { OnOk result (declared.new ≡ declared.old) }
{
    let first = items_or_none(MOST_RULES, domain)?;
    let mut constraints = Vec::new(alloc);
    push_conditions(alloc, declared, &mut constraints, first)?;
    let second = items_or_none(MOST_RULES - first.len(), problem)?;
    push_conditions(alloc, declared, &mut constraints, second)?;
    Ok(Seq::of(constraints))
}

/// The base cases of the domain and then those of the problem.
pub fn base_cases(
    alloc: Global,
    declared: &mut Declared<'_>,
    domain: Option<&Tree>,
    problem: Option<&Tree>,
) -> Result<Seq<BaseCase>, LoadEnd>
    requires { declared.old.params ≡ [] }
    ensures cases { (read : Reading) → IsReading read → Answers told result
        (base_cases_of read declared.old.lists (option_map (λ t. t.now) domain.entry) (option_map (λ t. t.now) problem.entry)) }
    ensures same { OnOk result (declared.new ≡ declared.old) }
{
    let first = items_or_none(MOST_RULES, domain)?;
    let mut cases = Vec::new(alloc);
    push_base_cases(alloc, declared, &mut cases, first)?;
    let second = items_or_none(MOST_RULES - first.len(), problem)?;
    push_base_cases(alloc, declared, &mut cases, second)?;
    Ok(Seq::of(cases))
}

/// The dual bounds of the domain and then those of the problem.
pub fn bounds(
    alloc: Global,
    declared: &Declared<'_>,
    domain: Option<&Tree>,
    problem: Option<&Tree>,
) -> Result<Seq<Num>, LoadEnd>
    requires { declared.now.params ≡ [] }
    ensures { (read : Reading) → IsReading read → Answers told result
        (bounds_of read declared.now.lists (option_map (λ t. t.now) domain.entry) (option_map (λ t. t.now) problem.entry)) }
{
    let first = items_or_none(MOST_BOUNDS, domain)?;
    let mut bounds = Vec::new(alloc);
    push_bounds(alloc, declared, &mut bounds, first)?;
    let second = items_or_none(MOST_BOUNDS - first.len(), problem)?;
    push_bounds(alloc, declared, &mut bounds, second)?;
    Ok(Seq::of(bounds))
}
