//! Conditions: expressions, and maps with a condition that must hold for each choice of some variables.

ghost use Rattle.std.specs.Prelude.{◌≡◌, ◌≤◌, ◌-◌, ◌++◌, [], IfOk, OnOk, length, take, option_map};
ghost use Rattle.dp_base.specs.Results.{Answers, AnswersBy, each};
ghost use Rattle.dypdl_nodes.specs.Reads.{told};
ghost use Rattle.dypdl_rules.specs.Expressions.{Reading, IsReading};
ghost use Rattle.dypdl_rules.specs.Conditions.{for_all, quantifier_of, condition_within, condition_of, condition_step, conditions_in, conditions_of};

use crate::declarations::Declared;
use crate::expressions;
use crate::parameters::{params, pop_params, push_params};
use dp_base::{Boxed, Place, Seq};
use dp_model::Cond;
use dypdl_nodes::rules::WRONG_SHAPE;
use dypdl_nodes::{LoadEnd, items_or_none, known_keys, needed, refused, value_in};
use dypdl_words::Param;
use std::alloc::{AllocError, Global};
use yaml_tree::{Pair, Tree};

/// How many maps a condition may stand in. No tree that is read is deeper.
const MOST_LEVELS: u32 = 64;

/// A node deeper than trees are read.
const TOO_DEEP: u8 = 16;

/// A condition for each choice of these variables, the first slowest.
fn for_all(alloc: Global, params: &[Param], c: Cond) -> Result<Cond, AllocError>
    ensures { IfOk result (λ all. all ≡ for_all params.now c) }
{
    match params {
        [] => Ok(c),
        [first, others @ ..] => {
            let inner = for_all(alloc, others, c)?;
            Ok(Cond::All(first.over, Boxed::new(alloc, inner)?))
        }
    }
}

/// The variables of a map and its condition, which stands in their force.
#[derive(Drop)]
struct Quantified<'t> {
    params: Vec<Param>,
    condition: &'t Tree,
}

fn quantifier<'t>(
    alloc: Global,
    declared: &Declared<'_>,
    place: Place,
    entries: &'t [Pair],
) -> Result<Quantified<'t>, LoadEnd>
    ensures { AnswersBy told (λ q. record { condition = q.condition.now; params = q.params.items }) result
        (quantifier_of declared.now.lists place entries.now) }
{
    let known = known_keys(&["condition", "forall"], entries)?;
    let condition = needed(place, known, "condition")?;
    let params = params(alloc, declared, value_in(known, "forall"))?;
    Ok(Quantified { params, condition })
}

/// Reads the variables of a map and puts them into force.
fn enter<'t>(
    alloc: Global,
    declared: &mut Declared<'_>,
    place: Place,
    entries: &'t [Pair],
) -> Result<Quantified<'t>, LoadEnd>
    ensures quantifier { AnswersBy told (λ q. record { condition = q.condition.now; params = q.params.items }) result
        (quantifier_of declared.old.lists place entries.now) }
    ensures entered { IfOk result (λ q. declared.new ≡ record declared.old { params = declared.old.params ++ q.params.items }) }
{
    let quantifier = quantifier(alloc, declared, place, entries)?;
    push_params(alloc, declared, &quantifier.params)?;
    Ok(quantifier)
}

/// Puts these variables out of force, and quantifies a condition by them.
fn leave(
    alloc: Global,
    declared: &mut Declared<'_>,
    params: &[Param],
    c: Cond,
) -> Result<Cond, AllocError>
    requires { length params.now ≤ length declared.old.params }
    ensures all { IfOk result (λ all. all ≡ for_all params.now c) }
    ensures left { declared.new ≡ record declared.old { params = take (length declared.old.params - length params.now) declared.old.params } }
{
    pop_params(declared, params.len());
    for_all(alloc, params, c)
}

/// A condition with at most so many maps inside one another. Where it is `Ok` the parameters in force are as before.
#[tactic(auto, using(crate::proofs::Lists::popped), unfolding(crate::specs::Conditions::condition_within))]
fn condition_within(
    alloc: Global,
    declared: &mut Declared<'_>,
    levels: u32,
    tree: &Tree,
) -> Result<Cond, LoadEnd>
    ensures condition { (read : Reading) → IsReading read → Answers told result
        (condition_within read declared.old.lists levels declared.old.params tree.now) }
    ensures same { OnOk result (declared.new ≡ declared.old) }
{
    let Some(inner) = levels.checked_sub(1) else {
        return Err(refused(TOO_DEEP, tree.place()));
    };
    let (place, entries) = match tree {
        Tree::Scalar(_, _) => return expressions::condition(alloc, declared, tree),
        Tree::List(place, _) => return Err(refused(WRONG_SHAPE, *place)),
        Tree::Map(place, entries) => (*place, entries.list()),
    };
    let quantified = enter(alloc, declared, place, entries)?;
    let c = condition_within(alloc, declared, inner, quantified.condition)?;
    Ok(leave(alloc, declared, &quantified.params, c)?)
}

/// A condition. Where it is `Ok` the parameters in force are as before.
pub(crate) fn condition(
    alloc: Global,
    declared: &mut Declared<'_>,
    tree: &Tree,
) -> Result<Cond, LoadEnd>
    ensures condition { (read : Reading) → IsReading read → Answers told result
        (condition_of read declared.old.lists declared.old.params tree.now) }
    ensures same { OnOk result (declared.new ≡ declared.old) }
{
    condition_within(alloc, declared, MOST_LEVELS, tree)
}

/// Adds the conditions of these items.
pub(crate) fn push_conditions(
    alloc: Global,
    declared: &mut Declared<'_>,
    conditions: &mut Vec<Cond>,
    items: &[Tree],
) -> Result<(), LoadEnd>
    ensures conditions { (read : Reading) → IsReading read → AnswersBy told (λ _. conditions.new.items) result
        (each (condition_step read declared.old.lists declared.old.params) conditions.old.items items.now) }
    ensures same { OnOk result (declared.new ≡ declared.old) }
{
    for item in items {
        let c = condition(alloc, declared, item)?;
        conditions.push(c)?;
    }
    Ok(())
}

/// The conditions of these items.
pub(crate) fn conditions_in(
    alloc: Global,
    declared: &mut Declared<'_>,
    items: &[Tree],
) -> Result<Seq<Cond>, LoadEnd>
    ensures conditions { (read : Reading) → IsReading read → Answers told result
        (conditions_in read declared.old.lists declared.old.params items.now) }
    ensures same { OnOk result (declared.new ≡ declared.old) }
{
    let mut conditions = Vec::new(alloc);
    push_conditions(alloc, declared, &mut conditions, items)?;
    Ok(Seq::of(conditions))
}

/// The conditions of a key's list, at most so many, none where the key is missing.
#[tactic(auto, unfolding(crate::specs::Conditions::conditions_of))]
pub(crate) fn conditions_of(
    alloc: Global,
    declared: &mut Declared<'_>,
    most: usize,
    tree: Option<&Tree>,
) -> Result<Seq<Cond>, LoadEnd>
    ensures conditions { (read : Reading) → IsReading read → Answers told result
        (conditions_of read declared.old.lists declared.old.params most (option_map (λ t. t.now) tree.entry)) }
    ensures same { OnOk result (declared.new ≡ declared.old) }
{
    conditions_in(alloc, declared, items_or_none(most, tree)?)
}
