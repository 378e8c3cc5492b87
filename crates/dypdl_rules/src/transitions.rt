//! Transitions of the domain and of the problem.

ghost use Rattle.std.specs.Prelude.{◌≡◌, ◌≤◌, ◌++◌, ◌∷◌, ◌-◌, [], List, IfOk, OnOk, map, length, option_map};
ghost use Rattle.dp_base.specs.Results.{Answers, AnswersBy, each};
ghost use Rattle.dypdl_nodes.specs.Reads.{told};
ghost use Rattle.dypdl_data.specs.Names.{name_by, is_transition_name};
ghost use Rattle.dypdl_rules.specs.Expressions.{Reading, IsReading};
ghost use Rattle.dypdl_rules.specs.Parameters.{overs};
ghost use Rattle.dypdl_rules.specs.Moves.{weighing, weighing_of, direction_of, Body, body_of, move_of, move_step, moves_of};

use crate::conditions::conditions_of;
use crate::declarations::Declared;
use crate::effects::effects;
use crate::expressions;
use crate::parameters::{params, pop_params, push_params};
use dp_base::{Place, Seq, Text};
use dp_model::{JoinOp, Num, Over, Transition};
use dypdl_data::{owned, transition_name};
use dypdl_nodes::rules::LEFT_OUT;
use dypdl_nodes::{
    LoadEnd, items_or_none, keyed, needed, refused, text_of, truth_or_false, value_in,
};
use dypdl_type::CostForm;
use dypdl_words::Param;
use std::alloc::{AllocError, Global};
use yaml_tree::{Pair, Tree};

/// How many preconditions a transition may have.
const MOST_PRECONDITIONS: usize = 256;

/// How many transitions a model may have.
const MOST_MOVES: usize = 65_536;

/// The operator of a cost expression, at its place.
#[derive(Clone, Copy, Debug, PartialEq, Eq)]
pub struct Joining {
    pub op: JoinOp,
    pub place: Place,
}

/// What a cost expression joins to the cost, and how. Both are missing where it is `cost` alone.
#[derive(Debug, Drop)]
pub struct Weighing {
    pub weight: Option<Num>,
    pub joining: Option<Joining>,
}

/// A transition as it was read, the operator of its cost, and the place of its map.
#[derive(Debug, Drop)]
pub struct Move {
    pub transition: Transition,
    pub joining: Option<Joining>,
    pub place: Place,
}

fn weighing_at(place: Place, form: CostForm) -> Weighing
    ensures { result ≡ weighing place form }
{
    match form {
        CostForm::Bare => Weighing {
            weight: None,
            joining: None,
        },
        CostForm::Joined(op, n) => Weighing {
            weight: Some(n),
            joining: Some(Joining { op, place }),
        },
    }
}

/// What a key's cost expression joins, nothing where the key is missing.
#[tactic(auto, unfolding(crate::specs::Moves::weighing_of))]
fn weighing_of(
    alloc: Global,
    declared: &Declared<'_>,
    tree: Option<&Tree>,
) -> Result<Weighing, LoadEnd>
    ensures { (read : Reading) → IsReading read → Answers told result
        (weighing_of read declared.now.lists declared.now.params (option_map (λ t. t.now) tree.entry)) }
{
    match tree {
        Some(tree) => Ok(weighing_at(tree.place(), expressions::cost(alloc, declared, tree)?)),
        None => Ok(Weighing {
            weight: None,
            joining: None,
        }),
    }
}

/// Whether the transition is a forward one, as every transition here is.
#[tactic(auto, unfolding(crate::specs::Moves::direction_of))]
fn check_direction(tree: Option<&Tree>) -> Result<(), LoadEnd>
    ensures { AnswersBy told (λ _. tt) result (direction_of (option_map (λ t. t.now) tree.entry)) }
{
    let Some(tree) = tree else {
        return Ok(());
    };
    if text_of(tree)? != "forward" {
        return Err(refused(LEFT_OUT, tree.place()));
    }
    Ok(())
}

fn name_of(alloc: Global, tree: &Tree) -> Result<Text, LoadEnd>
    ensures { Answers told result (name_by is_transition_name tree.now) }
{
    Ok(owned(alloc, transition_name(tree)?)?)
}

fn overs(alloc: Global, params: &[Param]) -> Result<Seq<Over>, AllocError>
    ensures { IfOk result (λ list. list ≡ overs params.now) }
{
    let mut list = Vec::new(alloc);
    for param in params {
        list.push(param.over)?;
    }
    Ok(Seq::of(list))
}

/// What a transition does where its parameters are in force.
#[derive(Drop)]
struct Body {
    transition: Transition,
    joining: Option<Joining>,
}

/// The keys behind a transition's parameters, which are in force.
#[tactic(auto, unfolding(crate::specs::Moves::body_of))]
fn body_of(
    alloc: Global,
    declared: &mut Declared<'_>,
    name: Text,
    params: Seq<Over>,
    entries: &[Pair],
) -> Result<Body, LoadEnd>
    requires { params ≡ overs declared.old.params }
    ensures body { (read : Reading) → IsReading read → AnswersBy told
        (λ b. record { transition = b.transition; joining = b.joining }) result
        (body_of read declared.old.lists name declared.old.params entries.now) }
    ensures same { OnOk result (declared.new ≡ declared.old) }
{
    let preconditions = conditions_of(
        alloc,
        declared,
        MOST_PRECONDITIONS,
        value_in(entries, "preconditions"),
    )?;
    let effects = effects(alloc, declared, value_in(entries, "effects"))?;
    let weighing = weighing_of(alloc, declared, value_in(entries, "cost"))?;
    let forced = truth_or_false(value_in(entries, "forced"))?;
    check_direction(value_in(entries, "direction"))?;
    Ok(Body {
        transition: Transition {
            name,
            params,
            forced,
            preconditions,
            effects,
            weight: weighing.weight,
        },
        joining: weighing.joining,
    })
}

/// The body of a transition, with these parameters in force as long as it is read.
fn body_under(
    alloc: Global,
    declared: &mut Declared<'_>,
    name: Text,
    params: &[Param],
    entries: &[Pair],
) -> Result<Body, LoadEnd>
    requires { declared.old.params ≡ [] }
    ensures body { (read : Reading) → IsReading read → AnswersBy told
        (λ b. record { transition = b.transition; joining = b.joining }) result
        (body_of read declared.old.lists name params.now entries.now) }
    ensures same { OnOk result (declared.new ≡ declared.old) }
{
    let overs = overs(alloc, params)?;
    push_params(alloc, declared, params)?;
    let body = body_of(alloc, declared, name, overs, entries)?;
    pop_params(declared, params.len());
    Ok(body)
}

/// A transition.
#[tactic(auto, unfolding(crate::specs::Moves::move_of))]
fn move_of(alloc: Global, declared: &mut Declared<'_>, item: &Tree) -> Result<Move, LoadEnd>
    requires { declared.old.params ≡ [] }
    ensures transition { (read : Reading) → IsReading read → Answers told result (move_of read declared.old.lists item.now) }
    ensures same { OnOk result (declared.new ≡ declared.old) }
{
    let entries = keyed(
        &[
            "name",
            "parameters",
            "preconditions",
            "effects",
            "cost",
            "forced",
            "direction",
        ],
        item,
    )?;
    let name = name_of(alloc, needed(item.place(), entries, "name")?)?;
    let params = params(alloc, declared, value_in(entries, "parameters"))?;
    let body = body_under(alloc, declared, name, &params, entries)?;
    Ok(Move {
        transition: body.transition,
        joining: body.joining,
        place: item.place(),
    })
}

/// Adds the transitions of these items.
fn push_moves(
    alloc: Global,
    declared: &mut Declared<'_>,
    moves: &mut Vec<Move>,
    items: &[Tree],
) -> Result<(), LoadEnd>
    requires { declared.old.params ≡ [] }
    ensures moves { (read : Reading) → IsReading read → AnswersBy told (λ _. moves.new.items) result
        (each (move_step read declared.old.lists) moves.old.items items.now) }
    ensures same { OnOk result (declared.new ≡ declared.old) }
{
    for item in items {
        let one = move_of(alloc, declared, item)?;
        moves.push(one)?;
    }
    Ok(())
}

/// The transitions of the domain and then those of the problem. `TOO_MANY` at the domain's list, or at the problem's
/// where only both together are too many.
pub fn moves(
    alloc: Global,
    declared: &mut Declared<'_>,
    domain: Option<&Tree>,
    problem: Option<&Tree>,
) -> Result<Seq<Move>, LoadEnd>
    requires { declared.old.params ≡ [] }
    ensures moves { (read : Reading) → IsReading read → Answers told result
        (moves_of read declared.old.lists (option_map (λ t. t.now) domain.entry) (option_map (λ t. t.now) problem.entry)) }
    ensures same { OnOk result (declared.new ≡ declared.old) }
{
    let first = items_or_none(MOST_MOVES, domain)?;
    let mut moves = Vec::new(alloc);
    push_moves(alloc, declared, &mut moves, first)?;
    let second = items_or_none(MOST_MOVES - first.len(), problem)?;
    push_moves(alloc, declared, &mut moves, second)?;
    Ok(Seq::of(moves))
}
