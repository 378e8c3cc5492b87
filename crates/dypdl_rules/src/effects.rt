//! Effects: a value for a variable.

ghost use Rattle.std.specs.Prelude.{◌≡◌, ◌++◌, ◌∷◌, [], IfOk, OnOk, option_map, Some};
ghost use Rattle.dp_base.specs.Results.{Answers, AnswersBy, each};
ghost use Rattle.dp_model.specs.Typing.{kind_at, effect_variable};
ghost use Rattle.dypdl_nodes.specs.Reads.{told};
ghost use Rattle.dypdl_data.specs.Names.{known_key};
ghost use Rattle.dypdl_data.specs.Variables.{variable_names};
ghost use Rattle.dypdl_rules.specs.Expressions.{Reading, IsReading};
ghost use Rattle.dypdl_rules.specs.Effects.{effect_on, sets_variable, effect_step, effects_of};

use crate::declarations::Declared;
use crate::expressions;
use dp_base::Seq;
use dp_model::{Effect, VarKind};
use dypdl_nodes::rules::{TWICE_NAME, UNKNOWN_NAME};
use dypdl_nodes::{LoadEnd, entries_or_none, refused};
use std::alloc::{AllocError, Global};
use std::collections::HashSet;
use std::marker::Model;
use yaml_tree::{Pair, Tree};

/// Effects in order, and which variables they set.
#[derive(Drop)]
struct Changes {
    list: Vec<Effect>,
    variables: HashSet<u32>,
}

impl Model for Changes {
    ghost use Rattle.std.specs.Prelude.{◌≡◌, List, ℕ, nat_eq};
    ghost use Rattle.std.specs.HashSet.{contains};
    ghost use Rattle.std.specs.Coded.{codes};
    ghost use Rattle.dp_model.specs.contracts.parts.Effect as effect;
    ghost use Rattle.dp_model.specs.declared.parts.Effect.{Effect as EffectSeen};
    ghost use Rattle.dypdl_rules.specs.Effects.{sets_variable};

    ghost Value = { List EffectSeen };

    ghost coded = { Prim.hlevel (codes, effect.the_row.coded) };

    ghost view = { λ e. e.list.items };

    ghost invariant = { λ e. (v : ℕ) → contains nat_eq e.variables v ≡ sets_variable v e.list.items };
}

impl Changes {
    fn new(alloc: Global) -> Changes
        ensures { result ≡ [] }
    {
        Changes {
            list: Vec::new(alloc),
            variables: HashSet::new(alloc),
        }
    }

    fn sets(&self, variable: u32) -> bool
        ensures { result ≡ sets_variable variable self.now }
    {
        self.variables.contains(&variable)
    }

    /// Adds an effect on this variable.
    fn push(&mut self, variable: u32, effect: Effect) -> Result<(), AllocError>
        requires { effect_variable effect ≡ variable }
        ensures { OnOk result (self.new ≡ self.old ++ effect ∷ []) }
    {
        self.list.reserve(1)?;
        self.variables.insert(variable)?;
        self.list.push(effect)?;
        Ok(())
    }

    fn into_list(self) -> Seq<Effect>
        ensures { result ≡ self }
    {
        let Changes { list, variables: _ } = self;
        Seq::of(list)
    }
}

/// The variable that a key names, and its kind.
fn known_variable(declared: &Declared<'_>, key: &Tree) -> Result<(u32, VarKind), LoadEnd>
    ensures number { AnswersBy told (λ found. found.0) result
        (known_key 30 (variable_names declared.now.lists.variables) key.now) }
    ensures kind { IfOk result (λ found. kind_at declared.now.lists.variables found.0 ≡ Some found.1) }
{
    let found = match key.text() {
        Some(word) => declared.variable(word.as_text()),
        None => None,
    };
    match found {
        Some(found) => Ok(found),
        None => Err(refused(UNKNOWN_NAME, key.place())),
    }
}

/// What a variable of this kind is set to.
fn effect_on(
    alloc: Global,
    declared: &Declared<'_>,
    variable: u32,
    kind: VarKind,
    tree: &Tree,
) -> Result<Effect, LoadEnd>
    ensures effect { (read : Reading) → IsReading read → AnswersBy told (λ effect. effect ∷ []) result
        (effect_on read declared.now.lists declared.now.params variable tree.now (Some kind)) }
    ensures variable { IfOk result (λ effect. effect_variable effect ≡ variable) }
{
    match kind {
        VarKind::Integer | VarKind::Element(_) => Ok(Effect::Number(
            variable,
            expressions::number(alloc, declared, tree)?,
        )),
        VarKind::Set(object) => Ok(Effect::Members(
            variable,
            expressions::members(alloc, declared, object, tree)?,
        )),
    }
}

/// One more effect.
#[tactic(auto, unfolding(crate::specs::Effects::effect_step))]
fn take_effect(
    alloc: Global,
    declared: &Declared<'_>,
    effects: &mut Changes,
    pair: &Pair,
) -> Result<(), LoadEnd>
    ensures { (read : Reading) → IsReading read → AnswersBy told (λ _. effects.new) result
        (effect_step read declared.now.lists declared.now.params effects.old pair.now) }
{
    let (variable, kind) = known_variable(declared, &pair.key)?;
    if effects.sets(variable) {
        return Err(refused(TWICE_NAME, pair.key.place()));
    }
    let effect = effect_on(alloc, declared, variable, kind, &pair.value)?;
    effects.push(variable, effect)?;
    Ok(())
}

/// The effects of these entries.
fn take_effects(
    alloc: Global,
    declared: &Declared<'_>,
    effects: &mut Changes,
    entries: &[Pair],
) -> Result<(), LoadEnd>
    ensures { (read : Reading) → IsReading read → AnswersBy told (λ _. effects.new) result
        (each (effect_step read declared.now.lists declared.now.params) effects.old entries.now) }
{
    for pair in entries {
        take_effect(alloc, declared, effects, pair)?;
    }
    Ok(())
}

/// The effects of a key's map, none where the key is missing.
#[tactic(auto, unfolding(crate::specs::Effects::effects_of))]
pub(crate) fn effects(
    alloc: Global,
    declared: &Declared<'_>,
    tree: Option<&Tree>,
) -> Result<Seq<Effect>, LoadEnd>
    ensures { (read : Reading) → IsReading read → Answers told result
        (effects_of read declared.now.lists declared.now.params (option_map (λ t. t.now) tree.entry)) }
{
    let entries = entries_or_none(tree)?;
    let mut effects = Changes::new(alloc);
    take_effects(alloc, declared, &mut effects, entries)?;
    Ok(effects.into_list())
}
