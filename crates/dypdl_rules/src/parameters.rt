//! Parameters of transitions, and variables of a `forall`.

ghost use Rattle.std.specs.Prelude.{◌≡◌, ◌≤◌, ◌-◌, ◌++◌, [], IfOk, OnOk, length, take, option_map};
ghost use Rattle.dp_base.specs.Results.{Answers, AnswersBy, each};
ghost use Rattle.dypdl_nodes.specs.Reads.{told};
ghost use Rattle.dypdl_nodes.specs.Shapes.{is_among};
ghost use Rattle.dypdl_data.specs.Names.{new_name};
ghost use Rattle.dypdl_rules.specs.Declarations.{taken_names};
ghost use Rattle.dypdl_rules.specs.Parameters.{over_named, over_of, param_names, param_of, params_of};

use crate::declarations::Declared;
use dp_model::{Over, VarKind};
use dypdl_data::{owned, word_name};
use dypdl_nodes::rules::{TWICE_NAME, UNKNOWN_NAME};
use dypdl_nodes::{LoadEnd, items_or_none, keyed, needed, refused, text_of};
use dypdl_words::Param;
use std::alloc::{AllocError, Global};
use yaml_tree::Tree;

/// How many parameters a transition may have, and how many variables a `forall`.
const MOST_PARAMS: usize = 4;

/// What a name stands for as what a parameter ranges over: an object type, or else the members of a set variable.
fn over_named(declared: &Declared<'_>, word: &str) -> Option<Over>
    ensures { result ≡ over_named declared.now.lists word.now }
{
    if let Some(object) = declared.object(word) {
        return Some(Over::Object(object));
    }
    match declared.variable(word) {
        Some((variable, VarKind::Set(_))) => Some(Over::Members(variable)),
        Some((_, VarKind::Element(_) | VarKind::Integer)) | None => None,
    }
}

fn over_of(declared: &Declared<'_>, tree: &Tree) -> Result<Over, LoadEnd>
    ensures { Answers told result (over_of declared.now.lists tree.now) }
{
    match over_named(declared, text_of(tree)?) {
        Some(over) => Ok(over),
        None => Err(refused(UNKNOWN_NAME, tree.place())),
    }
}

/// Whether one of these parameters has this name.
fn is_param(params: &[Param], word: &str) -> bool
    ensures { result ≡ is_among (param_names params.now) word.now }
{
    for param in params {
        if word == param.name.as_text() {
            return true;
        }
    }
    false
}

/// A name that nothing else has.
fn new_name<'t>(declared: &Declared<'_>, done: &[Param], tree: &'t Tree) -> Result<&'t str, LoadEnd>
    ensures { AnswersBy told (λ name. name.now) result
        (new_name (taken_names declared.now.lists ++ param_names done.now) tree.now) }
{
    let word = word_name(tree)?;
    if declared.has(word) || is_param(done, word) {
        return Err(refused(TWICE_NAME, tree.place()));
    }
    Ok(word)
}

/// One more parameter.
fn param(
    alloc: Global,
    declared: &Declared<'_>,
    done: &[Param],
    item: &Tree,
) -> Result<Param, LoadEnd>
    ensures { Answers told result (param_of declared.now.lists done.now item.now) }
{
    let entries = keyed(&["name", "object"], item)?;
    let name = needed(item.place(), entries, "name")?;
    let object = needed(item.place(), entries, "object")?;
    let name = new_name(declared, done, name)?;
    let over = over_of(declared, object)?;
    Ok(Param {
        name: owned(alloc, name)?,
        over,
    })
}

/// The parameters of a list, which may be missing. Nothing of it is in force yet.
pub(crate) fn params(
    alloc: Global,
    declared: &Declared<'_>,
    tree: Option<&Tree>,
) -> Result<Vec<Param>, LoadEnd>
    ensures { AnswersBy told (λ params. params.items) result
        (params_of declared.now.lists (option_map (λ t. t.now) tree.entry)) }
{
    let mut params = Vec::new(alloc);
    for item in items_or_none(MOST_PARAMS, tree)? {
        let param = param(alloc, declared, &params, item)?;
        params.push(param)?;
    }
    Ok(params)
}

/// Puts these parameters into force, the innermost one last.
pub(crate) fn push_params(
    alloc: Global,
    declared: &mut Declared<'_>,
    params: &[Param],
) -> Result<(), AllocError>
    ensures { OnOk result (declared.new ≡ record declared.old { params = declared.old.params ++ params.now }) }
{
    for param in params {
        declared.push_param(alloc, param)?;
    }
    Ok(())
}

/// Puts the innermost parameters out of force, so many.
#[tactic(auto, using(crate::proofs::Lists::fewer))]
pub(crate) fn pop_params(declared: &mut Declared<'_>, count: usize)
    requires { count ≤ length declared.old.params }
    ensures { declared.new ≡ record declared.old { params = take (length declared.old.params - count) declared.old.params } }
{
    for _popped in 0..count {
        declared.pop_param();
    }
}
