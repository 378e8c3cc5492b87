//! State variables.

ghost use Rattle.std.specs.Prelude.{◌≡◌, ◌≤◌, ◌+◌, ◌++◌, ◌∷◌, [], IfOk, length, option_map};
ghost use Rattle.dp_base.specs.Results.{Answers, AnswersBy};
ghost use Rattle.dypdl_nodes.specs.Reads.{told};
ghost use Rattle.dypdl_data.specs.Names.{new_name};
ghost use Rattle.dypdl_data.specs.Variables.{variable_names, object_at, kind_named, kind_of, preference_named, preference_of, variable_of, variable_step, variables_of};

use crate::names::{Names, word_name};
use crate::object_types::{ObjectTypes, owned};
use dp_base::{Place, Seq};
use dp_model::{Preference, VarKind, Variable};
use dypdl_nodes::rules::{CONTINUOUS, TWICE_NAME, WRONG_SHAPE};
use dypdl_nodes::{LoadEnd, few_items, keyed, needed, refused, text_of, value_in};
use std::alloc::Global;
use yaml_tree::{Pair, Tree};

/// The state variables of a model, and the numbers of their names.
#[derive(Drop)]
pub struct StateVariables<'a> {
    pub names: Names<'a>,
    pub list: Seq<Variable>,
    pub ghost named: { names ≡ variable_names list },
    pub ghost few: { length list ≤ 1024 },
}

/// The object type that the map at this place must name.
pub fn object_at(objects: &ObjectTypes<'_>, at: Place, entries: &[Pair]) -> Result<u32, LoadEnd>
    ensures { Answers told result (object_at objects.now.list at entries.now) }
{
    objects.known(needed(at, entries, "object")?)
}

fn kind_of(
    objects: &ObjectTypes<'_>,
    at: Place,
    entries: &[Pair],
    tree: &Tree,
) -> Result<VarKind, LoadEnd>
    ensures { Answers told result (kind_of objects.now.list at entries.now tree.now) }
{
    match text_of(tree)? {
        "integer" => Ok(VarKind::Integer),
        "element" => Ok(VarKind::Element(object_at(objects, at, entries)?)),
        "set" => Ok(VarKind::Set(object_at(objects, at, entries)?)),
        "continuous" => Err(refused(CONTINUOUS, tree.place())),
        _ => Err(refused(WRONG_SHAPE, tree.place())),
    }
}

fn preference_named(at: Place, word: &str) -> Result<Preference, LoadEnd>
    ensures { Answers told result (preference_named at word.now) }
{
    match word {
        "less" => Ok(Preference::Less),
        "greater" => Ok(Preference::Greater),
        _ => Err(refused(WRONG_SHAPE, at)),
    }
}

fn preference_of(kind: VarKind, tree: Option<&Tree>) -> Result<Preference, LoadEnd>
    ensures { Answers told result (preference_of kind (option_map (λ t. t.now) tree.entry)) }
{
    let Some(tree) = tree else {
        return Ok(Preference::Without);
    };
    match kind {
        VarKind::Set(_) => Err(refused(WRONG_SHAPE, tree.place())),
        VarKind::Integer | VarKind::Element(_) => preference_named(tree.place(), text_of(tree)?),
    }
}

/// Takes a name that none of these and of the object types is.
#[tactic(auto, using(crate::proofs::Texts::among_append))]
fn new_name<'a>(
    objects: &Names<'_>,
    names: &mut Names<'a>,
    tree: &'a Tree,
) -> Result<&'a str, LoadEnd>
    ensures name { AnswersBy told (λ word. word.now) result (new_name (objects.now ++ names.old) tree.now) }
    ensures added { IfOk result (λ word. names.new ≡ names.old ++ word.now ∷ []) }
{
    let word = word_name(tree)?;
    if objects.has(word) || !names.add(word)? {
        return Err(refused(TWICE_NAME, tree.place()));
    }
    Ok(word)
}

fn variable_of<'a>(
    alloc: Global,
    objects: &ObjectTypes<'_>,
    names: &mut Names<'a>,
    item: &'a Tree,
) -> Result<Variable, LoadEnd>
    ensures variable { Answers told result (variable_of objects.now.list (objects.now.names ++ names.old) item.now) }
    ensures named { IfOk result (λ v. names.new ≡ names.old ++ v.name ∷ []) }
{
    let place = item.place();
    let entries = keyed(&["name", "type", "object", "preference"], item)?;
    let name = needed(place, entries, "name")?;
    let kind = needed(place, entries, "type")?;
    let name = new_name(&objects.names, names, name)?;
    let kind = kind_of(objects, place, entries, kind)?;
    let preference = preference_of(kind, value_in(entries, "preference"))?;
    Ok(Variable {
        name: owned(alloc, name)?,
        kind,
        preference,
    })
}

fn take_variable<'a>(
    alloc: Global,
    objects: &ObjectTypes<'_>,
    names: &mut Names<'a>,
    list: &mut Vec<Variable>,
    item: &'a Tree,
) -> Result<(), LoadEnd>
    requires { names.old ≡ variable_names list.old.items }
    ensures variable { AnswersBy told (λ _. list.new.items) result (variable_step objects.now.list list.old.items item.now) }
    ensures named { IfOk result (λ _. names.new ≡ variable_names list.new.items) }
    ensures one { IfOk result (λ _. length list.new.items ≡ length list.old.items + 1) }
{
    list.push(variable_of(alloc, objects, names, item)?)?;
    Ok(())
}

/// The state variables that a domain declares, at most 1,024. Their names and those of the object types are different.
pub fn variables<'a>(
    alloc: Global,
    objects: &ObjectTypes<'_>,
    tree: &'a Tree,
) -> Result<StateVariables<'a>, LoadEnd>
    ensures { AnswersBy told (λ v. v.list) result (variables_of objects.now.list tree.now) }
{
    let items = few_items(1024, tree)?;
    let mut names = Names::new(alloc);
    let mut list = Vec::new(alloc);
    for item in items {
        take_variable(alloc, objects, &mut names, &mut list, item)?;
    }
    Ok(StateVariables {
        names,
        list: Seq::of(list),
    })
}
