//! Object types, which a domain names, and a problem's numbers of their members.

ghost use Rattle.std.specs.Prelude.{◌≡◌, ◌≤◌, ◌<◌, ◌++◌, ◌∷◌, [], IfOk, length, option_map, replicate, zip, None, Some, slice_get};
ghost use Rattle.dp_base.specs.Results.{Answers, AnswersBy, each};
ghost use Rattle.dypdl_nodes.specs.Reads.{told};
ghost use Rattle.dypdl_data.specs.Objects.{object_names, names_of, member_count, number_step, counts_of, given_step, objects_of, known_object};

use crate::names::Names;
use dp_base::{Place, Seq, Text};
use dp_model::ObjectType;
use dypdl_nodes::rules::{MISSING_KEY, TOO_MANY, UNKNOWN_NAME};
use dypdl_nodes::{LoadEnd, count_of, entries_or_none, items_or_none, refused};
use std::alloc::{AllocError, Global};
use yaml_tree::{Pair, Tree};

/// How many members an object type may have.
const MOST_MEMBERS: u64 = 4096;

/// The object types of a model, and the numbers of their names.
#[derive(Drop)]
pub struct ObjectTypes<'a> {
    pub names: Names<'a>,
    pub list: Seq<ObjectType>,
    pub ghost named: { names ≡ object_names list },
    pub ghost few: { length list ≤ 1024 },
}

impl<'a> ObjectTypes<'a> {
    /// The number of the object type that a scalar names. `UNKNOWN_NAME` where it names none.
    pub fn known(&self, tree: &Tree) -> Result<u32, LoadEnd>
        ensures number { Answers told result (known_object self.now.list tree.now) }
        ensures within { IfOk result (λ o. o < length self.now.list) }
    {
        Ok(self.names.known(tree)? as u32)
    }
}

/// A text of its own.
pub fn owned(alloc: Global, word: &str) -> Result<Text, AllocError>
    ensures { IfOk result (λ t. t ≡ word.now) }
{
    Ok(Text::of(String::from_str(alloc, word)?))
}

fn names_of<'a>(alloc: Global, tree: Option<&'a Tree>) -> Result<Names<'a>, LoadEnd>
    ensures names { Answers told result (names_of (option_map (λ t. t.now) tree.entry)) }
    ensures few { IfOk result (λ names. length names ≤ 1024) }
{
    let mut names = Names::new(alloc);
    for item in items_or_none(1024, tree)? {
        names.take(item)?;
    }
    Ok(names)
}

fn member_count(tree: &Tree) -> Result<u32, LoadEnd>
    ensures { Answers told result (member_count tree.now) }
{
    let count = count_of(tree)?;
    if count > MOST_MEMBERS {
        return Err(refused(TOO_MANY, tree.place()));
    }
    Ok(count as u32)
}

fn take_number(names: &Names<'_>, counts: &mut Vec<Option<u32>>, pair: &Pair) -> Result<(), LoadEnd>
    requires { length counts.old.items ≡ length names.now }
    ensures number { AnswersBy told (λ _. counts.new.items) result (number_step names.now counts.old.items pair.now) }
    ensures len { length counts.new.items ≡ length counts.old.items }
{
    let object = names.known_key(UNKNOWN_NAME, &pair.key)?;
    counts[object] = Some(member_count(&pair.value)?);
    Ok(())
}

fn counts_of(
    alloc: Global,
    names: &Names<'_>,
    tree: Option<&Tree>,
) -> Result<Vec<Option<u32>>, LoadEnd>
    ensures counts { AnswersBy told (λ v. v.items) result (counts_of names.now (option_map (λ t. t.now) tree.entry)) }
    ensures len { IfOk result (λ v. length v.items ≡ length names.now) }
{
    let entries = entries_or_none(tree)?;
    let mut counts = vec![in alloc; None; names.len()]?;
    for pair in entries {
        take_number(names, &mut counts, pair)?;
    }
    Ok(counts)
}

fn take_given(
    alloc: Global,
    at: Place,
    objects: &mut Vec<ObjectType>,
    word: &str,
    count: Option<u32>,
) -> Result<(), LoadEnd>
    ensures given { AnswersBy told (λ _. objects.new.items) result (given_step at objects.old.items (word.now, count)) }
    ensures named { IfOk result (λ _. object_names objects.new.items ≡ object_names objects.old.items ++ word.now ∷ []) }
{
    let Some(count) = count else {
        return Err(refused(MISSING_KEY, at));
    };
    objects.push(ObjectType {
        name: owned(alloc, word)?,
        count,
    })?;
    Ok(())
}

fn count_at(counts: &[Option<u32>], number: usize) -> Option<u32>
    requires { number < length counts.now }
    ensures { slice_get counts.now number ≡ Some result }
{
    counts[number]
}

/// The object types of these names, each with the count in its place.
fn given(
    alloc: Global,
    at: Place,
    names: &Names<'_>,
    counts: &[Option<u32>],
) -> Result<Vec<ObjectType>, LoadEnd>
    requires { length counts.now ≡ length names.now }
    ensures given { AnswersBy told (λ v. v.items) result (each (given_step at) [] (zip names.now counts.now)) }
    ensures named { IfOk result (λ v. object_names v.items ≡ names.now) }
{
    let mut objects = Vec::new(alloc);
    for number in 0..names.len() {
        take_given(
            alloc,
            at,
            &mut objects,
            names.word(number),
            count_at(counts, number),
        )?;
    }
    Ok(objects)
}

/// The object types that a domain names, with the numbers that a problem gives. `at` is the problem's place, where
/// `MISSING_KEY` stands for the first object type without a number.
pub fn objects<'a>(
    alloc: Global,
    at: Place,
    names: Option<&'a Tree>,
    numbers: Option<&Tree>,
) -> Result<ObjectTypes<'a>, LoadEnd>
    ensures { AnswersBy told (λ o. o.list) result (objects_of at (option_map (λ t. t.now) names.entry) (option_map (λ t. t.now) numbers.entry)) }
{
    let names = names_of(alloc, names)?;
    let counts = counts_of(alloc, &names, numbers)?;
    let list = Seq::of(given(alloc, at, &names, &counts)?);
    Ok(ObjectTypes { names, list })
}
