//! Nodes that must be lists. An empty scalar stands for an empty list.

ghost use Rattle.std.specs.Prelude.{◌≡◌, ◌≤◌, IfOk, length, option_map};
ghost use Rattle.dp_base.specs.Results.{AnswersBy};
ghost use Rattle.dypdl_nodes.specs.Reads.{told};
ghost use Rattle.dypdl_nodes.specs.Shapes.{items_of, few_items, items_or_none};

use crate::ends::{LoadEnd, refused};
use crate::rules::{TOO_MANY, WRONG_SHAPE};
use yaml_tree::Tree;

/// The items of what must be a list. `WRONG_SHAPE` where it is none.
pub fn items_of(tree: &Tree) -> Result<&[Tree], LoadEnd>
    ensures { AnswersBy told (λ items. items.now) result (items_of tree.now) }
{
    match tree {
        Tree::List(_, items) => Ok(items.list()),
        Tree::Scalar(_, text) if text.as_text().is_empty() => Ok(&[]),
        Tree::Scalar(place, _) | Tree::Map(place, _) => Err(refused(WRONG_SHAPE, *place)),
    }
}

/// The items of a list of at most so many. `WRONG_SHAPE` where it is none, and then `TOO_MANY`.
pub fn few_items(most: usize, tree: &Tree) -> Result<&[Tree], LoadEnd>
    ensures items { AnswersBy told (λ items. items.now) result (few_items most tree.now) }
    ensures few { IfOk result (λ items. length items.now ≤ most) }
{
    let items = items_of(tree)?;
    if items.len() > most {
        return Err(refused(TOO_MANY, tree.place()));
    }
    Ok(items)
}

/// The items of a key's list, none where the key is missing.
pub fn items_or_none<'a>(most: usize, tree: Option<&'a Tree>) -> Result<&'a [Tree], LoadEnd>
    ensures items { AnswersBy told (λ items. items.now) result (items_or_none most (option_map (λ t. t.now) tree.entry)) }
    ensures few { IfOk result (λ items. length items.now ≤ most) }
{
    match tree {
        Some(tree) => few_items(most, tree),
        None => Ok(&[]),
    }
}
