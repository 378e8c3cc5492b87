//! Nodes that must be maps. An empty scalar stands for an empty map, but not where it is a whole file.

ghost use Rattle.std.specs.Prelude.{◌≡◌, option_map};
ghost use Rattle.dp_base.specs.Results.{AnswersBy};
ghost use Rattle.dypdl_nodes.specs.Reads.{told};
ghost use Rattle.dypdl_nodes.specs.Shapes.{entries_of, entries_or_none, file_entries};

use crate::ends::{LoadEnd, refused};
use crate::rules::WRONG_SHAPE;
use yaml_tree::{Pair, Tree};

/// The entries of what must be a map. `WRONG_SHAPE` where it is none.
pub fn entries_of(tree: &Tree) -> Result<&[Pair], LoadEnd>
    ensures { AnswersBy told (λ entries. entries.now) result (entries_of tree.now) }
{
    match tree {
        Tree::Map(_, entries) => Ok(entries.list()),
        Tree::Scalar(_, text) if text.as_text().is_empty() => Ok(&[]),
        Tree::Scalar(place, _) | Tree::List(place, _) => Err(refused(WRONG_SHAPE, *place)),
    }
}

/// The entries of a key's map, none where the key is missing.
pub fn entries_or_none<'a>(tree: Option<&'a Tree>) -> Result<&'a [Pair], LoadEnd>
    ensures { AnswersBy told (λ entries. entries.now) result (entries_or_none (option_map (λ t. t.now) tree.entry)) }
{
    match tree {
        Some(tree) => entries_of(tree),
        None => Ok(&[]),
    }
}

/// The entries of a whole file. `WRONG_SHAPE` where it is no map.
pub fn file_entries(tree: &Tree) -> Result<&[Pair], LoadEnd>
    ensures { AnswersBy told (λ entries. entries.now) result (file_entries tree.now) }
{
    match tree {
        Tree::Map(_, entries) => Ok(entries.list()),
        Tree::Scalar(place, _) | Tree::List(place, _) => Err(refused(WRONG_SHAPE, *place)),
    }
}
