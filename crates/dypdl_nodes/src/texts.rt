//! Nodes that must be scalars.

ghost use Rattle.std.specs.Prelude.{◌≡◌};
ghost use Rattle.dp_base.specs.Results.{AnswersBy};
ghost use Rattle.dypdl_nodes.specs.Reads.{told};
ghost use Rattle.dypdl_nodes.specs.Scalars.{text_of};

use crate::ends::{LoadEnd, refused};
use crate::rules::WRONG_SHAPE;
use yaml_tree::Tree;

/// The text of what must be a scalar. `WRONG_SHAPE` where it is none.
pub fn text_of(tree: &Tree) -> Result<&str, LoadEnd>
    ensures { AnswersBy told (λ text. text.now) result (text_of tree.now) }
{
    match tree.text() {
        Some(text) => Ok(text.as_text()),
        None => Err(refused(WRONG_SHAPE, tree.place())),
    }
}
