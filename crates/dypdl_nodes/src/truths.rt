//! Nodes that must be truth values.

ghost use Rattle.std.specs.Prelude.{◌≡◌, option_map};
ghost use Rattle.dp_base.specs.Results.{Answers};
ghost use Rattle.dypdl_nodes.specs.Reads.{told};
ghost use Rattle.dypdl_nodes.specs.Scalars.{truth_written, truth_of, truth_or_false};

use crate::ends::{LoadEnd, refused};
use crate::rules::WRONG_SHAPE;
use crate::texts::text_of;
use yaml_tree::Tree;

/// The truth value that a word writes, with the spellings of YAML's core schema.
fn truth_written(word: &str) -> Option<bool>
    ensures { result ≡ truth_written word.now }
{
    match word {
        "true" | "True" | "TRUE" => Some(true),
        "false" | "False" | "FALSE" => Some(false),
        _ => None,
    }
}

/// A truth value. `WRONG_SHAPE` for any other node.
pub fn truth_of(tree: &Tree) -> Result<bool, LoadEnd>
    ensures { Answers told result (truth_of tree.now) }
{
    match truth_written(text_of(tree)?) {
        Some(truth) => Ok(truth),
        None => Err(refused(WRONG_SHAPE, tree.place())),
    }
}

/// The truth value of a key, false where it is missing.
pub fn truth_or_false(tree: Option<&Tree>) -> Result<bool, LoadEnd>
    ensures { Answers told result (truth_or_false (option_map (λ t. t.now) tree.entry)) }
{
    match tree {
        Some(tree) => truth_of(tree),
        None => Ok(false),
    }
}
