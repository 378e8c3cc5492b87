//! Quoted scalars.

ghost use Rattle.std.specs.Prelude.{◌≡◌, ℕ, Bool, List, length, option_map, IfOk, IfErr, Ok, Err, Some};
ghost use Rattle.yaml_tree.specs.Scalars.{inner_of, quoted};
ghost use Rattle.yaml_tree.specs.Openings.{opening};
ghost use Rattle.yaml_tree.specs.Results.{MemoryOr};
ghost use Rattle.yaml_tree.specs.declared.opening.Opening.TheVariants.{Quoted};

use crate::reader::Reader;
use crate::tree::{Feature, Tree, YamlEnd};
use closing::{double_inside, single_inside};
use dp_base::Text;
use inner::{double_text, single_text};
use std::alloc::Global;

mod closing;
mod inner;

/// How many bytes stand between the quotes of the scalar that begins here, or none where it does not end here. `here`
/// begins with a quote.
pub(crate) fn inside(here: &[u8]) -> Option<usize>
    ensures { result ≡ option_map length (inner_of here.now) }
{
    match here {
        [] => None,
        [b'\'', bytes @ ..] => single_inside(bytes),
        [_, bytes @ ..] => double_inside(bytes),
    }
}

/// The quoted scalar that begins at the point, with so many bytes between its quotes.
pub(crate) fn quoted(
    alloc: Global,
    reader: &mut Reader<'_>,
    single: bool,
    inside: usize,
) -> Result<Tree, YamlEnd>
    requires { (flow maps : Bool) × (opening flow maps reader.old ≡ Quoted single inside) }
    ensures read { IfOk result (λ tree. quoted reader.old single inside ≡ Ok (tree, reader.new)) }
    ensures refused { IfErr result (MemoryOr (λ e. quoted reader.old single inside ≡ Err e)) }
{
    let place = reader.place();
    let line = reader.piece(reader.here().len());
    let inner = &line[1..inside + 1];
    let text = if single {
        Ok(single_text(alloc, inner)?)
    } else {
        double_text(alloc, inner)?
    };
    match text {
        Ok(text) => {
            reader.advance(inside + 2);
            Ok(Tree::Scalar(place, Text::of(text)))
        }
        Err(at) => {
            reader.advance(at);
            Err(YamlEnd::OutOfProfile(reader.place(), Feature::Escape))
        }
    }
}
