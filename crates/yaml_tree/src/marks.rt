//! The marks of flow forms: brackets, commas and the `:` of keys.

ghost use Rattle.std.specs.Prelude.{◌≡◌, ◌<◌, ◌&&◌, [], IfOk, IfErr, MatchResult, Ok, Err};
ghost use Rattle.yaml_tree.specs.Rest.{on};
ghost use Rattle.yaml_tree.specs.Lines.{flow_point};
ghost use Rattle.yaml_tree.specs.Repeats.{Refused};
ghost use Rattle.yaml_tree.specs.Flow.{may_be_key, is_key_colon, ends_entry};
ghost use Rattle.yaml_tree.specs.FlowSteps.{BeginsAscii, goes_on};
ghost use Rattle.yaml_tree.specs.Results.{MemoryOr, turn_of};

use crate::opening::Opening;
use crate::plain::ends_scalar;
use crate::points::{begins, flow_point};
use crate::reader::Reader;
use crate::tree::{Tree, YamlEnd};
use crate::turns::Step;
use dp_base::{Place, Text};
use std::alloc::Global;

/// Whether a key ends before the `:` here. `opening` is what the key begins with, and `one_line` says whether it
/// stands in one line.
pub(crate) fn is_keyed(opening: Opening, one_line: bool, here: &[u8]) -> bool
    ensures { result ≡ (may_be_key opening one_line && is_key_colon opening here.now) }
{
    match opening {
        Opening::Plain => one_line && begins(b':', here) && ends_scalar(true, &here[1..]),
        Opening::Quoted(_, _) | Opening::FlowList => begins(b':', here),
        _ => false,
    }
}

/// Whether an entry of a map ends here.
pub(crate) fn ends_entry(here: &[u8]) -> bool
    ensures { result ≡ ends_entry here.now }
{
    begins(b',', here) || begins(b'}', here)
}

/// The empty scalar.
pub(crate) fn empty_scalar(alloc: Global, place: Place) -> Tree
    ensures { result ≡ Tree.Scalar place [] }
{
    Tree::Scalar(place, Text::of(String::new(alloc)))
}

/// Passes a mark of one byte, and goes to the next point.
pub(crate) fn pass_mark(reader: &mut Reader<'_>) -> Result<(), YamlEnd>
    requires { BeginsAscii reader.old.here }
    ensures { MatchResult result (λ _. flow_point (on 1 reader.old) ≡ Ok reader.new)
        (λ e. flow_point (on 1 reader.old) ≡ Err e) }
{
    // What is left of the line is text, and so may be cut behind such a byte.
    let _here = reader.here();
    reader.advance(1);
    flow_point(reader)
}

/// After an item or an entry: passes a `,`, or the bracket that ends the form. Anything else is refused as said.
pub(crate) fn end_turn<T: Drop>(
    reader: &mut Reader<'_>,
    close: u8,
    x: T,
    other: YamlEnd,
) -> Result<Step<T>, YamlEnd>
    requires { close < 128 }
    ensures read { IfOk result
        (λ step. goes_on close x other reader.old ≡ turn_of step reader.new) }
    ensures refused { IfErr result
        (MemoryOr (λ e. goes_on close x other reader.old ≡ Refused e)) }
{
    if begins(b',', reader.here()) {
        pass_mark(reader)?;
        return Ok(Step::More(x));
    }
    if begins(close, reader.here()) {
        reader.advance(1);
        return Ok(Step::Last(Some(x)));
    }
    Err(other)
}
