//! Scalars and flow forms in block style, which may be keys.

ghost use Rattle.std.specs.Prelude.{◌≡◌, IsTrue, IfOk, IfErr, Ok, Err};
ghost use Rattle.yaml_tree.specs.Rest.{on, skip_blanks};
ghost use Rattle.yaml_tree.specs.Characters.{is_colon};
ghost use Rattle.yaml_tree.specs.Lines.{end_line};
ghost use Rattle.yaml_tree.specs.Blocks.{settled, may_be_block_key, LineValue};
ghost use Rattle.yaml_tree.specs.BlockSteps.{is_key_here, continued, whole_from};
ghost use Rattle.yaml_tree.specs.Results.{MemoryOr};

use crate::block_scalar::block_scalar;
use crate::flow::form;
use crate::opening::{Opening, what_begins};
use crate::plain::go_on;
use crate::points::{end_line, is_colon, skip_blanks};
use crate::reader::Reader;
use crate::tree::{Tree, YamlEnd};
use dp_base::{Text, leading_blanks};
use std::alloc::Global;

fn may_be_block_key(opening: Opening, one_line: bool) -> bool
    ensures { result ≡ may_be_block_key opening one_line }
{
    match opening {
        Opening::Plain | Opening::Quoted(_, _) => true,
        Opening::FlowList => one_line,
        _ => false,
    }
}

/// Whether the `:` of a key stands here, behind blanks.
pub(crate) fn colon_follows(reader: &Reader<'_>) -> bool
    ensures { result ≡ is_colon (skip_blanks reader.now).here }
{
    let here = reader.here();
    is_colon(&here[leading_blanks(here)..])
}

/// Passes the `:` of a key, and blanks before it.
pub(crate) fn pass_colon(reader: &mut Reader<'_>)
    requires { IsTrue (is_colon (skip_blanks reader.old).here) }
    ensures { reader.new ≡ on 1 (skip_blanks reader.old) }
{
    skip_blanks(reader);
    reader.advance(1);
}

/// Whether a form that began on a line is a key, of which the `:` follows.
pub(crate) fn is_key_here(reader: &Reader<'_>, opening: Opening, line: u32) -> bool
    ensures { result ≡ is_key_here opening line reader.now }
{
    may_be_block_key(opening, line == reader.place().line) && colon_follows(reader)
}

/// The whole of a plain scalar of which the first line was read.
fn continued(
    alloc: Global,
    reader: &mut Reader<'_>,
    least: u32,
    begun: Tree,
) -> Result<Tree, YamlEnd>
    ensures read { IfOk result
        (λ tree. continued least begun reader.old ≡ Ok (tree, reader.new)) }
    ensures refused { IfErr result
        (MemoryOr (λ e. continued least begun reader.old ≡ Err e)) }
{
    match begun {
        Tree::Scalar(at, part) => {
            let mut text = String::from_str(alloc, part.as_text())?;
            go_on(alloc, reader, false, least, &mut text)?;
            Ok(Tree::Scalar(at, Text::of(text)))
        }
        other => Ok(other),
    }
}

/// Passes the end of the line behind a whole scalar or flow form.
fn ended(reader: &mut Reader<'_>, tree: Tree) -> Result<Tree, YamlEnd>
    ensures read { IfOk result
        (λ whole. settled tree (end_line reader.old) ≡ Ok (whole, reader.new)) }
    ensures refused { IfErr result
        (MemoryOr (λ e. settled tree (end_line reader.old) ≡ Err e)) }
{
    end_line(reader)?;
    Ok(tree)
}

/// The whole scalar or flow form that was begun: a plain scalar goes on over lines, and the content of a block scalar
/// stands on the lines below.
pub(crate) fn whole_form(
    alloc: Global,
    reader: &mut Reader<'_>,
    opening: Opening,
    least: u32,
    begun: Tree,
) -> Result<Tree, YamlEnd>
    ensures read { IfOk result
        (λ tree. whole_from opening least begun reader.old ≡ Ok (tree, reader.new)) }
    ensures refused { IfErr result
        (MemoryOr (λ e. whole_from opening least begun reader.old ≡ Err e)) }
{
    match opening {
        Opening::Plain => {
            let whole = continued(alloc, reader, least, begun)?;
            ended(reader, whole)
        }
        Opening::Header(style, chomping) => {
            block_scalar(alloc, reader, style, chomping, least, begun.place())
        }
        _ => ended(reader, begun),
    }
}

/// The scalar or flow form behind a key, in its line.
pub(crate) fn line_value(
    alloc: Global,
    reader: &mut Reader<'_>,
    levels: u32,
    least: u32,
) -> Result<Tree, YamlEnd>
    ensures read { IfOk result
        (λ tree. LineValue levels least reader.old (Ok (tree, reader.new))) }
    ensures refused { IfErr result
        (MemoryOr (λ e. LineValue levels least reader.old (Err e))) }
{
    let opening = what_begins(reader, false, true);
    let begun = form(alloc, reader, false, true, levels)?;
    whole_form(alloc, reader, opening, least, begun)
}
