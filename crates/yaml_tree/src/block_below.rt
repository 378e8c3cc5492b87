//! Nodes on the lines below a `-` or a `:`.

ghost use Rattle.std.specs.Prelude.{◌≡◌, ◌+◌, ◌<◌, ◌^◌, IfOk, IfErr, Ok, Err};
ghost use Rattle.yaml_tree.specs.Lines.{from_content, settle};
ghost use Rattle.yaml_tree.specs.Blocks.{BlockNode, Below, begins_below, node_in, empty_scalar};
ghost use Rattle.yaml_tree.specs.BlockSteps.{Enters};
ghost use Rattle.yaml_tree.specs.Results.{MemoryOr};

use crate::block::node;
use crate::line_below::LineBelow;
use crate::points::{is_item, is_marker, settle};
use crate::reader::Reader;
use crate::tree::{Tree, YamlEnd};
use dp_base::Text;
use std::alloc::Global;

/// Whether a node below a block of this indent begins in a line. `lists` says whether a list with the same indent may.
fn begins_below(row: &LineBelow<'_>, indent: u32, lists: bool) -> bool
    ensures { result ≡ begins_below indent lists row.now }
{
    !is_marker(row)
        && (row.indent() > indent || (lists && row.indent() == indent && is_item(row.text())))
}

/// Goes to the node below, or only passes the end of the line where there is none.
fn enter_below(reader: &mut Reader<'_>, indent: u32, lists: bool) -> bool
    ensures { Enters result
        (node_in indent lists reader.old (from_content reader.old.below)) (settle reader.old) reader.new }
{
    settle(reader);
    let Some(row) = reader.row(0) else {
        return false;
    };
    if !begins_below(&row, indent, lists) {
        return false;
    }
    reader.enter(0);
    true
}

/// The empty scalar at the point.
fn empty_scalar(alloc: Global, reader: &Reader<'_>, levels: u32) -> Result<Tree, YamlEnd>
    ensures read { IfOk result
        (λ tree. empty_scalar levels reader.now ≡ Ok (tree, settle reader.now)) }
    ensures refused { IfErr result (MemoryOr (λ e. empty_scalar levels reader.now ≡ Err e)) }
{
    if levels == 0 {
        return Err(YamlEnd::TooDeep(reader.place()));
    }
    Ok(Tree::Scalar(reader.place(), Text::of(String::new(alloc))))
}

/// The node below a `-` or a `:`, or else the empty scalar behind it.
#[cycle(node)]
pub(crate) fn below(
    alloc: Global,
    reader: &mut Reader<'_>,
    levels: u32,
    indent: u32,
    lists: bool,
) -> Result<Tree, YamlEnd>
    requires { indent + 1 < 2 ^ 32 }
    ensures read { IfOk result
        (λ tree. Below (BlockNode levels) levels indent lists reader.old (Ok (tree, reader.new))) }
    ensures refused { IfErr result
        (MemoryOr (λ e. Below (BlockNode levels) levels indent lists reader.old (Err e))) }
{
    if enter_below(reader, indent, lists) {
        node(alloc, reader, indent + 1, levels)
    } else {
        empty_scalar(alloc, reader, levels)
    }
}
