//! Lists in block style.

ghost use Rattle.std.specs.Prelude.{◌≡◌, ◌+◌, ◌<◌, ◌^◌, IsTrue, IfOk, IfErr, Ok, Err};
ghost use Rattle.yaml_tree.specs.Characters.{is_item};
ghost use Rattle.yaml_tree.specs.Blocks.{BlockNode, BlockList, Item, item_in};
ghost use Rattle.yaml_tree.specs.BlockSteps.{Enters};
ghost use Rattle.yaml_tree.specs.Results.{MemoryOr};

use crate::block::node;
use crate::block_below::below;
use crate::points::{is_clear, is_item, is_marker, skip_blanks};
use crate::reader::Reader;
use crate::tree::{Tree, YamlEnd};
use crate::turns::fitted;
use std::alloc::Global;

/// What stands behind the `-` of an item: a node in the same line, or one below.
#[cycle(node)]
fn item(alloc: Global, reader: &mut Reader<'_>, levels: u32, indent: u32) -> Result<Tree, YamlEnd>
    requires { indent + 1 < 2 ^ 32 }
    ensures read { IfOk result
        (λ tree. Item (BlockNode levels) levels indent reader.old (Ok (tree, reader.new))) }
    ensures refused { IfErr result
        (MemoryOr (λ e. Item (BlockNode levels) levels indent reader.old (Err e))) }
{
    if is_clear(reader.here()) {
        return below(alloc, reader, levels, indent, false);
    }
    skip_blanks(reader);
    node(alloc, reader, indent + 1, levels)
}

/// Goes to the next item of a list with this indent, if the next line begins one.
fn next_item(reader: &mut Reader<'_>, indent: u32) -> bool
    ensures { Enters result (item_in indent reader.old reader.old.below) reader.old reader.new }
{
    let Some(row) = reader.row(0) else {
        return false;
    };
    if is_marker(&row) || row.indent() != indent || !is_item(row.text()) {
        return false;
    }
    reader.enter(0);
    true
}

/// The list whose first `-` stands at the point.
#[cycle(node)]
pub(crate) fn list(alloc: Global, reader: &mut Reader<'_>, levels: u32) -> Result<Tree, YamlEnd>
    requires { IsTrue (is_item reader.old.here) }
    ensures read { IfOk result
        (λ tree. BlockList (BlockNode levels) levels reader.old (Ok (tree, reader.new))) }
    ensures refused { IfErr result
        (MemoryOr (λ e. BlockList (BlockNode levels) levels reader.old (Err e))) }
{
    let at = reader.place();
    let indent = at.column.saturating_sub(1);
    let mut items = Vec::new(alloc);
    loop {
        reader.advance(1);
        let item = item(alloc, reader, levels, indent)?;
        items.push(item)?;
        if !next_item(reader, indent) {
            return Ok(Tree::List(at, fitted(items)));
        }
    }
}
