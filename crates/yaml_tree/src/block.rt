//! Nodes in block style.

ghost use Rattle.std.specs.Prelude.{◌≡◌, IfOk, IfErr, Ok, Err};
ghost use Rattle.yaml_tree.specs.Blocks.{BlockNode};
ghost use Rattle.yaml_tree.specs.Results.{MemoryOr};

use crate::block_form::{is_key_here, pass_colon, whole_form};
use crate::block_list::list;
use crate::block_map::map;
use crate::flow::form;
use crate::keys::deep_place;
use crate::opening::what_begins;
use crate::points::is_item;
use crate::reader::Reader;
use crate::tree::{Tree, YamlEnd};
use std::alloc::Global;

/// The node of at most so many levels that begins at the point, where a block list or map may begin. `least` is the
/// least indent of the other lines of a plain scalar.
#[cycle(node)]
pub(crate) fn node(
    alloc: Global,
    reader: &mut Reader<'_>,
    least: u32,
    levels: u32,
) -> Result<Tree, YamlEnd>
    ensures read { IfOk result
        (λ tree. BlockNode levels least reader.old (Ok (tree, reader.new))) }
    ensures refused { IfErr result
        (MemoryOr (λ e. BlockNode levels least reader.old (Err e))) }
{
    if is_item(reader.here()) {
        if levels == 0 {
            return Err(YamlEnd::TooDeep(reader.place()));
        }
        return list(alloc, reader, levels - 1);
    }
    let at = reader.place();
    let opening = what_begins(reader, false, true);
    let begun = form(alloc, reader, false, true, levels)?;
    if !is_key_here(reader, opening, at.line) {
        return whole_form(alloc, reader, opening, least, begun);
    }
    if let Some(deep) = deep_place(&begun, levels - 1) {
        return Err(YamlEnd::TooDeep(deep));
    }
    pass_colon(reader);
    map(alloc, reader, levels - 1, at, begun)
}
