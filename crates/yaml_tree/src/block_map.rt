//! Maps in block style.

ghost use Rattle.std.specs.Prelude.{◌≡◌, ◌+◌, ◌<◌, ◌^◌, IfOk, IfErr, IfSome, Ok, Err};
ghost use Rattle.yaml_tree.specs.Blocks.{BlockNode, Value, entry_in};
ghost use Rattle.yaml_tree.specs.BlockSteps.{Enters, key_turn, AfterEntry, AddsKey, MapFrom};
ghost use Rattle.yaml_tree.specs.Repeats.{Refused};
ghost use Rattle.yaml_tree.specs.Results.{MemoryOr};

use crate::block_below::below;
use crate::block_form::{colon_follows, line_value, pass_colon};
use crate::flow::form;
use crate::keys::Keys;
use crate::points::{is_clear, is_marker, skip_blanks};
use crate::reader::Reader;
use crate::tree::{Pair, Tree, YamlEnd};
use crate::turns::fitted;
use dp_base::Place;
use std::alloc::Global;

/// The value behind the `:` of a key: a scalar or flow form in the same line, or a node below.
#[cycle(node)]
fn value(alloc: Global, reader: &mut Reader<'_>, levels: u32, indent: u32) -> Result<Tree, YamlEnd>
    requires { indent + 1 < 2 ^ 32 }
    ensures read { IfOk result
        (λ tree. Value (BlockNode levels) levels indent reader.old (Ok (tree, reader.new))) }
    ensures refused { IfErr result
        (MemoryOr (λ e. Value (BlockNode levels) levels indent reader.old (Err e))) }
{
    if is_clear(reader.here()) {
        return below(alloc, reader, levels, indent, true);
    }
    skip_blanks(reader);
    line_value(alloc, reader, levels, indent + 1)
}

/// Goes to the next entry of a map with this indent, if the next line may begin one.
fn next_entry(reader: &mut Reader<'_>, indent: u32) -> bool
    ensures { Enters result (entry_in indent reader.old reader.old.below) reader.old reader.new }
{
    let Some(row) = reader.row(0) else {
        return false;
    };
    if is_marker(&row) || row.indent() != indent {
        return false;
    }
    reader.enter(0);
    true
}

/// After an entry the key of the next one, up to behind its `:`, or none where the map ends.
fn next_key(
    alloc: Global,
    reader: &mut Reader<'_>,
    keys: &mut Keys,
    levels: u32,
    indent: u32,
) -> Result<Option<Tree>, YamlEnd>
    ensures read { IfOk result
        (λ next. AfterEntry levels indent keys.old reader.old
        (λ pair. key_turn pair next reader.new)) }
    ensures knows { IfOk result (λ next. IfSome next (λ key. AddsKey keys.old key keys.new)) }
    ensures refused { IfErr result
        (MemoryOr (λ e. AfterEntry levels indent keys.old reader.old (λ _. Refused e))) }
{
    if !next_entry(reader, indent) {
        return Ok(None);
    }
    let at = reader.place();
    let key = form(alloc, reader, false, false, levels)?;
    if !keys.add(&key)? {
        return Err(YamlEnd::TwiceKey(at));
    }
    if at.line == reader.place().line && colon_follows(reader) {
        pass_colon(reader);
        return Ok(Some(key));
    }
    skip_blanks(reader);
    Err(YamlEnd::Unread(reader.place()))
}

/// The map whose first key begins at a place and was read, up to behind its `:`.
#[cycle(node)]
pub(crate) fn map(
    alloc: Global,
    reader: &mut Reader<'_>,
    levels: u32,
    at: Place,
    first: Tree,
) -> Result<Tree, YamlEnd>
    ensures read { IfOk result
        (λ tree. MapFrom (BlockNode levels) levels at first reader.old (Ok (tree, reader.new))) }
    ensures refused { IfErr result
        (MemoryOr (λ e. MapFrom (BlockNode levels) levels at first reader.old (Err e))) }
{
    let indent = at.column.saturating_sub(1);
    let mut keys = Keys::new(alloc);
    keys.add(&first)?;
    let mut key = first;
    let mut entries = Vec::new(alloc);
    loop {
        let value = value(alloc, reader, levels, indent)?;
        entries.push(Pair { key, value })?;
        match next_key(alloc, reader, &mut keys, levels, indent)? {
            Some(next) => key = next,
            None => return Ok(Tree::Map(at, fitted(entries))),
        }
    }
}
