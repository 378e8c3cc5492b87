//! Flow forms: lists in `[` `]`, maps in `{` `}`, and the scalars in them.

ghost use Rattle.std.specs.Prelude.{◌≡◌, true, false, List, [], IfOk, IfErr, Ok, Err};
ghost use Rattle.yaml_tree.specs.Characters.{begins};
ghost use Rattle.yaml_tree.specs.Lines.{flow_point};
ghost use Rattle.yaml_tree.specs.Repeats.{Refused, Repeats};
ghost use Rattle.yaml_tree.specs.Flow.{header_line, plain_scalar, ListTurn, MapTurn, ListForm, MapForm, Form};
ghost use Rattle.yaml_tree.specs.FlowSteps.{KnowsNext, ColonValue, KeyValue};
ghost use Rattle.yaml_tree.specs.Known.{Knows};
ghost use Rattle.yaml_tree.specs.Results.{MemoryOr, turn_of};
ghost use Rattle.yaml_tree.specs.declared.tree.Pair.{Pair};

use crate::keys::Keys;
use crate::marks::{empty_scalar, end_turn, ends_entry, is_keyed, pass_mark};
use crate::opening::{Opening, deep_end, what_begins};
use crate::plain::{plain, plain_part};
use crate::points::{begins, flow_point};
use crate::quoted::quoted;
use crate::reader::Reader;
use crate::tree::{Feature, Pair, Tree, YamlEnd};
use crate::turns::{Step, fitted};
use dp_base::{Seq, Text};
use std::alloc::Global;

fn plain_scalar(alloc: Global, reader: &mut Reader<'_>, flow: bool) -> Result<Tree, YamlEnd>
    ensures read { IfOk result (λ tree. plain_scalar flow reader.old ≡ Ok (tree, reader.new)) }
    ensures refused { IfErr result (MemoryOr (λ e. plain_scalar flow reader.old ≡ Err e)) }
{
    if flow {
        plain(alloc, reader, true, 0)
    } else {
        plain_part(alloc, reader)
    }
}

/// The line of a block scalar's header.
fn header_line(alloc: Global, reader: &mut Reader<'_>) -> Tree
    ensures { header_line reader.old ≡ Ok (result, reader.new) }
{
    let place = reader.place();
    reader.close_line();
    Tree::Scalar(place, Text::of(String::new(alloc)))
}

/// The scalar or flow form of at most so many levels that begins at the point. `flow` says whether it stands inside a
/// flow form, and `maps` whether it may be a flow map. In block style a plain scalar is read in its first line alone.
#[cycle(form)]
pub(crate) fn form(
    alloc: Global,
    reader: &mut Reader<'_>,
    flow: bool,
    maps: bool,
    levels: u32,
) -> Result<Tree, YamlEnd>
    ensures read { IfOk result
        (λ tree. Form flow maps levels reader.old (Ok (tree, reader.new))) }
    ensures refused { IfErr result
        (MemoryOr (λ e. Form flow maps levels reader.old (Err e))) }
{
    let place = reader.place();
    let opening = what_begins(reader, flow, maps);
    if levels == 0 {
        return Err(deep_end(place, opening));
    }
    match opening {
        Opening::Plain => plain_scalar(alloc, reader, flow),
        Opening::Quoted(single, inside) => quoted(alloc, reader, single, inside),
        Opening::OpenQuote => Err(YamlEnd::BadQuote(place)),
        Opening::FlowList => list(alloc, reader, levels - 1),
        Opening::FlowMap => map(alloc, reader, levels - 1),
        Opening::Header(_, _) => Ok(header_line(alloc, reader)),
        Opening::Outside(feature) => Err(YamlEnd::OutOfProfile(place, feature)),
        Opening::Nothing => Err(YamlEnd::Unread(place)),
    }
}

/// The list whose `[` stands at the point.
#[cycle(form)]
fn list(alloc: Global, reader: &mut Reader<'_>, levels: u32) -> Result<Tree, YamlEnd>
    requires { begins 91 reader.old.here ≡ true }
    ensures read { IfOk result
        (λ tree. ListForm (Form true true levels) reader.old (Ok (tree, reader.new))) }
    ensures refused { IfErr result
        (MemoryOr (λ e. ListForm (Form true true levels) reader.old (Err e))) }
{
    let place = reader.place();
    pass_mark(reader)?;
    let items = items(alloc, reader, levels)?;
    Ok(Tree::List(place, items))
}

/// The items of a list, from the point behind its `[` up to behind its `]`.
#[cycle(form)]
fn items(alloc: Global, reader: &mut Reader<'_>, levels: u32) -> Result<Seq<Tree>, YamlEnd>
    ensures read { IfOk result
        (λ items. Repeats (ListTurn (Form true true levels)) reader.old (Ok (items, reader.new))) }
    ensures refused { IfErr result
        (MemoryOr (λ e. Repeats (ListTurn (Form true true levels)) reader.old (Err e))) }
{
    let mut items = Vec::new(alloc);
    loop {
        match item(alloc, reader, levels)? {
            Step::More(item) => items.push(item)?,
            Step::Last(None) => return Ok(fitted(items)),
            Step::Last(Some(item)) => {
                items.push(item)?;
                return Ok(fitted(items));
            }
        }
    }
}

/// One turn of a list, which is the same whatever was read before.
#[cycle(form)]
fn item(alloc: Global, reader: &mut Reader<'_>, levels: u32) -> Result<Step<Tree>, YamlEnd>
    ensures read { IfOk result
        (λ step. ListTurn (Form true true levels) [] reader.old (turn_of step reader.new)) }
    ensures refused { IfErr result
        (MemoryOr (λ e. ListTurn (Form true true levels) [] reader.old (Refused e))) }
{
    if begins(b']', reader.here()) {
        reader.advance(1);
        return Ok(Step::Last(None));
    }
    let place = reader.place();
    let opening = what_begins(reader, true, true);
    let item = form(alloc, reader, true, true, levels)?;
    let one_line = place.line == reader.place().line;
    flow_point(reader)?;
    let other = if is_keyed(opening, one_line, reader.here()) {
        YamlEnd::OutOfProfile(place, Feature::SinglePair)
    } else {
        YamlEnd::Unread(reader.place())
    };
    end_turn(reader, b']', item, other)
}

/// The map whose `{` stands at the point.
#[cycle(form)]
fn map(alloc: Global, reader: &mut Reader<'_>, levels: u32) -> Result<Tree, YamlEnd>
    requires { begins 123 reader.old.here ≡ true }
    ensures read { IfOk result
        (λ tree. MapForm (Form true true levels) (Form true false levels) reader.old
        (Ok (tree, reader.new))) }
    ensures refused { IfErr result (MemoryOr
        (λ e. MapForm (Form true true levels) (Form true false levels) reader.old (Err e))) }
{
    let place = reader.place();
    pass_mark(reader)?;
    let entries = entries(alloc, reader, levels)?;
    Ok(Tree::Map(place, entries))
}

/// The entries of a map, from the point behind its `{` up to behind its `}`.
#[cycle(form)]
fn entries(alloc: Global, reader: &mut Reader<'_>, levels: u32) -> Result<Seq<Pair>, YamlEnd>
    ensures read { IfOk result
        (λ entries. Repeats (MapTurn (Form true true levels) (Form true false levels)) reader.old
        (Ok (entries, reader.new))) }
    ensures refused { IfErr result (MemoryOr
        (λ e. Repeats (MapTurn (Form true true levels) (Form true false levels)) reader.old
        (Err e))) }
{
    let mut keys = Keys::new(alloc);
    let mut entries = Vec::new(alloc);
    loop {
        match entry(alloc, reader, levels, &mut keys)? {
            Step::More(entry) => entries.push(entry)?,
            Step::Last(None) => return Ok(fitted(entries)),
            Step::Last(Some(entry)) => {
                entries.push(entry)?;
                return Ok(fitted(entries));
            }
        }
    }
}

/// One turn of a map, of which these keys were read before.
#[cycle(form)]
fn entry(
    alloc: Global,
    reader: &mut Reader<'_>,
    levels: u32,
    keys: &mut Keys,
) -> Result<Step<Pair>, YamlEnd>
    ensures read { (before : List Pair) → Knows keys.old before → IfOk result
        (λ step. MapTurn (Form true true levels) (Form true false levels) before reader.old
        (turn_of step reader.new)) }
    ensures knows { (before : List Pair) → Knows keys.old before → IfOk result
        (λ step. KnowsNext keys.new before step) }
    ensures refused { (before : List Pair) → Knows keys.old before → IfErr result (MemoryOr
        (λ e. MapTurn (Form true true levels) (Form true false levels) before reader.old
        (Refused e))) }
{
    if begins(b'}', reader.here()) {
        reader.advance(1);
        return Ok(Step::Last(None));
    }
    let place = reader.place();
    let opening = what_begins(reader, true, true);
    let key = form(alloc, reader, true, false, levels)?;
    if !keys.add(&key)? {
        return Err(YamlEnd::TwiceKey(place));
    }
    let value = value_of_key(alloc, reader, levels, opening, place.line)?;
    let other = YamlEnd::Unread(reader.place());
    end_turn(reader, b'}', Pair { key, value }, other)
}

/// The value of an entry, from behind its key up to the next point. `opening` and `line` say what the key began with,
/// and where.
#[cycle(form)]
fn value_of_key(
    alloc: Global,
    reader: &mut Reader<'_>,
    levels: u32,
    opening: Opening,
    line: u32,
) -> Result<Tree, YamlEnd>
    ensures read { IfOk result
        (λ value. KeyValue (Form true true levels) opening line reader.old (flow_point reader.old)
        (Ok (value, reader.new))) }
    ensures refused { IfErr result (MemoryOr
        (λ e. KeyValue (Form true true levels) opening line reader.old (flow_point reader.old)
        (Err e))) }
{
    let behind = reader.place();
    flow_point(reader)?;
    if !is_keyed(opening, line == behind.line, reader.here()) {
        return Ok(empty_scalar(alloc, behind));
    }
    reader.advance(1);
    value(alloc, reader, levels)
}

/// The value of an entry, from behind its `:` up to the next point.
#[cycle(form)]
fn value(alloc: Global, reader: &mut Reader<'_>, levels: u32) -> Result<Tree, YamlEnd>
    ensures read { IfOk result
        (λ value. ColonValue (Form true true levels) reader.old (flow_point reader.old)
        (Ok (value, reader.new))) }
    ensures refused { IfErr result (MemoryOr
        (λ e. ColonValue (Form true true levels) reader.old (flow_point reader.old) (Err e))) }
{
    let behind = reader.place();
    flow_point(reader)?;
    if ends_entry(reader.here()) {
        return Ok(empty_scalar(alloc, behind));
    }
    let value = form(alloc, reader, true, true, levels)?;
    flow_point(reader)?;
    Ok(value)
}
