//! Plain scalars, over lines.

ghost use Rattle.std.specs.Prelude.{◌≡◌, ℕ, ◌≤◌, ◌<◌, ◌++◌, [], length, take, replicate, string_bytes, IsCharBoundary, IfOk, IfErr, OnOk, MatchBool, Ok, Err};
ghost use Rattle.std.specs.List.{prefix_len};
ghost use Rattle.yaml_tree.specs.Rest.{on};
ghost use Rattle.yaml_tree.specs.Characters.{ends_word, begins_flow_mark, is_flow_mark, is_indicator, ends_scalar, begins_plain};
ghost use Rattle.yaml_tree.specs.Lines.{is_empty};
ghost use Rattle.yaml_tree.specs.Scalars.{break_text, goes_on, with_text, added, plain, plain_part};
ghost use Rattle.yaml_tree.specs.Results.{MemoryOr};

use crate::line_below::LineBelow;
use crate::points::{has_content, is_marker, marker_end};
use crate::reader::Reader;
use crate::tree::{Tree, YamlEnd};
use dp_base::{Text, is_blank};
use part::part_length;
use std::alloc::{AllocError, Global};

mod part;

fn ends_word(bytes: &[u8]) -> bool
    ensures { result ≡ ends_word bytes.now }
{
    bytes.is_empty() || is_blank(bytes[0])
}

fn is_flow_mark(byte: u8) -> bool
    ensures { result ≡ is_flow_mark byte }
{
    matches!(byte, b',' | b'[' | b']' | b'{' | b'}')
}

fn is_indicator(byte: u8) -> bool
    ensures { result ≡ is_indicator byte }
{
    is_flow_mark(byte)
        || matches!(
            byte,
            b'#' | b'&' | b'*' | b'!' | b'|' | b'>' | b'\'' | b'"' | b'%' | b'@' | b'`'
        )
}

/// Whether a plain scalar ends before a `:` with these bytes behind it.
pub(crate) fn ends_scalar(flow: bool, bytes: &[u8]) -> bool
    ensures { result ≡ ends_scalar flow bytes.now }
{
    ends_word(bytes) || (flow && is_flow_mark(bytes[0]))
}

/// Whether a plain scalar begins here.
pub(crate) fn begins_plain(flow: bool, here: &[u8]) -> bool
    ensures { result ≡ begins_plain flow here.now }
{
    if here.is_empty() {
        return false;
    }
    match here[0] {
        b'-' | b'?' => !ends_word(&here[1..]),
        b':' => !ends_scalar(flow, &here[1..]),
        byte => !is_blank(byte) && !is_indicator(byte),
    }
}

/// Whether a plain scalar may go on in a line below.
fn goes_on(flow: bool, least: u32, row: &LineBelow<'_>) -> bool
    ensures { result ≡ goes_on flow least row.now }
{
    has_content(row) && (flow || row.indent() >= least)
}

/// Moves the next bytes of the line to the end of a text.
fn read_piece(reader: &mut Reader<'_>, count: usize, text: &mut String) -> Result<(), AllocError>
    requires there { count ≤ length reader.old.here }
    requires boundary { IsCharBoundary reader.old.here count }
    ensures text { OnOk result
        (string_bytes text.new ≡ string_bytes text.old ++ take count reader.old.here) }
    ensures point { OnOk result (reader.new ≡ on count reader.old) }
{
    text.push_str(reader.piece(count))?;
    reader.advance(count);
    Ok(())
}

/// A line feed for each blank line below, up to the next line that is not blank.
fn line_feeds(alloc: Global, reader: &Reader<'_>) -> Result<String, AllocError>
    ensures { IfOk result (λ feeds. string_bytes feeds
        ≡ replicate (prefix_len (λ row. is_empty row.text) reader.now.below) 10) }
{
    let mut feeds = String::new(alloc);
    while let Some(row) = reader.row(feeds.len()) {
        if !row.text().is_empty() {
            break;
        }
        feeds.push('\n')?;
    }
    Ok(feeds)
}

/// What a line break and the blank lines behind it stand for, with the line feeds of these.
fn line_break(feeds: &str) -> &str
    ensures { (blanks : ℕ) → feeds.now ≡ replicate blanks 10 → result.now ≡ break_text blanks }
{
    if feeds.is_empty() { " " } else { feeds }
}

/// Reads the next line of a plain scalar that fills its line so far, and adds it to the scalar's text. False where the
/// scalar ends.
fn next_line(
    alloc: Global,
    reader: &mut Reader<'_>,
    flow: bool,
    least: u32,
    text: &mut String,
) -> Result<bool, YamlEnd>
    requires { reader.old.here ≡ [] }
    // The text, and behind it what is still to be added, stays the same as a whole.
    ensures grows { OnOk result
        (with_text (string_bytes text.old) (added flow least reader.old)
        ≡ with_text (string_bytes text.new) (added flow least reader.new)) }
    // Lines are passed where it goes on, and nothing is to be added where it ends.
    ensures passes { IfOk result (λ more. MatchBool more
        (length reader.new.below < length reader.old.below)
        (added flow least reader.new ≡ Ok ([], reader.new))) }
    ensures refused { IfErr result (MemoryOr (λ e. added flow least reader.old ≡ Err e)) }
{
    let feeds = line_feeds(alloc, reader)?;
    let row = match reader.row(feeds.len()) {
        Some(row) if goes_on(flow, least, &row) => row,
        _ => return Ok(false),
    };
    if is_marker(&row) {
        return Err(marker_end(reader.file(), &row));
    }
    let count = part_length(flow, row.text());
    if count == 0 {
        return Ok(false);
    }
    reader.enter(feeds.len());
    text.push_str(line_break(feeds.as_str()))?;
    read_piece(reader, count, text)?;
    Ok(true)
}

/// Reads the other lines of a plain scalar, and adds them to the text of its first one.
pub(crate) fn go_on(
    alloc: Global,
    reader: &mut Reader<'_>,
    flow: bool,
    least: u32,
    text: &mut String,
) -> Result<(), YamlEnd>
    ensures adds { OnOk result
        (with_text (string_bytes text.old) (added flow least reader.old)
        ≡ Ok (string_bytes text.new, reader.new)) }
    ensures refused { IfErr result (MemoryOr (λ e. added flow least reader.old ≡ Err e)) }
{
    while reader.here().is_empty() && next_line(alloc, reader, flow, least, text)? {}
    Ok(())
}

/// The plain scalar that begins at the point, in a flow form or in block style with the least indent of its other lines.
pub(crate) fn plain(
    alloc: Global,
    reader: &mut Reader<'_>,
    flow: bool,
    least: u32,
) -> Result<Tree, YamlEnd>
    ensures read { IfOk result (λ tree. plain flow least reader.old ≡ Ok (tree, reader.new)) }
    ensures refused { IfErr result (MemoryOr (λ e. plain flow least reader.old ≡ Err e)) }
{
    let place = reader.place();
    let mut text = String::new(alloc);
    read_piece(reader, part_length(flow, reader.here()), &mut text)?;
    go_on(alloc, reader, flow, least, &mut text)?;
    Ok(Tree::Scalar(place, Text::of(text)))
}

/// What stands of one in its first line, in block style.
pub(crate) fn plain_part(alloc: Global, reader: &mut Reader<'_>) -> Result<Tree, YamlEnd>
    ensures read { IfOk result (λ tree. plain_part reader.old ≡ Ok (tree, reader.new)) }
    ensures refused { IfErr result (MemoryOr (λ e. plain_part reader.old ≡ Err e)) }
{
    let place = reader.place();
    let mut text = String::new(alloc);
    read_piece(reader, part_length(false, reader.here()), &mut text)?;
    Ok(Tree::Scalar(place, Text::of(text)))
}
