//! Block scalars.

ghost use Rattle.std.specs.Prelude.{◌≡◌, ◌≤◌, ◌<◌, ◌++◌, ℕ, length, take, drop, replicate, string_bytes, slice_get, IfOk, IfErr, OnOk, MatchOption, None, Some, Ok, Err};
ghost use Rattle.std.specs.List.{find, prefix_len};
ghost use Rattle.yaml_tree.specs.Lines.{settle};
ghost use Rattle.yaml_tree.specs.BlockScalars.{in_content, content_of, content_indent, is_shallow, line_text, stands, is_even, folds, break_behind, joined, last_break, trimmed, block_text, block_scalar};
ghost use Rattle.yaml_tree.specs.Results.{MemoryOr};

use crate::content::Content;
use crate::header::{Chomping, Style};
use crate::line_below::LineBelow;
use crate::points::settle;
use crate::reader::Reader;
use crate::tree::{Feature, Tree, YamlEnd};
use dp_base::{Place, Text};
use std::alloc::{AllocError, Global};

/// Whether the content goes on with a line. `least` is one more than the indent of the block round it.
fn in_content(row: &LineBelow<'_>, least: u32) -> bool
    ensures { result ≡ in_content least row.now }
{
    row.is_blank() || row.indent() >= least
}

/// The content: the lines below up to the first that is not blank and stands no deeper than the block.
fn content_of<'a>(below: &Content<'a>, least: u32) -> Content<'a>
    ensures value { result ≡ content_of least below.now }
    ensures within { length result ≤ length below.now }
{
    let mut count = 0;
    while count < below.len() {
        if !in_content(&below.row(count), least) {
            return below.first(count);
        }
        count += 1;
    }
    below.first(count)
}

/// The indent of the first line that is not blank.
fn content_indent(content: &Content<'_>) -> u32
    ensures { result ≡ content_indent content.now }
{
    let mut index = 0;
    while index < content.len() {
        let row = content.row(index);
        if !row.is_blank() {
            return row.indent();
        }
        index += 1;
    }
    0
}

fn is_shallow(row: &LineBelow<'_>, indent: u32) -> bool
    ensures { result ≡ is_shallow indent row.now }
{
    !row.is_blank() && row.indent() < indent
}

/// The first line that is not blank and stands less deep.
fn shallow<'a>(content: &Content<'a>, indent: u32) -> Option<LineBelow<'a>>
    ensures { result ≡ find (is_shallow indent) content.now }
{
    let mut index = 0;
    while index < content.len() {
        let row = content.row(index);
        if is_shallow(&row, indent) {
            return Some(row);
        }
        index += 1;
    }
    None
}

fn push_spaces(text: &mut String, count: u32) -> Result<(), AllocError>
    ensures { OnOk result
        (string_bytes text.new ≡ string_bytes text.old ++ replicate count 32) }
{
    for _ in 0..count {
        text.push(' ')?;
    }
    Ok(())
}

/// Moves what stands behind an indent to the end of a text.
fn push_line(text: &mut String, row: &LineBelow<'_>, indent: u32) -> Result<(), AllocError>
    ensures { OnOk result
        (string_bytes text.new ≡ string_bytes text.old ++ line_text indent row.now) }
{
    if row.is_blank() {
        return Ok(());
    }
    push_spaces(text, row.indent().saturating_sub(indent))?;
    text.push_str(row.as_text())
}

/// Whether the first line from an index on that is not blank stands at the content's indent.
fn stands(content: &Content<'_>, from: usize, indent: u32) -> bool
    ensures { result ≡ stands indent (drop from content.now) }
{
    let mut index = from;
    while index < content.len() {
        let row = content.row(index);
        if !row.is_blank() {
            return row.indent() == indent;
        }
        index += 1;
    }
    false
}

fn is_even(row: &LineBelow<'_>, indent: u32) -> bool
    ensures { result ≡ is_even indent row.now }
{
    !row.is_blank() && row.indent() == indent
}

/// Whether the break between a line and those from an index on is folded.
fn folds(content: &Content<'_>, row: &LineBelow<'_>, next: usize, style: Style, indent: u32) -> bool
    ensures { result ≡ folds style indent row.now (drop next content.now) }
{
    match style {
        Style::Literal => false,
        Style::Folded => is_even(row, indent) && stands(content, next, indent),
    }
}

/// What the break between a line and those from an index on gives.
fn break_behind(
    content: &Content<'_>,
    row: &LineBelow<'_>,
    next: usize,
    style: Style,
    indent: u32,
) -> &'static str
    ensures { result.now ≡ break_behind style indent row.now (drop next content.now) }
{
    if next >= content.len() {
        return "";
    }
    let below = content.row(next);
    if !folds(content, row, next, style, indent) {
        return "\n";
    }
    if below.is_blank() { "" } else { " " }
}

/// All lines, with the breaks between them.
fn joined(
    alloc: Global,
    content: &Content<'_>,
    style: Style,
    indent: u32,
) -> Result<String, AllocError>
    ensures { IfOk result (λ text. string_bytes text ≡ joined style indent content.now) }
{
    let mut text = String::new(alloc);
    let mut index = 0;
    while index < content.len() {
        let row = content.row(index);
        index += 1;
        push_line(&mut text, &row, indent)?;
        text.push_str(break_behind(content, &row, index, style, indent))?;
    }
    Ok(text)
}

/// The break behind the last line, if there is a line.
fn last_break(content: &Content<'_>) -> &'static str
    ensures { result.now ≡ last_break content.now }
{
    if content.len() == 0 { "" } else { "\n" }
}

/// The lines without the blank ones at their end.
fn trimmed<'a>(content: &Content<'a>) -> Content<'a>
    ensures { result ≡ trimmed content.now }
{
    let mut count = content.len();
    while count > 0 {
        if !content.row(count - 1).is_blank() {
            return content.first(count);
        }
        count -= 1;
    }
    content.first(0)
}

/// All lines, with the breaks between them and the one behind the last.
fn ended(
    alloc: Global,
    content: &Content<'_>,
    style: Style,
    indent: u32,
) -> Result<String, AllocError>
    ensures { IfOk result
        (λ text. string_bytes text ≡ joined style indent content.now ++ last_break content.now) }
{
    let mut text = joined(alloc, content, style, indent)?;
    text.push_str(last_break(content))?;
    Ok(text)
}

/// The text of a content.
fn block_text(
    alloc: Global,
    content: &Content<'_>,
    style: Style,
    chomping: Chomping,
    indent: u32,
) -> Result<String, AllocError>
    ensures { IfOk result
        (λ text. string_bytes text ≡ block_text style chomping indent content.now) }
{
    match chomping {
        Chomping::Strip => joined(alloc, &trimmed(content), style, indent),
        Chomping::Clip => ended(alloc, &trimmed(content), style, indent),
        Chomping::Keep => ended(alloc, content, style, indent),
    }
}

/// The block scalar at a place, whose header's line was read. `least` is one more than the indent of the block round it, and
/// 0 where there is none.
pub(crate) fn block_scalar(
    alloc: Global,
    reader: &mut Reader<'_>,
    style: Style,
    chomping: Chomping,
    least: u32,
    at: Place,
) -> Result<Tree, YamlEnd>
    ensures read { IfOk result
        (λ tree. block_scalar style chomping least at reader.old ≡ Ok (tree, reader.new)) }
    ensures refused { IfErr result
        (MemoryOr (λ e. block_scalar style chomping least at reader.old ≡ Err e)) }
{
    if least == 0 {
        return Err(YamlEnd::OutOfProfile(at, Feature::BlockScalar));
    }
    let below = reader.below();
    let content = content_of(&below, least);
    let indent = content_indent(&content);
    if let Some(row) = shallow(&content, indent) {
        return Err(YamlEnd::Unread(row.place(reader.file())));
    }
    let text = block_text(alloc, &content, style, chomping, indent)?;
    reader.pass(content.len());
    settle(reader);
    Ok(Tree::Scalar(at, Text::of(text)))
}
