//! Whole texts.

ghost use Rattle.std.specs.Prelude.{◌≡◌, ◌≤◌, ℕ, List, length, map, None, Some, Ok, Err, All, IfOk, IfErr, MatchResult};
ghost use Rattle.yaml_scan.specs.Faults.{bad_byte};
ghost use Rattle.yaml_scan.specs.Lines.{lines_of};
ghost use Rattle.yaml_tree.specs.Rest.{IsSpan, row_of};
ghost use Rattle.yaml_tree.specs.Lines.{from_content, end_from};
ghost use Rattle.yaml_tree.specs.Texts.{place_in, past_start, stray_line, TopNode, OfLines, Spells, Refused};
ghost use Rattle.yaml_tree.specs.Results.{MemoryOr};
ghost use Rattle.yaml_tree.specs.Within.{IsWithin};
ghost use Rattle.yaml_tree.specs.declared.tree.Tree.{Tree};
ghost use Rattle.yaml_tree.specs.declared.tree.YamlEnd.{YamlEnd};

use crate::block::node;
use crate::line_below::LineBelow;
use crate::points::{is_marker, marker_end, pass_to_content};
use crate::reader::Reader;
use crate::tree::{Tree, YamlEnd};
use dp_base::{Place, Text};
use std::alloc::Global;
use yaml_scan::{Line, ScanEnd};

/// How many nodes may stand inside one another.
const LEVELS: u32 = 64;

/// The tree that a text spells. `file` is the number of the file in the places: 1 for the domain, 2 for the problem.
pub fn read(alloc: Global, file: u8, bytes: &[u8]) -> Result<Tree, YamlEnd>
    requires { length bytes.now ≤ 16777216 }
    // The tree that is read is one that the text spells.
    ensures read { IfOk result (λ tree. Spells file bytes.now tree) }
    // A text that spells a tree is read as it, unless memory runs out.
    ensures every { (tree : Tree) → Spells file bytes.now tree
        → MatchResult result (λ found. found ≡ tree) (λ e. e ≡ YamlEnd.Memory) }
    // A refusal is the text's first one.
    ensures refused { IfErr result (MemoryOr (Refused file bytes.now)) }
    // A text that has a refusal is refused so, unless memory runs out.
    ensures every_refusal { (e : YamlEnd) → Refused file bytes.now e
        → MatchResult result (λ _. ⊥) (MemoryOr (λ first. first ≡ e)) }
    // The text of each scalar has at most as many bytes as the file.
    ensures within { IfOk result (IsWithin (length bytes.now)) }
{
    match yaml_scan::lines(alloc, file, bytes) {
        Ok(lines) => of_lines(alloc, file, as_text(bytes), lines.list().as_slice()),
        Err(ScanEnd::Memory) => Err(YamlEnd::Memory),
        Err(end) => Err(YamlEnd::Scan(end)),
    }
}

fn as_text(bytes: &[u8]) -> &str
    requires { bad_byte bytes.now ≡ None }
    ensures { result.now ≡ bytes.now }
{
    match str::from_utf8(bytes) {
        Ok(text) => text,
        Err(_) => unreachable!(),
    }
}

/// The tree of a text with these lines.
fn of_lines(alloc: Global, file: u8, text: &str, lines: &[Line]) -> Result<Tree, YamlEnd>
    requires short { length text.now ≤ 16777216 }
    requires all { lines.now ≡ lines_of text.now }
    ensures read { IfOk result (λ tree. OfLines file text.now (Ok lines.now) (Ok tree)) }
    ensures refused { IfErr result
        (MemoryOr (λ e. OfLines file text.now (Ok lines.now) (Err e))) }
{
    let end = text_end(file, text, lines);
    let mut reader = Reader::before(file, end, text, lines);
    pass_start(&mut reader);
    top_node(alloc, &mut reader)
}

/// Where a text ends: one byte past the last one that is no blank.
fn text_end(file: u8, text: &str, lines: &[Line]) -> Place
    requires { All (IsSpan text.now) lines.now }
    ensures { result ≡ end_from (place_in file 1 1) (map (row_of text.now) lines.now) }
{
    let mut end = Place {
        file,
        line: 1,
        column: 1,
    };
    for line in lines {
        if line.start < line.end {
            end = Place {
                file,
                line: line.number,
                column: line.indent + 1 + (line.end - line.start),
            };
        }
    }
    end
}

/// Passes lines without content, and one line `---` with what has no content below it.
fn pass_start(reader: &mut Reader<'_>)
    ensures { reader.new ≡ record reader.old { below = past_start (from_content reader.old.below) } }
{
    pass_to_content(reader);
    let Some(row) = reader.row(0) else {
        return;
    };
    if row.indent() == 0 && row.text() == b"---".as_slice() {
        reader.pass(1);
        pass_to_content(reader);
    }
}

/// The node in the first line below, and no line with content below that.
fn top_node(alloc: Global, reader: &mut Reader<'_>) -> Result<Tree, YamlEnd>
    ensures read { IfOk result
        (λ tree. TopNode reader.old.file reader.old reader.old.below (Ok tree)) }
    ensures refused { IfErr result
        (MemoryOr (λ e. TopNode reader.old.file reader.old reader.old.below (Err e))) }
{
    let file = reader.file();
    let Some(first) = reader.row(0) else {
        let start = Place {
            file,
            line: 1,
            column: 1,
        };
        return Ok(Tree::Scalar(start, Text::of(String::new(alloc))));
    };
    if is_marker(&first) {
        return Err(marker_end(file, &first));
    }
    reader.enter(0);
    let tree = node(alloc, reader, 0, LEVELS)?;
    match reader.row(0) {
        None => Ok(tree),
        Some(row) => Err(stray_line(file, &row)),
    }
}

/// How a line below the top node is refused.
fn stray_line(file: u8, row: &LineBelow<'_>) -> YamlEnd
    ensures { result ≡ stray_line file row.now }
{
    if is_marker(row) {
        marker_end(file, row)
    } else {
        YamlEnd::Unread(row.place(file))
    }
}
