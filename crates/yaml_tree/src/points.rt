//! The points where reading goes on: behind blanks, at the next line with content, and in a flow form.

ghost use Rattle.std.specs.Prelude.{◌≡◌, MatchResult, Ok, Err};
ghost use Rattle.yaml_tree.specs.Rest.{skip_blanks};
ghost use Rattle.yaml_tree.specs.Characters.{begins, is_clear, is_item, is_colon};
ghost use Rattle.yaml_tree.specs.Lines.{has_content, from_content, is_marker, marker_end, flow_point, settle, end_line};

use crate::line_below::LineBelow;
use crate::reader::Reader;
use crate::tree::{Feature, YamlEnd};
use dp_base::{Place, is_blank, leading_blanks};

pub(crate) fn begins(byte: u8, bytes: &[u8]) -> bool
    ensures { result ≡ begins byte bytes.now }
{
    !bytes.is_empty() && bytes[0] == byte
}

/// Whether a line has an item of a block list here.
pub(crate) fn is_item(here: &[u8]) -> bool
    ensures { result ≡ is_item here.now }
{
    begins(b'-', here) && (here.len() == 1 || is_blank(here[1]))
}

/// Whether the `:` of a key in block style stands here.
pub(crate) fn is_colon(here: &[u8]) -> bool
    ensures { result ≡ is_colon here.now }
{
    begins(b':', here) && (here.len() == 1 || is_blank(here[1]))
}

/// Whether nothing is left in a line after a form, or only a comment behind a blank.
pub(crate) fn is_clear(here: &[u8]) -> bool
    ensures { result ≡ is_clear here.now }
{
    let blanks = leading_blanks(here);
    blanks == here.len() || (0 < blanks && here[blanks] == b'#')
}

/// Whether a line is neither blank nor a comment line.
pub(crate) fn has_content(row: &LineBelow<'_>) -> bool
    ensures { result ≡ has_content row.now }
{
    let text = row.text();
    let blanks = leading_blanks(text);
    blanks < text.len() && text[blanks] != b'#'
}

/// Whether a line marks documents: `---`, `...`, or one that begins with `%`.
pub(crate) fn is_marker(row: &LineBelow<'_>) -> bool
    ensures { result ≡ is_marker row.now }
{
    let text = row.text();
    row.indent() == 0
        && (text == b"---".as_slice() || text == b"...".as_slice() || begins(b'%', text))
}

/// How such a line is refused.
pub(crate) fn marker_end(file: u8, row: &LineBelow<'_>) -> YamlEnd
    ensures { result ≡ marker_end file row.now }
{
    let place = Place {
        file,
        line: row.number(),
        column: 1,
    };
    let feature = if begins(b'%', row.text()) {
        Feature::Directive
    } else {
        Feature::Documents
    };
    YamlEnd::OutOfProfile(place, feature)
}

/// Passes blanks of the line.
pub(crate) fn skip_blanks(reader: &mut Reader<'_>)
    ensures { reader.new ≡ skip_blanks reader.old }
{
    reader.advance(leading_blanks(reader.here()));
}

/// Passes the lines below that have no content.
pub(crate) fn pass_to_content(reader: &mut Reader<'_>)
    ensures { reader.new ≡ record reader.old { below = from_content reader.old.below } }
{
    while let Some(row) = reader.row(0) {
        if has_content(&row) {
            return;
        }
        reader.pass(1);
    }
}

/// Passes what is left of the line, and the lines below it up to the next one with content.
pub(crate) fn settle(reader: &mut Reader<'_>)
    ensures { reader.new ≡ settle reader.old }
{
    reader.close_line();
    pass_to_content(reader);
}

/// The same after a whole scalar or flow form in block style.
pub(crate) fn end_line(reader: &mut Reader<'_>) -> Result<(), YamlEnd>
    ensures { MatchResult result (λ _. end_line reader.old ≡ Ok reader.new)
        (λ e. end_line reader.old ≡ Err e) }
{
    if is_clear(reader.here()) {
        settle(reader);
        return Ok(());
    }
    skip_blanks(reader);
    Err(YamlEnd::Unread(reader.place()))
}

/// In a flow form, passes blanks, line breaks and comments.
pub(crate) fn flow_point(reader: &mut Reader<'_>) -> Result<(), YamlEnd>
    ensures { MatchResult result (λ _. flow_point reader.old ≡ Ok reader.new)
        (λ e. flow_point reader.old ≡ Err e) }
{
    if !is_clear(reader.here()) {
        skip_blanks(reader);
        return Ok(());
    }
    pass_to_content(reader);
    let Some(row) = reader.row(0) else {
        return Err(YamlEnd::Unread(reader.end()));
    };
    if is_marker(&row) {
        return Err(marker_end(reader.file(), &row));
    }
    reader.enter(0);
    Ok(())
}
