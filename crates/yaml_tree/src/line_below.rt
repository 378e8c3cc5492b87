//! Lines that are not entered yet.

ghost use Rattle.std.specs.Prelude.{◌≡◌, ◌+◌};
ghost use Rattle.yaml_tree.specs.Rest.{IsSpan, row_of};
ghost use Rattle.yaml_tree.specs.BlockScalars.{is_blank_row};
ghost use Rattle.yaml_tree.specs.Texts.{place_in};

use dp_base::{Place, is_blank};
use std::marker::Model;
use yaml_scan::Line;

/// A line of a text that is not entered yet.
#[derive(Drop)]
pub(crate) struct LineBelow<'a> {
    number: u32,
    indent: u32,
    text: &'a str,
    ragged: bool,
}

impl<'a> Model for LineBelow<'a> {
    ghost use Rattle.std.specs.Prelude.{◌≤◌};
    ghost use Rattle.yaml_tree.specs.Rest.{Row, row_code};

    ghost Value = { Row };

    ghost coded = { row_code };

    ghost view = { λ row. record { number = row.number; indent = row.indent; text = row.text.now; ragged = row.ragged } };

    ghost invariant = { λ row. row.indent ≤ 16777216 };
}

impl<'a> LineBelow<'a> {
    pub(crate) fn of(text: &'a str, line: Line) -> LineBelow<'a>
        requires { IsSpan text.now line }
        ensures { result ≡ row_of text.now line }
    {
        let bytes = text.as_bytes();
        let start = line.start as usize;
        let end = line.end as usize;
        LineBelow {
            number: line.number,
            indent: line.indent,
            text: &text[start..end],
            ragged: end < bytes.len() && is_blank(bytes[end]),
        }
    }

    /// The line's number, from 1.
    pub(crate) fn number(&self) -> u32
        ensures { result ≡ self.now.number }
    {
        self.number
    }

    /// How many spaces lead the line.
    pub(crate) fn indent(&self) -> u32
        ensures { result ≡ self.now.indent }
    {
        self.indent
    }

    /// The place of its first character that is no space.
    pub(crate) fn place(&self, file: u8) -> Place
        ensures { result ≡ place_in file self.now.number (self.now.indent + 1) }
    {
        Place {
            file,
            line: self.number,
            column: self.indent + 1,
        }
    }

    /// What stands in the line behind its indent and before the blanks at its end.
    pub(crate) fn text(&self) -> &'a [u8]
        ensures { result.now ≡ self.now.text }
    {
        self.text.as_bytes()
    }

    /// The same.
    pub(crate) fn as_text(&self) -> &'a str
        ensures { result.now ≡ self.now.text }
    {
        self.text
    }

    /// Whether nothing but blanks stands in the line.
    pub(crate) fn is_blank(&self) -> bool
        ensures { result ≡ is_blank_row self.now }
    {
        self.text.is_empty()
    }

    /// Whether blanks stand at its end.
    pub(crate) fn is_ragged(&self) -> bool
        ensures { result ≡ self.now.ragged }
    {
        self.ragged
    }
}
