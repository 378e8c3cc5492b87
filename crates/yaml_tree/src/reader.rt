//! A point in a text, and how it moves.

ghost use Rattle.std.specs.Prelude.{◌≡◌, ◌≤◌, ◌<◌, ◌+◌, ℕ, false, List, [], ◌∷◌, length, take, drop, slice_get, IsCharBoundary, All, Some};
ghost use Rattle.std.specs.Str.{IsUtf8};
ghost use Rattle.yaml_tree.specs.Rest.{Row, IsSpan, rest_of, place, on, front};

use crate::content::Content;
use crate::line_below::LineBelow;
use dp_base::Place;
use std::marker::Model;
use yaml_scan::Line;

/// Reads a text from left to right. Contracts see what is left of it.
#[derive(Drop)]
pub(crate) struct Reader<'a> {
    file: u8,
    end: Place,
    text: &'a str,
    lines: &'a [Line],
    next: usize,
    line: u32,
    column: u32,
    at: usize,
    stop: usize,
    ragged: bool,
}

impl<'a> Model for Reader<'a> {
    ghost use Rattle.yaml_tree.specs.Rest.{Rest, rest_code, rest_of, IsReader};

    ghost Value = { Rest };

    ghost coded = { rest_code };

    ghost view = { λ r. rest_of r.file r.end r.line r.column r.text.now r.at r.stop r.ragged r.lines.now r.next };

    ghost invariant = { λ r. IsReader r.text.now r.lines.now r.next r.column r.at r.stop };
}

impl<'a> Reader<'a> {
    /// Before the first line. `end` is where the text ends.
    pub(crate) fn before(file: u8, end: Place, text: &'a str, lines: &'a [Line]) -> Reader<'a>
        requires short { length text.now ≤ 16777216 }
        requires spans { All (IsSpan text.now) lines.now }
        ensures { result ≡ rest_of file end 1 1 text.now 0 0 false lines.now 0 }
    {
        Reader {
            file,
            end,
            text,
            lines,
            next: 0,
            line: 1,
            column: 1,
            at: 0,
            stop: 0,
            ragged: false,
        }
    }

    pub(crate) fn file(&self) -> u8
        ensures { result ≡ self.now.file }
    {
        self.file
    }

    /// Where the text ends.
    pub(crate) fn end(&self) -> Place
        ensures { result ≡ self.now.end }
    {
        self.end
    }

    /// The place of the point.
    pub(crate) fn place(&self) -> Place
        ensures { result ≡ place self.now }
    {
        Place {
            file: self.file,
            line: self.line,
            column: self.column,
        }
    }

    /// What is left of the line.
    pub(crate) fn here(&self) -> &'a [u8]
        ensures value { result.now ≡ self.now.here }
        ensures utf8 { IsUtf8 self.now.here }
    {
        &self.text.as_bytes()[self.at..self.stop]
    }

    /// Whether blanks follow the line.
    pub(crate) fn is_ragged(&self) -> bool
        ensures { result ≡ self.now.ragged }
    {
        self.ragged
    }

    /// The next bytes of the line.
    pub(crate) fn piece(&self, count: usize) -> &'a str
        requires there { count ≤ length self.now.here }
        requires boundary { IsCharBoundary self.now.here count }
        ensures { result.now ≡ take count self.now.here }
    {
        &self.text[self.at..self.at + count]
    }

    /// Passes bytes of the line.
    pub(crate) fn advance(&mut self, count: usize)
        requires there { count ≤ length self.old.here }
        requires boundary { IsCharBoundary self.old.here count }
        ensures { self.new ≡ on count self.old }
    {
        self.at += count;
        self.column += count as u32;
    }

    /// Passes what is left of the line.
    pub(crate) fn close_line(&mut self)
        ensures { self.new ≡ record self.old { here = [] } }
    {
        self.stop = self.at;
    }

    /// A line below, counted from 0.
    pub(crate) fn row(&self, index: usize) -> Option<LineBelow<'a>>
        ensures { result ≡ slice_get self.now.below index }
    {
        if index >= self.lines.len() - self.next {
            return None;
        }
        Some(LineBelow::of(self.text, self.lines[self.next + index]))
    }

    /// The lines below.
    pub(crate) fn below(&self) -> Content<'a>
        ensures { result ≡ self.now.below }
    {
        Content::of(self.text, &self.lines[self.next..])
    }

    /// Passes lines below.
    pub(crate) fn pass(&mut self, count: usize)
        requires { count ≤ length self.old.below }
        ensures { self.new ≡ record self.old { below = drop count self.old.below } }
    {
        self.next += count;
    }

    /// Goes to the first character of a line below, past the lines before it.
    pub(crate) fn enter(&mut self, index: usize)
        requires { index < length self.old.below }
        ensures { (row : Row) → slice_get self.old.below index ≡ Some row
            → self.new ≡ front self.old row (drop (index + 1) self.old.below) }
    {
        let line = self.lines[self.next + index];
        let row = LineBelow::of(self.text, line);
        self.next += index + 1;
        self.line = line.number;
        self.column = line.indent + 1;
        self.at = line.start as usize;
        self.stop = line.end as usize;
        self.ragged = row.is_ragged();
    }
}
