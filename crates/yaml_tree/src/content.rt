//! Some lines of a text.

ghost use Rattle.std.specs.Prelude.{◌≡◌, ◌<◌, ◌≤◌, length, map, take, slice_get, All, Some};
ghost use Rattle.yaml_tree.specs.Rest.{IsSpan, row_of};

use crate::line_below::LineBelow;
use std::marker::Model;
use yaml_scan::Line;

/// Lines of a text, one after the other.
#[derive(Drop)]
pub(crate) struct Content<'a> {
    text: &'a str,
    lines: &'a [Line],
}

impl<'a> Model for Content<'a> {
    ghost use Rattle.std.specs.Prelude.{List, map, All};
    ghost use Rattle.std.specs.Coded.{coded_list};
    ghost use Rattle.yaml_tree.specs.Rest.{Row, row_of, row_code, IsSpan};

    ghost Value = { List Row };

    ghost coded = { coded_list row_code };

    ghost view = { λ c. map (row_of c.text.now) c.lines.now };

    ghost invariant = { λ c. All (IsSpan c.text.now) c.lines.now };
}

impl<'a> Content<'a> {
    pub(crate) fn of(text: &'a str, lines: &'a [Line]) -> Content<'a>
        requires { All (IsSpan text.now) lines.now }
        ensures { result ≡ map (row_of text.now) lines.now }
    {
        Content { text, lines }
    }

    pub(crate) fn len(&self) -> usize
        ensures { result ≡ length self.now }
    {
        self.lines.len()
    }

    /// A line, counted from 0.
    pub(crate) fn row(&self, index: usize) -> LineBelow<'a>
        requires { index < length self.now }
        ensures { slice_get self.now index ≡ Some result }
    {
        LineBelow::of(self.text, self.lines[index])
    }

    /// The first lines.
    pub(crate) fn first(&self, count: usize) -> Content<'a>
        requires { count ≤ length self.now }
        ensures { result ≡ take count self.now }
    {
        Content {
            text: self.text,
            lines: &self.lines[..count],
        }
    }
}
