//! What begins at a point.

ghost use Rattle.std.specs.Prelude.{◌≡◌};
ghost use Rattle.yaml_tree.specs.Openings.{before_blank, header_opening, opening, deep_end};

use crate::header::{Chomping, Style, chomping_of, is_header, style_of};
use crate::plain::begins_plain;
use crate::quoted::inside;
use crate::reader::Reader;
use crate::tree::{Feature, YamlEnd};
use dp_base::{Place, is_blank};

/// What begins at a point where a node or a key must begin.
#[derive(Clone, Copy)]
pub(crate) enum Opening {
    Plain,
    /// A quoted scalar: in single quotes or in double ones, and how many bytes stand between them.
    Quoted(bool, usize),
    /// A quote whose scalar does not end on its line.
    OpenQuote,
    FlowList,
    FlowMap,
    /// The header of a block scalar.
    Header(Style, Chomping),
    Outside(Feature),
    Nothing,
}

/// Whether blanks follow a byte. `bytes` stand behind it, and `ragged` says whether blanks follow these.
fn before_blank(ragged: bool, bytes: &[u8]) -> bool
    ensures { result ≡ before_blank ragged bytes.now }
{
    if bytes.is_empty() {
        ragged
    } else {
        is_blank(bytes[0])
    }
}

/// What `|` or `>` begins, with these bytes behind it: a block scalar in block style, where more than a key may stand.
fn header(flow: bool, maps: bool, byte: u8, bytes: &[u8]) -> Opening
    ensures { result ≡ header_opening flow maps byte bytes.now }
{
    if !flow && maps && is_header(bytes) {
        return Opening::Header(style_of(byte), chomping_of(bytes));
    }
    Opening::Outside(Feature::BlockScalar)
}

/// What begins at the point. `flow` says whether the point is inside a flow form, and `maps` whether a flow map may
/// begin there.
pub(crate) fn what_begins(reader: &Reader<'_>, flow: bool, maps: bool) -> Opening
    ensures { result ≡ opening flow maps reader.now }
{
    let here = reader.here();
    if here.is_empty() {
        return Opening::Nothing;
    }
    match here[0] {
        byte @ (b'"' | b'\'') => match inside(here) {
            Some(count) => Opening::Quoted(byte == b'\'', count),
            None => Opening::OpenQuote,
        },
        b'[' => Opening::FlowList,
        b'{' if maps => Opening::FlowMap,
        b'{' => Opening::Nothing,
        b'&' => Opening::Outside(Feature::Anchor),
        b'*' => Opening::Outside(Feature::Alias),
        b'!' => Opening::Outside(Feature::Tag),
        byte @ (b'|' | b'>') => header(flow, maps, byte, &here[1..]),
        _ if begins_plain(flow, here) => Opening::Plain,
        b'?' if before_blank(reader.is_ragged(), &here[1..]) => {
            Opening::Outside(Feature::QuestionKey)
        }
        _ => Opening::Nothing,
    }
}

/// How it is refused where no level is left.
pub(crate) fn deep_end(place: Place, opening: Opening) -> YamlEnd
    ensures { result ≡ deep_end place opening }
{
    match opening {
        Opening::OpenQuote => YamlEnd::BadQuote(place),
        Opening::Nothing => YamlEnd::Unread(place),
        _ => YamlEnd::TooDeep(place),
    }
}
