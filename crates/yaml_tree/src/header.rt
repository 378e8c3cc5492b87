//! Headers of block scalars.

ghost use Rattle.std.specs.Prelude.{◌≡◌};
ghost use Rattle.yaml_tree.specs.Openings.{style_of, begins_sign, chomping_of, is_header};

use crate::points::{begins, is_clear};

/// How the lines of a block scalar are joined.
#[derive(Clone, Copy, Debug, PartialEq, Eq)]
pub(crate) enum Style {
    /// `|`
    Literal,
    /// `>`
    Folded,
}

/// What a block scalar keeps of its last line break and of the blank lines behind it.
#[derive(Clone, Copy, Debug, PartialEq, Eq)]
pub(crate) enum Chomping {
    /// `-`: nothing.
    Strip,
    /// No sign: the break.
    Clip,
    /// `+`: the break and the blank lines.
    Keep,
}

/// The style that `|` or `>` stands for.
pub(crate) fn style_of(byte: u8) -> Style
    ensures { result ≡ style_of byte }
{
    if byte == b'>' {
        Style::Folded
    } else {
        Style::Literal
    }
}

fn begins_sign(bytes: &[u8]) -> bool
    ensures { result ≡ begins_sign bytes.now }
{
    begins(b'-', bytes) || begins(b'+', bytes)
}

/// What the sign behind `|` or `>` stands for.
pub(crate) fn chomping_of(bytes: &[u8]) -> Chomping
    ensures { result ≡ chomping_of bytes.now }
{
    if begins(b'-', bytes) {
        return Chomping::Strip;
    }
    if begins(b'+', bytes) {
        return Chomping::Keep;
    }
    Chomping::Clip
}

/// Whether no more than a sign, blanks and a comment stand behind `|` or `>`.
pub(crate) fn is_header(bytes: &[u8]) -> bool
    ensures { result ≡ is_header bytes.now }
{
    if begins_sign(bytes) {
        return is_clear(&bytes[1..]);
    }
    is_clear(bytes)
}
