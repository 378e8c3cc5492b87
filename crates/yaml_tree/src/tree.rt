//! Trees, their entries, and why a text has none.

ghost use Rattle.std.specs.Prelude.{◌≡◌, option_map};
ghost use Rattle.yaml_tree.specs.Fields.{value_in};
ghost use Rattle.yaml_tree.specs.declared.tree.YamlEnd.TheVariants.{Memory};

use dp_base::{Place, Seq, Text};
use std::alloc::{AllocError, AllocFailed};
use thiserror::Error;
use yaml_scan::ScanEnd;

/// A node of a text, at the place of its first character. A scalar that is not written stands one byte past the `:` or
/// `-` before it, the value of a key that stands alone in a flow map one byte past that key, and that of a file without
/// content at line 1, column 1.
#[cycle(tree)]
#[derive(Debug, Drop)]
pub enum Tree {
    /// A plain, quoted or block scalar, with its text.
    Scalar(Place, Text),
    List(Place, Seq<Tree>),
    Map(Place, Seq<Pair>),
}

impl Tree {
    ghost use Rattle.std.specs.Prelude.{◌≡◌, option_map};
    ghost use Rattle.yaml_tree.specs.Fields.{tree_place, scalar_text, list_items, map_entries, is_text, value_in};

    /// The place of its first character.
    pub fn place(&self) -> Place
        ensures { result ≡ tree_place self.now }
    {
        match self {
            Tree::Scalar(place, _) | Tree::List(place, _) | Tree::Map(place, _) => *place,
        }
    }

    /// The text of a scalar.
    pub fn text(&self) -> Option<&Text>
        ensures { option_map (λ text. text.now) result ≡ scalar_text self.now }
    {
        match self {
            Tree::Scalar(_, text) => Some(text),
            Tree::List(_, _) | Tree::Map(_, _) => None,
        }
    }

    /// The items of a list.
    pub fn items(&self) -> Option<&Seq<Tree>>
        ensures { option_map (λ items. items.now) result ≡ list_items self.now }
    {
        match self {
            Tree::List(_, items) => Some(items),
            Tree::Scalar(_, _) | Tree::Map(_, _) => None,
        }
    }

    /// The value of a map's entry whose key is a scalar with this text.
    pub fn key(&self, name: &str) -> Option<&Tree>
        ensures { option_map (λ value. value.now) result ≡ value_in name.now (map_entries self.now) }
    {
        match self {
            Tree::Map(_, entries) => value_in(entries.list(), name),
            Tree::Scalar(_, _) | Tree::List(_, _) => None,
        }
    }

    fn is_named(&self, name: &str) -> bool
        ensures { result ≡ is_text name.now (scalar_text self.now) }
    {
        match self.text() {
            Some(text) => text.as_text() == name,
            None => false,
        }
    }
}

/// The value of the first entry whose key is a scalar with this text.
fn value_in<'a>(entries: &'a [Pair], name: &str) -> Option<&'a Tree>
    ensures { option_map (λ value. value.now) result ≡ value_in name.now entries.now }
{
    for entry in entries {
        if entry.key.is_named(name) {
            return Some(&entry.value);
        }
    }
    None
}

/// An entry of a map.
#[cycle(tree)]
#[derive(Debug, Drop)]
pub struct Pair {
    pub key: Tree,
    pub value: Tree,
}

/// A form of YAML that models do not use.
#[derive(Clone, Copy, Debug, PartialEq, Eq)]
pub enum Feature {
    /// `&`
    Anchor,
    /// `*`
    Alias,
    /// `!`
    Tag,
    /// A line that begins with `%`.
    Directive,
    /// A line `---` other than the one that may come first, or a line `...`.
    Documents,
    /// `?` before a blank.
    QuestionKey,
    /// The header of a block scalar with more than one sign, blanks and a comment, and a `|` or `>` that begins a scalar in
    /// a flow form, as a key or as the whole file.
    BlockScalar,
    /// A key with its `:` in a flow list.
    SinglePair,
    /// A backslash before another character than `"`, `\`, `/`, `n` and `t`.
    Escape,
}

/// Why a text has no tree: the first refusal, or want of memory.
#[derive(Debug, Drop, Error)]
pub enum YamlEnd {
    /// The file has no lines. Want of memory is always `Memory`, never in here.
    #[error(transparent)]
    Scan(ScanEnd),
    /// The opening quote of a scalar that does not end on its line.
    #[error("no closing quote for {0:?}")]
    BadQuote(Place),
    /// Where no form goes on.
    #[error("not readable at {0:?}")]
    Unread(Place),
    /// A key that equals an earlier one of its map.
    #[error("twice the same key at {0:?}")]
    TwiceKey(Place),
    /// A node inside 64 others.
    #[error("nested too deep at {0:?}")]
    TooDeep(Place),
    /// A form of YAML that models do not use, at its first character: a single pair at its key, an escape at its
    /// backslash.
    #[error("{1:?} at {0:?}")]
    OutOfProfile(Place, Feature),
    #[error("out of memory")]
    Memory,
}

impl From<AllocError> for YamlEnd {
    ghost from_gives = { λ _ e. e ≡ Memory };

    fn from(_error: AllocError) -> YamlEnd {
        YamlEnd::Memory
    }
}

impl<T: Drop> From<AllocFailed<T>> for YamlEnd {
    ghost from_gives = { λ _ e. e ≡ Memory };

    fn from(_error: AllocFailed<T>) -> YamlEnd {
        YamlEnd::Memory
    }
}
