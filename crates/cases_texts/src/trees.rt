//! Cases of `read`: the tree of a text, or its refusal with its place.

ghost use Rattle.std.specs.Prelude.{◌≤◌, length};

use crate::file_lines::{end_shown, refused};
use case_files::escaped;
use dp_base::Text;
use std::alloc::{AllocError, Global};
use yaml_tree::{Feature, Pair, Tree, YamlEnd, read};

/// How many levels are shown: more than a tree can have.
const LEVELS: u32 = 300;

/// The tree of a text, or what it is refused for.
pub(crate) fn answer(alloc: Global, bytes: &[u8]) -> Result<String, AllocError>
    requires { length bytes.now ≤ 16777216 }
{
    match read(alloc, 1, bytes) {
        Ok(tree) => shown(alloc, &tree, LEVELS),
        Err(end) => tree_end_shown(alloc, end),
    }
}

/// A place and `<text>`, `[item item]` or `{key=value key=value}`.
#[cycle(nodes)]
fn shown(alloc: Global, tree: &Tree, levels: u32) -> Result<String, AllocError> {
    if levels == 0 {
        return format!(in alloc; "too deep");
    }
    let at = tree.place();
    let inner = match tree {
        Tree::Scalar(_, text) => scalar(alloc, text)?,
        Tree::List(_, items) => list(alloc, items.list(), levels - 1)?,
        Tree::Map(_, pairs) => map(alloc, pairs.list(), levels - 1)?,
    };
    let (line, column) = (at.line, at.column);
    format!(in alloc; "{line}:{column}{inner}")
}

fn scalar(alloc: Global, text: &Text) -> Result<String, AllocError> {
    let text = escaped(alloc, text.as_text().as_bytes())?;
    format!(in alloc; "<{text}>")
}

#[cycle(nodes)]
fn list(alloc: Global, items: &[Tree], levels: u32) -> Result<String, AllocError> {
    let mut out = String::from_str(alloc, "[")?;
    for (index, item) in items.iter().enumerate() {
        let item = shown(alloc, item, levels)?;
        out.push_str(if index > 0 { " " } else { "" })?;
        out.push_str(item.as_str())?;
    }
    out.push(']')?;
    Ok(out)
}

#[cycle(nodes)]
fn map(alloc: Global, pairs: &[Pair], levels: u32) -> Result<String, AllocError> {
    let mut out = String::from_str(alloc, "{")?;
    for (index, pair) in pairs.iter().enumerate() {
        let key = shown(alloc, &pair.key, levels)?;
        let value = shown(alloc, &pair.value, levels)?;
        let pair = format!(in alloc; "{key}={value}")?;
        out.push_str(if index > 0 { " " } else { "" })?;
        out.push_str(pair.as_str())?;
    }
    out.push('}')?;
    Ok(out)
}

fn tree_end_shown(alloc: Global, end: YamlEnd) -> Result<String, AllocError> {
    match end {
        YamlEnd::Scan(end) => end_shown(alloc, end),
        YamlEnd::BadQuote(at) => refused(alloc, at, "13 BadQuote"),
        YamlEnd::Unread(at) => refused(alloc, at, "14 Unread"),
        YamlEnd::TwiceKey(at) => refused(alloc, at, "15 TwiceKey"),
        YamlEnd::TooDeep(at) => refused(alloc, at, "16 TooDeep"),
        YamlEnd::OutOfProfile(at, feature) => refused(alloc, at, feature_name(feature)),
        YamlEnd::Memory => format!(in alloc; "memory"),
    }
}

fn feature_name(feature: Feature) -> &'static str {
    match feature {
        Feature::Anchor => "17 Anchor",
        Feature::Alias => "17 Alias",
        Feature::Tag => "17 Tag",
        Feature::Directive => "17 Directive",
        Feature::Documents => "17 Documents",
        Feature::QuestionKey => "17 QuestionKey",
        Feature::BlockScalar => "17 BlockScalar",
        Feature::SinglePair => "17 SinglePair",
        Feature::Escape => "17 Escape",
    }
}
