//! What stands between quotes.

ghost use Rattle.std.specs.Prelude.{◌≡◌, ◌++◌, ◌∷◌, [], slice_get, string_bytes, option_and_then, IfOk, MatchResult, Ok, Err, Some};
ghost use Rattle.yaml_tree.specs.Scalars.{single_quoted, single_text, escaped, double_text};

use std::alloc::{AllocError, Global};

/// What the inside of single quotes stands for: `''` is one quote.
pub(super) fn single_text(alloc: Global, inner: &str) -> Result<String, AllocError>
    // The next quote that closes stands right behind these bytes.
    requires { single_quoted (inner.now ++ 39 ∷ []) ≡ Some inner.now }
    ensures { IfOk result (λ text. string_bytes text ≡ single_text inner.now) }
{
    let mut text = String::new(alloc);
    let mut left = inner;
    while let Some((part, behind)) = left.split_once('\'') {
        text.push_str(part)?;
        text.push('\'')?;
        left = &behind[1..];
    }
    text.push_str(left)?;
    Ok(text)
}

/// What a backslash and the first of these bytes stand for.
fn escaped(behind: &[u8]) -> Option<char>
    ensures { result ≡ option_and_then escaped (slice_get behind.now 0) }
{
    match behind {
        [byte @ (b'"' | b'\\' | b'/'), ..] => Some(char::from(*byte)),
        [b'n', ..] => Some('\n'),
        [b't', ..] => Some('\t'),
        _ => None,
    }
}

/// What the inside of double quotes stands for, or how many bytes behind the opening quote the first backslash stands
/// before another character than those of an escape.
pub(super) fn double_text(alloc: Global, inner: &str) -> Result<Result<String, usize>, AllocError>
    ensures { IfOk result (λ read. MatchResult read
        (λ text. double_text 1 inner.now ≡ Ok (string_bytes text))
        (λ at. double_text 1 inner.now ≡ Err at)) }
{
    let mut text = String::new(alloc);
    let mut left = inner;
    while let Some((part, behind)) = left.split_once('\\') {
        text.push_str(part)?;
        let Some(character) = escaped(behind.as_bytes()) else {
            return Ok(Err(inner.len() - behind.len()));
        };
        text.push(character)?;
        left = &behind[1..];
    }
    text.push_str(left)?;
    Ok(Ok(text))
}
