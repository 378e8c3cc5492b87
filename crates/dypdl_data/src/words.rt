//! Which texts may be names.

ghost use Rattle.std.specs.Prelude.{◌≡◌, reverse};
ghost use Rattle.std.specs.List.{list_all};
ghost use Rattle.dp_model.specs.Limits.{is_name};
ghost use Rattle.dypdl_expr.specs.Tokens.{is_inner, has_control};
ghost use Rattle.dypdl_data.specs.Names.{is_word_name, begins_with_space, is_transition_name};

use dypdl_words::{begins_number, is_reserved};

/// Whether a text is as long as a name may be.
fn is_name(text: &str) -> bool
    ensures { result ≡ is_name text.now }
{
    !text.is_empty() && text.len() <= 200
}

/// Whether a byte may stand within a word of an expression.
fn is_inner(byte: u8) -> bool
    ensures { result ≡ is_inner byte }
{
    !matches!(byte, b' ' | b'\t' | b'\n' | b'\r' | b'(' | b')' | b'|')
}

fn are_inner(bytes: &[u8]) -> bool
    ensures { result ≡ list_all is_inner bytes.now }
{
    for byte in bytes {
        if !is_inner(*byte) {
            return false;
        }
    }
    true
}

fn has_control(text: &str) -> bool
    ensures { result ≡ has_control text.now }
{
    text.chars().any(|c| c.is_control())
}

/// Whether a text may be the name of an object type, a variable, a table or a parameter: one word of an expression, of 1
/// to 200 bytes, that does not begin as a number and is not a word of the language.
pub fn is_word_name(word: &str) -> bool
    ensures { result ≡ is_word_name word.now }
{
    is_name(word)
        && are_inner(word.as_bytes())
        && !has_control(word)
        && !begins_number(word)
        && !is_reserved(word)
}

fn begins_with_space(bytes: &[u8]) -> bool
    ensures { result ≡ begins_with_space bytes.now }
{
    matches!(bytes, [b' ', ..])
}

fn ends_with_space(bytes: &[u8]) -> bool
    ensures { result ≡ begins_with_space (reverse bytes.now) }
{
    matches!(bytes, [.., b' '])
}

/// Whether a text may be the name of a transition: 1 to 200 bytes, without control characters and with no space at its
/// ends.
pub fn is_transition_name(text: &str) -> bool
    ensures { result ≡ is_transition_name text.now }
{
    is_name(text)
        && !has_control(text)
        && !begins_with_space(text.as_bytes())
        && !ends_with_space(text.as_bytes())
}
