//! How a case writes bytes that do not stand in a line: escapes, written and read back.

ghost use Rattle.std.specs.Prelude.{◌<◌};

use std::alloc::{AllocError, Global};

/// What the bytes before this one began.
#[derive(Clone, Copy, Debug, Drop)]
enum Begun {
    Nothing,
    /// A backslash.
    Escape,
    /// A backslash and `x`.
    High,
    /// A backslash, `x` and a digit of this value.
    Low(u8),
}

/// A text without its escapes: `\n`, `\r`, `\t`, and `\xNN` for any byte; a backslash before another character stands
/// for that character.
pub fn unescaped(alloc: Global, text: &str) -> Result<Vec<u8>, AllocError> {
    let mut out = Vec::new(alloc);
    push_unescaped(&mut out, text)?;
    Ok(out)
}

pub(crate) fn push_unescaped(out: &mut Vec<u8>, text: &str) -> Result<(), AllocError> {
    let mut begun = Begun::Nothing;
    for byte in text.bytes() {
        let (made, next) = step(begun, byte);
        begun = next;
        if let Some(made) = made {
            out.push(made)?;
        }
    }
    Ok(())
}

/// The byte that is whole with this one, and what it begins.
fn step(begun: Begun, byte: u8) -> (Option<u8>, Begun) {
    match (begun, byte) {
        (Begun::Nothing, b'\\') => (None, Begun::Escape),
        (Begun::Nothing, _) => (Some(byte), Begun::Nothing),
        (Begun::Escape, b'n') => (Some(b'\n'), Begun::Nothing),
        (Begun::Escape, b'r') => (Some(b'\r'), Begun::Nothing),
        (Begun::Escape, b't') => (Some(b'\t'), Begun::Nothing),
        (Begun::Escape, b'x') => (None, Begun::High),
        (Begun::Escape, _) => (Some(byte), Begun::Nothing),
        (Begun::High, _) => (None, Begun::Low(digit(byte))),
        (Begun::Low(high), _) => (Some((high << 4) | digit(byte)), Begun::Nothing),
    }
}

/// The value of a digit to the base 16.
fn digit(byte: u8) -> u8
    ensures { result < 16 }
{
    match byte {
        b'0'..=b'9' => byte - b'0',
        b'a'..=b'f' => byte - b'a' + 10,
        _ => 0,
    }
}

/// A text in one line of printable ASCII: other bytes and the backslash are written as escapes.
pub fn escaped(alloc: Global, bytes: &[u8]) -> Result<String, AllocError> {
    let mut out = String::new(alloc);
    for byte in bytes {
        push_escaped(alloc, &mut out, *byte)?;
    }
    Ok(out)
}

fn push_escaped(alloc: Global, out: &mut String, byte: u8) -> Result<(), AllocError> {
    match byte {
        b'\n' => out.push_str("\\n"),
        b'\r' => out.push_str("\\r"),
        b'\t' => out.push_str("\\t"),
        b'\\' => out.push_str("\\\\"),
        b' '..=b'~' => out.push(char::from(byte)),
        _ => {
            let escape = format!(in alloc; "\\x{byte:02x}")?;
            out.push_str(escape.as_str())
        }
    }
}
