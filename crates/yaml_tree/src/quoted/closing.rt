//! Where quotes close.

ghost use Rattle.std.specs.Prelude.{◌≡◌, length, option_map};
ghost use Rattle.yaml_tree.specs.Scalars.{single_quoted, double_quoted};

/// How many bytes stand before the closing one of single quotes, behind the opening one. `''` does not close.
pub(super) fn single_inside(bytes: &[u8]) -> Option<usize>
    ensures { result ≡ option_map length (single_quoted bytes.now) }
{
    let mut at = 0;
    while at < bytes.len() {
        if bytes[at] != b'\'' {
            at += 1;
        } else if at + 1 < bytes.len() && bytes[at + 1] == b'\'' {
            at += 2;
        } else {
            return Some(at);
        }
    }
    None
}

/// The same of double quotes, where a backslash takes the next byte with it.
pub(super) fn double_inside(bytes: &[u8]) -> Option<usize>
    ensures { result ≡ option_map length (double_quoted bytes.now) }
{
    let mut at = 0;
    while at < bytes.len() {
        match bytes[at] {
            b'"' => return Some(at),
            b'\\' => at += 2,
            _ => at += 1,
        }
    }
    None
}
