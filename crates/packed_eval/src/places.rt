//! Places of cells with one argument and with two.

ghost use Rattle.std.specs.Prelude.{◌≡◌, ◌∷◌, [], Ok};
ghost use Rattle.packed_words.specs.Places.{placed};

use dp_model::FaultKind;
use packed_words::{after_first, member_of, member_on};

/// The place of a cell with one argument.
pub fn place_of_one(counts: &[u32], z: i64) -> Result<usize, FaultKind>
    ensures { result ≡ placed counts.now (z ∷ []) (Ok 0) }
{
    match counts {
        [count, ..] => Ok(member_of(*count, z)? as usize),
        [] => Ok(0),
    }
}

/// The place of a cell with two arguments, of which the last is counted fastest.
pub fn place_of_two(counts: &[u32], y: i64, z: i64) -> Result<usize, FaultKind>
    ensures { result ≡ placed counts.now (y ∷ z ∷ []) (Ok 0) }
{
    match counts {
        [count, last, ..] => {
            let row = member_of(*count, y)?;
            let column = member_of(*last, z)?;
            Ok(row as usize * *last as usize + column as usize)
        }
        _ => member_on(after_first(counts), member_on(counts, Ok(0), y), z),
    }
}
