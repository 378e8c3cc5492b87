//! Nodes that must be whole numbers.

ghost use Rattle.std.specs.Prelude.{◌≡◌, ◌<◌, ◌≤◌, IfOk, pos};
ghost use Rattle.std.specs.Str.{all_ascii_digits};
ghost use Rattle.std.specs.Str.Parse.{without_leading_sign};
ghost use Rattle.dp_base.specs.Results.{Answers};
ghost use Rattle.dypdl_nodes.specs.Reads.{told};
ghost use Rattle.dypdl_nodes.specs.Scalars.{writes_number, number_written, number_between, number_of, count_of, index_of};

use crate::ends::{LoadEnd, refused};
use crate::rules::{BAD_INDEX, BAD_NUMBER};
use crate::texts::text_of;
use yaml_tree::Tree;

/// The greatest whole number of a model; the least is its negative.
pub const GREATEST: i64 = 4_611_686_018_427_387_903;

/// A word's bytes without a sign in front.
fn unsigned(word: &[u8]) -> &[u8]
    ensures { result.now ≡ without_leading_sign word.now }
{
    match word {
        [b'+' | b'-', digits @ ..] => digits,
        _ => word,
    }
}

fn are_digits(bytes: &[u8]) -> bool
    ensures { result ≡ all_ascii_digits bytes.now }
{
    bytes.iter().all(|byte| byte.is_ascii_digit())
}

/// Whether a text is an optional sign and one or more digits.
fn writes_number(text: &str) -> bool
    ensures { result ≡ writes_number text.now }
{
    let digits = unsigned(text.as_bytes());
    !digits.is_empty() && are_digits(digits)
}

fn number_written(least: i64, most: i64, text: &str) -> Option<i64>
    ensures { result ≡ number_written least most text.now }
{
    if !writes_number(text) {
        return None;
    }
    let n = text.parse::<i64>().ok()?;
    (least <= n && n <= most).then_some(n)
}

/// A whole number between two bounds. `BAD_NUMBER` for any other scalar.
pub fn number_between(least: i64, most: i64, tree: &Tree) -> Result<i64, LoadEnd>
    ensures { Answers told result (number_between least most tree.now) }
{
    match number_written(least, most, text_of(tree)?) {
        Some(n) => Ok(n),
        None => Err(refused(BAD_NUMBER, tree.place())),
    }
}

/// A whole number of a model.
pub fn number_of(tree: &Tree) -> Result<i64, LoadEnd>
    ensures { Answers told result (number_of tree.now) }
{
    number_between(-GREATEST, GREATEST, tree)
}

/// A whole number of a model that is not negative.
pub fn count_of(tree: &Tree) -> Result<u64, LoadEnd>
    ensures { Answers told result (count_of tree.now) }
{
    Ok(number_between(0, GREATEST, tree)?.unsigned_abs())
}

/// The number of a member of an object type with this count. `BAD_INDEX` for a greater one.
pub fn index_of(count: u32, tree: &Tree) -> Result<u32, LoadEnd>
    ensures index { Answers told result (index_of count tree.now) }
    ensures within { IfOk result (λ i. i < count) }
{
    let index = count_of(tree)?;
    if index >= u64::from(count) {
        return Err(refused(BAD_INDEX, tree.place()));
    }
    Ok(index as u32)
}
