//! Numbers among the words.

ghost use Rattle.std.specs.Prelude.{◌≡◌, ◌<◌, ◌≤◌, ◌^◌, IsTrue, IfSome, IfNone, length, option_map};
ghost use Rattle.std.specs.Str.{all_ascii_digits};
ghost use Rattle.std.specs.Str.Parse.{digits_value};
ghost use Rattle.cert_types.specs.Places.{IsPart};
ghost use Rattle.command_line.specs.Jobs.{halves, is_number, number_in, number_or, part_in};

use cert_types::CheckPart;

/// The most parts of a check.
const MOST_PARTS: u64 = 4096;

fn are_digits(bytes: &[u8]) -> bool
    ensures { result ≡ all_ascii_digits bytes.now }
{
    bytes.iter().all(|byte| byte.is_ascii_digit())
}

/// Whether a text is one to twenty digits.
fn is_number(text: &str) -> bool
    ensures { result ≡ is_number text.now }
{
    !text.is_empty() && text.len() <= 20 && are_digits(text.as_bytes())
}

/// The number that digits write, where it fits 64 bits.
#[tactic(auto, using(crate::proofs::Numerals::read_digits))]
fn parsed(text: &str) -> Option<u64>
    requires digits { IsTrue (all_ascii_digits text.now) }
    requires filled { 0 < length text.now }
    ensures some { IfSome result (λ n. n ≡ digits_value 10 text.now) }
    ensures none { IfNone result (2 ^ 64 ≤ digits_value 10 text.now) }
{
    text.parse::<u64>().ok()
}

/// The number that a text writes, where it lies between two bounds. It has one to twenty digits, with zeros in front or
/// without.
pub(crate) fn number_in(least: u64, most: u64, text: &str) -> Option<u64>
    ensures number { result ≡ number_in least most text.now }
    ensures below { IfSome result (λ n. n ≤ most) }
    ensures above { IfSome result (λ n. least ≤ n) }
{
    if !is_number(text) {
        return None;
    }
    let number = parsed(text)?;
    (least <= number && number <= most).then_some(number)
}

/// The same of an option, which has a number where it is not given.
pub(crate) fn number_or(otherwise: u64, least: u64, most: u64, text: Option<&str>) -> Option<u64>
    requires { otherwise ≤ most }
    ensures number { result ≡ number_or otherwise least most (option_map (λ t. t.now) text.entry) }
    ensures below { IfSome result (λ n. n ≤ most) }
{
    match text {
        Some(text) => number_in(least, most, text),
        None => Some(otherwise),
    }
}

/// What stands before the first slash of a text, and what stands behind it.
fn halves(text: &str) -> Option<(&str, &str)>
    ensures { option_map (λ pair. (pair.0.now, pair.1.now)) result ≡ halves text.now }
{
    text.split_once('/')
}

/// The part of a check that a text names, as `2/3` does the second of three.
pub(crate) fn part_in(text: &str) -> Option<CheckPart>
    ensures part { result ≡ part_in text.now }
    ensures fits { IfSome result IsPart }
{
    let (index, count) = halves(text)?;
    let count = number_in(1, MOST_PARTS, count)?;
    let index = number_in(1, count, index)?;
    Some(CheckPart {
        index: index as u32,
        count: count as u32,
    })
}
