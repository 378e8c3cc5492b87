//! What one line has of a plain scalar.

ghost use Rattle.std.specs.Prelude.{◌≡◌, ◌≤◌, ◌<◌, false, length, take, slice_index, IsCharBoundary};
ghost use Rattle.yaml_tree.specs.Scalars.{ends_before, run_of, part_of};

use super::{ends_scalar, is_flow_mark};
use dp_base::is_blank;

/// Whether a plain scalar ends before a byte of its line. `behind_blank` says what stands before that byte, and
/// `bytes` stand behind it.
fn ends_before(flow: bool, behind_blank: bool, byte: u8, bytes: &[u8]) -> bool
    ensures { result ≡ ends_before flow behind_blank byte bytes.now }
{
    (byte == b'#' && behind_blank)
        || (byte == b':' && ends_scalar(flow, bytes))
        || (flow && is_flow_mark(byte))
}

/// How many bytes of a line stand before the one where a plain scalar ends.
fn run_length(flow: bool, here: &[u8]) -> usize
    ensures within { result ≤ length here.now }
    ensures run { run_of flow false here.now ≡ take result here.now }
    ensures ascii { result < length here.now → slice_index here.now result < 128 }
{
    let mut behind_blank = false;
    let mut at = 0;
    while at < here.len() {
        let byte = here[at];
        if ends_before(flow, behind_blank, byte, &here[at + 1..]) {
            return at;
        }
        behind_blank = is_blank(byte);
        at += 1;
    }
    at
}

/// How many bytes a line has of a plain scalar.
pub(super) fn part_length(flow: bool, here: &[u8]) -> usize
    ensures within { result ≤ length here.now }
    ensures bytes { result ≡ length (part_of flow here.now) }
    ensures part { part_of flow here.now ≡ take result here.now }
    ensures boundary { IsCharBoundary here.now result }
{
    let mut end = run_length(flow, here);
    while end > 0 && is_blank(here[end - 1]) {
        end -= 1;
    }
    end
}
