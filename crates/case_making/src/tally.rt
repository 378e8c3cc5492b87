//! What is told of many runs together.

ghost use Rattle.std.specs.Prelude.{◌≡◌};

use std::alloc::{AllocError, Global};

/// The digest of no bytes: FNV-1a, of 64 bits.
const NOTHING: u64 = 0xcbf2_9ce4_8422_2325;

const PRIME: u64 = 0x0100_0000_01b3;

/// How a run ended, and how many ended so.
#[derive(Drop)]
struct End {
    text: String,
    runs: u64,
}

/// How many runs came to each end, in the order in which the ends came first, and a digest of all that they printed.
#[derive(Drop)]
pub struct Tally {
    ends: Vec<End>,
    digest: u64,
}

/// A digest after the bytes of one more text.
fn digest_after(digest: u64, text: &[u8]) -> u64 {
    let mut digest = digest;
    for byte in text {
        digest = (digest ^ u64::from(*byte)).wrapping_mul(PRIME);
    }
    digest
}

/// The last line of a text, without its end, and of a refusal what stands behind the place.
fn last_told(output: &str) -> &str {
    let line = output.lines().last().unwrap_or("");
    let Some(refusal) = line.strip_prefix("refused ") else {
        return line;
    };
    match refusal.split_once(' ') {
        Some((_, told)) => told,
        None => refusal,
    }
}

/// Counts one more run of an end, if there are some already, and says whether it did.
fn count_in(ends: &mut [End], text: &str) -> bool {
    for end in ends {
        if end.text.as_str() == text {
            end.runs = end.runs.saturating_add(1);
            return true;
        }
    }
    false
}

impl Tally {
    pub fn new(alloc: Global) -> Tally {
        Tally {
            ends: Vec::new(alloc),
            digest: NOTHING,
        }
    }

    /// Adds a run that printed this output. Its end is the last line, without the place of a refusal.
    pub fn add(&mut self, alloc: Global, output: &str, status: u8) -> Result<(), AllocError> {
        self.digest = digest_after(self.digest, output.as_bytes());
        let told = last_told(output);
        let text = format!(in alloc; "status {status} {told}")?;
        if !count_in(&mut self.ends, text.as_str()) {
            self.ends.push(End { text, runs: 1 })?;
        }
        Ok(())
    }

    /// A line for each end with the number of its runs, and one with the digest.
    pub fn lines(&self, alloc: Global) -> Result<String, AllocError> {
        let mut out = String::new(alloc);
        for end in self.ends.iter() {
            let line = format!(in alloc; "{} {}\n", end.runs, end.text.as_str())?;
            out.push_str(line.as_str())?;
        }
        let line = format!(in alloc; "digest {:016x}\n", self.digest)?;
        out.push_str(line.as_str())?;
        Ok(out)
    }
}
