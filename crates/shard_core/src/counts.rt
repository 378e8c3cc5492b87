//! Counts by shard.

ghost use Rattle.std.specs.Prelude.{◌≡◌, ℕ, ◌+◌, ◌^◌, ◌<◌, ◌≤◌, length, get_or, replicate, slice_set, IfOk, OnErr};

use std::alloc::{AllocError, Global};

/// As many equal counts.
pub(crate) fn equal_counts(alloc: Global, shards: u32, count: u64) -> Result<Vec<u64>, AllocError>
    ensures { IfOk result (λ counts. counts.items ≡ replicate shards count) }
{
    let counts = vec![in alloc; count; shards as usize]?;
    Ok(counts)
}

/// The count of a shard.
pub(crate) fn count_of(counts: &[u64], shard: u32) -> u64
    ensures { result ≡ get_or counts.now shard 0 }
{
    match counts.get(shard as usize) {
        Some(count) => *count,
        None => 0,
    }
}

/// A sum, or want of memory just where no word holds it: no count of what is kept can be.
pub(crate) fn sum(a: u64, b: u64) -> Result<u64, AllocError>
    ensures sum { IfOk result (λ sum. sum ≡ a + b) }
    ensures great { OnErr result (2 ^ 64 ≤ a + b) }
{
    match a.checked_add(b) {
        Some(sum) => Ok(sum),
        None => Err(AllocError),
    }
}

/// One more for a shard.
pub(crate) fn raise(counts: &mut Vec<u64>, shard: u32)
    requires shard { shard < length counts.old.items }
    requires few { get_or counts.old.items shard 0 + 1 < 2 ^ 64 }
    ensures { counts.new.items ≡ slice_set counts.old.items shard (get_or counts.old.items shard 0 + 1) }
{
    counts[shard as usize] += 1;
}

/// No count is above 0.
pub(crate) fn clear_counts(counts: &mut Vec<u64>)
    ensures zero { (j : ℕ) → get_or counts.new.items j 0 ≡ 0 }
    ensures long { length counts.new.items ≡ length counts.old.items }
{
    counts.as_mut_slice().fill(0);
}
