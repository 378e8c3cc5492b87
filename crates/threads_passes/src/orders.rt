//! Orders in which the shards of a pass are turned.

use dp_base::Seq;
use std::alloc::{AllocError, Global};

/// So many shards are drawn, before each is named once.
const DRAWN: u32 = 64;

/// 64 shards drawn by a linear congruential generator with this seed, and then all shards by their numbers.
pub(crate) fn drawn_order(alloc: Global, workers: u32, seed: u32) -> Result<Seq<u32>, AllocError> {
    let mut order = Vec::new(alloc);
    let mut x = u64::from(seed) + 1;
    for _ in 0..DRAWN {
        x = x.wrapping_mul(48_271) % 2_147_483_647;
        order.push((x % 100) as u32 % workers.max(1))?;
    }
    for worker in 0..workers {
        order.push(worker)?;
    }
    Ok(Seq::of(order))
}

/// The order that words name. A word that is no number is shard 0.
pub(crate) fn named_order(alloc: Global, words: &str) -> Result<Seq<u32>, AllocError> {
    let mut order = Vec::new(alloc);
    for word in words.split(' ') {
        order.push(word.parse::<u32>().unwrap_or(0))?;
    }
    Ok(Seq::of(order))
}
