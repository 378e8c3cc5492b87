//! The numbers that a generated model draws: a linear congruential generator with the multiplier 48271 modulo 2^31 - 1.

ghost use Rattle.std.specs.Prelude.{◌≡◌, ◌<◌, ◌+◌, ◌*◌, map, IfOk};
ghost use Rattle.std.specs.List.{range_with_len};
ghost use Rattle.model_gen.specs.Draws.{first_of, next_of, drawn, draw, after};
ghost use Rattle.model_gen.specs.Texts.{first_draws, second_draws};

use std::alloc::{AllocError, Global};

/// The number of a generator.
#[derive(Clone, Copy, Debug, PartialEq, Eq)]
pub(crate) struct Generator {
    x: u64,
}

impl Generator {
    pub(crate) fn of(seed: u64) -> Generator
        ensures start { result.x ≡ first_of seed }
        ensures below { result.x < 2147483647 }
    {
        Generator {
            x: seed % 2_147_483_646 + 1,
        }
    }

    /// A number from 1 to 100.
    pub(crate) fn draw(&mut self) -> u64
        requires { self.old.x < 2147483647 }
        ensures drawn { result ≡ drawn (next_of self.old.x) }
        ensures next { self.new.x ≡ next_of self.old.x }
        ensures below { self.new.x < 2147483647 }
    {
        self.x = self.x * 48_271 % 2_147_483_647;
        1 + self.x % 100
    }
}

/// Two numbers for each node or item.
#[derive(Drop)]
pub(crate) struct Pairs {
    pub(crate) first: Vec<u64>,
    pub(crate) second: Vec<u64>,
}

/// Draws two numbers for each of so many nodes or items.
#[tactic(auto, using(crate::proofs::Steps::after_two, crate::proofs::Steps::first_more, crate::proofs::Steps::second_more))]
pub(crate) fn draw_pairs(alloc: Global, size: u32, seed: u64) -> Result<Pairs, AllocError>
    ensures first { IfOk result (λ pairs. pairs.first.items ≡ first_draws size seed) }
    ensures second { IfOk result (λ pairs. pairs.second.items ≡ second_draws size seed) }
{
    let mut generator = Generator::of(seed);
    let mut first = Vec::new(alloc);
    let mut second = Vec::new(alloc);
    for done in 0..size {
        first.push(generator.draw())?;
        second.push(generator.draw())?;
    }
    Ok(Pairs { first, second })
}
