//! Numbers that are drawn one after another, the same ones from the same seed.

ghost use Rattle.std.specs.Prelude.{◌≡◌, ◌<◌};

/// The generator that Park and Miller called a minimal standard, with the factor of `minstd_rand`.
const FACTOR: u64 = 48_271;

const MODULUS: u64 = 2_147_483_647;

/// Numbers that are drawn one after another.
#[derive(Drop)]
pub struct Draws {
    last: u64,
}

impl Draws {
    pub fn new(seed: u64) -> Draws {
        Draws { last: seed }
    }

    /// The next number, which is below `most`, or 0 where that is 0.
    pub fn below(&mut self, most: usize) -> usize
        ensures within { 0 < most → result < most }
        ensures none { most ≡ 0 → result ≡ 0 }
    {
        self.last = self.last.wrapping_mul(FACTOR) % MODULUS;
        if most == 0 {
            return 0;
        }
        (self.last % most as u64) as usize
    }
}
