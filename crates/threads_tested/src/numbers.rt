//! Numbers for tests.
ghost use Rattle.std.specs.Prelude.{◌≡◌, ◌+◌, ◌*◌, ◌%◌, ◌<◌};

/// Numbers below 2^31 - 1, one after another, by multiplication.
#[derive(Drop)]
pub struct Numbers {
    last: u64,
    ghost small: { last < 2147483647 },
}

impl Numbers {
    /// The numbers of a seed.
    pub fn of(seed: u64) -> Numbers
        ensures { result.last ≡ seed % 2147483646 + 1 }
    {
        Numbers {
            last: seed % 2147483646 + 1,
        }
    }

    /// The next number.
    pub fn next(&mut self) -> u64
        ensures next { self.new.last ≡ (self.old.last * 48271) % 2147483647 }
        ensures given { result ≡ self.new.last }
    {
        self.last = self.last * 48271 % 2147483647;
        self.last
    }
}
