//! Letters that are counted.
ghost use Rattle.std.specs.Prelude.{◌≡◌};

use shard_mail::Signed;

/// A letter with its number among those of its sender.
#[derive(Drop)]
pub struct Letter {
    pub from: u32,
    pub number: u64,
}

impl Signed for Letter {
    ghost use Rattle.threads_tested.specs.Counted.{IsCounted};
    ghost use Rattle.threads_tested.specs.Laws.{none_counted, front_counted};

    type Terms = u64;

    ghost lawful = { IsCounted };

    ghost sender_of = { λ letter. letter.from };

    fn sender(&self) -> u32 {
        self.from
    }

    ghost starts = { none_counted };

    ghost begins = { front_counted };
}
