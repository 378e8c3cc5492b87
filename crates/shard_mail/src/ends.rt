//! The two ends of a mailbox.
use crate::signed::Signed;
use crate::view::View;
use crossbeam_queue::SegPass;
use dp_base::Seq;
use std::marker::Model;

/// What one thread knows of a mailbox's queue.
pub(crate) type Pass<T> = SegPass<T, View<T>>;

/// The right to post under one number. Contracts see which mailbox it is of, the name of
/// its terms, its number, and what it posted.
#[derive(Drop)]
pub struct Poster<T: Signed> {
    pub(crate) pass: Pass<T>,
}

impl<T: Signed> Model for Poster<T> {
    ghost use Rattle.std.specs.Prelude.{◌≡◌, ◌<◌, None};
    ghost use Rattle.shard_mail.specs.Ends.{PosterFacts, poster_facts};
    ghost use Rattle.shard_mail.specs.declared.view.Role.TheVariants.{Posts};

    ghost Value = { PosterFacts T };

    ghost view = { λ p. poster_facts p.pass.web p.pass.me.view.client };

    ghost invariant = { λ p. (p.pass.me.hand ≡ None) × (p.pass.me.spare ≡ None) × (p.pass.me.view.client.role ≡ Posts) };
}

/// The right to take. Contracts see which mailbox it is of, the name of its terms, what it took, and what the posters that
/// ended had posted.
#[derive(Drop)]
pub struct Taker<T: Signed> {
    pub(crate) pass: Pass<T>,
}

impl<T: Signed> Model for Taker<T> {
    ghost use Rattle.std.specs.Prelude.{◌≡◌, None};
    ghost use Rattle.shard_mail.specs.Ends.{TakerFacts, taker_facts};
    ghost use Rattle.shard_mail.specs.declared.view.Role.TheVariants.{Takes};

    ghost Value = { TakerFacts T };

    ghost view = { λ t. taker_facts t.pass.web t.pass.me.view.client };

    ghost invariant = { λ t. (t.pass.me.hand ≡ None) × (t.pass.me.spare ≡ None) × (t.pass.me.view.client.role ≡ Takes) };
}

/// What was left in a mailbox when it was settled, in the order of the queue.
#[derive(Drop)]
pub struct Settled<T: Signed> {
    pub left: Seq<T>,
}
