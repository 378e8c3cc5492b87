//! The rule that a mailbox and all views keep, and the kinds of step, for the proofs alone.
use crate::signed::Signed;
use crate::view::View;
use crossbeam_queue::protocol::{Join, Lesson, Outcome, Protocol, Split};
use std::marker::{Brand, PhantomData};

/// The rule of a mailbox.
pub struct Mailing;

impl<T: Signed> Protocol<T, View<T>> for Mailing {
    ghost use Rattle.std.specs.Prelude.{[]};
    ghost use Rattle.shard_mail.specs.Mails.{Mail, taker_view};

    ghost holds = { Mail T.Terms.row.coded T.lawful T.sender_of };

    ghost first = { taker_view 0 [] };
}

/// The terms of a mailbox by their name, and the number of its senders.
pub trait Names {
    ghost use Rattle.std.specs.Prelude.{ℕ, List};

    ghost name: { List ℕ };

    ghost senders: { ℕ };
}

impl Names for Brand {
    ghost use Rattle.std.specs.Prelude.{[]};

    ghost name = { [] };

    ghost senders = { 0 };
}

/// Fixes the terms and the number of senders.
pub struct Open<N> {
    of: PhantomData<N>,
}

impl<T: Signed, N: Names> Split<View<T>> for Open<N> {
    ghost use Rattle.shard_mail.specs.Mails.{taker_view, spent_view};

    ghost left = { λ v. taker_view N.senders N.name };

    ghost right = { λ v. spent_view };
}

/// Makes the next poster.
pub struct Make;

impl<T: Signed> Split<View<T>> for Make {
    ghost use Rattle.shard_mail.specs.Steps.{after_make, made_view};

    ghost left = { after_make };

    ghost right = { made_view };
}

/// Posts a letter.
pub struct Post;

impl<T: Signed> Outcome<T, View<T>> for Post {
    ghost use Rattle.shard_mail.specs.Steps.{Posts};

    ghost then = { Posts };
}

/// Takes a letter, or finds none.
pub struct Take;

impl<T: Signed> Outcome<T, View<T>> for Take {
    ghost use Rattle.shard_mail.specs.Steps.{Takes};

    ghost then = { Takes T.Terms.row.coded T.lawful T.sender_of };
}

impl<T: Signed> Lesson<T, View<T>> for Take {
    ghost use Rattle.shard_mail.specs.Steps.{Waits};

    ghost fact = { Waits T.sender_of };
}

/// Ends a poster.
pub struct End;

impl<T: Signed> Join<View<T>> for End {
    ghost use Rattle.shard_mail.specs.Mails.{spent_view};
    ghost use Rattle.shard_mail.specs.Steps.{after_end};

    ghost both = { after_end };

    ghost spent = { spent_view };
}
