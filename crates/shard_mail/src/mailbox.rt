//! The mailbox and its calls.
ghost use Rattle.std.specs.Prelude.{◌≡◌, ℕ, ◌<◌, [], ◌∷◌, ◌++◌, slice_get, Some, IfOk, OnOk, IfErr, IfSome, IfNone};
ghost use Rattle.shard_mail.specs.Names.{name_of};
ghost use Rattle.shard_mail.specs.Mails.{LawfulUnder};
ghost use Rattle.shard_mail.specs.Ends.{IsPosterOf, IsTakerOf, new_taker, posted_by, taken_by, IsNextFor, HasTakenAll, AreNewPosters, ArePostersOf, IsSettled, IsBegunOf};

use crate::ends::{Poster, Settled, Taker};
use crate::rule::{Mailing, Post, Take};
use crate::signed::Signed;
use crate::steps::{drain, end_posters, make_posters, open};
use crate::view::View;
use crossbeam_queue::RuledSegQueue;
use dp_base::Seq;
use std::alloc::{AllocError, Global};
use std::marker::{Brand, Model};
use std::sync::Wait;

/// A queue of letters under the rule of a mailbox.
pub(crate) type Queue<T> = RuledSegQueue<T, View<T>, Mailing>;

/// A mailbox. Contracts see which one it is, and how many senders it has. What waits in it is dropped with it.
pub struct Mailbox<T: Signed> {
    queue: Queue<T>,
    senders: u32,
    alloc: Global,
}

impl<T: Signed> Model for Mailbox<T> {
    ghost use Rattle.shard_mail.specs.Ends.{MailboxFacts};

    ghost Value = { MailboxFacts };

    ghost view = { λ m. record { id = m.queue.web; senders = m.senders } };
}

impl<T: Signed> Drop for Mailbox<T> {
    fn drop(self) {
        let Mailbox {
            queue,
            senders: _,
            alloc: _,
        } = self;
        queue.destroy();
    }
}

impl<T: Signed> Mailbox<T> {
    /// An empty mailbox under the given terms, a poster for each number below `senders`, in their order, and its taker.
    pub fn new(
        alloc: Global,
        senders: u32,
        terms: &T::Terms,
    ) -> Result<(Mailbox<T>, Seq<Poster<T>>, Taker<T>), AllocError>
        requires { 0 < senders }
        ensures mailbox { IfOk result (λ r. r.0.senders ≡ senders) }
        ensures posters { IfOk result (λ r. ArePostersOf r.0 r.1) }
        ensures new { IfOk result (λ r. AreNewPosters r.0 (name_of T.Terms.row.coded terms.now) r.1) }
        ensures taker { IfOk result (λ r. r.2 ≡ new_taker r.0 (name_of T.Terms.row.coded terms.now)) }
    {
        let (queue, mut pass) = Queue::<T>::with_rule(alloc)?;
        open::<T, Brand>(&queue, &mut pass, senders, terms);
        let mailbox = Mailbox {
            queue,
            senders,
            alloc,
        };
        let posters = make_posters(alloc, &mailbox.queue, &mut pass, senders)?;
        Ok((mailbox, Seq::of(posters), Taker { pass }))
    }

    /// Posts a letter at the back, in one step. Where memory runs out the letter comes back.
    #[inline(always)]
    pub fn post<R: Wait>(&self, rt: &R, poster: &mut Poster<T>, letter: T) -> Result<(), T>
        requires poster { IsPosterOf self.now poster.old }
        requires sender { T.sender_of letter ≡ poster.old.number }
        requires lawful { LawfulUnder T.Terms.row.coded T.lawful poster.old.terms (poster.old.posted ++ letter ∷ []) }
        ensures poster { IsPosterOf self.now poster.new }
        ensures ok { OnOk result (poster.new ≡ posted_by poster.old letter) }
        ensures err { IfErr result (λ x. (x ≡ letter) × (poster.new ≡ poster.old)) }
    {
        self.queue.push_as::<Post, R>(rt, &mut poster.pass, letter)
    }

    /// Takes the letter at the front, which is the next one of its sender, in one step. `None` takes nothing, and nothing is then
    /// left of the posters that have ended. That the mailbox was empty at a step of this call is tested, and no clause says it.
    #[inline(always)]
    pub fn take<R: Wait>(&self, rt: &R, taker: &mut Taker<T>) -> Option<T>
        requires { IsTakerOf self.now taker.old }
        ensures taker { IsTakerOf self.now taker.new }
        ensures some { IfSome result (λ x. taker.new ≡ taken_by taker.old x) }
        ensures next { IfSome result (λ x. IsNextFor T.Terms.row.coded T.lawful T.sender_of taker.old x) }
        ensures none { IfNone result ((taker.new ≡ taker.old) × HasTakenAll T.sender_of taker.old) }
    {
        self.queue.pop_as::<Take, R>(rt, &mut taker.pass)
    }

    /// Ends the given posters and the taker, and gives what is left. Where memory runs out, what waits is dropped.
    pub fn settle<R: Wait>(
        self,
        rt: &R,
        posters: Seq<Poster<T>>,
        taker: Taker<T>,
    ) -> Result<Settled<T>, AllocError>
        requires posters { ArePostersOf self posters }
        requires taker { IsTakerOf self taker }
        ensures settled { IfOk result (λ r. IsSettled T.sender_of posters taker.taken r.left) }
        ensures known { IfOk result (λ r. (k : ℕ) (x : T) → slice_get r.left k ≡ Some x → T.sender_of x < self.senders) }
        ensures begun { IsBegunOf T.sender_of posters taker.taken }
    {
        let Taker { mut pass } = taker;
        end_posters(&self.queue, &mut pass, posters.into_list());
        let left = drain(rt, self.alloc, &self.queue, &mut pass)?;
        Ok(Settled {
            left: Seq::of(left),
        })
    }
}
