//! The steps that make and end a mailbox's posters, over its queue.
ghost use Rattle.std.specs.Prelude.{◌≡◌, ℕ, ◌<◌, [], ◌++◌, slice_get, Some, IfOk, IfErr};
ghost use Rattle.crossbeam_queue.specs.SegTies.{IsSegPassOf};
ghost use Rattle.shard_mail.specs.Names.{name_of};
ghost use Rattle.shard_mail.specs.Mails.{taker_view, IsRest, IsBegun};
ghost use Rattle.shard_mail.specs.Ends.{mailbox_facts, AreNewPosters, lists_of};
ghost use Rattle.shard_mail.specs.declared.view.Role.TheVariants.{Takes};

use crate::ends::{Pass, Poster};
use crate::mailbox::Queue;
use crate::rule::{End, Make, Names, Open, Take};
use crate::signed::Signed;
use std::alloc::{AllocError, Global};
use std::sync::Wait;

/// Fixes the terms and the number of senders, in the taker's view alone: neither is kept.
pub(crate) fn open<T: Signed, N: Names>(
    queue: &Queue<T>,
    pass: &mut Pass<T>,
    senders: u32,
    terms: &T::Terms,
)
    requires queue { IsSegPassOf queue.now pass.old }
    requires new { pass.old.me.view.client ≡ taker_view 0 [] }
    requires name { N.name ≡ name_of T.Terms.row.coded terms.now }
    requires senders { N.senders ≡ senders }
    ensures queue { IsSegPassOf queue.now pass.new }
    ensures view { pass.new.me.view.client ≡ taker_view senders (name_of T.Terms.row.coded terms.now) }
{
    let _ = terms;
    let _ = senders;
    let _rest = queue.another::<Open<N>>(pass);
}

/// Makes the posters of all senders, in the order of their numbers.
pub(crate) fn make_posters<T: Signed>(
    alloc: Global,
    queue: &Queue<T>,
    pass: &mut Pass<T>,
    senders: u32,
) -> Result<Vec<Poster<T>>, AllocError>
    requires queue { IsSegPassOf queue.now pass.old }
    requires new { pass.old.me.view.client ≡ taker_view senders pass.old.me.view.client.terms }
    ensures queue { IsSegPassOf queue.now pass.new }
    ensures taker { IfOk result (λ _. pass.new.me.view.client ≡ record pass.old.me.view.client { made = senders }) }
    ensures posters { IfOk result (λ v. AreNewPosters (mailbox_facts queue.now.web pass.old.me.view.client) pass.old.me.view.client.terms v.items) }
{
    let mut posters = Vec::new(alloc);
    for _ in 0..senders {
        let made = queue.another::<Make>(pass);
        posters.push(Poster { pass: made })?;
    }
    Ok(posters)
}

/// Ends the posters: the taker keeps their lists.
pub(crate) fn end_posters<T: Signed>(queue: &Queue<T>, pass: &mut Pass<T>, posters: Vec<Poster<T>>)
    requires queue { IsSegPassOf queue.now pass.old }
    requires takes { pass.old.me.view.client.role ≡ Takes }
    requires posters { (k : ℕ) (p : _) → slice_get posters.items k ≡ Some p → p.mailbox.id ≡ queue.now.web }
    ensures queue { IsSegPassOf queue.now pass.new }
    ensures ended { pass.new.me.view.client ≡ record pass.old.me.view.client { ended = pass.old.me.view.client.ended ++ lists_of posters.items } }
{
    for poster in posters {
        let Poster { pass: other } = poster;
        queue.absorb::<End>(pass, other);
    }
}

/// Takes all that waits.
pub(crate) fn drain<T: Signed, R: Wait>(
    rt: &R,
    alloc: Global,
    queue: &Queue<T>,
    pass: &mut Pass<T>,
) -> Result<Vec<T>, AllocError>
    requires queue { IsSegPassOf queue.now pass.old }
    requires takes { pass.old.me.view.client.role ≡ Takes }
    ensures rest { IfOk result (λ left. IsRest T.sender_of pass.old.me.view.client.taken pass.old.me.view.client.ended left.items) }
    ensures known { IfOk result (λ left. (k : ℕ) (x : T) → slice_get left.items k ≡ Some x → T.sender_of x < pass.old.me.view.client.senders) }
    ensures begun { IfErr result (λ _. IsBegun T.sender_of pass.old.me.view.client.taken pass.old.me.view.client.ended) }
{
    let mut left = Vec::new(alloc);
    for _ in rt.forever() {
        match queue.pop_as::<Take, R>(rt, pass) {
            Some(letter) => left.push(letter)?,
            None => return Ok(left),
        }
    }
    unreachable!()
}
