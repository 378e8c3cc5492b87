//! The mailboxes of a search: a mailbox for each shard, its taker, and for each shard a poster of each mailbox.

ghost use Rattle.std.specs.Prelude.{◌≡◌, ◌+◌, ◌<◌, ℕ, length, slice_get, Some, IfOk, OnOk, vec_capacity};
ghost use Rattle.best_turns.specs.Envelopes.{terms_of};
ghost use Rattle.best_first.specs.Mails.{Posters, AreHandedOut, AreMails, HaveRoom};

use best_turns::BestEnvelope;
use dp_model::Model as DpModel;
use shard_mail::{Mailbox, Poster, Taker};
use std::alloc::{AllocError, Global};

/// The mailboxes and their takers, by the number of the shard that takes; and the posters of each shard, by the number of the
/// shard that is posted to.
#[derive(Drop)]
pub struct Mails {
    pub boxes: Vec<Mailbox<BestEnvelope>>,
    pub takers: Vec<Taker<BestEnvelope>>,
    pub posters: Vec<Vec<Poster<BestEnvelope>>>,
}

/// Empty lists, as many as there are shards, each with room for as many posters.
pub(crate) fn empty_lists(
    alloc: Global,
    shards: u32,
) -> Result<Vec<Vec<Poster<BestEnvelope>>>, AllocError>
    ensures long { IfOk result (λ lists. length lists.items ≡ shards) }
    ensures room { IfOk result (λ lists. HaveRoom shards 0 lists.items) }
{
    let mut lists = Vec::with_capacity(alloc, shards as usize)?;
    for _ in 0..shards {
        lists.push(Vec::with_capacity(alloc, shards as usize)?)?;
    }
    Ok(lists)
}

/// Hands out posters: the one at each place goes to the end of the list at this place.
pub(crate) fn hand_out(
    posters: Vec<Poster<BestEnvelope>>,
    lists: &mut Vec<Vec<Poster<BestEnvelope>>>,
)
    requires long { length posters.items ≡ length lists.old.items }
    requires room { (i : ℕ) (v : Posters) → slice_get lists.old.items i ≡ Some v → length v.items < vec_capacity v }
    ensures { AreHandedOut posters.items lists.old.items lists.new.items }
{
    let mut posters = posters;
    while let Some(poster) = posters.pop() {
        lists[posters.len()].push_reserved(poster);
    }
}

/// Makes the mailbox of the next shard.
fn add_box(alloc: Global, model: &DpModel, shards: u32, mails: &mut Mails) -> Result<(), AllocError>
    requires { (count : ℕ) × (count < shards) × AreMails shards (terms_of model.now) count mails.old }
    ensures { (count : ℕ) → count < shards → AreMails shards (terms_of model.now) count mails.old → OnOk result (AreMails shards (terms_of model.now) (count + 1) mails.new) }
{
    let (mailbox, posters, taker) = Mailbox::new(alloc, shards, model)?;
    hand_out(posters.into_list(), &mut mails.posters);
    mails.boxes.push(mailbox)?;
    mails.takers.push(taker)?;
    Ok(())
}

/// Makes the mailboxes of so many shards.
pub(crate) fn make_mails(alloc: Global, model: &DpModel, shards: u32) -> Result<Mails, AllocError>
    ensures { IfOk result (AreMails shards (terms_of model.now) shards) }
{
    let mut mails = Mails {
        boxes: Vec::new(alloc),
        takers: Vec::new(alloc),
        posters: empty_lists(alloc, shards)?,
    };
    for _ in 0..shards {
        add_box(alloc, model, shards, &mut mails)?;
    }
    Ok(mails)
}
