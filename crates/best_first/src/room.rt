//! Room for what the shards of a search leave, and what they leave: taking them apart needs no memory.

ghost use Rattle.std.specs.Prelude.{◌≡◌, ◌+◌, ◌<◌, ℕ, ◌++◌, ◌∷◌, [], true, length, IfOk};
ghost use Rattle.path_log.specs.Paths.{Log};
ghost use Rattle.best_shard.specs.declared.shard.BestShardEnd.{BestShardEnd};
ghost use Rattle.best_first.specs.Mails.{AreHandedOut};
ghost use Rattle.best_first.specs.Rooms.{AreAllTaken, AreApart, AreBegun, AreFull, AreOfBoxes, HandsBack, IsAllTaken, IsRoomFor};
ghost use Rattle.best_turns.specs.Envelopes.{sender_of};
ghost use Rattle.shard_mail.specs.Ends.{ArePostersOf, IsBegunOf, IsTakerOf};

use crate::mails::{empty_lists, hand_out};
use best_shard::BestShardEnd;
use best_turns::{BestEnvelope, BestTurner};
use board_words::BoardSeat;
use cost_laws::CostLaw;
use dom_store::Covers;
use dp_base::Seq;
use path_log::PathLog;
use shard_mail::{Mailbox, Poster, Taker};
use shard_threads::Seated;
use std::alloc::{AllocError, Global};
use std::sync::Wait;

/// What the shards hand back, in their order: what they held and counted, their logs of steps, their takers and their seats; and
/// the posters by the number of the shard that was posted to.
#[derive(Drop)]
pub struct Room {
    pub ends: Vec<BestShardEnd>,
    pub logs: Vec<PathLog>,
    pub takers: Vec<Taker<BestEnvelope>>,
    pub seats: Vec<BoardSeat>,
    pub posters: Vec<Vec<Poster<BestEnvelope>>>,
}

/// Room for so many shards.
pub(crate) fn make_room(alloc: Global, shards: u32) -> Result<Room, AllocError>
    ensures { IfOk result (IsRoomFor shards 0) }
{
    let count = shards as usize;
    Ok(Room {
        ends: Vec::with_capacity(alloc, count)?,
        logs: Vec::with_capacity(alloc, count)?,
        takers: Vec::with_capacity(alloc, count)?,
        seats: Vec::with_capacity(alloc, count)?,
        posters: empty_lists(alloc, shards)?,
    })
}

/// Takes a shard apart.
fn leave<'m, L: CostLaw, K: Covers>(room: &mut Room, seated: Seated<BestTurner<'m, L, K>>)
    requires room { (held : ℕ) × (held < length room.old.posters.items) × IsRoomFor (length room.old.posters.items) held room.old }
    requires posters { length seated.player.posters.items ≡ length room.old.posters.items }
    ensures room { (held : ℕ) → held < length room.old.posters.items → IsRoomFor (length room.old.posters.items) held room.old → IsRoomFor (length room.old.posters.items) (held + 1) room.new }
    ensures ends { (e : BestShardEnd) × (log : Log) × HandsBack seated.entry.player e log × (room.new.ends.items ≡ room.old.ends.items ++ e ∷ []) × (room.new.logs.items ≡ room.old.logs.items ++ log ∷ []) }
    ensures takers { room.new.takers.items ≡ room.old.takers.items ++ seated.entry.player.taker ∷ [] }
    ensures seats { room.new.seats.items ≡ room.old.seats.items ++ seated.entry.seat ∷ [] }
    ensures posters { AreHandedOut seated.entry.player.posters.items room.old.posters.items room.new.posters.items }
{
    let Seated { player, seat } = seated;
    let BestTurner {
        shard,
        taker,
        posters,
        budget: _,
        turns: _,
        letters: _,
        ended: _,
    } = player;
    let (end, log) = shard.end();
    room.ends.push_reserved(end);
    room.logs.push_reserved(log);
    room.takers.push_reserved(taker);
    room.seats.push_reserved(seat);
    hand_out(posters, &mut room.posters);
}

/// Takes the shards apart, in the order of their numbers.
pub(crate) fn leave_all<'m, L: CostLaw, K: Covers>(
    room: Room,
    shards: Vec<Seated<BestTurner<'m, L, K>>>,
) -> Room
    requires room { IsRoomFor (length shards.items) 0 room }
    requires posters { AreFull shards.items }
    ensures room { IsRoomFor (length shards.entry.items) (length shards.entry.items) result }
    ensures apart { AreApart shards.entry.items result }
{
    let mut room = room;
    for seated in shards {
        leave(&mut room, seated);
    }
    room
}

/// Settles a mailbox, and answers whether no letter was left in it. A letter that is left is dropped. Where memory runs out, none is
/// known to be.
fn settle_one<R: Wait>(
    rt: &R,
    mailbox: Mailbox<BestEnvelope>,
    taker: Taker<BestEnvelope>,
    posters: Vec<Poster<BestEnvelope>>,
) -> bool
    requires taker { IsTakerOf mailbox taker }
    requires posters { ArePostersOf mailbox posters.items }
    ensures begun { IsBegunOf sender_of posters.items taker.taken }
    ensures all { result ≡ true → IsAllTaken posters.items taker.taken }
{
    match mailbox.settle(rt, Seq::of(posters), taker) {
        Ok(settled) => settled.left.list().is_empty(),
        Err(_) => false,
    }
}

/// Settles the mailboxes, and answers whether no letter was left in any. What is left in them is dropped.
pub(crate) fn settle_all<R: Wait>(
    rt: &R,
    boxes: Vec<Mailbox<BestEnvelope>>,
    takers: Vec<Taker<BestEnvelope>>,
    posters: Vec<Vec<Poster<BestEnvelope>>>,
) -> bool
    requires { AreOfBoxes boxes.items takers.items posters.items }
    ensures begun { AreBegun takers.items posters.items }
    ensures all { result ≡ true → AreAllTaken takers.items posters.items }
{
    let mut boxes = boxes;
    let mut takers = takers;
    let mut posters = posters;
    let mut all_taken = true;
    while let Some(mailbox) = boxes.pop() {
        let (Some(taker), Some(posters)) = (takers.pop(), posters.pop()) else {
            unreachable!()
        };
        all_taken = both(settle_one(rt, mailbox, taker, posters), all_taken);
    }
    all_taken
}

/// Whether both hold.
fn both(first: bool, second: bool) -> bool
    ensures { result ≡ true → (first ≡ true) × (second ≡ true) }
{
    first && second
}
