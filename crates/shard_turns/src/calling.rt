//! A shard's right to call the costs of the solutions that it holds.

ghost use Rattle.std.specs.Prelude.{◌≡◌, ◌<◌, ◌^◌};
ghost use Rattle.announcer.specs.Ends.{IsCallerOf};
ghost use Rattle.board_words.specs.Seats.{IsSeatOf};
ghost use Rattle.board_words.specs.Steps.{after_offer};
ghost use Rattle.shard_turns.specs.Calls.{HasCalled, IsCall, MayCall};

use announcer::{AnnounceQueue, Caller};
use board_words::{Board, BoardSeat};
use pass_ledger::Held;
use std::sync::Wait;

/// The queue to which a shard calls, and its right to call there.
#[derive(Drop)]
pub struct Calling<'q> {
    pub queue: &'q AnnounceQueue,
    pub caller: Caller,
}

impl<'q> Calling<'q> {
    // calls a cost; a call that comes back is counted, and the cost is let go
    fn call<R: Wait>(&mut self, rt: &R, cost: i64)
        requires caller { IsCallerOf self.old.queue.now self.old.caller }
        requires few { self.old.caller.refused < 2 ^ 41 }
        ensures queue { self.new.queue.now ≡ self.old.queue.now }
        ensures call { IsCall cost self.old.caller self.new.caller }
    {
        let _ = self.queue.call(rt, &mut self.caller, cost);
    }
}

/// Calls the cost of what a shard holds.
fn call_held<'q, R: Wait>(rt: &R, held: &Option<Held>, calling: &mut Option<Calling<'q>>)
    requires { MayCall calling.old }
    ensures { HasCalled held.now calling.old calling.new }
{
    if let Some(held) = held {
        if let Some(calling) = calling {
            calling.call(rt, held.cost);
        }
    }
}

/// Offers the word of what a shard holds, and calls its cost where the board had a greater word.
pub(crate) fn offer_held<'q, R: Wait>(
    rt: &R,
    board: &Board,
    seat: &mut BoardSeat,
    word: u64,
    held: &Option<Held>,
    calling: &mut Option<Calling<'q>>,
)
    requires seat { IsSeatOf board.now seat.old }
    requires call { MayCall calling.old }
    ensures seat { IsSeatOf board.now seat.new }
    ensures view { seat.new.view ≡ after_offer seat.old.view word }
    ensures called { HasCalled held.now calling.old calling.new }
{
    if board.offer(seat, word) > word {
        call_held(rt, held, calling);
    }
}
