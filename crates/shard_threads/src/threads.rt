//! The players in threads, a block of them in each, where threads can be had.

ghost use Rattle.std.specs.Prelude.{◌≡◌, ◌+◌, ◌≤◌, ◌++◌, [], length, IfErr, IfNone, IfOk, IfSome, vec_capacity};
ghost use Rattle.shard_threads.specs.Away.{ArePromised, IsPromisedOf, behind};
ghost use Rattle.shard_threads.specs.Players.{AreHeld, AllStay, HaveEnded};

use crate::between::{Between, Nothing};
use crate::player::{Floor, Player};
use crate::rounds::turn_all;
use crate::seated::Seated;
use crate::signals::Signals;
use board_words::Board;
use dp_outside::Gate;
use std::alloc::Global;
use std::snapshot::Snapshot;
use std::sync::Wait;
use std::thread;
use std::thread::{Promise, PromisedHandle, Scope, Threads};

/// The places of as many players as there may be.
static ASCENDING: [u32; 64] = [
    0, 1, 2, 3, 4, 5, 6, 7, 8, 9, 10, 11, 12, 13, 14, 15, 16, 17, 18, 19, 20, 21, 22, 23, 24, 25,
    26, 27, 28, 29, 30, 31, 32, 33, 34, 35, 36, 37, 38, 39, 40, 41, 42, 43, 44, 45, 46, 47, 48, 49,
    50, 51, 52, 53, 54, 55, 56, 57, 58, 59, 60, 61, 62, 63,
];

/// So many players have a thread each on any machine.
const FEW: usize = 4;

/// The places of so many players, in order.
fn places(players: usize) -> &'static [u32] {
    &ASCENDING[..players.min(ASCENDING.len())]
}

/// A thread gives back the players that it was given, and whatever terms these met they meet.
#[derive(Drop)]
pub struct SamePlayers<P: Player> {
    pub board: Snapshot<Board>,
    pub boxes: Snapshot<P::Boxes>,
    pub was: Snapshot<Vec<Seated<P>>>,
}

impl<P: Player> Promise<Vec<Seated<P>>> for SamePlayers<P> {
    ghost use Rattle.shard_threads.specs.Players.{AllStay};

    ghost kept_by = { λ q block. AllStay P.keeps q.board.value q.boxes.value q.was.value.items block.items };
}

/// Players that turn in a thread.
pub type Away<P> = PromisedHandle<Vec<Seated<P>>, SamePlayers<P>>;

/// Turns the players of a block until each has ended. Where the start of their thread was refused, they come back as they are.
fn turn_away<P: Player, R: Wait, G: Gate>(
    rt: &R,
    floor: &Floor<P::Boxes, G>,
    signals: &Signals,
    place: u64,
    block: Vec<Seated<P>>,
) -> Vec<Seated<P>>
    requires { AreHeld P.keeps floor.now.board.now floor.now.boxes.now block.items }
    ensures { AllStay P.keeps floor.now.board.now floor.now.boxes.now block.items result.items }
{
    if signals.is_refused(place) {
        return block;
    }
    let mut block = block;
    let order = places(block.len());
    turn_all(rt, floor, signals, &mut block, &mut Nothing, order);
    block
}

/// Starts a thread for a block of players, which stood at this place. Where none can be had, the block comes back.
fn start<'s, E, P: Player + Send + 's, R: Wait + Sync, G: Gate>(
    rt: &'s R,
    scope: &Scope<'s, E>,
    floor: &'s Floor<'s, P::Boxes, G>,
    signals: &'s Signals,
    place: u64,
    block: Vec<Seated<P>>,
) -> Result<Away<P>, Vec<Seated<P>>>
    requires { AreHeld P.keeps floor.now.board.now floor.now.boxes.now block.items }
    ensures away { IfOk result (λ h. IsPromisedOf floor.now.board.now floor.now.boxes.now block.items h.promise) }
    ensures back { IfErr result (λ b. AllStay P.keeps floor.now.board.now floor.now.boxes.now block.items b.items) }
{
    let promise = SamePlayers {
        board: Snapshot::of(floor.board),
        boxes: Snapshot::of(floor.boxes),
        was: Snapshot::of(&block),
    };
    match scope.spawn_with(
        promise,
        move || -> Vec<Seated<P>>
            requires { AreHeld P.keeps floor.now.board.now floor.now.boxes.now block.items }
            ensures { AllStay P.keeps floor.entry.now.board.now floor.entry.now.boxes.now block.items result.items }
        { turn_away(rt, floor, signals, place, block) },
    ) {
        Ok(handle) => Ok(handle),
        Err(back) => {
            signals.refuse(place);
            Err((back.value)())
        }
    }
}

/// How many threads turn so many players, the caller's among them: one for each player where there are few, and else no more
/// than there are processors. Where the number of processors can't be had, there are few.
fn threads_for<R: Threads>(rt: &R, players: usize) -> usize
    ensures { result ≤ players }
{
    let processors = match thread::available_parallelism(rt) {
        Ok(processors) => processors.get(),
        Err(_) => FEW,
    };
    players.min(processors.max(FEW))
}

/// Takes so many elements off the back of a list. Where memory runs out, none is taken.
fn take_last<T: Drop>(list: &mut Vec<T>, count: usize) -> Option<Vec<T>>
    requires { count ≤ length list.old.items }
    ensures some { IfSome result (λ last. list.old.items ≡ list.new.items ++ last.items) }
    ensures none { IfNone result (list.new.items ≡ list.old.items) }
    ensures room { vec_capacity list.old ≤ vec_capacity list.new }
{
    let place = list.len() - count;
    match list.split_off(place) {
        Ok(last) => Some(last),
        Err(_) => None,
    }
}

/// Puts elements behind those of a list that has room for them.
fn put_behind<T: Drop>(list: &mut Vec<T>, last: Vec<T>)
    requires { length list.old.items + length last.items ≤ vec_capacity list.old }
    ensures items { list.new.items ≡ list.old.items ++ last.items }
    ensures room { vec_capacity list.old ≤ vec_capacity list.new }
{
    let mut last = last;
    let Ok(()) = list.append(&mut last) else {
        unreachable!()
    };
}

/// Starts threads for blocks of the last players, until the caller's is one of so many threads. The blocks differ by one player
/// at most. Where a start is refused or memory runs out, the rest is the caller's.
fn start_all<'s, E, P: Player + Send + 's, R: Wait + Sync, G: Gate>(
    rt: &'s R,
    scope: &Scope<'s, E>,
    floor: &'s Floor<'s, P::Boxes, G>,
    signals: &'s Signals,
    players: &mut Vec<Seated<P>>,
    away: &mut Vec<Away<P>>,
    threads: usize,
)
    requires held { AreHeld P.keeps floor.now.board.now floor.now.boxes.now players.old.items }
    requires none { away.old.items ≡ [] }
    requires room { threads ≤ vec_capacity away.old }
    ensures stay { AllStay P.keeps floor.now.board.now floor.now.boxes.now players.old.items (players.new.items ++ behind away.new.items) }
    ensures promised { ArePromised floor.now.board.now floor.now.boxes.now away.new.items }
    ensures room { vec_capacity players.old ≤ vec_capacity players.new }
{
    for started in 1..threads {
        let count = players.len() / (threads - started + 1);
        let Some(block) = take_last(players, count) else {
            return;
        };
        match start(rt, scope, floor, signals, players.len() as u64, block) {
            Ok(handle) => away.push_reserved(handle),
            Err(block) => {
                put_behind(players, block);
                return;
            }
        }
    }
}

/// Waits for the threads, and puts their players behind the others.
fn join_all<P: Player, R: Threads, G: Gate>(
    rt: &R,
    floor: &Floor<P::Boxes, G>,
    players: &mut Vec<Seated<P>>,
    away: Vec<Away<P>>,
)
    requires promised { ArePromised floor.now.board.now floor.now.boxes.now away.items }
    requires room { length (players.old.items ++ behind away.items) ≤ vec_capacity players.old }
    ensures { AllStay P.keeps floor.now.board.now floor.now.boxes.now (players.old.items ++ behind away.items) players.new.items }
{
    let _ = floor;
    let mut away = away;
    while let Some(handle) = away.pop() {
        put_behind(players, handle.join(rt));
    }
}

/// The players after each that was given to a thread came back and the others have ended, and what is done between two rounds of
/// theirs. Where memory runs out, none is given to a thread, and they are as before.
fn in_scope<'s, E, P: Player + Send + 's, B: Between, R: Threads + Wait + Sync, G: Gate>(
    rt: &'s R,
    alloc: Global,
    scope: &Scope<'s, E>,
    floor: &'s Floor<'s, P::Boxes, G>,
    signals: &'s Signals,
    players: Vec<Seated<P>>,
    between: B,
) -> (Vec<Seated<P>>, B)
    requires players { AreHeld P.keeps floor.now.board.now floor.now.boxes.now players.items }
    requires between { (t : B.Terms) × B.keeps t between }
    ensures stay { AllStay P.keeps floor.now.board.now floor.now.boxes.now players.items result.0.items }
    ensures between { (t : B.Terms) → B.keeps t between → B.keeps t result.1 }
{
    let mut players = players;
    let mut between = between;
    let threads = threads_for(rt, players.len());
    let Ok(mut away) = Vec::with_capacity(alloc, threads) else {
        return (players, between);
    };
    start_all(rt, scope, floor, signals, &mut players, &mut away, threads);
    let order = places(players.len());
    turn_all(rt, floor, signals, &mut players, &mut between, order);
    join_all(rt, floor, &mut players, away);
    (players, between)
}

/// The same, in a scope of threads.
fn turn_in_scope<'a, P: Player + Send + 'a, B: Between, R: Threads + Wait + Sync, G: Gate>(
    rt: &'a R,
    alloc: Global,
    floor: &'a Floor<'a, P::Boxes, G>,
    signals: &'a Signals,
    players: Vec<Seated<P>>,
    between: B,
) -> (Vec<Seated<P>>, B)
    requires players { AreHeld P.keeps floor.now.board.now floor.now.boxes.now players.items }
    requires between { (t : B.Terms) × B.keeps t between }
    ensures stay { AllStay P.keeps floor.now.board.now floor.now.boxes.now players.items result.0.items }
    ensures between { (t : B.Terms) → B.keeps t between → B.keeps t result.1 }
{
    thread::scope(
        thread::scope_env(),
        rt,
        move |scope| -> (Vec<Seated<P>>, B)
            requires players { AreHeld P.keeps floor.now.board.now floor.now.boxes.now players.items }
            requires between { (t : B.Terms) × B.keeps t between }
            ensures stay { AllStay P.keeps floor.entry.now.board.now floor.entry.now.boxes.now players.items result.0.items }
            ensures between { (t : B.Terms) → B.keeps t between → B.keeps t result.1 }
        { in_scope(rt, alloc, scope, floor, signals, players, between) },
    )
}

/// The players after each has ended, in their places. They turn in threads where these can be had: up to four players in a thread
/// each, and more of them in as many threads as there are processors, spread evenly. The calling thread is one of these, and turns
/// all players for which no thread was had. Between two rounds of its turns `between` does its part.
pub fn turn_in_threads<P: Player + Send, B: Between, R: Threads + Wait + Sync, G: Gate>(
    rt: &R,
    alloc: Global,
    floor: &Floor<P::Boxes, G>,
    players: Vec<Seated<P>>,
    between: B,
) -> (Vec<Seated<P>>, B)
    requires players { AreHeld P.keeps floor.now.board.now floor.now.boxes.now players.items }
    requires between { (t : B.Terms) × B.keeps t between }
    ensures stay { AllStay P.keeps floor.now.board.now floor.now.boxes.now players.items result.0.items }
    ensures ended { HaveEnded P.has_ended result.0.items }
    ensures between { (t : B.Terms) → B.keeps t between → B.keeps t result.1 }
{
    let signals = Signals::new();
    let (mut players, mut between) = turn_in_scope(rt, alloc, &*floor, &signals, players, between);
    let order = places(players.len());
    turn_all(rt, floor, &signals, &mut players, &mut between, order);
    (players, between)
}
