//! Turns of the players that a thread has, in an order, until each has ended.

ghost use Rattle.std.specs.Prelude.{◌≡◌, true, vec_capacity};
ghost use Rattle.shard_threads.specs.Players.{AreHeld, AllStay, HaveEnded, IsHeld, Stays};

use crate::between::Between;
use crate::patience::Patience;
use crate::player::{Floor, Player, Pulse};
use crate::seated::Seated;
use crate::signals::Signals;
use dp_outside::Gate;
use std::sync::Wait;

/// After so many rounds of turns a thread looks whether its players have ended or have nothing to do.
const ROUNDS: u32 = 8;

/// One turn of a player after the gate, unless it has ended.
#[inline]
pub(crate) fn turn_one<P: Player, R: Wait, G: Gate>(
    rt: &R,
    floor: &Floor<P::Boxes, G>,
    seated: &mut Seated<P>,
)
    requires { IsHeld P.keeps floor.now.board.now floor.now.boxes.now seated.old }
    ensures { Stays P.keeps floor.now.board.now floor.now.boxes.now seated.old seated.new }
{
    if !seated.player.has_ended() {
        floor
            .gate
            .turn(seated.player.number(), seated.player.turns());
        seated
            .player
            .turn(rt, floor.board, floor.boxes, &mut seated.seat);
    }
}

/// Whether each player has ended.
fn have_ended<P: Player>(players: &Vec<Seated<P>>) -> bool
    ensures { result ≡ true → HaveEnded P.has_ended players.now.items }
{
    for i in 0..players.len() {
        if !players[i].player.has_ended() {
            return false;
        }
    }
    true
}

/// How far the players are.
fn pulse_of<P: Player>(players: &Vec<Seated<P>>) -> Pulse {
    let mut pulse = Pulse::none();
    for seated in players {
        pulse = pulse.with(seated.player.pulse());
    }
    pulse
}

/// A turn of the player at each place that the order names, if there is one and it has not ended.
fn turn_round<P: Player, R: Wait, G: Gate>(
    rt: &R,
    floor: &Floor<P::Boxes, G>,
    players: &mut Vec<Seated<P>>,
    order: &[u32],
)
    requires { AreHeld P.keeps floor.now.board.now floor.now.boxes.now players.old.items }
    ensures stay { AllStay P.keeps floor.now.board.now floor.now.boxes.now players.old.items players.new.items }
    ensures room { vec_capacity players.new ≡ vec_capacity players.old }
{
    for place in order {
        let place = *place as usize;
        if place < players.len() {
            turn_one(rt, floor, &mut players[place]);
        }
    }
}

/// Some such rounds, one after another, and what is done between them.
fn turn_rounds<P: Player, B: Between, R: Wait, G: Gate>(
    rt: &R,
    floor: &Floor<P::Boxes, G>,
    players: &mut Vec<Seated<P>>,
    between: &mut B,
    order: &[u32],
)
    requires players { AreHeld P.keeps floor.now.board.now floor.now.boxes.now players.old.items }
    requires between { (t : B.Terms) × B.keeps t between.old }
    ensures stay { AllStay P.keeps floor.now.board.now floor.now.boxes.now players.old.items players.new.items }
    ensures between { (t : B.Terms) → B.keeps t between.old → B.keeps t between.new }
    ensures room { vec_capacity players.new ≡ vec_capacity players.old }
{
    for _ in 0..ROUNDS {
        turn_round(rt, floor, players, order);
        between.step(rt);
    }
}

/// Turns the players again and again in the order of places, until each has ended. Beside other threads it sleeps while they
/// have nothing to do.
pub(crate) fn turn_all<P: Player, B: Between, R: Wait, G: Gate>(
    rt: &R,
    floor: &Floor<P::Boxes, G>,
    signals: &Signals,
    players: &mut Vec<Seated<P>>,
    between: &mut B,
    order: &[u32],
)
    requires players { AreHeld P.keeps floor.now.board.now floor.now.boxes.now players.old.items }
    requires between { (t : B.Terms) × B.keeps t between.old }
    ensures stay { AllStay P.keeps floor.now.board.now floor.now.boxes.now players.old.items players.new.items }
    ensures ended { HaveEnded P.has_ended players.new.items }
    ensures between { (t : B.Terms) → B.keeps t between.old → B.keeps t between.new }
    ensures room { vec_capacity players.new ≡ vec_capacity players.old }
{
    let mut patience = Patience::new(signals);
    for _ in rt.forever() {
        if have_ended(players) {
            patience.over();
            return;
        }
        turn_rounds(rt, floor, players, between, order);
        patience.turned(rt, pulse_of(players), ROUNDS);
    }
}
