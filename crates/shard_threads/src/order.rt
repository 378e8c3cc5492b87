//! Players that the calling thread turns in an order that it is given.

ghost use Rattle.shard_threads.specs.Players.{AreHeld, AllStay, HaveEnded};

use crate::between::Nothing;
use crate::player::{Floor, Player};
use crate::rounds::turn_all;
use crate::seated::Seated;
use crate::signals::Signals;
use dp_outside::Gate;
use std::sync::Wait;

/// The players after each has ended, in their places. The calling thread alone turns them: those that the order names by their
/// places, one turn each time that it names one, again and again. A number that is no place is passed over. A player that the
/// order leaves out never ends, and then the call doesn't return.
pub fn turn_in_order<P: Player, R: Wait, G: Gate>(
    rt: &R,
    floor: &Floor<P::Boxes, G>,
    players: Vec<Seated<P>>,
    order: &[u32],
) -> Vec<Seated<P>>
    requires { AreHeld P.keeps floor.now.board.now floor.now.boxes.now players.items }
    ensures stay { AllStay P.keeps floor.now.board.now floor.now.boxes.now players.items result.items }
    ensures ended { HaveEnded P.has_ended result.items }
{
    let mut players = players;
    let signals = Signals::new();
    turn_all(rt, floor, &signals, &mut players, &mut Nothing, order);
    players
}
