//! The shards of a search after all threads have ended: the calling thread goes on alone until no shard has anything to do.

ghost use Rattle.std.specs.Prelude.{◌≡◌, true, false};
ghost use Rattle.best_first.specs.Alone.{AreResting, CanGoOn, HasOneStopped, HasStopped, IsResting};
ghost use Rattle.best_turns.specs.Plays.{plays_by};
ghost use Rattle.shard_threads.specs.Players.{AllStay, AreHeld, IsHeld, Stays};

use best_seats::BestEnded;
use best_turns::{BestBoxes, BestTurner};
use cost_laws::CostLaw;
use dom_store::Covers;
use dp_outside::Gate;
use shard_threads::{Floor, Seated};
use std::sync::Wait;

/// Whether a shard halted the search, or met the halt of another.
fn has_stopped(ended: Option<BestEnded>) -> bool
    ensures stopped { result ≡ true → HasStopped ended }
    ensures goes_on { result ≡ false → CanGoOn ended }
{
    match ended {
        Some(BestEnded::Met) | Some(BestEnded::Halted(_)) => true,
        Some(BestEnded::Idle) | None => false,
    }
}

/// One turn of a shard after the gate, also of one that is idle, but not of one that has stopped.
fn turn_again<'m, L: CostLaw, K: Covers, R: Wait, G: Gate>(
    rt: &R,
    floor: &Floor<BestBoxes, G>,
    seated: &mut Seated<BestTurner<'m, L, K>>,
)
    requires { IsHeld (plays_by L.minimize L.operator K.prune K.minimize K.operator) floor.now.board.now floor.now.boxes.now seated.old }
    ensures { Stays (plays_by L.minimize L.operator K.prune K.minimize K.operator) floor.now.board.now floor.now.boxes.now seated.old seated.new }
{
    if has_stopped(seated.player.ended) {
        return;
    }
    seated.player.ended = None;
    floor.gate.turn(seated.player.shard.me, seated.player.turns);
    seated
        .player
        .take_turn(rt, floor.board, floor.boxes, &mut seated.seat);
}

/// One such turn of each shard.
fn turn_each<'m, L: CostLaw, K: Covers, R: Wait, G: Gate>(
    rt: &R,
    floor: &Floor<BestBoxes, G>,
    shards: &mut Vec<Seated<BestTurner<'m, L, K>>>,
)
    requires { AreHeld (plays_by L.minimize L.operator K.prune K.minimize K.operator) floor.now.board.now floor.now.boxes.now shards.old.items }
    ensures { AllStay (plays_by L.minimize L.operator K.prune K.minimize K.operator) floor.now.board.now floor.now.boxes.now shards.old.items shards.new.items }
{
    for place in 0..shards.len() {
        turn_again(rt, floor, &mut shards[place]);
    }
}

/// Whether a shard could go on, and has nothing to do.
fn is_resting<'m, L: CostLaw, K: Covers>(seated: &Seated<BestTurner<'m, L, K>>) -> bool
    ensures { result ≡ true → IsResting seated.now }
{
    if has_stopped(seated.player.ended) {
        return false;
    }
    seated.player.shard.is_idle()
}

/// Whether each shard rests.
fn are_resting<'m, L: CostLaw, K: Covers>(shards: &Vec<Seated<BestTurner<'m, L, K>>>) -> bool
    ensures { result ≡ true → AreResting shards.now.items }
{
    for place in 0..shards.len() {
        if !is_resting(&shards[place]) {
            return false;
        }
    }
    true
}

/// Whether one of the shards has stopped.
fn one_has_stopped<'m, L: CostLaw, K: Covers>(shards: &Vec<Seated<BestTurner<'m, L, K>>>) -> bool
    ensures { result ≡ true → HasOneStopped shards.now.items }
{
    for place in 0..shards.len() {
        if has_stopped(shards[place].player.ended) {
            return true;
        }
    }
    false
}

/// How many letters the shards took, in a sum that may wrap.
fn letters_taken<'m, L: CostLaw, K: Covers>(shards: &Vec<Seated<BestTurner<'m, L, K>>>) -> u64 {
    let mut letters: u64 = 0;
    for seated in shards {
        letters = letters.wrapping_add(seated.player.letters);
    }
    letters
}

/// How many letters the shards took, if each of them rests.
fn letters_at_rest<'m, L: CostLaw, K: Covers>(
    shards: &Vec<Seated<BestTurner<'m, L, K>>>,
) -> Option<u64> {
    if !are_resting(shards) {
        return None;
    }
    Some(letters_taken(shards))
}

/// Turns the shards, whose threads have ended, again and again in the order of their numbers, until they rested before a round in which
/// none took a letter, or until one has stopped. In such a round none posts a letter either, so none is left. `true`: they rest. It
/// begins with a round, so that it sees letters that threads left in mailboxes.
pub(crate) fn go_on_alone<'m, L: CostLaw, K: Covers, R: Wait, G: Gate>(
    rt: &R,
    floor: &Floor<BestBoxes, G>,
    shards: &mut Vec<Seated<BestTurner<'m, L, K>>>,
) -> bool
    requires { AreHeld (plays_by L.minimize L.operator K.prune K.minimize K.operator) floor.now.board.now floor.now.boxes.now shards.old.items }
    ensures stay { AllStay (plays_by L.minimize L.operator K.prune K.minimize K.operator) floor.now.board.now floor.now.boxes.now shards.old.items shards.new.items }
    ensures rest { result ≡ true → AreResting shards.new.items }
    ensures stopped { result ≡ false → HasOneStopped shards.new.items }
{
    for _ in rt.forever() {
        if one_has_stopped(shards) {
            return false;
        }
        let before = letters_at_rest(shards);
        turn_each(rt, floor, shards);
        if before == Some(letters_taken(shards)) && are_resting(shards) {
            return true;
        }
    }
    unreachable!()
}
