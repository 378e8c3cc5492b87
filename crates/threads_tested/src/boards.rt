//! Two threads on one board.
ghost use Rattle.std.specs.Prelude.{◌≡◌, ◌+◌, ◌≤◌};
ghost use Rattle.board_words.specs.Seats.{IsSeatOf};

use crate::numbers::Numbers;
use board_words::{Board, BoardSeat};
use std::process::Abort;
use std::test::Fail;
use std::thread::{Threads, join};

const ROUNDS: u64 = 1000;

/// Offers a word and draws a number.
fn offer_and_draw(board: &Board, seat: &mut BoardSeat, word: u64)
    requires seat { IsSeatOf board.now seat.old }
    requires drawn { (seat.old.view.drawn ≤ 1000) × (1 ≤ seat.old.view.part) }
    ensures seat { IsSeatOf board.now seat.new }
    ensures drawn { (seat.new.view.drawn ≡ seat.old.view.drawn + 1) × (seat.new.view.part ≡ seat.old.view.part) }
{
    board.offer(seat, word);
    board.draw(seat);
}

/// Offers the words of a seed, draws as often, and gives the least of the words.
fn play(board: &Board, mut seat: BoardSeat, seed: u64) -> (BoardSeat, u64)
    requires seat { IsSeatOf board.now seat }
    requires new { (seat.view.drawn ≡ 0) × (1 ≤ seat.view.part) }
    ensures { IsSeatOf board.now result.0 }
{
    let mut numbers = Numbers::of(seed);
    let mut least = u64::MAX;
    for _ in 0..ROUNDS {
        let word = numbers.next();
        least = least.min(word);
        offer_and_draw(board, &mut seat, word);
    }
    (seat, least)
}

/// Two seats played in threads of their own, joined again, and the least of all words.
fn play_both<R: Threads>(
    rt: &R,
    board: &Board,
    seat: BoardSeat,
    other: BoardSeat,
) -> (BoardSeat, u64)
    requires seats { IsSeatOf board.now seat × IsSeatOf board.now other }
    requires new { (seat.view.drawn ≡ 0) × (1 ≤ seat.view.part) × (other.view.drawn ≡ 0) × (1 ≤ other.view.part) }
    ensures { IsSeatOf board.now result.0 }
{
    let ((mut seat, first), (other, second)) = join(
        rt,
        || -> (BoardSeat, u64)
            requires { IsSeatOf board.now seat × (seat.view.drawn ≡ 0) × (1 ≤ seat.view.part) }
            ensures { IsSeatOf board.entry.now result.0 }
        { play(board, seat, 1) },
        || -> (BoardSeat, u64)
            requires { IsSeatOf board.now other × (other.view.drawn ≡ 0) × (1 ≤ other.view.part) }
            ensures { IsSeatOf board.entry.now result.0 }
        { play(board, other, 2) },
    );
    board.join(&mut seat, other);
    (seat, first.min(second))
}

#[test]
fn two_threads_leave_the_least_word_and_all_draws(rt: HostRuntime) -> Result<(), Fail> {
    let (board, mut seat) = Board::new(rt.alloc(), u64::MAX, 1500)?;
    let other = board.split(&mut seat);
    let (mut seat, least) = play_both(&rt, &board, seat, other);
    let totals = board.totals(&mut seat);
    assert_eq!(&rt; totals.best, least);
    assert_eq!(&rt; totals.drawn, 2 * ROUNDS);
    Ok(())
}
