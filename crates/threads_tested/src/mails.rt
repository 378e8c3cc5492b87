//! Four posters and a taker at one mailbox, in threads of their own.
ghost use Rattle.std.specs.Prelude.{◌≡◌, ◌+◌, ◌<◌, IfOk, IfSome, OnOk};
ghost use Rattle.std.specs.Coded.{coded_ℕ};
ghost use Rattle.std.specs.Thread.{IsSync};
ghost use Rattle.shard_mail.specs.Names.{name_of};
ghost use Rattle.shard_mail.specs.Ends.{IsPosterOf, IsTakerOf, AreFirstPosters, ArePostersOf};
ghost use Rattle.threads_tested.specs.Counted.{HasPosted};

use crate::letters::Letter;
use dp_base::Seq;
use shard_mail::{Mailbox, Poster, Taker};
use std::alloc::{AllocError, Global};
use std::process::Abort;
use std::sync::Wait;
use std::test::Fail;
use std::thread::{Threads, join};

const LETTERS: u64 = 10_000;

const TAKEN: u64 = 30_000;

const FIRST: u64 = 7;

/// What was seen of the letters.
#[derive(Drop)]
struct Seen {
    next: [u64; 4],
    in_order: bool,
}

impl Seen {
    fn new() -> Seen {
        Seen {
            next: [FIRST; 4],
            in_order: true,
        }
    }

    fn see(&mut self, letter: &Letter) {
        let at = letter.from as usize;
        if at < 4 && self.next[at] == letter.number {
            self.next[at] = letter.number.saturating_add(1);
        } else {
            self.in_order = false;
        }
    }
}

/// Posts 10,000 letters, as long as memory lasts.
fn post_all<R: Wait>(
    rt: &R,
    mailbox: &Mailbox<Letter>,
    mut poster: Poster<Letter>,
    from: u32,
) -> Poster<Letter>
    requires { HasPosted mailbox.now 7 from 0 poster }
    ensures { IsPosterOf mailbox.now result }
{
    for count in 0..LETTERS {
        let letter = Letter {
            from,
            number: FIRST + count,
        };
        if mailbox.post(rt, &mut poster, letter).is_err() {
            break;
        }
    }
    poster
}

/// Takes 30,000 letters.
fn take_most<R: Wait>(
    rt: &R,
    mailbox: &Mailbox<Letter>,
    mut taker: Taker<Letter>,
) -> (Taker<Letter>, Seen)
    requires { IsTakerOf mailbox.now taker }
    ensures { IsTakerOf mailbox.now result.0 }
{
    let mut seen = Seen::new();
    let mut count = 0;
    for _ in rt.forever() {
        if count >= TAKEN {
            break;
        }
        if let Some(letter) = mailbox.take(rt, &mut taker) {
            seen.see(&letter);
            count += 1;
        }
    }
    (taker, seen)
}

/// Two posters, each in a thread of its own.
fn post_both<R: Threads + Wait + Sync>(
    rt: &R,
    mailbox: &Mailbox<Letter>,
    first: (Poster<Letter>, u32),
    second: (Poster<Letter>, u32),
) -> (Poster<Letter>, Poster<Letter>)
    requires { IsSync R.row × HasPosted mailbox.now 7 first.1 0 first.0 × HasPosted mailbox.now 7 second.1 0 second.0 }
    ensures { IsPosterOf mailbox.now result.0 × IsPosterOf mailbox.now result.1 }
{
    let (one, one_from) = first;
    let (two, two_from) = second;
    join(
        rt,
        || -> Poster<Letter>
            requires { IsSync R.row × HasPosted mailbox.now 7 one_from 0 one }
            ensures { IsPosterOf mailbox.entry.now result }
        { post_all(rt, mailbox, one, one_from) },
        || -> Poster<Letter>
            requires { IsSync R.row × HasPosted mailbox.now 7 two_from 0 two }
            ensures { IsPosterOf mailbox.entry.now result }
        { post_all(rt, mailbox, two, two_from) },
    )
}

/// Four posters with the numbers 0 to 3, each in a thread of its own.
fn post_four<R: Threads + Wait + Sync>(
    rt: &R,
    mailbox: &Mailbox<Letter>,
    first: (Poster<Letter>, Poster<Letter>),
    second: (Poster<Letter>, Poster<Letter>),
) -> (
    Poster<Letter>,
    Poster<Letter>,
    Poster<Letter>,
    Poster<Letter>,
)
    requires sync { IsSync R.row }
    requires first { HasPosted mailbox.now 7 0 0 first.0 × HasPosted mailbox.now 7 1 0 first.1 }
    requires second { HasPosted mailbox.now 7 2 0 second.0 × HasPosted mailbox.now 7 3 0 second.1 }
    ensures { IsPosterOf mailbox.now result.0 × IsPosterOf mailbox.now result.1 × IsPosterOf mailbox.now result.2 × IsPosterOf mailbox.now result.3 }
{
    let (a, b) = first;
    let (c, d) = second;
    let ((a, b), (c, d)) = join(
        rt,
        || -> (Poster<Letter>, Poster<Letter>)
            requires { IsSync R.row × HasPosted mailbox.now 7 0 0 a × HasPosted mailbox.now 7 1 0 b }
            ensures { IsPosterOf mailbox.entry.now result.0 × IsPosterOf mailbox.entry.now result.1 }
        { post_both(rt, mailbox, (a, 0), (b, 1)) },
        || -> (Poster<Letter>, Poster<Letter>)
            requires { IsSync R.row × HasPosted mailbox.now 7 2 0 c × HasPosted mailbox.now 7 3 0 d }
            ensures { IsPosterOf mailbox.entry.now result.0 × IsPosterOf mailbox.entry.now result.1 }
        { post_both(rt, mailbox, (c, 2), (d, 3)) },
    );
    (a, b, c, d)
}

/// The poster with the greatest number of those that are left.
fn last_of(
    mailbox: &Mailbox<Letter>,
    posters: &mut Vec<Poster<Letter>>,
    from: u32,
) -> Option<Poster<Letter>>
    requires { AreFirstPosters mailbox.now (name_of coded_ℕ 7) (from + 1) posters.old.items × (from < mailbox.now.senders) }
    ensures poster { IfSome result (λ p. HasPosted mailbox.now 7 from 0 p) }
    ensures others { AreFirstPosters mailbox.now (name_of coded_ℕ 7) from posters.new.items }
{
    let _ = mailbox;
    let _ = from;
    posters.pop()
}

/// One more poster of the mailbox.
fn give_back(
    mailbox: &Mailbox<Letter>,
    posters: &mut Vec<Poster<Letter>>,
    poster: Poster<Letter>,
) -> Result<(), AllocError>
    requires { ArePostersOf mailbox.now posters.old.items × IsPosterOf mailbox.now poster }
    ensures { OnOk result (ArePostersOf mailbox.now posters.new.items) }
{
    let _ = mailbox;
    posters.push(poster)?;
    Ok(())
}

/// Four posters and the taker, each in a thread of its own.
fn work<R: Threads + Wait + Sync>(
    rt: &R,
    mailbox: &Mailbox<Letter>,
    mut posters: Vec<Poster<Letter>>,
    taker: Taker<Letter>,
) -> Result<(Vec<Poster<Letter>>, Taker<Letter>, Seen), AllocError>
    requires sync { IsSync R.row }
    requires posters { AreFirstPosters mailbox.now (name_of coded_ℕ 7) 4 posters.items × (mailbox.now.senders ≡ 4) }
    requires taker { IsTakerOf mailbox.now taker }
    ensures posters { IfOk result (λ r. ArePostersOf mailbox.now r.0.items) }
    ensures taker { IfOk result (λ r. IsTakerOf mailbox.now r.1) }
{
    let d = last_of(mailbox, &mut posters, 3).ok_or(AllocError)?;
    let c = last_of(mailbox, &mut posters, 2).ok_or(AllocError)?;
    let b = last_of(mailbox, &mut posters, 1).ok_or(AllocError)?;
    let a = last_of(mailbox, &mut posters, 0).ok_or(AllocError)?;
    let ((a, b, c, d), (taker, seen)) = join(
        rt,
        || -> (
            Poster<Letter>,
            Poster<Letter>,
            Poster<Letter>,
            Poster<Letter>,
        )
            requires { IsSync R.row × HasPosted mailbox.now 7 0 0 a × HasPosted mailbox.now 7 1 0 b × HasPosted mailbox.now 7 2 0 c × HasPosted mailbox.now 7 3 0 d }
            ensures { IsPosterOf mailbox.entry.now result.0 × IsPosterOf mailbox.entry.now result.1 × IsPosterOf mailbox.entry.now result.2 × IsPosterOf mailbox.entry.now result.3 }
        { post_four(rt, mailbox, (a, b), (c, d)) },
        || -> (Taker<Letter>, Seen)
            requires { IsSync R.row × IsTakerOf mailbox.now taker }
            ensures { IsTakerOf mailbox.entry.now result.0 }
        { take_most(rt, mailbox, taker) },
    );
    give_back(mailbox, &mut posters, a)?;
    give_back(mailbox, &mut posters, b)?;
    give_back(mailbox, &mut posters, c)?;
    give_back(mailbox, &mut posters, d)?;
    Ok((posters, taker, seen))
}

#[test]
fn letters_of_four_posters_come_in_order_whole_and_once(rt: HostRuntime) -> Result<(), Fail> {
    let (mailbox, posters, taker) = Mailbox::<Letter>::new(rt.alloc(), 4, &FIRST)?;
    let (posters, taker, mut seen) = work(&rt, &mailbox, posters.into_list(), taker)?;
    let settled = mailbox.settle(&rt, Seq::of(posters), taker)?;
    for letter in settled.left.list() {
        seen.see(letter);
    }
    assert!(&rt; seen.in_order);
    for next in seen.next {
        assert_eq!(&rt; next, FIRST + LETTERS);
    }
    Ok(())
}
