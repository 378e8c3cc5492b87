//! Runs over devices that fail. They share one shelf and one sink, since the checker takes the whole solver anew for each pair of them.

ghost use Rattle.std.specs.Prelude.{None};

use crate::texts::{CLIMB, FROM_BELOW, TOUR, TOUR_FOUND, TOUR_OF_FOUR, TOUR_SHOWN, TOUR_STEPS};
use dp_outside::{Failed, MemShelf, OpenGate, Sink};
use solve_top::run;
use std::alloc::{AllocError, Global};
use std::sync::Wait;
use std::test::Fail;
use std::thread::Threads;
use tests_parts::texts::{FROM_ZERO, TWO_WAYS};

/// A run over texts under `d`, `p` and `l`: its words, what it prints where no device fails, and how many reads it makes.
struct Row {
    words: &'static str,
    texts: [&'static str; 3],
    printed: &'static str,
    reads: usize,
}

/// What is printed where a read fails, for each read: each text is read as one piece and its end.
static UNREAD: [&str; 6] = [
    "read fault domain\n",
    "read fault domain\n",
    "read fault problem\n",
    "read fault problem\n",
    "read fault list\n",
    "read fault list\n",
];

/// Each of them ends with status 0.
static ROWS: [Row; 7] = [
    Row {
        words: "solve d p --prune off",
        texts: [TWO_WAYS, FROM_ZERO, ""],
        printed: concat!(
            "solution 11 2\np\ne\npass 1 share 1 visited 2 dropped 1\n",
            "solution 3 2\nq\nd\npass 2 share 2 visited 3 dropped 0\nverdict optimal 3\n",
        ),
        reads: 4,
    },
    Row {
        words: "solve d p --prune off --announce on",
        texts: [TWO_WAYS, FROM_ZERO, ""],
        printed: concat!(
            "announce 11\nsolution 11 2\np\ne\nannounced 1 refused 0\npass 1 share 1 visited 2 dropped 1\n",
            "announce 3\nsolution 3 2\nq\nd\nannounced 1 refused 0\npass 2 share 2 visited 3 dropped 0\nverdict optimal 3\n",
        ),
        reads: 4,
    },
    Row {
        words: "solve d p --prune off --announce on",
        texts: [CLIMB, FROM_BELOW, ""],
        printed: concat!(
            "announce 7\nannounce 6\nsolution 6 3\ninc\ninc\ninc\nannounced 2 refused 0\n",
            "pass 1 share 1 visited 3 dropped 0\nverdict optimal 6\n",
        ),
        reads: 4,
    },
    Row {
        words: "solve d p",
        texts: [TOUR, TOUR_OF_FOUR, ""],
        printed: TOUR_FOUND,
        reads: 4,
    },
    Row {
        words: "replay d p l",
        texts: [TOUR, TOUR_OF_FOUR, TOUR_STEPS],
        printed: "verdict legal 14\n",
        reads: 6,
    },
    Row {
        words: "show d p",
        texts: [TOUR, TOUR_OF_FOUR, ""],
        printed: TOUR_SHOWN,
        reads: 4,
    },
    Row {
        words: "gen path 2 0",
        texts: ["", "", ""],
        printed: "gen path 2 0\nground 2\nverdict optimal 95\n",
        reads: 0,
    },
];

/// How many bytes a sink takes a write, at most: one, a part of a piece, or the whole piece.
static MOSTS: [usize; 3] = [1, 3, usize::MAX];

/// A sink that takes at most `most` bytes a write, and whose write number `fails_at` fails.
#[derive(Drop)]
struct SlowSink {
    bytes: Vec<u8>,
    most: usize,
    fails_at: u64,
    writes: u64,
}

impl Sink for SlowSink {
    ghost taken = { λ _. None };

    ghost faults = { λ s. s.writes };

    fn write(&mut self, piece: &[u8]) -> Result<usize, Failed> {
        self.writes = self.writes.saturating_add(1);
        let count = piece.len().min(self.most).max(1);
        if self.writes == self.fails_at || self.bytes.extend_from_slice(&piece[..count]).is_err() {
            return Err(Failed);
        }
        Ok(count)
    }
}

/// A sink without bytes.
fn sink_of(alloc: Global, most: usize, fails_at: u64) -> SlowSink {
    SlowSink {
        bytes: Vec::new(alloc),
        most,
        fails_at,
        writes: 0,
    }
}

fn words_of(alloc: Global, row: &Row) -> Result<Vec<String>, AllocError> {
    let mut given = Vec::new(alloc);
    for word in row.words.split(' ') {
        given.push(String::from_str(alloc, word)?)?;
    }
    Ok(given)
}

fn shelf_of(alloc: Global, row: &Row) -> Result<MemShelf, AllocError> {
    let [domain, problem, list] = row.texts;
    let mut shelf = MemShelf::new(alloc);
    shelf.put("d", domain.as_bytes())?;
    shelf.put("p", problem.as_bytes())?;
    shelf.put("l", list.as_bytes())?;
    Ok(shelf)
}

/// Runs a row over a shelf whose read of that number fails, into this sink.
fn run_into<R: Threads + Wait + Sync>(
    rt: &R,
    alloc: Global,
    row: &Row,
    fails_at: u64,
    sink: &mut SlowSink,
) -> Result<u8, AllocError> {
    let words = words_of(alloc, row)?;
    let mut shelf = shelf_of(alloc, row)?;
    shelf.fail_at(fails_at)?;
    Ok(run(rt, alloc, &words, &mut shelf, sink, &OpenGate::new()))
}

/// Whether a run into a sink ended as it has to: whole, where the sink did not fail, and else with status 5, no further write, and a
/// front of what is printed of at least so many bytes.
fn ends_so(row: &Row, sink: &SlowSink, status: u8, least: usize) -> bool {
    let printed = row.printed.as_bytes();
    let taken = sink.bytes.as_slice();
    if sink.writes < sink.fails_at {
        return status == 0 && taken == printed;
    }
    status == 5
        && sink.writes == sink.fails_at
        && least <= taken.len()
        && taken.len() < printed.len()
        && printed.starts_with(taken)
}

#[test]
fn each_failed_write_ends_the_run(rt: HostRuntime) -> Result<(), Fail> {
    for row in ROWS.iter() {
        for most in MOSTS.iter() {
            let mut least = 0;
            for call in 1..1000u64 {
                let mut sink = sink_of(rt.alloc(), *most, call);
                let status = run_into(&rt, rt.alloc(), row, 0, &mut sink)?;
                assert!(rt;
                    ends_so(row, &sink, status, least),
                    "{} {most} {call}",
                    row.words
                );
                if sink.writes < call {
                    break;
                }
                least = sink.bytes.len().saturating_add(1);
            }
        }
    }
    Ok(())
}

#[test]
fn each_failed_read_names_its_file(rt: HostRuntime) -> Result<(), Fail> {
    for row in ROWS.iter() {
        for (place, line) in UNREAD.iter().take(row.reads).enumerate() {
            let mut sink = sink_of(rt.alloc(), usize::MAX, 0);
            let status = run_into(
                &rt,
                rt.alloc(),
                row,
                (place as u64).saturating_add(1),
                &mut sink,
            )?;
            let taken = sink.bytes.as_slice();
            assert!(rt;
                status == 4 && taken == line.as_bytes(),
                "{} {place}",
                row.words
            );
        }
    }
    Ok(())
}

/// The read behind the last one is never made.
#[test]
fn no_read_is_made_in_vain(rt: HostRuntime) -> Result<(), Fail> {
    for row in ROWS.iter() {
        let mut sink = sink_of(rt.alloc(), usize::MAX, 0);
        let status = run_into(
            &rt,
            rt.alloc(),
            row,
            (row.reads as u64).saturating_add(1),
            &mut sink,
        )?;
        let taken = sink.bytes.as_slice();
        assert!(rt;
            status == 0 && taken == row.printed.as_bytes(),
            "{}",
            row.words
        );
    }
    Ok(())
}
