//! Files that are read whole and pieces that are written whole, in how many calls, and the devices of the system.

ghost use Rattle.std.specs.Prelude.{None};

use dp_outside::{
    Failed, FileShelf, FineShelf, FineSink, Gate, OpenGate, OutSink, ReadEnd, Shelf, Sink, put_all,
    read_all,
};
use std::test::Fail;
use std::time::Clock;
use std::{env, fs};

/// A shelf with one file, which gives at most `step` bytes a read, and whose read number `fails_at` fails.
#[derive(Drop)]
struct SlowShelf {
    bytes: &'static [u8],
    step: usize,
    fails_at: u64,
    reads: u64,
}

impl Shelf for SlowShelf {
    ghost bytes_under = { λ _ _. None };

    ghost faults = { λ s. s.reads };

    fn read(&mut self, _name: &str, place: u64, room: &mut [u8]) -> Result<usize, Failed> {
        self.reads = self.reads.saturating_add(1);
        if self.reads == self.fails_at {
            return Err(Failed);
        }
        let bytes = self.bytes;
        if place >= bytes.len() as u64 {
            return Ok(0);
        }
        let rest = &bytes[place as usize..];
        let count = rest.len().min(room.len()).min(self.step);
        room[..count].copy_from_slice(&rest[..count]);
        Ok(count)
    }
}

/// How many bytes a read gives, which read fails, whether all bytes come, and after how many reads.
static READS: [(usize, u64, bool, u64); 5] = [
    (1, 0, true, 5),
    (3, 0, true, 3),
    (65536, 0, true, 2),
    (1, 3, false, 3),
    (65536, 2, false, 2),
];

#[test]
fn reads_in_few_calls(rt: HostRuntime) -> Result<(), Fail> {
    for (step, fails_at, want_bytes, want_reads) in READS.iter() {
        let bytes = b"abcd".as_slice();
        let mut shelf = SlowShelf {
            bytes,
            step: *step,
            fails_at: *fails_at,
            reads: 0,
        };
        match read_all(rt.alloc(), &mut shelf, "file", 4) {
            Ok(read) => assert_eq!(rt;
                (read.as_slice(), true),
                (bytes, *want_bytes),
                "{step} {fails_at}"
            ),
            Err(ReadEnd::Fault) => assert!(rt; !*want_bytes, "{step} {fails_at}"),
            Err(end) => return Err(end.into()),
        }
        assert_eq!(rt; shelf.reads, *want_reads, "{step} {fails_at}");
    }
    Ok(())
}

/// A name, a limit, and how many bytes come, if the file is not too long.
static LIMITS: [(&str, u64, Option<usize>); 6] = [
    ("three", 10, Some(3)),
    ("three", 3, Some(3)),
    ("three", 2, None),
    ("missing", 0, Some(0)),
    ("long", 70000, Some(70000)),
    ("long", 69999, None),
];

#[test]
fn reads_files_of_a_fine_shelf(rt: HostRuntime) -> Result<(), Fail> {
    let long = vec![in rt.alloc(); 7u8; 70000]?;
    let mut shelf = FineShelf::new(rt.alloc());
    shelf.put("three", b"abc")?;
    shelf.put("long", long.as_slice())?;
    for (name, limit, want) in LIMITS.iter() {
        match read_all(rt.alloc(), &mut shelf, name, *limit) {
            Ok(bytes) => assert_eq!(rt; Some(bytes.len()), *want, "{name} {limit}"),
            Err(ReadEnd::TooLong) => assert_eq!(rt; None, *want, "{name} {limit}"),
            Err(end) => return Err(end.into()),
        }
    }
    Ok(())
}

/// Where two bytes of a file are read, how many come, and what then stands in the room for them.
static PIECES: [(u64, usize, [u8; 2]); 4] = [
    (0, 2, *b"ab"),
    (1, 2, *b"bc"),
    (2, 1, *b"cc"),
    (9, 0, *b"cc"),
];

#[test]
fn reads_a_file_of_the_system(rt: HostRuntime) -> Result<(), Fail> {
    let folder = env::temp_dir(&rt)?;
    let moment = rt.since_1970()?.as_nanos();
    let name = format!(in rt.alloc(); "{}/dp_outside_{moment}", folder.as_str())?;
    fs::write(&rt, name.as_str(), b"abc".as_slice())?;
    let mut shelf = FileShelf::new(&rt);
    let mut room = [0u8; 2];
    for (place, want_count, want) in PIECES.iter() {
        let count = shelf.read(name.as_str(), *place, &mut room);
        assert_eq!(rt; count, Ok(*want_count), "{place}");
        assert_eq!(rt; room, *want, "{place}");
    }
    let read = read_all(rt.alloc(), &mut shelf, name.as_str(), 3)?;
    assert_eq!(rt; (read.as_slice(), shelf.faults()), (b"abc".as_slice(), 0));
    fs::remove_file(&rt, name.as_str())?;
    let end = read_all(rt.alloc(), &mut shelf, name.as_str(), 3);
    assert!(rt; matches!(end, Err(ReadEnd::Fault)) && shelf.faults() == 1);
    Ok(())
}

#[test]
fn a_sink_takes_what_is_put(rt: HostRuntime) -> Result<(), Fail> {
    let mut fine = FineSink::new(rt.alloc());
    put_all(&mut fine, b"abc")?;
    put_all(&mut fine, b"")?;
    assert_eq!(rt; fine.bytes(), Some(b"abc".as_slice()));
    Ok(())
}

#[test]
fn writes_to_the_system(rt: HostRuntime) -> Result<(), Fail> {
    let mut out = OutSink::new(&rt);
    put_all(&mut out, b"written by a test\n")?;
    assert_eq!(rt; out.faults(), 0);
    OpenGate::new().turn(0, 0);
    Ok(())
}
