//! Tests of devices that fail, and of the arguments.
use crate::{FromReader, FromWriter, Sink, Source, TextError, draw, run};
use programs::report;
use qrcode_core::types::{EcLevel, QrError};
use std::alloc::AllocError;
use std::io;
use std::io::{ErrorKind, Read, Write};
use std::test::Fail;

/// A reader that gives at most three bytes a call, and fails after some calls.
#[derive(Drop)]
struct Fragile<'a> {
    bytes: &'a [u8],
    calls_left: usize,
    kind: ErrorKind,
}

impl Read for Fragile<'_> {
    fn read(&mut self, buf: &mut [u8]) -> io::Result<usize> {
        if self.calls_left == 0 {
            return Err(io::Error::from(self.kind));
        }
        self.calls_left -= 1;
        let room = buf.len().min(3);
        self.bytes.read(&mut buf[..room])
    }
}

/// A reader that never ends, and counts the bytes that it gave.
#[derive(Drop)]
struct Endless {
    given: usize,
}

impl Read for Endless {
    fn read(&mut self, buf: &mut [u8]) -> io::Result<usize> {
        buf.fill(b'a');
        self.given = self.given.saturating_add(buf.len());
        Ok(buf.len())
    }
}

/// How a writer goes on after some calls.
#[derive(Clone, Copy)]
enum Then {
    Fails(ErrorKind),
    TakesNothing,
}

/// A writer that keeps at most `most` bytes a call, for some calls.
#[derive(Drop)]
struct Narrow<'a> {
    kept: &'a mut Vec<u8>,
    most: usize,
    calls_left: usize,
    then: Then,
}

impl Write for Narrow<'_> {
    fn write(&mut self, buf: &[u8]) -> io::Result<usize> {
        if self.calls_left == 0 {
            return match self.then {
                Then::Fails(kind) => Err(io::Error::from(kind)),
                Then::TakesNothing => Ok(0),
            };
        }
        self.calls_left -= 1;
        let count = buf.len().min(self.most);
        self.kept.extend_from_slice(&buf[..count])?;
        Ok(count)
    }

    fn flush(&mut self) -> io::Result<()> {
        if self.calls_left == 0 {
            return Err(io::Error::from(ErrorKind::Other));
        }
        Ok(())
    }
}

/// The symbol of `hello` at level L, as the original crate draws it.
pub(crate) const HELLO: &str = "\
#######..#.##.#######\n\
#.....#.##.#..#.....#\n\
#.###.#.##..#.#.###.#\n\
#.###.#..#.#..#.###.#\n\
#.###.#.#...#.#.###.#\n\
#.....#.#..##.#.....#\n\
#######.#.#.#.#######\n\
........#####........\n\
##.#..##.##...###.##.\n\
.#####.###....#....##\n\
..##.####.#.##...##.#\n\
...#.#..#..#.....#.##\n\
....#.##.##.#.#.#....\n\
........####...##.#.#\n\
#######.###..#.#.###.\n\
#.....#..#####.##....\n\
#.###.#..#.#..###...#\n\
#.###.#.#.##...#.####\n\
#.###.#..##.#...#.#.#\n\
#.....#.###..##......\n\
#######.#.###..#.#.#.\n\
";

/// The Micro symbol of `12345` at level L, as it is printed.
const DIGITS: &str = "\
#######.#.#\n\
#.....#.##.\n\
#.###.#.#..\n\
#.###.#....\n\
#.###.#.###\n\
#.....#..##\n\
#######.#..\n\
.........##\n\
##..###..##\n\
.#.#...##..\n\
####.....##\n\
";

#[test]
fn draws_all(rt: HostRuntime) -> Result<(), Fail> {
    let rows: [(&[u8], bool, &str); 2] = [(b"hello", false, HELLO), (b"12345", true, DIGITS)];
    for (input, micro, wanted) in rows {
        let mut text = Vec::new(rt.alloc());
        let mut bytes = input;
        let mut reader = FromReader::new(&mut bytes);
        let mut writer = FromWriter::new(&mut text);
        let outcome = draw(rt.alloc(), &mut reader, &mut writer, EcLevel::L, micro);
        assert_eq!(rt; outcome, Ok(()));
        assert_eq!(rt; text.as_slice(), wanted.as_bytes());
    }
    Ok(())
}

#[test]
fn reads_give_up(rt: HostRuntime) -> Result<(), Fail> {
    for kind in [ErrorKind::Other, ErrorKind::Interrupted] {
        for calls in 0..3 {
            let mut text: Vec<u8> = Vec::new(rt.alloc());
            let mut reader = FromReader::new(Fragile {
                bytes: b"hello",
                calls_left: calls,
                kind,
            });
            let mut writer = FromWriter::new(&mut text);
            let outcome = draw(rt.alloc(), &mut reader, &mut writer, EcLevel::L, false);
            assert_eq!(rt; outcome, Err(TextError::Read), "after {calls} calls");
            assert_eq!(rt; text.len(), 0);
        }
    }
    Ok(())
}

#[test]
fn reads_no_more_than_is_too_many(rt: HostRuntime) -> Result<(), Fail> {
    let mut text: Vec<u8> = Vec::new(rt.alloc());
    let mut endless = Endless { given: 0 };
    let mut reader = FromReader::new(&mut endless);
    let mut writer = FromWriter::new(&mut text);
    let outcome = draw(rt.alloc(), &mut reader, &mut writer, EcLevel::L, false);
    assert_eq!(rt; outcome, Err(TextError::Symbol(QrError::DataTooLong)));
    assert_eq!(rt; text.len(), 0);
    assert_eq!(rt; endless.given, 7090);
    Ok(())
}

#[test]
fn writes_give_up(rt: HostRuntime) -> Result<(), Fail> {
    let (is_due, whole) = drawn(&rt, usize::MAX, usize::MAX, Then::TakesNothing)?;
    assert!(rt; is_due);
    assert_eq!(rt; whole.len(), 21 * 22);
    for then in [
        Then::Fails(ErrorKind::Other),
        Then::Fails(ErrorKind::Interrupted),
        Then::TakesNothing,
    ] {
        // After five calls everything is written, and the flush fails.
        for calls in 0..6 {
            let (is_due, text) = drawn(&rt, 100, calls, then)?;
            assert!(rt; is_due);
            assert_eq!(rt;
                text.len(),
                whole.len().min(100 * calls),
                "after {calls} calls"
            );
            assert!(rt; whole.as_slice().starts_with(text.as_slice()));
        }
    }
    let (is_due, text) = drawn(&rt, 1, usize::MAX, Then::TakesNothing)?;
    assert!(rt; is_due);
    assert_eq!(rt; text.as_slice(), whole.as_slice());
    Ok(())
}

/// Draws `hello` to a writer that takes at most `most` bytes a call, for some calls. Returns
/// whether the outcome is the expected one, and what the writer kept.
fn drawn(rt: &HostRuntime, most: usize, calls: usize, then: Then) -> Result<(bool, Vec<u8>), Fail> {
    let mut kept = Vec::new(rt.alloc());
    let mut bytes: &[u8] = b"hello";
    let mut reader = FromReader::new(&mut bytes);
    let mut writer = FromWriter::new(Narrow {
        kept: &mut kept,
        most,
        calls_left: calls,
        then,
    });
    let outcome = draw(rt.alloc(), &mut reader, &mut writer, EcLevel::L, false);
    let wanted = if calls < usize::MAX {
        Err(TextError::Write)
    } else {
        Ok(())
    };
    Ok((outcome == wanted, kept))
}

#[test]
fn runs(rt: HostRuntime) -> Result<(), Fail> {
    let long = vec![in rt.alloc(); b'a'; 2954]?;
    let usage = "usage: qrtext L|M|Q|H [micro]\n";
    let lacking = "qrtext: invalid version Micro(4) for error correction level H\n";
    let rows: [(&[&str], &[u8], u8, usize, &str); 9] = [
        (&["L"], b"hello", 0, 21 * 22, ""),
        (&[" h "], b"hello", 0, 21 * 22, ""),
        (&["q", "micro"], b"hello", 0, 17 * 18, ""),
        (&["L"], &long, 1, 0, "qrtext: data too long to encode\n"),
        (&["H", "micro"], b"hello", 1, 0, lacking),
        (&["X"], b"hello", 2, 0, usage),
        (&["L", "mikro"], b"hello", 2, 0, usage),
        (&["L", "micro", "L"], b"hello", 2, 0, usage),
        (&[], b"hello", 2, 0, usage),
    ];
    for (words, input, status, length, line) in rows {
        let mut bytes = input;
        let mut text: Vec<u8> = Vec::new(rt.alloc());
        let mut said: Vec<u8> = Vec::new(rt.alloc());
        let mut reader = FromReader::new(&mut bytes);
        let mut writer = FromWriter::new(&mut text);
        let mut errors = FromWriter::new(&mut said);
        let answer = run(rt.alloc(), words, &mut reader, &mut writer, &mut errors);
        assert_eq!(rt; answer, status, "{words:?}");
        assert_eq!(rt; text.len(), length, "{words:?}");
        assert_eq!(rt; said.as_slice(), line.as_bytes());
        if status == 2 {
            assert_eq!(rt; bytes.len(), input.len(), "{words:?}");
        }
    }
    Ok(())
}

/// Returns a writer that keeps what it is given for some calls, and then fails.
fn bearing(kept: &mut Vec<u8>, calls: usize) -> Narrow<'_> {
    Narrow {
        kept,
        most: usize::MAX,
        calls_left: calls,
        then: Then::Fails(ErrorKind::Other),
    }
}

/// Each device may fail, the error output too. A row has the number of calls after which the
/// reader, the writer and the error output fail, the arguments, and then the status and the line.
#[test]
fn runs_with_devices_that_give_up(rt: HostRuntime) -> Result<(), Fail> {
    let rows: [(usize, usize, usize, &[&str], u8, &str); 8] = [
        (0, 9, 9, &["L"], 1, "qrtext: read failed\n"),
        (1, 9, 9, &["L"], 1, "qrtext: read failed\n"),
        (9, 0, 9, &["L"], 1, "qrtext: write failed\n"),
        (0, 0, 9, &["L"], 1, "qrtext: read failed\n"),
        (0, 9, 0, &["L"], 1, ""),
        (9, 0, 0, &["L"], 1, ""),
        (9, 9, 0, &["X"], 2, ""),
        (9, 9, 0, &["L"], 0, ""),
    ];
    for (reads, writes, tells, words, status, line) in rows {
        let mut text = Vec::new(rt.alloc());
        let mut said = Vec::new(rt.alloc());
        let mut reader = FromReader::new(Fragile {
            bytes: b"hello",
            calls_left: reads,
            kind: ErrorKind::Other,
        });
        let mut writer = FromWriter::new(bearing(&mut text, writes));
        let mut errors = FromWriter::new(bearing(&mut said, tells));
        let answer = run(rt.alloc(), words, &mut reader, &mut writer, &mut errors);
        assert_eq!(rt; answer, status, "{reads} {writes} {tells}");
        let read_failed = status == 1 && reads < 9;
        let write_failed = status == 1 && !read_failed;
        assert_eq!(rt; reader.failed(), read_failed);
        assert_eq!(rt; writer.failed(), write_failed);
        assert_eq!(rt; errors.failed(), tells == 0 && status != 0);
        assert_eq!(rt; text.len(), if status == 0 { 21 * 22 } else { 0 });
        assert_eq!(rt; said.as_slice(), line.as_bytes());
    }
    Ok(())
}

#[test]
fn tells_want_of_memory(rt: HostRuntime) -> Result<(), Fail> {
    let mut said: Vec<u8> = Vec::new(rt.alloc());
    let mut errors = FromWriter::new(&mut said);
    let wanting = TextError::from(AllocError);
    let status = report(&mut errors, "qrtext", wanting);
    assert_eq!(rt; status, 1);
    assert_eq!(rt; said.as_slice(), "qrtext: out of memory\n".as_bytes());
    Ok(())
}
