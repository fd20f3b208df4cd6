//! Tests with devices that say only whether they failed.
ghost use Rattle.std.specs.Prelude.{◌≡◌, Some, None, false};

use crate::tests::HELLO;
use crate::{Sink, Source, TextError, draw, run};
use qrcode_core::types::EcLevel;
use std::alloc::Global;
use std::io::Read;
use std::test::Fail;

/// A source of bytes that fails after some pulls.
#[derive(Drop)]
struct PlainSource<'a> {
    bytes: &'a [u8],
    pulls_left: usize,
    has_failed: bool,
}

impl<'a> PlainSource<'a> {
    fn new(bytes: &'a [u8], pulls_left: usize) -> PlainSource<'a>
        ensures { result.has_failed ≡ false }
    {
        PlainSource {
            bytes,
            pulls_left,
            has_failed: false,
        }
    }
}

impl Source for PlainSource<'_> {
    ghost state = { λ s. record {
      left = Some s.bytes.now;
      failed = s.has_failed;
      reason = None;
    } };

    fn pull(&mut self, buf: &mut [u8]) -> Option<usize> {
        if self.pulls_left == 0 {
            self.has_failed = true;
            return None;
        }
        self.pulls_left -= 1;
        self.bytes.read(buf).ok()
    }

    fn failed(&self) -> bool {
        self.has_failed
    }
}

/// A sink that keeps all bytes, of some pushes.
#[derive(Drop)]
struct PlainSink {
    kept: Vec<u8>,
    pushes_left: usize,
    has_failed: bool,
}

impl PlainSink {
    fn new(alloc: Global, pushes_left: usize) -> PlainSink
        ensures { result.has_failed ≡ false }
    {
        PlainSink {
            kept: Vec::new(alloc),
            pushes_left,
            has_failed: false,
        }
    }
}

impl Sink for PlainSink {
    ghost state = { λ s. record {
      written = Some s.kept.items;
      flushed = Some s.kept.items;
      failed = s.has_failed;
      reason = None;
    } };

    fn push(&mut self, buf: &[u8]) -> Option<usize> {
        if self.pushes_left == 0 || self.kept.extend_from_slice(buf).is_err() {
            self.has_failed = true;
            return None;
        }
        self.pushes_left -= 1;
        Some(buf.len())
    }

    fn flush(&mut self) -> bool {
        true
    }

    fn failed(&self) -> bool {
        self.has_failed
    }
}

#[test]
fn draws_on_plain_devices(rt: HostRuntime) -> Result<(), Fail> {
    for (pulls, pushes, wanted, text) in [
        (9, 9, Ok(()), HELLO),
        (0, 9, Err(TextError::Read), ""),
        (1, 9, Err(TextError::Read), ""),
        (9, 0, Err(TextError::Write), ""),
    ] {
        let mut reader = PlainSource::new(b"hello", pulls);
        let mut writer = PlainSink::new(rt.alloc(), pushes);
        let outcome = draw(rt.alloc(), &mut reader, &mut writer, EcLevel::L, false);
        assert_eq!(rt; outcome, wanted);
        assert_eq!(rt; writer.kept.as_slice(), text.as_bytes());
    }
    Ok(())
}

#[test]
fn runs_on_plain_devices(rt: HostRuntime) -> Result<(), Fail> {
    let rows: [(usize, &[&str], u8, &str); 3] = [
        (9, &["L"], 0, ""),
        (0, &["L"], 1, "qrtext: read failed\n"),
        (9, &["X"], 2, "usage: qrtext L|M|Q|H [micro]\n"),
    ];
    for (pulls, words, wanted, line) in rows {
        let mut reader = PlainSource::new(b"hello", pulls);
        let mut writer = PlainSink::new(rt.alloc(), 9);
        let mut errors = PlainSink::new(rt.alloc(), 9);
        let status = run(rt.alloc(), words, &mut reader, &mut writer, &mut errors);
        assert_eq!(rt; status, wanted);
        assert_eq!(rt; errors.kept.as_slice(), line.as_bytes());
    }
    Ok(())
}
