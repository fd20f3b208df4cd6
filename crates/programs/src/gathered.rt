//! What is written of one message is passed on together.
ghost use Rattle.std.specs.Prelude.{◌≡◌, [], not, IsFalse};
ghost use Rattle.std.specs.Bool.{OnTrue};
ghost use Rattle.std.specs.Io.KnownBytes.{append_known, Keeps};

use crate::{ReportingSink, Sink};
use arrayvec::ArrayVec;
use std::io::ErrorKind;

/// How many bytes are gathered.
const ROOM: usize = 4096;

/// A sink that keeps what is written, without an allocation, and passes it on to another at a
/// flush, or where there are more than 4096 bytes: in one push, if the other takes them all, so
/// that lines which several processes write at one time do not mix.
#[derive(Drop)]
pub struct Gathered<W> {
    inner: W,
    waiting: ArrayVec<u8, ROOM>,
}

impl<W: Sink> Gathered<W> {
    /// Returns the sink that passes on to another.
    pub fn new(inner: W) -> Gathered<W>
        ensures inner { result.inner ≡ inner }
        ensures none { result.waiting.items ≡ [] }
    {
        Gathered {
            inner,
            waiting: ArrayVec::new(),
        }
    }

    /// Passes on what is waiting, and returns whether this succeeded.
    fn pass_on(&mut self) -> bool
        requires { IsFalse (W.state self.old.inner).failed }
        ensures kept { Keeps
            (append_known (W.state self.old.inner).written self.old.waiting.items)
            (append_known (W.state self.new.inner).written self.new.waiting.items) }
        ensures none { OnTrue result (self.new.waiting.items ≡ []) }
        ensures failure { (W.state self.new.inner).failed ≡ not result }
    {
        'passing: while !self.waiting.is_empty() {
            let Some(n) = self.inner.push(&self.waiting) else {
                return false;
            };
            self.waiting.drain(..n);
        }
        true
    }
}

impl<W: Sink> Sink for Gathered<W> {
    ghost state = { λ s. record {
      written = append_known (W.state s.inner).written s.waiting.items;
      flushed = (W.state s.inner).flushed;
      failed = (W.state s.inner).failed;
      reason = (W.state s.inner).reason;
    } };

    fn push(&mut self, buf: &[u8]) -> Option<usize> {
        if self.waiting.remaining_capacity() < buf.len() && !self.pass_on() {
            return None;
        }
        let taken = &buf[..buf.len().min(ROOM)];
        let _ = self.waiting.try_extend_from_slice(taken);
        Some(taken.len())
    }

    fn flush(&mut self) -> bool {
        self.pass_on() && self.inner.flush()
    }

    fn failed(&self) -> bool {
        self.inner.failed()
    }
}

impl<W: ReportingSink> ReportingSink for Gathered<W> {
    ghost reason_of_failure = { λ s. W.reason_of_failure s.inner };

    fn reason(&self) -> Option<ErrorKind> {
        self.inner.reason()
    }
}
