//! The number of labels, written while they are drawn.
ghost use Rattle.std.specs.Prelude.{◌≡◌, ◌==◌, ◌+◌, ◌%◌, ◌^◌, ◌++◌, IsTrue, IsFalse, decimal, codes};
ghost use Rattle.programs.specs.Devices.{output, Writes};

use itoa::Buffer;
use labels::Files;
use programs::{ReportingSink, Sink, push_all, write_all};
use std::io::ErrorKind;

/// The number is written after each hundredth label.
const STEP: u64 = 100;

/// A place for labels, which writes on a sink how many there are.
#[derive(Drop)]
pub struct Counting<W, E> {
    pub labels: W,
    numbers: E,
    is_shown: bool,
    count: u64,
}

impl<W, E: Sink> Counting<W, E> {
    /// Passes labels on to `labels`, and prints every hundredth count on `numbers` if `is_shown`.
    pub fn new(labels: W, numbers: E, is_shown: bool) -> Counting<W, E>
        ensures { result.labels ≡ labels }
    {
        Counting {
            labels,
            numbers,
            is_shown,
            count: 0,
        }
    }

    /// Whether there was no label so far.
    pub fn is_unused(&self) -> bool
        ensures { result ≡ (self.now.count == 0) }
    {
        self.count == 0
    }

    /// Counts one label more, and writes each hundredth number. The next one, or an error, is
    /// written over it.
    fn count_one(&mut self)
        ensures labels { self.new.labels ≡ self.old.labels }
        ensures counted { self.new.count ≡ (self.old.count + 1) % 2 ^ 64 }
        ensures hidden { IsFalse self.old.is_shown → self.new.numbers ≡ self.old.numbers }
        ensures shown { IsTrue self.old.is_shown → self.new.count % 100 ≡ 0 →
            IsFalse (E.state self.old.numbers).failed →
            Writes (output (E.state self.old.numbers) (E.state self.new.numbers))
            (decimal self.new.count ++ codes " labels\r") }
    {
        self.count = self.count.wrapping_add(1);
        if !self.is_shown || self.count % STEP != 0 || self.numbers.failed() {
            return;
        }
        let mut buffer = Buffer::new();
        if push_all(&mut self.numbers, buffer.format(self.count).as_bytes()).is_ok() {
            let _ = write_all(&mut self.numbers, b" labels\r");
        }
    }
}

impl<W: Sink, E: Sink> Sink for Counting<W, E> {
    ghost state = { λ s. W.state s.labels };

    fn push(&mut self, buf: &[u8]) -> Option<usize> {
        self.labels.push(buf)
    }

    fn flush(&mut self) -> bool {
        let is_flushed = self.labels.flush();
        self.count_one();
        is_flushed
    }

    fn failed(&self) -> bool {
        self.labels.failed()
    }
}

impl<W: ReportingSink, E: Sink> ReportingSink for Counting<W, E> {
    ghost reason_of_failure = { λ s. W.reason_of_failure s.labels };

    fn reason(&self) -> Option<ErrorKind> {
        self.labels.reason()
    }
}

impl<F: Files, E: Sink> Files for Counting<F, E> {
    ghost state = { λ s. F.state s.labels };

    ghost reason_of_failure = { λ s. F.reason_of_failure s.labels };

    fn put(&mut self, name: &str, content: &[u8]) -> bool {
        let is_put = self.labels.put(name, content);
        self.count_one();
        is_put
    }

    fn reason(&self) -> Option<ErrorKind> {
        self.labels.reason()
    }
}
