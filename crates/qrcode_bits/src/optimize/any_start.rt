//! What the optimiser needs of a start. `Start` and `Candidate` are the two types of starts.

ghost use Rattle.std.specs.Prelude.{◌≡◌, ℕ, ◌+◌, ◌*◌, ◌-◌, ◌^◌, ◌<◌, ◌≤◌, ◌↔◌, IsTrue};
ghost use Rattle.std.specs.Bool.{OnTrue, OnFalse};
ghost use Rattle.qrcode_bits.specs.declared.optimize.candidate.Candidate.{Candidate};
ghost use Rattle.qrcode_bits.specs.Optimizer.{IsStart, IsAsGoodAs};

use super::Comparisons;
use std::sync::ledger::Ledger;

/// A possible start of the last part of a plan, or none. Clauses see the `Candidate` that it stands
/// for; one of 2^24 times `FAR` bits or more is none.
pub trait AnyStart: Copy {
    ghost FAR: { ℕ };

    ghost read: { Self → Candidate };

    /// All ends of the data, and the number of its segments, are below this number.
    const FAR: u128;

    /// Returns the start at the first segment, before any bits and parts.
    fn first() -> Self
        ensures { read result ≡ record { bits = 0; parts = 0; start = 0 } };

    /// Returns the value for no start.
    fn none() -> Self
        ensures { 2 ^ 24 * FAR ≤ (read result).bits };

    /// Returns whether this is a start.
    fn is_some(&self) -> bool
        ensures some { OnTrue result (IsStart FAR (read self.now)) }
        ensures none { OnFalse result (2 ^ 24 * FAR ≤ (read self.now).bits) };

    /// Returns the index of the segment at which the last part starts.
    fn index(&self) -> usize
        ensures { result ≡ (read self.now).start };

    /// Returns whether the plan has more bits than a limit. It says nothing of two starts.
    fn exceeds(&self, limit: u128) -> bool
        ensures { IsTrue result ↔ limit < (read self.now).bits };

    /// Returns the start at the segment of an index for a plan of the same bits and one more part.
    fn next(&self, index: usize) -> Self
        requires bits { (read self.now).bits < 32 * FAR }
        requires parts { (read self.now).parts + 1 < FAR }
        requires index { index < FAR }
        ensures { read result ≡ record {
          bits = (read self.now).bits;
          parts = (read self.now).parts + 1;
          start = index;
        } };

    /// Returns the same start with `more` bits added and `less` bits subtracted.
    fn moved(&self, more: u128, less: u128) -> Self
        requires within { (read self.now).bits + more < 2 ^ 24 * FAR }
        requires less { less ≤ (read self.now).bits + more }
        ensures { read result ≡ record {
          bits = (read self.now).bits + more - less;
          parts = (read self.now).parts;
          start = (read self.now).start;
        } };

    /// Returns whether this start is better: fewer bits; with equal bits, fewer parts; with both
    /// equal, a later start. Nothing else compares two starts, and each call is counted.
    fn is_better<L: Ledger>(&self, other: &Self, comparisons: &mut Comparisons<L>) -> bool
        ensures wins { OnTrue result (IsAsGoodAs (read self.now) (read other.now)) }
        ensures loses { OnFalse result (IsAsGoodAs (read other.now) (read self.now)) }
        ensures ticked { comparisons.new ≡ comparisons.old + 1 };

    ghost wide: { 2 ^ 13 ≤ FAR };

    ghost narrow: { FAR ≤ 2 ^ 64 };
}
