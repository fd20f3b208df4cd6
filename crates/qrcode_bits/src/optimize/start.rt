//! Starts of the last part of a plan of short data, and the one function that compares two of them.

ghost use Rattle.std.proofs.Common.{rules};
ghost use Rattle.std.specs.Prelude.{◌+◌, ◌-◌, ◌%◌, ◌<◌};
ghost use Rattle.qrcode_bits.specs.Optimizer.{start_of};

use super::Comparisons;
use super::any_start::AnyStart;
use std::marker::Model;
use std::sync::ledger::Ledger;

/// How many low bits of a word hold by how much the index is less than `LAST_INDEX`, and how many
/// bits after them hold the number of parts.
const FIELD_WIDTH: u32 = 13;

/// The number of bits of the plan stands above this many low bits of a word.
const BITS_SHIFT: u32 = 26;

/// The greatest index of a segment.
const LAST_INDEX: u64 = 8191;

/// The word of a start is less than this.
const NO_START: u64 = 1 << 63;

/// A possible start of the last part, or none, in a word of 64 bits: the number of bits of the plan
/// in the high bits, then 13 bits for its number of parts, then 13 bits that decrease as the index
/// of the segment increases. So the lesser word is the better start: fewer bits, then fewer parts,
/// then the later segment. The greatest word is no start.
#[derive(Clone, Copy)]
pub struct Start {
    word: u64,
}

// Clauses see the word.
impl Model for Start {
    ghost use Rattle.std.specs.Prelude.{ℕ};

    ghost Value = { ℕ };

    ghost view = { λ s. s.word };

    ghost inverse = { λ word. record { word = word } };
}

impl AnyStart for Start {
    ghost FAR = { 8192 };

    ghost read = { start_of };

    const FAR: u128 = 8192;

    ghost wide = { Prim.search rules };

    ghost narrow = { Prim.search rules };

    fn first() -> Self {
        Start { word: LAST_INDEX }
    }

    fn none() -> Self {
        Start { word: u64::MAX }
    }

    fn is_some(&self) -> bool {
        self.word < NO_START
    }

    fn index(&self) -> usize {
        (LAST_INDEX - self.word % (1 << FIELD_WIDTH)) as usize
    }

    fn exceeds(&self, limit: u128) -> bool {
        u128::from(self.word >> BITS_SHIFT) > limit
    }

    fn next(&self, index: usize) -> Self {
        let plan = self.word >> FIELD_WIDTH;
        Start {
            word: ((plan + 1) << FIELD_WIDTH) + (LAST_INDEX - index as u64),
        }
    }

    fn moved(&self, more: u128, less: u128) -> Self {
        Start {
            word: self.word + ((more as u64) << BITS_SHIFT) - ((less as u64) << BITS_SHIFT),
        }
    }

    fn is_better<L: Ledger>(&self, other: &Self, comparisons: &mut Comparisons<L>) -> bool {
        comparisons.tick();
        self.word < other.word
    }
}
