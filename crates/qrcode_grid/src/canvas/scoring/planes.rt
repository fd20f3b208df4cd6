//! Counters of bits, as rows of lanes. The types are not in `counting`, since the contracts there
//! use definitions of the types: one file would be an import cycle.
ghost use Rattle.std.specs.Prelude.{◌≡◌, length};

use std::simd::prelude::*;

/// Rows of lanes whose bits have the weights 1, 2, 4 and 8.
#[derive(Clone, Copy)]
pub struct Planes {
    pub ones: u8x16,
    pub twos: u8x16,
    pub fours: u8x16,
    pub eights: u8x16,
    pub ghost lanes: { (length ones ≡ 16) × (length twos ≡ 16) × (length fours ≡ 16)
        × (length eights ≡ 16) },
}

/// How often each bit was set: rows of lanes of the weights 1, 2, 4 and 8, and the number of
/// sixteens of each bit.
#[derive(Clone, Copy)]
pub struct Tally {
    pub planes: Planes,
    pub sums: [usize; 8],
}
