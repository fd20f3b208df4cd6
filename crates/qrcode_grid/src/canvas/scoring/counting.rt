//! Counts what the penalty rules look for, in eight candidates at once. A row of sixteen lanes
//! marks sixteen places, and bit m of a lane belongs to candidate m. Sixteen rows at a time are
//! added bit by bit: a carry-save adder keeps the counts of each bit in four rows of lanes, of
//! weights 1, 2, 4 and 8. Places outside the grid are never marked, so that all places are counted,
//! 256 at a time.
ghost use Rattle.std.specs.Prelude.{◌≡◌, ℕ, ◌+◌, ◌*◌, ◌<◌, ◌≤◌, [], length, slice_index, slice_index_or};
ghost use Rattle.qrcode_grid.specs.Regions.{sum_below, count_below};
ghost use Rattle.qrcode_grid.specs.Scoring.{bit_count, tallied, plane, has, has_five, has_six};
ghost use Rattle.qrcode_grid.specs.Scoring.{list_length, places};

use crate::canvas::scoring::lists::{Feature, dark, places_of};
use crate::canvas::scoring::planes::{Planes, Tally};
use std::simd::prelude::*;

/// Returns the sum and the carry of three rows, bit by bit.
#[inline(always)]
#[tactic(auto, using(crate::proofs::MarkedLanes::three_sums))]
fn add_three(a: u8x16, b: u8x16, c: u8x16) -> (u8x16, u8x16)
    requires lanes { (length a ≡ 16) × (length b ≡ 16) × (length c ≡ 16) }
    ensures lanes { (length result.0 ≡ 16) × (length result.1 ≡ 16) }
    ensures sum { (m : ℕ) → bit_count m result.0 + 2 * bit_count m result.1 ≡
        bit_count m a + bit_count m b + bit_count m c }
{
    let u = a ^ b;
    let v = a ^ c;
    (u ^ c, a ^ (u & v))
}

/// Returns the count in which no bit was set.
#[inline(always)]
#[tactic(auto, using(crate::proofs::MarkedLanes::bits_gone))]
pub fn no_bits() -> Tally
    ensures none { (m : ℕ) → m < 8 → tallied m result ≡ 0 }
    ensures small { (m : ℕ) → m < 8 → slice_index result.sums m ≡ 0 }
{
    let zero = u8x16::splat(0);
    let planes = Planes {
        ones: zero,
        twos: zero,
        fours: zero,
        eights: zero,
    };
    Tally {
        planes,
        sums: [0; 8],
    }
}

/// Returns the number of lanes in which bit m is set.
#[inline(always)]
fn count_bit(lanes: u8x16, m: usize) -> usize
    requires lanes { length lanes ≡ 16 }
    requires bit { m < 8 }
    ensures is { result ≡ bit_count m lanes }
    ensures small { result ≤ 16 }
{
    let bit = u8x16::splat(1 << m);
    (lanes & bit).simd_eq(bit).to_bitmask().count_ones() as usize
}

/// Adds sixteen rows of lanes to the count.
#[inline(always)]
#[tactic(auto, using(crate::proofs::MarkedLanes::bit_count_le))]
pub fn add_rows(tally: Tally, rows: &[u8x16; 16]) -> Tally
    requires rows { (i : ℕ) → i < 16 → length (slice_index_or rows.now i []) ≡ 16 }
    requires room { (m : ℕ) → m < 8 → slice_index tally.sums m ≤ 1000000 }
    ensures more { (m : ℕ) → m < 8 →
        tallied m result ≡ tallied m tally
        + sum_below (λ i. bit_count m (slice_index_or rows.now i [])) 16 }
    ensures small { (m : ℕ) → m < 8 → slice_index result.sums m ≤ slice_index tally.sums m + 16 }
{
    let planes = tally.planes;
    let (ones, low) = add_three(planes.ones, rows[0], rows[1]);
    let (ones, high) = add_three(ones, rows[2], rows[3]);
    let (twos, a) = add_three(planes.twos, low, high);
    let (ones, low) = add_three(ones, rows[4], rows[5]);
    let (ones, high) = add_three(ones, rows[6], rows[7]);
    let (twos, b) = add_three(twos, low, high);
    let (ones, low) = add_three(ones, rows[8], rows[9]);
    let (ones, high) = add_three(ones, rows[10], rows[11]);
    let (twos, c) = add_three(twos, low, high);
    let (ones, low) = add_three(ones, rows[12], rows[13]);
    let (ones, high) = add_three(ones, rows[14], rows[15]);
    let (twos, d) = add_three(twos, low, high);
    let (fours, low) = add_three(planes.fours, a, b);
    let (fours, high) = add_three(fours, c, d);
    let (eights, sixteens) = add_three(planes.eights, low, high);
    let planes = Planes {
        ones,
        twos,
        fours,
        eights,
    };
    let mut sums = tally.sums;
    for m in 0..8 {
        sums[m] += count_bit(sixteens, m);
    }
    Tally { planes, sums }
}

/// Returns how often each bit was set.
#[inline(always)]
pub fn totals(tally: Tally) -> [usize; 8]
    requires room { (m : ℕ) → m < 8 → slice_index tally.sums m ≤ 1000000 }
    ensures { (m : ℕ) → m < 8 → slice_index result m ≡ tallied m tally }
{
    let planes = tally.planes;
    let mut result = [0; 8];
    for m in 0..8 {
        let high = 8 * count_bit(planes.eights, m) + 4 * count_bit(planes.fours, m);
        let low = 2 * count_bit(planes.twos, m) + count_bit(planes.ones, m);
        result[m] = 16 * tally.sums[m] + high + low;
    }
    result
}

/// Returns the number of places with a feature, in each candidate.
#[inline(always)]
pub fn count(feature: Feature, width: usize, step: usize, padded: &[u8], twins: &[u8]) -> [usize; 8]
    requires wide { width ≤ 177 }
    requires step { step ≤ width + 4 }
    requires padded { length padded.now ≡ list_length width }
    requires twins { length twins.now ≡ list_length width }
    ensures is { (m : ℕ) → m < 8 → slice_index result m ≡ count_below
        (has feature width step (plane m padded.now) (plane m twins.now)) (places width) }
    ensures small { (m : ℕ) → m < 8 → slice_index result m ≤ 40000 }
{
    let mut rows = [u8x16::splat(0); 16];
    let mut tally = no_bits();
    for chunk in 0..(width * (width + 4) + 255) / 256 {
        for i in 0..16 {
            rows[i] = places_of(feature, width, step, padded, twins, 256 * chunk + 16 * i);
        }
        tally = add_rows(tally, &rows);
    }
    totals(tally)
}

/// Returns the number of places at which five modules of one colour begin, and at which six begin,
/// in each candidate.
#[inline(always)]
pub fn count_runs(width: usize, step: usize, twins: &[u8]) -> ([usize; 8], [usize; 8])
    requires wide { width ≤ 177 }
    requires step { step ≤ width + 4 }
    requires twins { length twins.now ≡ list_length width }
    ensures fives { (m : ℕ) → m < 8 →
        slice_index result.0 m ≡ count_below (has_five step (plane m twins.now)) (places width) }
    ensures sixes { (m : ℕ) → m < 8 →
        slice_index result.1 m ≡ count_below (has_six step (plane m twins.now)) (places width) }
    ensures fewer { (m : ℕ) → m < 8 → slice_index result.1 m ≤ slice_index result.0 m }
    ensures small { (m : ℕ) → m < 8 → slice_index result.0 m ≤ 40000 }
{
    let zero = u8x16::splat(0);
    let mut five = [zero; 16];
    let mut six = [zero; 16];
    let mut fives = no_bits();
    let mut sixes = no_bits();
    for chunk in 0..(width * (width + 4) + 255) / 256 {
        for i in 0..16 {
            let at = 256 * chunk + 16 * i;
            let begun = dark(twins, step, at, 0)
                & dark(twins, step, at, 1)
                & dark(twins, step, at, 2)
                & dark(twins, step, at, 3);
            five[i] = begun;
            six[i] = begun & dark(twins, step, at, 4);
        }
        fives = add_rows(fives, &five);
        sixes = add_rows(sixes, &six);
    }
    (totals(fives), totals(sixes))
}
