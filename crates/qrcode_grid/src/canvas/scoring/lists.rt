//! The lists in which the penalties are counted, and tests of sixteen neighbouring places in eight
//! candidates at once.
//!
//! The padded list is the grid within light modules, and the twins mark where a module and the next
//! one in a direction have the same colour. Row y of both lists begins at y times the stride, which
//! is the width plus four, and the grid begins four rows down in the padded list.
ghost use Rattle.std.specs.Prelude.{◌≡◌, ℕ, ◌+◌, ◌*◌, ◌<◌, ◌≤◌, length, slice_index, ◌==◌};
ghost use Rattle.qrcode_grid.specs.Scoring.{AreTwins, IsPadded, is_same, list_length, plane, stride, Marks, cell, has};

use std::simd::prelude::*;

/// Copies the rows of a grid into a list of light modules.
pub fn write_padded(width: usize, grid: &[u8], padded: &mut [u8])
    requires wide { (16 ≤ width) × (width ≤ 177) }
    requires square { length grid.now ≡ width * width }
    requires long { length padded.old ≡ list_length width }
    requires light { (k : ℕ) → slice_index padded.old k ≡ 0 }
    ensures { IsPadded width grid.now padded.new }
{
    for y in 0..width {
        let row = &grid[y * width..y * width + width];
        let at = (4 + y) * (width + 4);
        padded[at..at + width].copy_from_slice(row);
    }
}

/// Writes which modules of the first `columns` columns and `rows` rows have the same colour as the
/// module one step further, sixteen places at a time, and zeros to the right of them and below.
#[inline(always)]
pub fn write_twins(
    width: usize,
    step: usize,
    columns: usize,
    rows: usize,
    padded: &[u8],
    twins: &mut [u8],
)
    requires wide { (16 ≤ width) × (width ≤ 177) }
    requires step { step ≤ width + 4 }
    requires columns { columns ≤ width }
    requires rows { rows ≤ width }
    requires padded { length padded.now ≡ list_length width }
    requires twins { length twins.old ≡ list_length width }
    requires none { (k : ℕ) → rows * stride width ≤ k → slice_index twins.old k ≡ 0 }
    ensures twins { (m : ℕ) → m < 8 →
        AreTwins width step columns rows (plane m padded.now) (plane m twins.new) }
    ensures none { (k : ℕ) → rows * stride width ≤ k → slice_index twins.new k ≡ 0 }
{
    let stride = width + 4;
    let count = rows * stride;
    for part in 0..(count + 15) / 16 {
        let lanes = equal_to_next(padded, step, 4 * stride + 16 * part, 0);
        lanes.copy_to_slice(&mut twins[16 * part..16 * part + 16]);
    }
    u8x16::splat(0).copy_to_slice(&mut twins[count..count + 16]);
    for y in 0..rows {
        for x in columns..stride {
            twins[y * stride + x] = 0;
        }
    }
}

/// A feature that is counted besides runs: the beginning of a finder-like pattern with four light
/// modules on one side, the beginning of a square of one colour, or a dark module.
#[derive(Clone, Copy)]
pub enum Feature {
    Finder,
    Square,
    Dark,
}

/// Marks which modules are dark, i steps after sixteen places.
#[inline(always)]
#[tactic(auto, using(crate::proofs::MarkedLanes::dark_marks))]
pub fn dark(list: &[u8], step: usize, at: usize, i: usize) -> u8x16
    requires step { step ≤ 181 }
    requires few { i ≤ 14 }
    requires within { at + i * step + 16 ≤ length list.now }
    ensures { Marks result (λ m j. cell step (plane m list.now) (at + j) i == 1) }
{
    u8x16::from_slice(&list[at + i * step..])
}

/// Marks which modules are light, i steps after sixteen places.
#[inline(always)]
fn light(list: &[u8], step: usize, at: usize, i: usize) -> u8x16
    requires step { step ≤ 181 }
    requires few { i ≤ 14 }
    requires within { at + i * step + 16 ≤ length list.now }
    ensures { Marks result (λ m j. cell step (plane m list.now) (at + j) i == 0) }
{
    !u8x16::from_slice(&list[at + i * step..])
}

/// Marks which modules, i steps after sixteen places, have the same colour as the module one
/// step further.
#[inline(always)]
pub fn equal_to_next(list: &[u8], step: usize, at: usize, i: usize) -> u8x16
    requires step { step ≤ 181 }
    requires few { i ≤ 14 }
    requires within { at + (i + 1) * step + 16 ≤ length list.now }
    ensures { Marks result (λ m j. is_same step (plane m list.now) (at + j) i) }
{
    u8x16::from_slice(&list[at + i * step..]) ^ !u8x16::from_slice(&list[at + (i + 1) * step..])
}

/// Marks which of sixteen places have a feature, in each candidate.
#[inline(always)]
pub fn places_of(
    feature: Feature,
    width: usize,
    step: usize,
    padded: &[u8],
    twins: &[u8],
    at: usize,
) -> u8x16
    requires wide { width ≤ 177 }
    requires step { step ≤ width + 4 }
    requires padded { length padded.now ≡ list_length width }
    requires twins { length twins.now ≡ list_length width }
    requires within { at < width * (width + 4) + 240 }
    ensures { Marks result (λ m j.
        has feature width step (plane m padded.now) (plane m twins.now) (at + j)) }
{
    let stride = width + 4;
    match feature {
        // The pattern begins four steps after the place.
        Feature::Finder => {
            let at = at + 4 * (stride - step);
            let pattern = dark(padded, step, at, 4)
                & light(padded, step, at, 5)
                & dark(padded, step, at, 6)
                & dark(padded, step, at, 7)
                & dark(padded, step, at, 8)
                & light(padded, step, at, 9)
                & dark(padded, step, at, 10);
            let before = light(padded, step, at, 0)
                & light(padded, step, at, 1)
                & light(padded, step, at, 2)
                & light(padded, step, at, 3);
            let after = light(padded, step, at, 11)
                & light(padded, step, at, 12)
                & light(padded, step, at, 13)
                & light(padded, step, at, 14);
            pattern & (before | after)
        }
        // Both rows have a twin here, and the modules one below the other have the same colour.
        Feature::Square => {
            dark(twins, stride, at, 0)
                & dark(twins, stride, at, 1)
                & equal_to_next(padded, stride, at, 4)
        }
        Feature::Dark => dark(padded, stride, at, 4),
    }
}
