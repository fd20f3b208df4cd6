//! The penalties of eight masked candidates at once. A grid is a list with one byte per module, and
//! bit m of a byte is the colour in candidate m (1 is dark).
//!
//! 1. Write the eight candidates (`masks`).
//! 2. For each direction, mark the twins: modules that have the colour of the next (`lists`).
//! 3. Count runs, finder-like patterns, squares and dark modules in all candidates (`counting`),
//!    and add up their penalties.
ghost use Rattle.std.specs.Prelude.{◌≡◌, ℕ, ◌+◌, ◌*◌, ◌<◌, ◌≤◌, length, map, slice_index, take};
ghost use Rattle.std.specs.Prelude.{◌==◌, if◌then◌else◌};
ghost use Rattle.qrcode_base.specs.Symbols.{IsVersion, width_of};
ghost use Rattle.qrcode_grid.specs.Canvas.{color_of_module};
ghost use Rattle.qrcode_grid.specs.Penalty.{byte_of, penalty, micro_penalty};
ghost use Rattle.qrcode_grid.specs.Penalty.{normal_penalty};
ghost use Rattle.qrcode_grid.specs.Masks.{masked_cells};
ghost use Rattle.qrcode_grid.specs.Scoring.{lines_penalty, list_length, pattern_of, plane};

pub mod counting;
mod lists;
mod planes;

use crate::canvas::cells::Cell;
use crate::canvas::masks::write_candidates;
use crate::canvas::scoring::counting::{count, count_runs};
use crate::canvas::scoring::lists::{Feature, write_padded, write_twins};
use qrcode_base::types::{Color, Version};

/// Returns the penalty of the rows or of the columns in each candidate. A run of n >= 5 modules has
/// n - 4 fives and n - 5 sixes, so that three points for a five and two less for a six are n - 2,
/// the points of the standard. The function is instantiated once per direction so that the compiler
/// knows that the step of rows is 1.
#[inline(never)]
fn penalties_of_lines<const ROWS: bool>(
    width: usize,
    step: usize,
    padded: &[u8],
    twins: &[u8],
) -> [usize; 8]
    requires wide { width ≤ 177 }
    requires step { step ≡ (if ROWS then 1 else width + 4) }
    requires padded { length padded.now ≡ list_length width }
    requires twins { length twins.now ≡ list_length width }
    ensures is { (m : ℕ) → m < 8 →
        slice_index result m ≡ lines_penalty width step (plane m padded.now) (plane m twins.now) }
    ensures small { (m : ℕ) → m < 8 → slice_index result m ≤ 2000000 }
{
    let (fives, sixes) = count_runs(width, step, twins);
    let finders = count(Feature::Finder, width, step, padded, twins);
    let mut penalties = [0; 8];
    for m in 0..8 {
        penalties[m] = 3 * fives[m] - 2 * sixes[m] + 40 * finders[m];
    }
    penalties
}

/// Returns the penalties of eight candidates of a Normal symbol. `padded` and `twins` are scratch
/// lists of zeros.
#[inline(never)]
pub fn penalties_of_normal(
    width: usize,
    grid: &[u8],
    padded: &mut [u8],
    twins: &mut [u8],
) -> [usize; 8]
    requires wide { (16 ≤ width) × (width ≤ 177) }
    requires square { length grid.now ≡ width * width }
    requires padded { length padded.old ≡ list_length width }
    requires twins { length twins.old ≡ list_length width }
    requires light { (k : ℕ) → slice_index padded.old k ≡ 0 }
    requires none { (k : ℕ) → slice_index twins.old k ≡ 0 }
    ensures { (m : ℕ) → m < 8 → slice_index result m ≡ normal_penalty width (plane m grid.now) }
{
    let stride = width + 4;
    write_padded(width, grid, padded);
    write_twins(width, stride, width, width - 1, padded, twins);
    let columns = penalties_of_lines::<false>(width, stride, padded, twins);
    write_twins(width, 1, width - 1, width, padded, twins);
    let rows = penalties_of_lines::<true>(width, 1, padded, twins);
    let squares = count(Feature::Square, width, 1, padded, twins);
    let darks = count(Feature::Dark, width, 1, padded, twins);
    let mut penalties = [0; 8];
    for m in 0..8 {
        let balance = (200 * darks[m] / (width * width)).abs_diff(100);
        penalties[m] = rows[m] + columns[m] + 3 * squares[m] + balance;
    }
    penalties
}

/// Returns the penalties of eight candidates of a Micro symbol, each from the light modules of the
/// bottom row and of the right column, without the first module of either.
fn penalties_of_micro(width: usize, grid: &[u8]) -> [usize; 8]
    requires square { length grid.now ≡ width * width }
    requires wide { (0 < width) × (width ≤ 177) }
    ensures { (m : ℕ) → m < 8 → slice_index result m ≡ micro_penalty width (plane m grid.now) }
{
    let last = width - 1;
    let mut penalties = [0; 8];
    for m in 0..8 {
        let mut h = 0;
        let mut v = 0;
        for k in 1..width {
            h += 1 - usize::from(grid[last * width + k] >> m & 1);
            v += 1 - usize::from(grid[k * width + last] >> m & 1);
        }
        penalties[m] = 16 * h.max(v) + h.min(v);
    }
    penalties
}

/// Returns the penalties of the modules under eight masks, each with its format word, by the
/// numbers of the masks. The scratch list must be zeros. Afterwards it begins with the candidates.
pub fn penalties_of(
    modules: &[Cell],
    version: Version,
    width: usize,
    words: &[u32; 8],
    scratch: &mut [u8],
) -> [usize; 8]
    requires symbol { IsVersion version }
    requires wide { width ≡ width_of version }
    requires square { length modules.now ≡ width * width }
    requires long { length scratch.old ≡ width * width + (12 * width + 6) + 2 * list_length width }
    requires light { (k : ℕ) → slice_index scratch.old k ≡ 0 }
    ensures penalties { (m : ℕ) → m < 8 →
        slice_index result m ≡ penalty version (map color_of_module
        (masked_cells version width (slice_index words.now m) (pattern_of m) modules.now)) }
    ensures candidates { (m : ℕ) → m < 8 →
        plane m (take (width * width) scratch.new) ≡
        map byte_of (map color_of_module
        (masked_cells version width (slice_index words.now m) (pattern_of m) modules.now)) }
{
    let (grid, rest) = scratch.split_at_mut(width * width);
    let (stripes, lists) = rest.split_at_mut(12 * width + 6);
    let (padded, twins) = lists.split_at_mut(lists.len() / 2);
    write_candidates(modules, version, width, words, stripes, grid);
    match version {
        Version::Normal(_) => penalties_of_normal(width, grid, padded, twins),
        Version::Micro(_) => penalties_of_micro(width, grid),
    }
}

/// Writes the colours of candidate m.
pub fn write_colors(grid: &[u8], m: usize, colors: &mut [Color])
    requires bit { m < 8 }
    requires long { length colors.old ≡ length grid.now }
    ensures { map byte_of colors.new ≡ plane m grid.now }
{
    for k in 0..grid.len() {
        colors[k] = if grid[k] >> m & 1 == 1 {
            Color::Dark
        } else {
            Color::Light
        };
    }
}
