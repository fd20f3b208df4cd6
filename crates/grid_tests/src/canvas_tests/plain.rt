//! The penalties as plain sums over lines and squares.
ghost use Rattle.std.specs.Prelude.{◌≡◌};

use super::side;
use qrcode_base::types::{Color, QrResult, Version};
use qrcode_grid::canvas::{Canvas, MaskPattern};
use std::alloc::Global;

/// The masks of a Normal symbol, in the order of their numbers.
pub static NORMAL_MASKS: [MaskPattern; 8] = [
    MaskPattern::Checkerboard,
    MaskPattern::HorizontalLines,
    MaskPattern::VerticalLines,
    MaskPattern::DiagonalLines,
    MaskPattern::LargeCheckerboard,
    MaskPattern::Fields,
    MaskPattern::Diamonds,
    MaskPattern::Meadow,
];

/// The masks of a Micro symbol.
pub static MICRO_MASKS: [MaskPattern; 4] = [
    MaskPattern::HorizontalLines,
    MaskPattern::LargeCheckerboard,
    MaskPattern::Diamonds,
    MaskPattern::Meadow,
];

/// Returns whether a line has a cell at an index and it is dark.
fn is_dark_at(line: &[bool], i: usize) -> bool {
    line.get(i).copied().unwrap_or(false)
}

/// Returns the penalty of runs of five or more cells.
fn plain_runs(line: &[bool]) -> usize {
    let mut total = 0usize;
    for start in 0..line.len() {
        let color = line[start];
        if start == 0 || line[start - 1] != color {
            let run = line[start..]
                .iter()
                .take_while(|other| **other == color)
                .count();
            if run >= 5 {
                total = total.wrapping_add(run - 2);
            }
        }
    }
    total
}

/// Returns whether the seven cells of a finder pattern begin at a cell.
fn has_shape(line: &[bool], start: usize) -> bool {
    for (i, want) in [true, false, true, true, true, false, true]
        .iter()
        .enumerate()
    {
        if is_dark_at(line, start.wrapping_add(i)) != *want {
            return false;
        }
    }
    true
}

/// Returns whether they do, with four light cells before or after them.
fn is_window(line: &[bool], start: usize) -> bool {
    if start.saturating_add(7) > line.len() || !has_shape(line, start) {
        return false;
    }
    let mut before = false;
    for i in start.saturating_sub(4)..start {
        before |= is_dark_at(line, i);
    }
    let mut after = false;
    for i in 7..11usize {
        after |= is_dark_at(line, start.wrapping_add(i));
    }
    !(before && after)
}

/// Returns the penalty of a line.
fn plain_line(line: &[bool]) -> usize {
    let mut total = plain_runs(line);
    for start in 0..line.len() {
        if is_window(line, start) {
            total = total.wrapping_add(40);
        }
    }
    total
}

/// Returns a row or a column of a grid.
fn line_of(
    alloc: Global,
    width: usize,
    cells: &[bool],
    first: usize,
    step: usize,
) -> QrResult<Vec<bool>> {
    let mut line = Vec::new(alloc);
    for i in 0..width {
        line.push(is_dark_at(cells, first.wrapping_add(step.wrapping_mul(i))))?;
    }
    Ok(line)
}

/// Returns the penalty of squares of one colour.
fn plain_squares(width: usize, cells: &[bool]) -> usize {
    let mut total = 0usize;
    for i in 0..cells.len() {
        let below = i.wrapping_add(width);
        let color = cells[i];
        if i.wrapping_add(1).checked_rem(width).unwrap_or(0) != 0
            && below.wrapping_add(1) < cells.len()
            && is_dark_at(cells, i.wrapping_add(1)) == color
            && is_dark_at(cells, below) == color
            && is_dark_at(cells, below.wrapping_add(1)) == color
        {
            total = total.wrapping_add(3);
        }
    }
    total
}

/// Returns the penalty of a Normal symbol.
fn plain_normal(alloc: Global, width: usize, cells: &[bool]) -> QrResult<usize> {
    let mut total = plain_squares(width, cells);
    for i in 0..width {
        let row = line_of(alloc, width, cells, i.wrapping_mul(width), 1)?;
        let column = line_of(alloc, width, cells, i, width)?;
        total = total
            .wrapping_add(plain_line(&row))
            .wrapping_add(plain_line(&column));
    }
    let dark = cells.iter().filter(|cell| **cell).count().wrapping_mul(200);
    let share = dark.checked_div(cells.len()).unwrap_or(0);
    Ok(total.wrapping_add(share.abs_diff(100)))
}

/// Returns the penalty of a Micro symbol.
fn plain_micro(alloc: Global, width: usize, cells: &[bool]) -> QrResult<usize> {
    let last = width.wrapping_sub(1);
    let row = line_of(
        alloc,
        last,
        cells,
        last.wrapping_mul(width).wrapping_add(1),
        1,
    )?;
    let column = line_of(alloc, last, cells, width.wrapping_add(last), width)?;
    let h = row.iter().filter(|cell| !**cell).count();
    let v = column.iter().filter(|cell| !**cell).count();
    Ok(h.max(v).wrapping_mul(16).wrapping_add(h.min(v)))
}

/// Returns the penalty of a masked canvas as a plain sum.
fn plain_penalty(alloc: Global, canvas: Canvas, version: Version) -> QrResult<usize> {
    let width = side(version);
    let mut cells = Vec::new(alloc);
    for color in &canvas.into_colors(alloc)? {
        cells.push(matches!(color, Color::Dark))?;
    }
    match version {
        Version::Normal(_) => plain_normal(alloc, width, &cells),
        Version::Micro(_) => plain_micro(alloc, width, &cells),
    }
}

/// Masks a canvas with a pattern that its version has.
pub fn apply(canvas: &mut Canvas, version: Version, pattern: MaskPattern)
    requires { canvas.old.version ≡ version }
    ensures { canvas.new.version ≡ version }
{
    match (version, pattern) {
        (Version::Normal(_), _) => canvas.apply_mask(pattern),
        (Version::Micro(_), MaskPattern::HorizontalLines) => canvas.apply_mask(
            MaskPattern::HorizontalLines,
        ),
        (Version::Micro(_), MaskPattern::LargeCheckerboard) => canvas.apply_mask(
            MaskPattern::LargeCheckerboard,
        ),
        (Version::Micro(_), MaskPattern::Diamonds) => canvas.apply_mask(MaskPattern::Diamonds),
        (Version::Micro(_), MaskPattern::Meadow) => canvas.apply_mask(MaskPattern::Meadow),
        _ => {}
    }
}

/// Returns the plain sums of a canvas under each of some masks.
pub fn plain_penalties(
    alloc: Global,
    canvas: &Canvas,
    version: Version,
    masks: &[MaskPattern],
) -> QrResult<Vec<usize>>
    requires { canvas.now.version ≡ version }
{
    let mut sums = Vec::new(alloc);
    for pattern in masks {
        let mut candidate = canvas.clone(alloc)?;
        apply(&mut candidate, version, *pattern);
        sums.push(plain_penalty(alloc, candidate, version)?)?;
    }
    Ok(sums)
}
