//! The places of the modules, and what the modules encode.
use crate::blocks::Bits;
use crate::{Level, Shape};
use std::alloc::Global;

/// Returns whether a cell is dark.
fn is_dark(grid: &[bool], width: usize, x: usize, y: usize) -> bool {
    grid.get(y.wrapping_mul(width).wrapping_add(x)) == Some(&true)
}

/// Returns the number of steps between the first and the last centre of the alignment patterns, and
/// the length of a step: the least even number that suffices, but 26 in version 32.
fn alignment(number: usize) -> (usize, usize) {
    if number < 2 {
        return (0, 0);
    }
    let steps = number / 7 + 1;
    if number == 32 {
        return (steps, 26);
    }
    let half = number
        .wrapping_mul(2)
        .wrapping_add(2)
        .wrapping_add(steps)
        .wrapping_sub(1)
        / steps;
    (steps, half.wrapping_mul(2))
}

/// Returns the coordinates of the centres of the alignment patterns, in columns and rows.
fn coordinates(alloc: Global, shape: Shape) -> Option<Vec<usize>> {
    let mut all = Vec::new(alloc);
    let (steps, step) = if shape.micro {
        (0, 0)
    } else {
        alignment(shape.number)
    };
    for back in 0..steps {
        let past = back.wrapping_mul(step);
        all.push(shape.width.wrapping_sub(7).wrapping_sub(past))
            .ok()?;
    }
    if steps > 0 {
        all.push(6).ok()?;
    }
    Some(all)
}

/// Returns the centres of the alignment patterns: all pairs of the coordinates except those at the
/// three finder patterns.
pub fn alignments(alloc: Global, shape: Shape) -> Option<Vec<(usize, usize)>> {
    let coordinates = coordinates(alloc, shape)?;
    let last = shape.width.wrapping_sub(7);
    let mut all = Vec::new(alloc);
    for cy in &coordinates {
        for cx in &coordinates {
            let is_finder = (*cx == 6 && (*cy == 6 || *cy == last)) || (*cx == last && *cy == 6);
            if !is_finder {
                all.push((*cx, *cy)).ok()?;
            }
        }
    }
    Some(all)
}

/// Marks the cells in some columns and rows, each range without its end.
fn mark(cells: &mut [bool], width: usize, columns: (usize, usize), rows: (usize, usize)) {
    for y in rows.0..rows.1 {
        for x in columns.0..columns.1 {
            let place = y.wrapping_mul(width).wrapping_add(x);
            if place < cells.len() {
                cells[place] = true;
            }
        }
    }
}

/// Returns which cells are functional, row by row, from the areas that they fill.
fn functional(alloc: Global, shape: Shape, alignments: &[(usize, usize)]) -> Option<Vec<bool>> {
    let width = shape.width;
    let mut cells = vec![in alloc; false; width.wrapping_mul(width)].ok()?;
    let line = if shape.micro { 0 } else { 6 };
    mark(&mut cells, width, (0, width), (line, line + 1));
    mark(&mut cells, width, (line, line + 1), (0, width));
    mark(&mut cells, width, (0, 9), (0, 9));
    if !shape.micro {
        let far = (width.wrapping_sub(8), width);
        mark(&mut cells, width, (0, 9), far);
        mark(&mut cells, width, far, (0, 9));
    }
    if !shape.micro && shape.number >= 7 {
        let far = (width.wrapping_sub(11), width.wrapping_sub(8));
        mark(&mut cells, width, (0, 6), far);
        mark(&mut cells, width, far, (0, 6));
    }
    for (cx, cy) in alignments {
        let columns = (cx.wrapping_sub(2), cx.wrapping_add(3));
        mark(
            &mut cells,
            width,
            columns,
            (cy.wrapping_sub(2), cy.wrapping_add(3)),
        );
    }
    Some(cells)
}

/// Returns how many cells of a version are in no functional pattern.
pub fn data_cells(alloc: Global, shape: Shape) -> Option<usize> {
    let functional = functional(alloc, shape, &alignments(alloc, shape)?)?;
    let cells: &[bool] = &functional;
    let mut count = 0usize;
    for place in 0..cells.len() {
        if !cells[place] {
            count = count.wrapping_add(1);
        }
    }
    Some(count)
}

/// Returns the remainder of a word divided by a polynomial, both as bits.
fn remainder(word: u32, polynomial: u32, degree: u32) -> u32 {
    let mut rest = word;
    for shift in 0u32..8 {
        let low = 7 - shift;
        if (rest >> (degree.wrapping_add(low) & 31)) & 1 == 1 {
            rest ^= polynomial << low;
        }
    }
    rest
}

/// Returns the word in some cells, its highest bit first.
fn format_word(grid: &[bool], width: usize, places: &[(usize, usize)]) -> u32 {
    let mut word = 0;
    for (x, y) in places {
        word = word << 1 & 0x7fff | u32::from(is_dark(grid, width, *x, *y));
    }
    word
}

const FIRST: [(usize, usize); 15] = [
    (0, 8),
    (1, 8),
    (2, 8),
    (3, 8),
    (4, 8),
    (5, 8),
    (7, 8),
    (8, 8),
    (8, 7),
    (8, 5),
    (8, 4),
    (8, 3),
    (8, 2),
    (8, 1),
    (8, 0),
];

const MICRO: [(usize, usize); 15] = [
    (1, 8),
    (2, 8),
    (3, 8),
    (4, 8),
    (5, 8),
    (6, 8),
    (7, 8),
    (8, 8),
    (8, 7),
    (8, 6),
    (8, 5),
    (8, 4),
    (8, 3),
    (8, 2),
    (8, 1),
];

/// Returns the cells of the second copy of the format information.
fn second(width: usize) -> [(usize, usize); 15] {
    let from = |back: usize| width.wrapping_sub(back);
    [
        (8, from(1)),
        (8, from(2)),
        (8, from(3)),
        (8, from(4)),
        (8, from(5)),
        (8, from(6)),
        (8, from(7)),
        (from(8), 8),
        (from(7), 8),
        (from(6), 8),
        (from(5), 8),
        (from(4), 8),
        (from(3), 8),
        (from(2), 8),
        (from(1), 8),
    ]
}

/// Returns the format word as drawn, if all copies agree.
pub fn drawn_format(grid: &[bool], shape: Shape) -> Option<u32> {
    if shape.micro {
        return Some(format_word(grid, shape.width, &MICRO));
    }
    let word = format_word(grid, shape.width, &FIRST);
    if format_word(grid, shape.width, &second(shape.width)) == word {
        Some(word)
    } else {
        None
    }
}

/// Returns the five data bits of the format word, if its check bits are right.
fn format_bits(grid: &[bool], shape: Shape) -> Option<u32> {
    let family = if shape.micro { 0x4445 } else { 0x5412 };
    let word = drawn_format(grid, shape)? ^ family;
    if remainder(word, 0x537, 10) == 0 {
        Some(word >> 10)
    } else {
        None
    }
}

/// Returns the level and the mask number of the format word.
pub fn format_of(grid: &[bool], shape: Shape) -> Option<(Level, usize)> {
    let bits = format_bits(grid, shape)?;
    if !shape.micro {
        let level = match bits >> 3 {
            0 => Level::M,
            1 => Level::L,
            2 => Level::H,
            _ => Level::Q,
        };
        return Some((level, (bits & 7) as usize));
    }
    let (number, level) = match bits >> 2 {
        0 => (1, Level::L),
        1 => (2, Level::L),
        2 => (2, Level::M),
        3 => (3, Level::L),
        4 => (3, Level::M),
        5 => (4, Level::L),
        6 => (4, Level::M),
        _ => (4, Level::Q),
    };
    if number == shape.number {
        Some((level, (bits & 3) as usize))
    } else {
        None
    }
}

/// Which rings around the centre of a finder pattern are dark; the last is its light border.
const FINDER: [bool; 5] = [true, true, false, true, false];

/// Which rings around the centre of an alignment pattern are dark.
const ALIGNMENT: [bool; 3] = [true, false, true];

/// Returns whether the rings around a centre have their colours. Cells outside the grid
/// are ignored.
fn has_rings(grid: &[bool], width: usize, cx: usize, cy: usize, rings: &[bool]) -> bool {
    let reach = rings.len();
    for y in cy.saturating_sub(reach)..cy.saturating_add(reach).min(width) {
        for x in cx.saturating_sub(reach)..cx.saturating_add(reach).min(width) {
            let ring = cx.abs_diff(x).max(cy.abs_diff(y));
            if ring < reach && is_dark(grid, width, x, y) != rings[ring] {
                return false;
            }
        }
    }
    true
}

/// Returns whether the cells of the timing patterns, between the finder patterns, are dark and
/// light in turn.
fn has_timing(grid: &[bool], shape: Shape) -> bool {
    let (line, end) = if shape.micro {
        (0, shape.width)
    } else {
        (6, shape.width.wrapping_sub(8))
    };
    for i in 8..end {
        let dark = i % 2 == 0;
        if is_dark(grid, shape.width, i, line) != dark
            || is_dark(grid, shape.width, line, i) != dark
        {
            return false;
        }
    }
    true
}

/// Returns whether a copy of the version word is right. The lowest bit comes first.
fn has_version(grid: &[bool], shape: Shape, turned: bool) -> bool {
    let mut word = 0;
    for place in 0usize..18 {
        let bit = 17 - place;
        let (x, y) = (bit / 3, shape.width.wrapping_sub(11).wrapping_add(bit % 3));
        let (x, y) = if turned { (y, x) } else { (x, y) };
        word = word << 1 & 0x3ffff | u32::from(is_dark(grid, shape.width, x, y));
    }
    remainder(word, 0x1f25, 12) == 0 && (word >> 12) as usize == shape.number
}

/// Returns whether the finder, timing and alignment patterns, the dark module and the version words
/// are right.
pub fn has_patterns(grid: &[bool], shape: Shape, alignments: &[(usize, usize)]) -> bool {
    let width = shape.width;
    let far = width.wrapping_sub(4);
    if !has_rings(grid, width, 3, 3, &FINDER) || !has_timing(grid, shape) {
        return false;
    }
    for (cx, cy) in alignments {
        if !has_rings(grid, width, *cx, *cy, &ALIGNMENT) {
            return false;
        }
    }
    let has_version = shape.number < 7
        || (has_version(grid, shape, false) && has_version(grid, shape, true));
    shape.micro
        || (has_rings(grid, width, far, 3, &FINDER)
            && has_rings(grid, width, 3, far, &FINDER)
            && is_dark(grid, width, 8, width.wrapping_sub(8))
            && has_version)
}

/// Returns the number in Normal symbols of a mask of the family.
fn mask_number(shape: Shape, mask: usize) -> usize {
    match (shape.micro, mask) {
        (true, 0) => 1,
        (true, 1) => 4,
        (true, 2) => 6,
        (true, _) => 7,
        (false, number) => number,
    }
}

/// Returns whether a mask, by its number in Normal symbols, inverts a cell.
fn inverts(number: usize, x: usize, y: usize) -> bool {
    let (sum, product) = (x.wrapping_add(y), x.wrapping_mul(y));
    let both = (product % 2).wrapping_add(product % 3);
    let value = match number {
        0 => sum % 2,
        1 => y % 2,
        2 => x % 3,
        3 => sum % 3,
        4 => (y / 2).wrapping_add(x / 3) % 2,
        5 => both,
        6 => both % 2,
        _ => (sum % 2).wrapping_add(product % 3) % 2,
    };
    value == 0
}

/// Returns the right column of a pair of columns; the vertical timing column of a Normal symbol
/// is skipped.
fn right_column(shape: Shape, pair: usize) -> usize {
    let right = shape
        .width
        .wrapping_sub(1)
        .wrapping_sub(pair.wrapping_mul(2));
    if !shape.micro && right <= 6 {
        right.wrapping_sub(1)
    } else {
        right
    }
}

/// Returns the bits of the data cells in order, with the mask removed: upwards and downwards in
/// turn, the right cell of two first.
pub fn raw_bits(
    alloc: Global,
    grid: &[bool],
    shape: Shape,
    alignments: &[(usize, usize)],
    mask: usize,
) -> Option<Bits> {
    let functional = functional(alloc, shape, alignments)?;
    let is_functional: &[bool] = &functional;
    let width = shape.width;
    let number = mask_number(shape, mask);
    let mut bits = Bits::new(alloc);
    for pair in 0..width / 2 {
        let right = right_column(shape, pair);
        for step in 0..width.wrapping_mul(2) {
            let x = right.wrapping_sub(step % 2);
            let y = if pair % 2 == 0 {
                width.wrapping_sub(1).wrapping_sub(step / 2)
            } else {
                step / 2
            };
            let place = y.wrapping_mul(width).wrapping_add(x);
            if place < grid.len() && place < is_functional.len() && !is_functional[place] {
                bits.push(grid[place] != inverts(number, x, y))?;
            }
        }
    }
    Some(bits)
}
