//! A plain reader of symbols for the tests: of all versions, and of sequences. It depends on no
//! other crate, so that what it reads rests on nothing of the product. A grid is a row-major list,
//! `true` for a dark module:
//!
//! ```text
//! let seen = read(alloc, &modules)?; // version, level, mask, codewords, bytes, ..
//! ```
#![tactic(auto)]

mod blocks;
mod cells;
mod frame;
mod sequence;

pub use sequence::read_sequence;
use std::alloc::Global;

/// An error correction level.
#[derive(Clone, Copy, Debug, PartialEq, Eq)]
pub enum Level {
    L,
    M,
    Q,
    H,
}

/// The shape of a grid: its width, and the number and kind of its version.
#[derive(Clone, Copy, Debug, PartialEq, Eq)]
pub struct Shape {
    pub width: usize,
    pub number: usize,
    pub micro: bool,
}

/// What is read from a grid.
#[derive(Drop)]
pub struct Seen {
    pub shape: Shape,
    pub level: Level,

    /// The format word, as drawn.
    pub format: u32,

    /// The number of the mask in the family of the version.
    pub mask: usize,

    /// The data codewords, block by block.
    pub codewords: Vec<u8>,

    /// The position, the total and the parity of a sequence, if the data begin with such a header.
    pub header: Option<(u8, u8, u8)>,

    /// The ECI designator, if there is one before the data.
    pub designator: Option<u8>,

    /// Whether the data are GS1 elements: FNC1 in the first position precedes them.
    pub has_elements: bool,

    /// The number of bits before the terminator.
    pub payload: usize,
    pub bytes: Vec<u8>,
}

/// Reads a grid. Returns `None` if it is not a valid symbol, or if an allocation fails.
pub fn read(alloc: Global, grid: &[bool]) -> Option<Seen> {
    let shape = shape_of(grid)?;
    let (level, mask) = cells::format_of(grid, shape)?;
    let alignments = cells::alignments(alloc, shape)?;
    if !cells::has_patterns(grid, shape, &alignments) {
        return None;
    }
    let bits = cells::raw_bits(alloc, grid, shape, &alignments, mask)?;
    let codewords = blocks::data_codewords(alloc, &bits, shape, level)?;
    let text = frame::read(alloc, &codewords, shape)?;
    Some(Seen {
        shape,
        level,
        format: cells::drawn_format(grid, shape)?,
        mask,
        codewords,
        header: text.header,
        designator: text.designator,
        has_elements: text.has_elements,
        payload: text.payload,
        bytes: text.bytes,
    })
}

/// Returns the shape of a version.
pub fn blank_shape(number: usize, micro: bool) -> Shape {
    let width = if micro {
        number.wrapping_mul(2).wrapping_add(9)
    } else {
        number.wrapping_mul(4).wrapping_add(17)
    };
    Shape {
        width,
        number,
        micro,
    }
}

/// Returns how many data cells a version has, or `None` if an allocation fails.
pub fn data_cells(alloc: Global, shape: Shape) -> Option<usize> {
    cells::data_cells(alloc, shape)
}

/// Returns how many data codewords a version with `cells` data cells has at a level, if it has
/// the level.
pub fn data_count(shape: Shape, level: Level, cells: usize) -> Option<usize> {
    blocks::data_count(shape, level, cells)
}

/// Returns the shape of a grid, if it has the size of a symbol.
fn shape_of(grid: &[bool]) -> Option<Shape> {
    let width = grid.len().isqrt();
    if width.wrapping_mul(width) != grid.len() {
        return None;
    }
    if width >= 21 && width <= 177 && width % 4 == 1 {
        let number = (width - 17) / 4;
        return Some(Shape {
            width,
            number,
            micro: false,
        });
    }
    if width >= 11 && width <= 17 && width % 2 == 1 {
        let number = (width - 9) / 2;
        return Some(Shape {
            width,
            number,
            micro: true,
        });
    }
    None
}
