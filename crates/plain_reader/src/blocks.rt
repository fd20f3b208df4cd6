//! Blocks of codewords, and whether they are valid.
use crate::{Level, Shape};
use std::alloc::Global;

/// The number of correction codewords in each block, by level and version.
const CORRECTION: [[u8; 40]; 4] = [
    [
        7, 10, 15, 20, 26, 18, 20, 24, 30, 18, 20, 24, 26, 30, 22, 24, 28, 30, 28, 28, 28, 28, 30,
        30, 26, 28, 30, 30, 30, 30, 30, 30, 30, 30, 30, 30, 30, 30, 30, 30,
    ],
    [
        10, 16, 26, 18, 24, 16, 18, 22, 22, 26, 30, 22, 22, 24, 24, 28, 28, 26, 26, 26, 26, 28, 28,
        28, 28, 28, 28, 28, 28, 28, 28, 28, 28, 28, 28, 28, 28, 28, 28, 28,
    ],
    [
        13, 22, 18, 26, 18, 24, 18, 22, 20, 24, 28, 26, 24, 20, 30, 24, 28, 28, 26, 30, 28, 30, 30,
        30, 30, 28, 30, 30, 30, 30, 30, 30, 30, 30, 30, 30, 30, 30, 30, 30,
    ],
    [
        17, 28, 22, 16, 22, 28, 26, 26, 24, 28, 24, 28, 22, 24, 24, 30, 28, 28, 26, 28, 30, 24, 30,
        30, 30, 30, 30, 30, 30, 30, 30, 30, 30, 30, 30, 30, 30, 30, 30, 30,
    ],
];

/// The number of blocks, by level and version.
const BLOCKS: [[u8; 40]; 4] = [
    [
        1, 1, 1, 1, 1, 2, 2, 2, 2, 4, 4, 4, 4, 4, 6, 6, 6, 6, 7, 8, 8, 9, 9, 10, 12, 12, 12, 13,
        14, 15, 16, 17, 18, 19, 19, 20, 21, 22, 24, 25,
    ],
    [
        1, 1, 1, 2, 2, 4, 4, 4, 5, 5, 5, 8, 9, 9, 10, 10, 11, 13, 14, 16, 17, 17, 18, 20, 21, 23,
        25, 26, 28, 29, 31, 33, 35, 37, 38, 40, 43, 45, 47, 49,
    ],
    [
        1, 1, 2, 2, 4, 4, 6, 6, 8, 8, 8, 10, 12, 16, 12, 17, 16, 18, 21, 20, 23, 23, 25, 27, 29,
        34, 34, 35, 38, 40, 43, 45, 48, 51, 53, 56, 59, 62, 65, 68,
    ],
    [
        1, 1, 2, 4, 4, 4, 5, 6, 8, 8, 11, 11, 16, 16, 18, 16, 19, 21, 25, 25, 25, 34, 30, 32, 35,
        37, 40, 42, 45, 48, 51, 54, 57, 60, 63, 66, 70, 74, 77, 81,
    ],
];

/// How the codewords are divided: the number of blocks, the number of correction codewords in each,
/// the number of data codewords in all, and how many bits the last of these lacks.
#[derive(Clone, Copy)]
struct Layout {
    blocks: usize,
    correction: usize,
    data: usize,
    missing: usize,
}

/// Returns the column of a level in the tables.
fn column(level: Level) -> usize {
    match level {
        Level::L => 0,
        Level::M => 1,
        Level::Q => 2,
        Level::H => 3,
    }
}

/// Returns the number of correction codewords of a Micro symbol, and that of all its codewords.
fn micro_layout(number: usize, level: Level) -> Option<(usize, usize)> {
    match (number, level) {
        (1, Level::L) => Some((2, 5)),
        (2, Level::L) => Some((5, 10)),
        (2, Level::M) => Some((6, 10)),
        (3, Level::L) => Some((6, 17)),
        (3, Level::M) => Some((8, 17)),
        (4, Level::L) => Some((8, 24)),
        (4, Level::M) => Some((10, 24)),
        (4, Level::Q) => Some((14, 24)),
        _ => None,
    }
}

/// Returns how the codewords of a symbol are divided into blocks.
fn layout_of(shape: Shape, level: Level, cells: usize) -> Option<Layout> {
    if shape.micro {
        let (correction, all) = micro_layout(shape.number, level)?;
        let missing = if shape.number % 2 == 1 { 4 } else { 0 };
        return Some(Layout {
            blocks: 1,
            correction,
            data: all.wrapping_sub(correction),
            missing,
        });
    }
    let place = shape.number.wrapping_sub(1);
    let blocks = usize::from(*BLOCKS.get(column(level))?.get(place)?);
    let correction = usize::from(*CORRECTION.get(column(level))?.get(place)?);
    Some(Layout {
        blocks,
        correction,
        data: (cells / 8).wrapping_sub(blocks.wrapping_mul(correction)),
        missing: 0,
    })
}

/// Returns how many data codewords a symbol with `cells` data cells has, if the version has
/// the level.
pub fn data_count(shape: Shape, level: Level, cells: usize) -> Option<usize> {
    Some(layout_of(shape, level, cells)?.data)
}

/// Bits: whole bytes, the first bit highest, and the bits after them.
#[derive(Drop)]
pub struct Bits {
    bytes: Vec<u8>,
    last: u8,
    count: usize,
}

impl Bits {
    /// Returns an empty list of bits.
    pub fn new(alloc: Global) -> Bits {
        Bits {
            bytes: Vec::new(alloc),
            last: 0,
            count: 0,
        }
    }

    /// Appends a bit. Returns `None` if an allocation fails.
    pub fn push(&mut self, bit: bool) -> Option<()> {
        self.last = self.last << 1 | if bit { 1 } else { 0 };
        self.count = self.count.wrapping_add(1);
        if self.count % 8 == 0 {
            self.bytes.push(self.last).ok()?;
        }
        Some(())
    }

    /// Returns a byte, with zeros after the last bit.
    fn byte(&self, index: usize) -> u32 {
        match self.bytes.get(index) {
            Some(byte) => u32::from(*byte),
            None if index == self.bytes.len() => {
                u32::from(self.last) << (8 - self.count % 8) & 0xff
            }
            None => 0,
        }
    }

    /// Returns the byte in the eight bits from an index on.
    fn byte_at(&self, from: usize) -> u8 {
        let both = self.byte(from / 8) << 8 | self.byte((from / 8).wrapping_add(1));
        (both >> (8 - from % 8) & 0xff) as u8
    }
}

/// Returns the stream of codewords. The last data codeword of M1 and M3 has four bits.
fn codewords(alloc: Global, bits: &Bits, layout: Layout) -> Option<Vec<u8>> {
    let mut all = Vec::new(alloc);
    let end = layout.data.wrapping_mul(8).wrapping_sub(layout.missing);
    let count = layout
        .data
        .wrapping_add(layout.blocks.wrapping_mul(layout.correction));
    for place in 0..count {
        let from = place.wrapping_mul(8);
        let byte = if place >= layout.data {
            bits.byte_at(from.wrapping_sub(layout.missing))
        } else if from.wrapping_add(8) > end {
            bits.byte_at(from) & 0xf0
        } else {
            bits.byte_at(from)
        };
        all.push(byte).ok()?;
    }
    Some(all)
}

/// Returns whether the cells that no codeword takes are zeros.
fn rest_is_light(bits: &Bits, layout: Layout) -> bool {
    let count = layout
        .data
        .wrapping_add(layout.blocks.wrapping_mul(layout.correction));
    let end = count.wrapping_mul(8).wrapping_sub(layout.missing);
    for place in end..bits.count {
        if bits.byte_at(place) >= 0x80 {
            return false;
        }
    }
    true
}

/// Returns twice an element of the field.
fn times_two(a: u8) -> u8 {
    let shifted = (a & 0x7f) << 1;
    if a >= 0x80 { shifted ^ 0x1d } else { shifted }
}

/// The powers of 2 in the field, and the exponent of each element except 0.
#[derive(Drop)]
struct Field {
    powers: [u8; 255],
    exponents: [u8; 256],
}

impl Field {
    /// Computes the field by doubling.
    fn new() -> Field {
        let mut powers = [0; 255];
        let mut exponents = [0; 256];
        let mut power = 1u8;
        for exponent in 0..255usize {
            powers[exponent] = power;
            exponents[power as usize] = exponent as u8;
            power = times_two(power);
        }
        Field { powers, exponents }
    }

    /// Returns whether a block, as a polynomial, is zero at the first powers of 2.
    fn is_sound(&self, block: &[u8], correction: usize) -> bool {
        for point in 0..correction {
            let mut value = 0u8;
            for i in 0..block.len() {
                if value != 0 {
                    let exponent = self.exponents[value as usize] as usize;
                    value = self.powers[exponent.wrapping_add(point) % 255];
                }
                value ^= block[i];
            }
            if value != 0 {
                return false;
            }
        }
        true
    }
}

/// Returns a block of the streams: its data codewords followed by its correction codewords, and the
/// number of data codewords.
fn block(alloc: Global, stream: &[u8], layout: Layout, number: usize) -> Option<(Vec<u8>, usize)> {
    let short = layout.data.checked_div(layout.blocks)?;
    let long = layout.data.checked_rem(layout.blocks)?;
    let first_long = layout.blocks.wrapping_sub(long);
    let mut all = Vec::new(alloc);
    for row in 0..short {
        all.push(*stream.get(row.wrapping_mul(layout.blocks).wrapping_add(number))?)
            .ok()?;
    }
    if number >= first_long {
        let from = short.wrapping_mul(layout.blocks);
        all.push(*stream.get(from.wrapping_add(number.wrapping_sub(first_long)))?)
            .ok()?;
    }
    let size = all.len();
    for row in 0..layout.correction {
        let place = row.wrapping_mul(layout.blocks).wrapping_add(number);
        all.push(*stream.get(layout.data.wrapping_add(place))?)
            .ok()?;
    }
    Some((all, size))
}

/// Returns the data codewords of all blocks, one block after the other, if every block is valid and
/// the cells left over are light.
pub fn data_codewords(alloc: Global, bits: &Bits, shape: Shape, level: Level) -> Option<Vec<u8>> {
    let layout = layout_of(shape, level, bits.count)?;
    let stream = codewords(alloc, bits, layout)?;
    if !rest_is_light(bits, layout) {
        return None;
    }
    let field = Field::new();
    let mut data = Vec::new(alloc);
    for number in 0..layout.blocks {
        let (block, size) = block(alloc, &stream, layout, number)?;
        if !field.is_sound(&block, layout.correction) {
            return None;
        }
        data.extend_from_slice(block.get(..size)?).ok()?;
    }
    Some(data)
}
