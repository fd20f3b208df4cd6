//! Reading of the data bits: segments, terminator and padding.
use crate::Shape;
use std::alloc::Global;

/// What is read from the data bits.
#[derive(Drop)]
pub struct Text {
    pub header: Option<(u8, u8, u8)>,
    pub designator: Option<u8>,
    pub has_elements: bool,
    pub payload: usize,
    pub bytes: Vec<u8>,
}

/// Codewords, of which the last bits may be missing, and the index of the next bit.
#[derive(Drop)]
struct Cursor<'a> {
    codewords: &'a [u8],
    end: usize,
    at: usize,
}

impl Cursor<'_> {
    /// Returns how many bits are left.
    fn left(&self) -> usize {
        self.end.saturating_sub(self.at)
    }

    /// Returns the bit at an index.
    fn bit(&self, place: usize) -> usize {
        match self.codewords.get(place / 8) {
            Some(byte) => usize::from(byte >> (7 - place % 8) & 1),
            None => 0,
        }
    }

    /// Returns the number in the next bits, without taking them.
    fn look(&self, count: usize) -> Option<usize> {
        if count > self.left() || count > 32 {
            return None;
        }
        let mut number = 0usize;
        for place in 0..count {
            number = number
                .wrapping_mul(2)
                .wrapping_add(self.bit(self.at.wrapping_add(place)));
        }
        Some(number)
    }

    /// Takes the next bits and returns their number, if there are that many.
    fn take(&mut self, count: usize) -> Option<usize> {
        let number = self.look(count)?;
        self.at = self.at.wrapping_add(count);
        Some(number)
    }
}

/// One of the four modes, from Numeric to Kanji.
#[derive(Clone, Copy, PartialEq, Eq)]
enum Kind {
    Digits,
    Signs,
    Bytes,
    Pairs,
}

/// Returns the mode that an indicator begins, in this kind of symbol.
fn kind_of(shape: Shape, indicator: usize) -> Option<Kind> {
    match (shape.micro, indicator) {
        (true, 0) | (false, 1) => Some(Kind::Digits),
        (true, 1) | (false, 2) => Some(Kind::Signs),
        (true, 2) | (false, 4) => Some(Kind::Bytes),
        (true, 3) | (false, 8) => Some(Kind::Pairs),
        _ => None,
    }
}

/// Returns the width of the character count indicator.
fn count_width(shape: Shape, kind: Kind) -> usize {
    let class = if shape.number < 10 {
        0
    } else if shape.number < 27 {
        1
    } else {
        2
    };
    match (shape.micro, kind) {
        (true, Kind::Digits) => shape.number.wrapping_add(2),
        (true, Kind::Signs | Kind::Bytes) => shape.number.wrapping_add(1),
        (true, Kind::Pairs) => shape.number,
        (false, Kind::Digits) => [10, 12, 14][class],
        (false, Kind::Signs) => [9, 11, 13][class],
        (false, Kind::Bytes) => [8, 16, 16][class],
        (false, Kind::Pairs) => [8, 10, 12][class],
    }
}

/// Reads `count` digits.
fn read_digits(cursor: &mut Cursor, count: usize, bytes: &mut Vec<u8>) -> Option<()> {
    for group in 0..count.div_ceil(3) {
        let size = count.wrapping_sub(group.wrapping_mul(3)).min(3);
        let (width, limit) = match size {
            1 => (4, 10),
            2 => (7, 100),
            _ => (10, 1000),
        };
        let number = cursor.take(width)?;
        if number >= limit {
            return None;
        }
        let digits = [number / 100, number / 10 % 10, number % 10];
        for digit in digits.iter().skip(3usize.saturating_sub(size)) {
            bytes.push(b'0'.wrapping_add((*digit & 15) as u8)).ok()?;
        }
    }
    Some(())
}

/// Reads `count` of the 45 Alphanumeric characters.
fn read_signs(cursor: &mut Cursor, count: usize, bytes: &mut Vec<u8>) -> Option<()> {
    let signs = b"0123456789ABCDEFGHIJKLMNOPQRSTUVWXYZ $%*+-./:";
    for pair in 0..count.div_ceil(2) {
        if count.wrapping_sub(pair.wrapping_mul(2)) == 1 {
            bytes.push(*signs.get(cursor.take(6)?)?).ok()?;
        } else {
            let number = cursor.take(11)?;
            bytes.push(*signs.get(number / 45)?).ok()?;
            bytes.push(signs[number % 45]).ok()?;
        }
    }
    Some(())
}

/// Reads `count` pairs of Shift JIS.
fn read_pairs(cursor: &mut Cursor, count: usize, bytes: &mut Vec<u8>) -> Option<()> {
    for _ in 0..count {
        let number = cursor.take(13)?;
        let code = (number / 192).wrapping_mul(256).wrapping_add(number % 192);
        let code = if code < 0x1f00 {
            code.wrapping_add(0x8140)
        } else {
            code.wrapping_add(0xc140)
        };
        bytes.push((code / 256 & 255) as u8).ok()?;
        bytes.push((code & 255) as u8).ok()?;
    }
    Some(())
}

/// Appends the data of Alphanumeric characters in GS1 elements: `%%` is the character `%`, and `%`
/// alone is FNC1, which is reported as 1D (hex).
fn unescape(signs: &[u8], bytes: &mut Vec<u8>) -> Option<()> {
    let mut is_second = false;
    for (place, sign) in signs.iter().enumerate() {
        if is_second {
            is_second = false;
        } else if *sign != b'%' {
            bytes.push(*sign).ok()?;
        } else if signs.get(place.wrapping_add(1)) == Some(&b'%') {
            is_second = true;
            bytes.push(b'%').ok()?;
        } else {
            bytes.push(0x1d).ok()?;
        }
    }
    Some(())
}

/// Reads a segment, and appends its bytes.
fn read_segment(
    alloc: Global,
    cursor: &mut Cursor,
    shape: Shape,
    has_elements: bool,
    bytes: &mut Vec<u8>,
) -> Option<()> {
    let width = if shape.micro {
        shape.number.wrapping_sub(1)
    } else {
        4
    };
    let kind = kind_of(shape, cursor.take(width)?)?;
    let count = cursor.take(count_width(shape, kind))?;
    match kind {
        Kind::Digits => read_digits(cursor, count, bytes),
        Kind::Signs if has_elements => {
            let mut signs = Vec::new(alloc);
            read_signs(cursor, count, &mut signs)?;
            unescape(&signs, bytes)
        }
        Kind::Signs => read_signs(cursor, count, bytes),
        Kind::Bytes => {
            for _ in 0..count {
                bytes.push((cursor.take(8)? & 255) as u8).ok()?;
            }
            Some(())
        }
        Kind::Pairs => read_pairs(cursor, count, bytes),
    }
}

/// Returns the width of the terminator.
fn terminator(shape: Shape) -> usize {
    if shape.micro {
        shape.number.wrapping_mul(2).wrapping_add(1)
    } else {
        4
    }
}

/// Returns whether the remaining bits are a terminator and padding.
fn is_ended(cursor: &Cursor, shape: Shape) -> bool {
    let width = terminator(shape).min(cursor.left());
    let zeros = cursor.at.wrapping_add(width);
    let bytes = zeros.div_ceil(8);
    for place in cursor.at..cursor.end {
        let pad = match (place / 8).wrapping_sub(bytes) % 2 {
            0 => 0xecusize,
            _ => 0x11,
        };
        let whole = (place / 8).wrapping_add(1).wrapping_mul(8) <= cursor.end;
        let bit = if place / 8 < bytes || !whole {
            0
        } else {
            pad >> (7 - place % 8) & 1
        };
        if cursor.bit(place) != bit {
            return false;
        }
    }
    true
}

/// What precedes the data: a header, a designator of one byte, FNC1.
#[derive(Drop)]
struct Front {
    header: Option<(u8, u8, u8)>,
    designator: Option<u8>,
    has_elements: bool,
}

/// Reads what precedes the data, which in Micro symbols is nothing.
fn read_front(cursor: &mut Cursor, shape: Shape) -> Option<Front> {
    let mut front = Front {
        header: None,
        designator: None,
        has_elements: false,
    };
    if shape.micro {
        return Some(front);
    }
    if cursor.look(4) == Some(3) {
        cursor.take(4)?;
        let (position, total, parity) = (cursor.take(4)?, cursor.take(4)?, cursor.take(8)?);
        front.header = Some((
            (position & 15) as u8 + 1,
            (total & 15) as u8 + 1,
            (parity & 255) as u8,
        ));
    }
    if cursor.look(4) == Some(7) {
        cursor.take(4)?;
        let number = cursor.take(8)?;
        if number > 127 {
            return None;
        }
        front.designator = Some((number & 127) as u8);
    }
    if cursor.look(4) == Some(5) {
        cursor.take(4)?;
        front.has_elements = true;
    }
    Some(front)
}

/// Reads what precedes the data and the segments, and checks that terminator and padding follow.
pub fn read(alloc: Global, codewords: &[u8], shape: Shape) -> Option<Text> {
    let missing = if shape.micro && shape.number % 2 == 1 {
        4
    } else {
        0
    };
    let end = codewords.len().wrapping_mul(8).wrapping_sub(missing);
    let mut cursor = Cursor {
        codewords,
        end,
        at: 0,
    };
    let front = read_front(&mut cursor, shape)?;
    let mut bytes = Vec::new(alloc);
    for _ in 0..end {
        let width = terminator(shape);
        if cursor.left() < width || cursor.look(width) == Some(0) {
            break;
        }
        read_segment(alloc, &mut cursor, shape, front.has_elements, &mut bytes)?;
    }
    if !is_ended(&cursor, shape) {
        return None;
    }
    Some(Text {
        header: front.header,
        designator: front.designator,
        has_elements: front.has_elements,
        payload: cursor.at,
        bytes,
    })
}
