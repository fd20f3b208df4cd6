//! Tests of sequences of symbols, with rows of expected values, read back by the plain reader.
use crate::grids::{hash, modules_of, read};
use plain_reader::{Level, Seen, read_sequence};
use qrcode_core::symbol::{are_cuts, symbol_sequence};
use qrcode_core::types::{Color, EcLevel, QrError, QrResult};
use std::alloc::Global;
use std::process::Abort;

/// Data, its cuts and the greatest version; then the version and the payload of each symbol, and
/// the parity of the data.
#[derive(Clone, Copy, Drop)]
struct Row {
    bytes: &'static [u8],
    cuts: &'static [usize],
    limit: i16,
    symbols: &'static [(usize, usize)],
    parity: u8,
}

static ROWS: [Row; 6] = [
    Row {
        bytes: b"AB12cd",
        cuts: &[2, 4],
        limit: 40,
        symbols: &[(1, 44), (1, 41), (1, 48)],
        parity: 0x07,
    },
    Row {
        bytes: b"",
        cuts: &[0],
        limit: 40,
        symbols: &[(1, 20), (1, 20)],
        parity: 0,
    },
    Row {
        bytes: b"abcdefghijklmnop",
        cuts: &[1, 2, 3, 4, 5, 6, 7, 8, 9, 10, 11, 12, 13, 14, 15],
        limit: 40,
        symbols: &[(1, 40); 16],
        parity: 0x10,
    },
    Row {
        bytes: &[b'a'; 30],
        cuts: &[15],
        limit: 1,
        symbols: &[(1, 152), (1, 152)],
        parity: 0,
    },
    Row {
        bytes: &[b'a'; 31],
        cuts: &[15],
        limit: 2,
        symbols: &[(1, 152), (2, 160)],
        parity: 0x61,
    },
    Row {
        bytes: &[b'a'; 457],
        cuts: &[228],
        limit: 40,
        symbols: &[(9, 1856), (10, 1872)],
        parity: 0x61,
    },
];

/// Returns the result at level L, or `None` if the cuts decrease or are outside the data.
fn answer(
    alloc: Global,
    bytes: &[u8],
    cuts: &[usize],
    limit: i16,
) -> Option<QrResult<Vec<Vec<Color>>>> {
    if !are_cuts(cuts, bytes.len()) {
        return None;
    }
    Some(symbol_sequence(alloc, bytes, cuts, EcLevel::L, limit))
}

/// Returns the grids of a row, if there are any.
fn grids(alloc: Global, row: &Row) -> Option<Vec<Vec<Color>>> {
    answer(alloc, row.bytes, row.cuts, row.limit)?.ok()
}

#[test]
fn draws_each_part(rt: HostRuntime) {
    for row in &ROWS {
        let grids = grids(rt.alloc(), row).expect(&rt, "no symbols");
        assert_eq!(rt; grids.len(), row.symbols.len());
        for (index, grid) in grids.iter().enumerate() {
            let seen = read(rt.alloc(), grid).expect(&rt, "no symbol");
            is_part(&rt, &seen, row, index);
        }
    }
}

/// Checks that a symbol has the version, the payload and the header of a part of a row.
fn is_part(rt: &impl Abort, seen: &Seen, row: &Row, index: usize) {
    let symbol = row.symbols.get(index).expect(rt, "no part");
    assert!(rt; !seen.shape.micro && seen.level == Level::L);
    assert_eq!(rt; (seen.shape.number, seen.payload), *symbol);
    let (position, total, parity) = seen.header.expect(rt, "no header");
    let header = (usize::from(position), usize::from(total), parity);
    assert_eq!(rt; header, (index + 1, row.symbols.len(), row.parity));
}

/// The hashes of the symbols of the third row, which are those of the original crate's symbols.
pub(crate) static SIXTEEN: [u32; 16] = [
    0x345666eb, 0x9f199b39, 0xb06ad7e3, 0xe7e97707, 0x001794e7, 0x38e1dccd, 0x24994a97, 0x58d81acf,
    0x2329c377, 0xf6ae5043, 0xe5436a69, 0x11891f6d, 0x528fd71b, 0xe75e49cb, 0xc64aa0d7, 0x543a66a9,
];

#[test]
fn draws_sixteen_symbols(rt: HostRuntime) {
    let grids = grids(rt.alloc(), &ROWS[2]).expect(&rt, "no symbols");
    assert_eq!(rt; grids.len(), 16);
    for (grid, sum) in grids.iter().zip(SIXTEEN.iter()) {
        assert_eq!(rt; hash(grid), *sum);
    }
}

/// Returns the data codewords of one symbol of a row.
fn codewords(alloc: Global, row: &Row, index: usize) -> Option<Vec<u8>> {
    let grids = grids(alloc, row)?;
    Some(read(alloc, grids.get(index)?)?.codewords)
}

/// The first symbol of the first row, both symbols of the second and the last of the third.
static CODEWORDS: [(usize, usize, &[u8]); 4] = [
    (
        0,
        0,
        &[
            0x30, 0x20, 0x72, 0x01, 0x1c, 0xd0, 0xec, 0x11, 0xec, 0x11, 0xec, 0x11, 0xec, 0x11,
            0xec, 0x11, 0xec, 0x11, 0xec,
        ],
    ),
    (
        1,
        0,
        &[
            0x30, 0x10, 0x00, 0xec, 0x11, 0xec, 0x11, 0xec, 0x11, 0xec, 0x11, 0xec, 0x11, 0xec,
            0x11, 0xec, 0x11, 0xec, 0x11,
        ],
    ),
    (
        1,
        1,
        &[
            0x31, 0x10, 0x00, 0xec, 0x11, 0xec, 0x11, 0xec, 0x11, 0xec, 0x11, 0xec, 0x11, 0xec,
            0x11, 0xec, 0x11, 0xec, 0x11,
        ],
    ),
    (
        2,
        15,
        &[
            0x3f, 0xf1, 0x04, 0x01, 0x70, 0x00, 0xec, 0x11, 0xec, 0x11, 0xec, 0x11, 0xec, 0x11,
            0xec, 0x11, 0xec, 0x11, 0xec,
        ],
    ),
];

#[test]
fn writes_header_and_part(rt: HostRuntime) {
    for (row, index, wanted) in &CODEWORDS {
        let row = ROWS.get(*row).expect(&rt, "no row");
        let codewords = codewords(rt.alloc(), row, *index).expect(&rt, "no symbol");
        assert_eq!(rt; codewords.as_slice(), *wanted);
    }
}

/// Returns the indices of all symbols in order, reversed, or rotated by one.
fn whole_order(alloc: Global, total: usize, way: usize) -> Option<Vec<usize>> {
    match way {
        0 => (0..total).collect(alloc).ok(),
        1 => (0..total).rev().collect(alloc).ok(),
        _ => (1..total).chain(0..1).collect(alloc).ok(),
    }
}

/// Returns indices with one left out, one repeated, or one in the place of another.
fn broken_order(alloc: Global, total: usize, way: usize) -> Option<Vec<usize>> {
    match way {
        0 => (1..total).collect(alloc).ok(),
        1 => (0..total).chain(0..1).collect(alloc).ok(),
        _ => (1..total).chain(1..2).collect(alloc).ok(),
    }
}

/// Returns the modules of some grids, for the plain reader.
fn all_modules(alloc: Global, grids: &[Vec<Color>]) -> Option<Vec<Vec<bool>>> {
    let mut symbols = Vec::new(alloc);
    for grid in grids {
        symbols.push(modules_of(alloc, grid)?).ok()?;
    }
    Some(symbols)
}

#[test]
fn reads_in_any_order(rt: HostRuntime) {
    for row in &ROWS {
        let grids = grids(rt.alloc(), row).expect(&rt, "no symbols");
        let symbols = all_modules(rt.alloc(), &grids).expect(&rt, "no memory");
        for way in 0..3usize {
            reads_whole(&rt, rt.alloc(), &symbols, row.bytes, way);
            reads_nothing(&rt, rt.alloc(), &symbols, way);
        }
    }
}

/// Checks that all symbols in some order are read as the bytes.
fn reads_whole(rt: &impl Abort, alloc: Global, symbols: &[Vec<bool>], bytes: &[u8], way: usize) {
    let order = whole_order(alloc, symbols.len(), way).expect(rt, "no order");
    let message = read_sequence(alloc, symbols, &order).expect(rt, "no message");
    assert_eq!(rt; message.as_slice(), bytes);
}

/// Checks that an incomplete or repeated set of symbols is not read.
fn reads_nothing(rt: &impl Abort, alloc: Global, symbols: &[Vec<bool>], way: usize) {
    let order = broken_order(alloc, symbols.len(), way).expect(rt, "no order");
    assert!(rt; read_sequence(alloc, symbols, &order).is_none());
}

/// Data, its cuts and the greatest version, with the error.
static REFUSED: [(&[u8], &[usize], i16, QrError); 6] = [
    (
        b"AB12cd",
        &[],
        40,
        QrError::InvalidStructuredAppend { value: 1 },
    ),
    (b"AB12cd", &[2, 4], 41, QrError::InvalidResourceLimits),
    (b"", &[], 0, QrError::InvalidResourceLimits),
    (
        b"",
        &[0; 16],
        40,
        QrError::InvalidStructuredAppend { value: 17 },
    ),
    (
        b"",
        &[0; 300],
        40,
        QrError::InvalidStructuredAppend { value: 255 },
    ),
    (&[b'a'; 31], &[15], 1, QrError::DataTooLong),
];

#[test]
fn refuses_sequences(rt: HostRuntime) {
    for (bytes, cuts, limit, error) in &REFUSED {
        let refused = answer(rt.alloc(), bytes, cuts, *limit).and_then(|answer| answer.err());
        assert_eq!(rt; refused, Some(*error));
    }
}
