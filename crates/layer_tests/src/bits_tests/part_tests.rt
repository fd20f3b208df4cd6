//! Tests of single symbols of a sequence, with rows of expected values.

use qrcode_base::symbols::is_normal_number;
use qrcode_base::types::{EcLevel, QrError, QrResult, Version};
use qrcode_bits::bits::{
    Bits, Content, Front, SequenceHeader, encode_part, fits_front, fitting_range,
};
use std::alloc::Global;

const L: EcLevel = EcLevel::L;

static LEVELS: [EcLevel; 4] = [EcLevel::L, EcLevel::M, EcLevel::Q, EcLevel::H];

/// A part, with its expected payload and first bytes. The rest is EC and 11 (hex) in turn.
#[derive(Clone, Copy, Drop)]
struct Row {
    data: &'static [u8],
    position: u8,
    total: u8,
    parity: u8,
    payload: usize,
    bytes: &'static [u8],
}

static ROWS: [Row; 4] = [
    Row {
        data: b"AB",
        position: 1,
        total: 3,
        parity: 0x07,
        payload: 44,
        bytes: &[0x30, 0x20, 0x72, 0x01, 0x1c, 0xd0],
    },
    Row {
        data: b"",
        position: 1,
        total: 2,
        parity: 0x00,
        payload: 20,
        bytes: &[0x30, 0x10, 0x00],
    },
    Row {
        data: b"",
        position: 2,
        total: 2,
        parity: 0x00,
        payload: 20,
        bytes: &[0x31, 0x10, 0x00],
    },
    Row {
        data: b"p",
        position: 16,
        total: 16,
        parity: 0x10,
        payload: 40,
        bytes: &[0x3f, 0xf1, 0x04, 0x01, 0x70, 0x00],
    },
];

/// Returns the first bytes, followed by EC and 11 in turn up to 19 bytes.
fn padded(alloc: Global, first: &[u8]) -> QrResult<Vec<u8>> {
    let mut bytes = Vec::new(alloc);
    bytes.extend_from_slice(first)?;
    for place in first.len()..19 {
        let is_even = (place - first.len()) % 2 == 0;
        bytes.push(if is_even { 0xec } else { 0x11 })?;
    }
    Ok(bytes)
}

#[test]
fn parts_in_version_1(rt: HostRuntime) {
    for row in &ROWS {
        let bits = part(rt.alloc(), row).expect(&rt, "no bits");
        assert!(rt; bits.version() == Version::Normal(1) && bits.len() == 152);
        assert_eq!(rt; bits.payload_bits_len(), row.payload);
        let wanted = padded(rt.alloc(), row.bytes).expect(&rt, "memory");
        assert!(rt; bits.into_bytes().as_slice() == wanted.as_slice());
    }
}

/// Encodes the part of a row.
fn part(alloc: Global, row: &Row) -> QrResult<Bits> {
    let Row {
        data,
        position,
        total,
        parity,
        ..
    } = *row;
    encode_part(alloc, data, position, total, parity, L, 40)
}

/// Returns the version of the first of two parts and its bits before the terminator.
fn taken(alloc: Global, data: &[u8], max_version: i16) -> QrResult<(Version, usize)> {
    let bits = encode_part(alloc, data, 1, 2, 0x61, L, max_version)?;
    Ok((bits.version(), bits.payload_bits_len()))
}

/// Numbers of letters and greatest versions, with the version and the bits of the first of
/// two parts.
static LETTERS: [(usize, i16, QrResult<(Version, usize)>); 6] = [
    (15, 1, Ok((Version::Normal(1), 152))),
    (16, 1, Err(QrError::DataTooLong)),
    (16, 2, Ok((Version::Normal(2), 160))),
    (228, 40, Ok((Version::Normal(9), 1856))),
    (229, 40, Ok((Version::Normal(10), 1872))),
    (7090, 40, Err(QrError::DataTooLong)),
];

#[test]
fn smallest_versions_of_parts(rt: HostRuntime) -> QrResult<()> {
    for (count, limit, wanted) in &LETTERS {
        let letters = vec![in rt.alloc(); b'a'; *count]?;
        assert!(rt; taken(rt.alloc(), &letters, *limit) == *wanted);
    }
    Ok(())
}

#[test]
fn parts_fit_where_they_have_bits(rt: HostRuntime) -> QrResult<()> {
    let front = Front::with_header(SequenceHeader::new(1, 2, 0x61), Content::Bytes);
    for (count, _, _) in &LETTERS {
        let letters = vec![in rt.alloc(); b'a'; *count]?;
        for limit in 1..41_i16 {
            assert!(rt; is_normal_number(limit));
            let fits = fits_front(rt.alloc(), &front, &letters, L, limit)?;
            assert!(rt; fits == taken(rt.alloc(), &letters, limit).is_ok());
        }
    }
    Ok(())
}

/// A text with short and long segments.
static SENTENCE: &[u8] =
    b"Version 1 has 21 by 21 modules, VERSION 40 has 177 by 177: 12345678901234567.";

/// Returns the number of first bytes of the sentence that have bits, if all shorter ones have.
fn first_bytes(alloc: Global, level: EcLevel, limit: i16) -> Option<usize> {
    let mut most = 0;
    for count in 1..SENTENCE.len() + 1 {
        if has_bits(alloc, count, level, limit) {
            if count - 1 != most {
                return None;
            }
            most = count;
        }
    }
    Some(most)
}

/// Returns whether first bytes of the sentence have bits as the first of two parts.
fn has_bits(alloc: Global, count: usize, level: EcLevel, limit: i16) -> bool {
    match SENTENCE.get(..count) {
        Some(first) => encode_part(alloc, first, 1, 2, 0x61, level, limit).is_ok(),
        None => false,
    }
}

#[test]
fn first_bytes_that_fit(rt: HostRuntime) -> QrResult<()> {
    let front = Front::with_header(SequenceHeader::new(1, 2, 0x61), Content::Bytes);
    for level in LEVELS {
        for limit in 1..13_i16 {
            assert!(rt; is_normal_number(limit));
            let (sure, past) = fitting_range(rt.alloc(), &front, SENTENCE, level, limit)?;
            assert!(rt; first_bytes(rt.alloc(), level, limit) == Some(sure));
            assert_eq!(rt; past, sure + 1);
        }
    }
    Ok(())
}

/// Of many sentences a byte more than the first ones does not fit, in each class of versions.
#[test]
fn first_bytes_of_many_sentences(rt: HostRuntime) -> QrResult<()> {
    let mut data = Vec::new(rt.alloc());
    for _ in 0..60 {
        data.extend_from_slice(SENTENCE)?;
    }
    let front = Front::with_header(SequenceHeader::new(1, 2, 0x61), Content::Bytes);
    for level in LEVELS {
        for limit in [9, 10, 13, 20, 26, 27, 33, 40] {
            assert!(rt; is_normal_number(limit) && data.len() <= 7089);
            let (sure, past) = fitting_range(rt.alloc(), &front, &data, level, limit)?;
            assert!(rt; sure < data.len() && past == sure + 1);
            assert!(rt; fits_front(rt.alloc(), &front, &data[..sure], level, limit)?);
            assert!(rt; !fits_front(rt.alloc(), &front, &data[..past], level, limit)?);
        }
    }
    Ok(())
}

/// Version 1 has 152 bits at level L: the header takes 20, the indicator and the count of the Kanji
/// mode 12, and each pair 13, so that nine pairs fit.
#[test]
fn first_pairs_that_fit(rt: HostRuntime) -> QrResult<()> {
    let front = Front::with_header(SequenceHeader::new(1, 2, 0x61), Content::Bytes);
    let pairs = [0x93; 20];
    let (sure, past) = fitting_range(rt.alloc(), &front, &pairs, L, 1)?;
    assert!(rt; sure == 18 && past == 20);
    let (sure, past) = fitting_range(rt.alloc(), &front, &pairs[..18], L, 1)?;
    assert!(rt; sure == 18 && past == 19);
    Ok(())
}

/// 70 times a pair of the Kanji mode and seven digits, then a pair and four digits, take 4767 of
/// the 4768 bits of version 26 at level H after a header, and 5051 of the 5024 of version 27, whose
/// counts of characters are wider.
#[test]
fn part_that_a_greater_version_does_not_hold(rt: HostRuntime) -> QrResult<()> {
    let mut data = Vec::new(rt.alloc());
    for _ in 0..70 {
        data.extend_from_slice(b"\x93\xfa1234567")?;
    }
    data.extend_from_slice(b"\x93\xfa1234")?;
    let front = Front::with_header(SequenceHeader::new(1, 2, 0x61), Content::Bytes);
    for (limit, wanted) in [(25, false), (26, true), (27, true)] {
        assert!(rt; is_normal_number(limit) && data.len() <= 7089);
        let fits = fits_front(rt.alloc(), &front, &data, EcLevel::H, limit)?;
        assert!(rt; fits == wanted);
        let (sure, past) = fitting_range(rt.alloc(), &front, &data, EcLevel::H, limit)?;
        assert!(rt; (sure == data.len()) == wanted && (past > data.len()) == wanted);
    }
    let bits = encode_part(rt.alloc(), &data, 1, 2, 0x61, EcLevel::H, 27)?;
    assert!(rt; bits.version() == Version::Normal(26) && bits.payload_bits_len() == 4767);
    Ok(())
}

/// Positions, totals and greatest versions, with the error.
static REFUSED: [(u8, u8, i16, QrError); 7] = [
    (4, 3, 40, QrError::InvalidStructuredAppend { value: 4 }),
    (0, 3, 40, QrError::InvalidStructuredAppend { value: 0 }),
    (1, 17, 40, QrError::InvalidStructuredAppend { value: 17 }),
    (1, 1, 40, QrError::InvalidStructuredAppend { value: 1 }),
    (9, 1, 40, QrError::InvalidStructuredAppend { value: 1 }),
    (4, 3, 0, QrError::InvalidResourceLimits),
    (1, 3, 41, QrError::InvalidResourceLimits),
];

#[test]
fn refused_parts(rt: HostRuntime) {
    for (position, total, limit, wanted) in &REFUSED {
        let refused = encode_part(rt.alloc(), b"AB", *position, *total, 0x07, L, *limit);
        assert!(rt; refused.err() == Some(*wanted));
    }
}
