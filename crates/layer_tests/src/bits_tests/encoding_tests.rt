//! Tests of counts, capacities and encoded data.

use super::started;
use qrcode_base::types::{EcLevel, Mode, QrError, QrResult, Version};
use qrcode_bits::bits::{
    Bits, EncodingModes, encode_auto, encode_auto_with_max_version, find_min_version,
};
use qrcode_bits::optimize::Segment;
use std::alloc::Global;
use std::process::Abort;

const ONE: Version = Version::Normal(1);

/// Returns `count` characters for which the mode is the least that can encode them.
pub fn text_of(alloc: Global, mode: Mode, count: usize) -> QrResult<Vec<u8>> {
    let mut text = Vec::new(alloc);
    for _place in 0..count {
        match mode {
            Mode::Numeric => text.push(b'7')?,
            Mode::Alphanumeric => text.push(b'A')?,
            Mode::Byte => text.push(b'a')?,
            Mode::Kanji => text.extend_from_slice(&[0x93, 0x5f])?,
        }
    }
    Ok(text)
}

/// Returns the result of pushing `count` characters into a stream, with the stream.
fn pushed(
    alloc: Global,
    mut bits: Bits,
    mode: Mode,
    count: usize,
) -> QrResult<(QrResult<()>, Bits)> {
    let text = text_of(alloc, mode, count)?;
    let answer = match mode {
        Mode::Numeric => bits.push_numeric_data(&text),
        Mode::Alphanumeric => bits.push_alphanumeric_data(&text),
        Mode::Byte => bits.push_byte_data(&text),
        Mode::Kanji => bits.push_kanji_data(&text),
    };
    Ok((answer, bits))
}

/// Versions and modes, with the greatest count that the field can hold and the bits that so long a
/// text takes.
static COUNTS: [(Version, Mode, usize, usize); 4] = [
    (ONE, Mode::Byte, 255, 2052),
    (ONE, Mode::Numeric, 1023, 3424),
    (Version::Micro(4), Mode::Byte, 31, 256),
    (Version::Micro(3), Mode::Kanji, 7, 96),
];

#[test]
fn counts_that_fit_their_field(rt: HostRuntime) -> QrResult<()> {
    for row in &COUNTS {
        takes_all(&rt, rt.alloc(), row)?;
        takes_no_more(&rt, rt.alloc(), row)?;
    }
    Ok(())
}

/// Checks that the greatest count succeeds.
fn takes_all(rt: &impl Abort, alloc: Global, row: &(Version, Mode, usize, usize)) -> QrResult<()> {
    let (version, mode, most, len) = *row;
    let (answer, bits) = pushed(alloc, started(alloc, version), mode, most)?;
    assert_eq!(rt;
        (answer, bits.len(), bits.payload_bits_len()),
        (Ok(()), len, len)
    );
    assert_eq!(rt; bits.encoding_modes(), EncodingModes::from_mode(mode));
    Ok(())
}

/// Checks that one character more fails and leaves the stream empty.
fn takes_no_more(
    rt: &impl Abort,
    alloc: Global,
    row: &(Version, Mode, usize, usize),
) -> QrResult<()> {
    let (version, mode, most, _) = *row;
    let (answer, bits) = pushed(alloc, started(alloc, version), mode, more_than(most))?;
    assert_eq!(rt;
        (answer, bits.len(), bits.payload_bits_len()),
        (Err(QrError::DataTooLong), 0, 0)
    );
    assert!(rt; bits.encoding_modes().is_empty() && bits.version() == version);
    Ok(())
}

/// Pushes eight digits in version 1, ends the stream `times` times at level M, and returns the
/// capacity, the payload, and the bits that are left.
fn ended(alloc: Global, times: usize) -> QrResult<(usize, usize, usize)> {
    let mut bits = Bits::new(alloc, ONE);
    bits.push_numeric_data(b"01234567")?;
    for _time in 0..times {
        bits.push_terminator(EcLevel::M)?;
    }
    Ok((
        bits.max_len(EcLevel::M)?,
        bits.payload_bits_len(),
        bits.remaining_capacity_bits(EcLevel::M)?,
    ))
}

#[test]
fn capacities(rt: HostRuntime) -> QrResult<()> {
    for (times, payload, room) in [(0usize, 41usize, 87usize), (1, 41, 87), (2, 128, 0)] {
        assert_eq!(rt; ended(rt.alloc(), times)?, (128, payload, room));
    }
    Ok(())
}

#[test]
fn new_bits_are_empty(rt: HostRuntime) {
    let bits = Bits::new(rt.alloc(), ONE);
    assert!(rt; bits.is_empty() && bits.version() == ONE && bits.encoding_modes().is_empty());
}

#[test]
fn lacking_versions_have_no_capacity(rt: HostRuntime) {
    let none = Bits::new(rt.alloc(), Version::Normal(0)).max_len(EcLevel::L);
    assert!(rt; none == Err(lacking(Version::Normal(0), EcLevel::L)));
    let none = Bits::new(rt.alloc(), Version::Micro(1)).remaining_capacity_bits(EcLevel::M);
    assert!(rt; none == Err(lacking(Version::Micro(1), EcLevel::M)));
}

/// Returns the error for a version that lacks a level.
fn lacking(version: Version, ec_level: EcLevel) -> QrError {
    QrError::InvalidVersion { version, ec_level }
}

#[test]
fn least_versions_of_lengths(rt: HostRuntime) {
    for (length, number) in [(0, 1), (152, 1), (153, 2), (23648, 40), (23649, 40)] {
        assert!(rt; find_min_version(length, EcLevel::L) == Version::Normal(number));
    }
}

const TEXT: [u8; 4] = [0xff, 0, 0xa5, 0x3c];

/// Pushes bytes after a number of one bits, all in one push.
fn whole(alloc: Global, offset: usize, ones: usize) -> QrResult<Bits> {
    let mut bits = Bits::new(alloc, ONE);
    bits.push_number_checked(offset, ones)?;
    bits.push_byte_data(&TEXT)?;
    Ok(bits)
}

/// Pushes the same bit by bit.
fn single(alloc: Global, offset: usize, ones: usize) -> QrResult<Bits> {
    let mut bits = Bits::new(alloc, ONE);
    bits.push_number_checked(offset, ones)?;
    bits.push_number_checked(12, 0x404)?;
    for byte in TEXT {
        for place in 0..8usize {
            bits.push_number_checked(1, usize::from(byte) >> (7 - place) & 1)?;
        }
    }
    Ok(bits)
}

#[test]
fn bytes_at_each_offset(rt: HostRuntime) {
    for offset in 0..8usize {
        let ones = (1 << offset) - 1;
        let bits = whole(rt.alloc(), offset, ones).expect(&rt, "no bits");
        assert_eq!(rt; bits.len(), offset + 44);
        let same = single(rt.alloc(), offset, ones).expect(&rt, "no bits");
        assert!(rt; bits.into_bytes().as_slice() == same.into_bytes().as_slice());
    }
}

/// Returns the version of encoded data and its bits before the terminator.
pub fn taken(bits: QrResult<Bits>) -> QrResult<(Version, usize)> {
    let bits = bits?;
    Ok((bits.version(), bits.payload_bits_len()))
}

/// Numbers of letters and greatest versions, with the version and the bits at level L.
static LETTERS: [(usize, i16, QrResult<(Version, usize)>); 8] = [
    (17, 1, Ok((ONE, 148))),
    (18, 1, Err(QrError::DataTooLong)),
    (1, 0, Err(QrError::InvalidResourceLimits)),
    (1, 41, Err(QrError::InvalidResourceLimits)),
    (230, 40, Ok((Version::Normal(9), 1852))),
    (231, 40, Ok((Version::Normal(10), 1868))),
    (2953, 40, Ok((Version::Normal(40), 23644))),
    (2954, 40, Err(QrError::DataTooLong)),
];

#[test]
fn smallest_versions(rt: HostRuntime) -> QrResult<()> {
    for (count, limit, wanted) in &LETTERS {
        let letters = text_of(rt.alloc(), Mode::Byte, *count)?;
        let bits = encode_auto_with_max_version(rt.alloc(), &letters, EcLevel::L, *limit);
        assert!(rt; taken(bits) == *wanted);
    }
    Ok(())
}

/// Returns the version and the bits that `count` digits take at level L.
fn digits_taken(alloc: Global, count: usize) -> QrResult<(Version, usize)> {
    taken(encode_auto(alloc, &text_of(alloc, Mode::Numeric, count)?, EcLevel::L))
}

#[test]
fn most_digits(rt: HostRuntime) {
    assert!(rt; digits_taken(rt.alloc(), 7090) == Err(QrError::DataTooLong));
    assert!(rt; digits_taken(rt.alloc(), 7089) == Ok((Version::Normal(40), 23648)));
}

/// Encoded data: version, payload and bytes.
pub type Encoded = (Version, usize, &'static [u8]);

/// Returns whether encoded data is as expected.
pub fn is_encoded(bits: Bits, wanted: &Encoded) -> bool {
    let (version, payload, bytes) = *wanted;
    bits.version() == version
        && bits.payload_bits_len() == payload
        && bits.into_bytes().as_slice() == bytes
}

const HELLO_WORLD: &[u8] = &[
    0x20, 0x5b, 0x0b, 0x78, 0xd1, 0x72, 0xdc, 0x4d, 0x43, 0x40, 0xec, 0x11, 0xec, 0x11, 0xec, 0x11,
];

const NOTHING: &[u8] = &[
    0, 0xec, 0x11, 0xec, 0x11, 0xec, 0x11, 0xec, 0x11, 0xec, 0x11, 0xec, 0x11, 0xec, 0x11, 0xec,
    0x11, 0xec, 0x11,
];

#[test]
fn encoded_bytes(rt: HostRuntime) -> QrResult<()> {
    let bits = encode_auto(rt.alloc(), b"HELLO WORLD", EcLevel::M)?;
    assert!(rt; is_encoded(bits, &(ONE, 74, HELLO_WORLD)));
    let bits = encode_auto(rt.alloc(), b"", EcLevel::L)?;
    assert!(rt; bits.encoding_modes().is_empty());
    assert!(rt; is_encoded(bits, &(ONE, 0, NOTHING)));
    Ok(())
}

/// The smallest version of each level for the same payload, and its number of codewords.
static HELLO_WORLDS: [(EcLevel, i16, usize); 4] = [
    (EcLevel::L, 1, 19),
    (EcLevel::M, 1, 16),
    (EcLevel::Q, 1, 13),
    (EcLevel::H, 2, 16),
];

/// The same payload at all four levels, in the smallest version of each. The original crate returns
/// the same.
#[test]
fn hello_world_at_each_level(rt: HostRuntime) -> QrResult<()> {
    for (level, number, len) in &HELLO_WORLDS {
        let bits = encode_auto(rt.alloc(), b"HELLO WORLD", *level)?;
        assert_eq!(rt;
            (bits.version(), bits.payload_bits_len()),
            (Version::Normal(*number), 74)
        );
        assert!(rt; is_hello_world(&bits.into_bytes(), *len));
    }
    Ok(())
}

/// Returns whether there are `len` bytes: the segment `HELLO WORLD`, and then EC and 11 (hex)
/// in turn.
fn is_hello_world(bytes: &[u8], len: usize) -> bool {
    let mut pads = bytes.iter().enumerate().skip(10);
    bytes.len() == len
        && bytes.starts_with(&HELLO_WORLD[..10])
        && pads.all(|(place, byte)| *byte == if place % 2 == 0 { 0xec } else { 0x11 })
}

/// Returns `count` plus one.
pub fn more_than(count: usize) -> usize {
    count.saturating_add(1)
}

/// Texts in UTF-8, with what the original crate encodes them as at level L.
static UTF_8: [(&str, Encoded); 3] = [
    (
        "na\u{ef}ve caf\u{e9} 12",
        (
            ONE,
            132,
            &[
                0x40, 0xf6, 0xe6, 0x1c, 0x3a, 0xf7, 0x66, 0x52, 0x06, 0x36, 0x16, 0x6c, 0x3a, 0x92,
                0x03, 0x13, 0x20, 0xec, 0x11,
            ],
        ),
    ),
    (
        "\u{65e5}\u{672c}\u{8a9e}",
        (
            ONE,
            84,
            &[
                0x40, 0x9e, 0x69, 0x7a, 0x5e, 0x69, 0xca, 0xce, 0x8a, 0xa9, 0xe0, 0xec, 0x11, 0xec,
                0x11, 0xec, 0x11, 0xec, 0x11,
            ],
        ),
    ),
    (
        "\u{20ac}50 Z\u{fc}rich 2024",
        (
            ONE,
            152,
            &[
                0x40, 0xee, 0x28, 0x2a, 0xc3, 0x53, 0x02, 0x05, 0xac, 0x3b, 0xc7, 0x26, 0x96, 0x36,
                0x82, 0x01, 0x01, 0x0c, 0xa4,
            ],
        ),
    ),
];

#[test]
fn texts_in_utf_8(rt: HostRuntime) -> QrResult<()> {
    for (text, wanted) in &UTF_8 {
        let bits = encode_auto(rt.alloc(), text.as_bytes(), EcLevel::L)?;
        assert!(rt; is_encoded(bits, wanted), "at {text}");
    }
    Ok(())
}

/// Two segments of digits.
static TWO: [Segment; 2] = [
    Segment {
        mode: Mode::Numeric,
        begin: 0,
        end: 2,
    },
    Segment {
        mode: Mode::Numeric,
        begin: 2,
        end: 3,
    },
];

#[test]
fn segments_up_to_a_refusal(rt: HostRuntime) -> QrResult<()> {
    let mut bits = Bits::new(rt.alloc(), ONE);
    let refusal = bits.push_segments(b"12a", TWO.iter().copied());
    let invalid = QrError::InvalidCharacter {
        position: 0,
        byte: 0x61,
    };
    assert!(rt; refusal == Err(invalid));
    assert!(rt;
        bits.len() == 21 && bits.encoding_modes() == EncodingModes::from_mode(Mode::Numeric)
    );
    assert!(rt; bits.into_bytes().as_slice() == [0x10, 0x08, 0x60].as_slice());
    Ok(())
}

#[test]
fn modes_of_a_plan(rt: HostRuntime) {
    let mut bits = Bits::new(rt.alloc(), ONE);
    assert!(rt; bits.push_optimal_data(b"ABC123abcd") == Ok(()));
    assert!(rt; bits.len() == 90);
    has_two_modes(&rt, rt.alloc(), bits.encoding_modes());
}

/// Checks that the modes are Alphanumeric and Byte.
fn has_two_modes(rt: &impl Abort, alloc: Global, modes: EncodingModes) {
    assert!(rt; modes.len() == 2 && modes.contains(Mode::Byte) && modes.iter().len() == 2);
    let modes: Vec<Mode> = modes.iter().collect(alloc).expect(rt, "memory");
    assert!(rt; modes.as_slice() == [Mode::Alphanumeric, Mode::Byte].as_slice());
}
