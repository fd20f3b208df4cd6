//! Bytes without the Kanji mode, by the tables of ISO/IEC 18004:2006: mode indicators of four bits;
//! counts of 10, 9 and 8 bits in the versions 1 to 9. At level L the versions 1, 2, 9 and 10 hold
//! 152, 272, 1856 and 2192 bits.
use crate::grids::read;
use plain_reader::Level;
use qrcode_core::SymbolOptions;
use qrcode_core::symbol::Symbol;
use qrcode_core::traits::QrSymbol;
use qrcode_core::types::{EcLevel, QrError, Version};
use smallest_symbols::bytes_without_kanji;

/// Bytes with the version at level L, and the payload. 93 5F (hex) is a pair of the Kanji mode.
static ROWS: [(&[u8], usize, usize); 9] = [
    (b"", 1, 0),
    // Byte: 4 + 8 + 17 * 8, and one byte more.
    (b"\x93_\x93_\x93_\x93_\x93_\x93_\x93_\x93_a", 1, 148),
    (b"\x93_\x93_\x93_\x93_\x93_\x93_\x93_\x93_\x93_", 2, 156),
    // Byte: 4 + 8 + 2 * 8, and Numeric: 4 + 10 + 3 * 10 + 4.
    (b"\x93_0123456789", 1, 76),
    // Alphanumeric: 4 + 9 + 5 * 11, and Byte: 4 + 8 + 2 * 8.
    (b"ABCDEFGHIJ\x93_", 1, 96),
    // Byte: 4 + 8 + 6 * 8, for a Numeric segment of its own takes 14 bits and 10 for three digits.
    (b"\x93_123\xE0", 1, 60),
    // Byte: 4 + 8 + 4 * 8, and Alphanumeric: 4 + 9 + 8 * 11 + 6. With the pair 8A 41 it is 153.
    (b"\x80\x80\x80\x8AABCDEFGHIJKLMNOPQ", 1, 151),
    // Numeric: 4 + 10 + 13 * 10 + 7.
    (b"01234567890123456789012345678901234567890", 1, 151),
    (b"\xFF", 1, 20),
];

#[test]
fn reads_bytes_back(rt: HostRuntime) {
    let options = SymbolOptions::new(EcLevel::L);
    for (bytes, number, payload) in ROWS {
        let symbol = bytes_without_kanji(rt.alloc(), bytes, &options);
        let symbol = symbol.ok().expect(&rt, "no symbol");
        let seen = read(rt.alloc(), symbol).expect(&rt, "not read");
        assert_eq!(rt; (seen.shape.number, seen.payload), (number, payload));
        assert!(rt; seen.designator.is_none() && seen.header.is_none() && !seen.has_elements);
        assert_eq!(rt; seen.bytes.as_slice(), bytes);
    }
}

/// The same pairs are shorter in the Kanji mode: 4 + 8 + 9 * 13.
#[test]
fn differs_from_bytes(rt: HostRuntime) {
    let (pairs, options) = (ROWS[2].0, SymbolOptions::new(EcLevel::L));
    let symbol = Symbol::bytes_with(rt.alloc(), pairs, &options);
    let seen = read(rt.alloc(), symbol.ok().expect(&rt, "no symbol")).expect(&rt, "not read");
    assert_eq!(rt; (seen.shape.number, seen.payload), (1, 129));
}

/// Version 9 holds 230 bytes, and version 10, where the count has 16 bits, 271.
#[test]
fn counts_by_class(rt: HostRuntime) {
    let options = SymbolOptions::new(EcLevel::L);
    for (size, number) in [(230, 9), (231, 10), (271, 10), (272, 11)] {
        let bytes = Vec::from_elem(rt.alloc(), 0x93, size);
        let bytes = bytes.ok().expect(&rt, "no memory");
        let symbol = bytes_without_kanji(rt.alloc(), &bytes, &options);
        let symbol = symbol.ok().expect(&rt, "no symbol");
        assert!(rt; symbol.version() == Version::Normal(number));
    }
}

/// Seven bytes take 4 + 8 + 56 bits, of which 1-L to 1-H hold 152, 128, 104 and 72.
#[test]
fn keeps_to_options(rt: HostRuntime) {
    let bytes = &ROWS[2].0[..7];
    let strongest = SymbolOptions::new(EcLevel::L).with_strongest();
    let symbol = bytes_without_kanji(rt.alloc(), bytes, &strongest);
    let seen = read(rt.alloc(), symbol.ok().expect(&rt, "no symbol")).expect(&rt, "not read");
    assert!(rt; seen.shape.number == 1 && seen.level == Level::H);
    let symbol = bytes_without_kanji(rt.alloc(), &ROWS[2].0[..8], &strongest);
    let seen = read(rt.alloc(), symbol.ok().expect(&rt, "no symbol")).expect(&rt, "not read");
    assert!(rt; seen.shape.number == 1 && seen.level == Level::Q);
    let least = SymbolOptions::new(EcLevel::M).with_min_version(12);
    let symbol = bytes_without_kanji(rt.alloc(), bytes, &least);
    let symbol = symbol.ok().expect(&rt, "no symbol");
    assert!(rt; symbol.version() == Version::Normal(12));
    let refused = bytes_without_kanji(rt.alloc(), bytes, &least.with_max_version(11)).err();
    assert!(rt; refused == Some(QrError::InvalidResourceLimits));
    let first = SymbolOptions::new(EcLevel::H).with_max_version(1);
    let refused = bytes_without_kanji(rt.alloc(), &ROWS[2].0[..8], &first).err();
    assert!(rt; refused == Some(QrError::DataTooLong));
}

/// Version 40 holds 2953 bytes at level L, and 7089 digits.
#[test]
fn refuses_long_bytes(rt: HostRuntime) {
    let options = SymbolOptions::new(EcLevel::L);
    for (byte, size, fits) in [(0x93, 2953, true), (0x93, 2954, false), (b'1', 7090, false)] {
        let bytes = Vec::from_elem(rt.alloc(), byte, size);
        let bytes = bytes.ok().expect(&rt, "no memory");
        let answer = bytes_without_kanji(rt.alloc(), &bytes, &options);
        assert!(rt; answer.is_ok() == fits);
        assert!(rt; fits || answer.err() == Some(QrError::DataTooLong));
    }
}
