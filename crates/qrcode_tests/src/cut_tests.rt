//! Cuts into the fewest parts. The lengths follow from the capacities of ISO/IEC 18004:2006:
//! version 1 has 152 bits at level L and version 40 has 23648, of which the header of a part takes
//! 20, the designator of a text 12, and the indicator and the count of a Byte segment 12 in version
//! 1 and 20 in version 40.
use crate::grids::read;
use qrcode_core::symbol::{Symbol, are_cuts, are_text_cuts, best_cuts, best_text_cuts};
use qrcode_core::types::{EcLevel, QrError};
use std::alloc::AllocError;

/// Bytes, the greatest version, and the ends of all parts but the last: 15 bytes in version 1, 9
/// pairs of the Kanji mode, and 2951 bytes in version 40. What fits one symbol has no cuts.
static CUTS: [(&[u8], i16, &[usize]); 6] = [
    (b"", 1, &[]),
    (&[b'a'; 15], 1, &[]),
    (&[b'a'; 16], 1, &[15]),
    (&[b'a'; 31], 1, &[15, 30]),
    (
        b"\x93\x5f\x93\x5f\x93\x5f\x93\x5f\x93\x5f\x93\x5f\x93\x5f\x93\x5f\x93\x5f\x93\x5f",
        1,
        &[18],
    ),
    (&[b'a'; 5903], 40, &[2951, 5902]),
];

#[test]
fn cuts_are_the_fewest(rt: HostRuntime) {
    for (bytes, limit, expected) in CUTS {
        let cuts = best_cuts(rt.alloc(), bytes, EcLevel::L, limit);
        let cuts = cuts.ok().expect(&rt, "no cuts");
        assert_eq!(rt; cuts.as_slice(), expected);
        assert!(rt; are_cuts(&cuts, bytes.len()));
    }
}

/// 16 parts of 15 bytes fit version 1, and one byte more does not.
#[test]
fn sixteen_parts_at_most(rt: HostRuntime) {
    let cuts = best_cuts(rt.alloc(), &[b'a'; 240], EcLevel::L, 1);
    let cuts = cuts.ok().expect(&rt, "no cuts");
    assert_eq!(rt; cuts.len(), 15);
    let too_long = best_cuts(rt.alloc(), &[b'a'; 241], EcLevel::L, 1).err();
    assert!(rt; too_long == Some(QrError::DataTooLong));
    for limit in [0, 41, -1] {
        let refused = best_cuts(rt.alloc(), b"a", EcLevel::L, limit).err();
        assert!(rt; refused == Some(QrError::InvalidResourceLimits));
    }
}

/// 13 bytes of a text fit version 1, which are six characters of two bytes; the parts are read back
/// as the text.
#[test]
fn cuts_of_a_text_keep_characters(rt: HostRuntime) {
    let text = "ééééééééééééé";
    let cuts = best_text_cuts(rt.alloc(), text, EcLevel::L, 1);
    let cuts = cuts.ok().expect(&rt, "no cuts");
    assert_eq!(rt; cuts.as_slice(), [12, 24].as_slice());
    assert!(rt; are_text_cuts(&cuts, text) && !are_text_cuts(&[13], text));
    let symbols = Symbol::text_sequence(rt.alloc(), text, &cuts, EcLevel::L, 1);
    let mut bytes = Vec::new(rt.alloc());
    for symbol in symbols.ok().expect(&rt, "no symbols") {
        let seen = read(rt.alloc(), &symbol.into_colors()).expect(&rt, "not read");
        assert!(rt; seen.designator == Some(26) && seen.shape.number == 1);
        assert!(rt; bytes.extend_from_slice(&seen.bytes).is_ok());
    }
    assert_eq!(rt; bytes.as_slice(), text.as_bytes());
}

/// 113329 digits.
static DIGITS: [u8; 113_329] = [b'7'; 113_329];

/// After a header and the indicator and the count of the Numeric mode, 23610 bits of version 40 are
/// left at level L: 7083 digits, of which 16 parts have 113328.
#[test]
fn sixteen_parts_of_digits(rt: HostRuntime) {
    let cuts = best_cuts(rt.alloc(), &DIGITS[..113_328], EcLevel::L, 40);
    let cuts = cuts.ok().expect(&rt, "no cuts");
    assert_eq!(rt; cuts.len(), 15);
    assert!(rt; are_multiples(&cuts, 7083));
    let too_long = best_cuts(rt.alloc(), &DIGITS, EcLevel::L, 40).err();
    assert!(rt; too_long == Some(QrError::DataTooLong));
}

/// A character of four bytes takes 44 of the 40 bits that version 1 has left at level H, after a
/// header and a designator.
#[test]
fn character_that_fits_no_part(rt: HostRuntime) {
    let too_long = best_text_cuts(rt.alloc(), "\u{1f600}\u{1f600}", EcLevel::H, 1).err();
    assert!(rt; too_long == Some(QrError::DataTooLong));
    let cuts = best_text_cuts(rt.alloc(), "\u{3042}\u{3042}", EcLevel::H, 1);
    let cuts = cuts.ok().expect(&rt, "no cuts");
    assert_eq!(rt; cuts.as_slice(), [3].as_slice());
}

/// A character, the level, the greatest version, and the bytes of each part but the last, of texts
/// that are one run of it. A part has the bits of the version, less 20 of the header, 12 of the
/// designator, and 20 of the indicator and the count. The places are also those of a search that
/// plans each part that it tries.
static RUNS: [(&str, EcLevel, i16, usize); 16] = [
    ("\u{3042}", EcLevel::L, 40, 2949),
    ("\u{3042}", EcLevel::H, 40, 1269),
    ("\u{3042}", EcLevel::L, 27, 1461),
    ("\u{3042}", EcLevel::L, 20, 852),
    ("\u{3042}", EcLevel::H, 20, 378),
    ("\u{e9}", EcLevel::L, 40, 2948),
    ("\u{e9}", EcLevel::H, 40, 1268),
    ("\u{e9}", EcLevel::L, 27, 1460),
    ("\u{e9}", EcLevel::L, 20, 854),
    ("\u{e9}", EcLevel::H, 20, 378),
    ("\u{1f600}", EcLevel::L, 40, 2948),
    ("\u{1f600}", EcLevel::H, 40, 1268),
    ("\u{1f600}", EcLevel::L, 27, 1460),
    ("\u{1f600}", EcLevel::L, 20, 852),
    ("\u{1f600}", EcLevel::H, 20, 376),
    ("a", EcLevel::L, 40, 2949),
];

#[test]
fn cuts_of_one_long_run(rt: HostRuntime) -> Result<(), AllocError> {
    for (character, level, limit, size) in RUNS {
        assert!(rt; size < 3000 && character.len() <= 4);
        let mut text = String::new(rt.alloc());
        for _ in 0..2 * size + 1 {
            text.push_str(character)?;
        }
        let cuts = best_text_cuts(rt.alloc(), &text, level, limit);
        let cuts = cuts.ok().expect(&rt, "no cuts");
        assert_eq!(rt; cuts.len(), 2 * character.len());
        assert!(rt; are_multiples(&cuts, size));
    }
    Ok(())
}

/// Whether the places are the first multiples of a size.
fn are_multiples(places: &[usize], size: usize) -> bool {
    let mut wanted = size;
    for place in places {
        if *place != wanted {
            return false;
        }
        wanted = wanted.saturating_add(size);
    }
    true
}

/// Many short segments, and a long one in which the first part ends: 1999 bytes and 2279 digits
/// take 16012 and 7615 bits of the 23628 after a header.
#[test]
fn part_that_ends_in_a_long_run(rt: HostRuntime) -> Result<(), AllocError> {
    let mut bytes = Vec::new(rt.alloc());
    for _ in 0..500 {
        bytes.extend_from_slice(b"a1A1")?;
    }
    bytes.extend_from_slice(&[b'7'; 5089])?;
    let cuts = best_cuts(rt.alloc(), &bytes, EcLevel::L, 40);
    let cuts = cuts.ok().expect(&rt, "no cuts");
    assert_eq!(rt; cuts.as_slice(), [4278].as_slice());
    Ok(())
}
