//! Cuts of texts into the fewest parts, and the symbols of the parts. At level L version 1 holds 152
//! bits (ISO/IEC 18004:2006, table 7), of which the header of a part takes 20: 132 are left, for
//! 9 Kanji (4 + 8 + 9 * 13), 15 ASCII characters (4 + 8 + 15 * 8), or 13 characters after the
//! designator of a part of ISO/IEC 8859 (12 + 4 + 8 + 13 * 8).
use crate::grids::read;
use plain_reader::Seen;
use qrcode_core::symbol::are_text_cuts;
use qrcode_core::types::{EcLevel, QrError};
use smallest_symbols::{smallest_text_cuts, smallest_text_sequence};
use std::alloc::Global;

/// Texts, with their cuts at level L in version 1.
static CUTS: [(&str, &[usize]); 10] = [
    ("", &[]),
    ("aaaaaaaaaaaaaaa", &[]),
    ("aaaaaaaaaaaaaaaa", &[15]),
    ("aaaaaaaaaaaaaaaaaaaaaaaaaaaaaaa", &[15, 30]),
    ("市北前倉東市北前倉", &[]),
    ("市北前倉東市北前倉東", &[27]),
    ("市北前倉東市北前倉東市北前倉東市北前倉", &[27, 54]),
    ("ééééééééééééé", &[]),
    ("éééééééééééééé", &[26]),
    ("aaaaaaaaaaaaaaa市北前倉東市北前倉é", &[13, 33]),
];

#[test]
fn makes_fewest_parts(rt: HostRuntime) {
    for (text, wanted) in CUTS {
        let cuts = smallest_text_cuts(rt.alloc(), text, EcLevel::L, 1);
        let cuts = cuts.ok().expect(&rt, "no cuts");
        assert_eq!(rt; cuts.as_slice(), wanted);
        assert!(rt; are_text_cuts(&cuts, text));
    }
}

/// Returns a text of this many Kanji.
fn kanji(alloc: Global, count: usize) -> Option<String> {
    let mut text = String::new(alloc);
    for place in 0..count {
        text.push_str("東").ok()?;
    }
    Some(text)
}

/// Sixteen parts hold 144 Kanji.
#[test]
fn makes_at_most_sixteen_parts(rt: HostRuntime) {
    let text = kanji(rt.alloc(), 144).expect(&rt, "no text");
    let cuts = smallest_text_cuts(rt.alloc(), text.as_str(), EcLevel::L, 1);
    let cuts = cuts.ok().expect(&rt, "no cuts");
    assert!(rt; cuts.len() == 15 && cuts[14] == 405);
    let text = kanji(rt.alloc(), 145).expect(&rt, "no text");
    let refused = smallest_text_cuts(rt.alloc(), text.as_str(), EcLevel::L, 1).err();
    assert!(rt; refused == Some(QrError::DataTooLong));
    for limit in [0, 41, -1] {
        let refused = smallest_text_cuts(rt.alloc(), "東", EcLevel::L, limit).err();
        assert!(rt; refused == Some(QrError::InvalidResourceLimits));
    }
}

/// Version 1 holds 72 bits at level H: 52 after a header, for three Kanji (4 + 8 + 3 * 13), and for no
/// character of four bytes in UTF-8 (12 + 4 + 8 + 32).
#[test]
fn refuses_what_no_part_holds(rt: HostRuntime) {
    let refused = smallest_text_cuts(rt.alloc(), "😀", EcLevel::H, 1).err();
    assert!(rt; refused == Some(QrError::DataTooLong));
    let cuts = smallest_text_cuts(rt.alloc(), "東東東東", EcLevel::H, 1);
    let cuts = cuts.ok().expect(&rt, "no cuts");
    assert_eq!(rt; cuts.as_slice(), [9].as_slice());
}

/// Returns what the plain reader reads from the symbols of a text in version 1 at level L.
fn seen_of(alloc: Global, text: &str, cuts: &[usize]) -> Option<Vec<Seen>> {
    if !are_text_cuts(cuts, text) {
        return None;
    }
    let mut all = Vec::new(alloc);
    let symbols = smallest_text_sequence(alloc, text, cuts, EcLevel::L, 1);
    for symbol in symbols.ok()? {
        all.push(read(alloc, symbol)?).ok()?;
    }
    Some(all)
}

/// The first part takes 20 + 4 + 8 + 9 * 13 bits, and the second 20 + 4 + 8 + 13. The exclusive or
/// of the bytes of the text in UTF-8 is 0.
#[test]
fn reads_two_parts_back(rt: HostRuntime) {
    let all = seen_of(rt.alloc(), CUTS[5].0, CUTS[5].1).expect(&rt, "not read");
    assert_eq!(rt; all.len(), 2);
    let rows: [(u8, usize, &[u8]); 2] = [
        (
            1,
            149,
            b"\x8e\x73\x96\x6b\x91\x4f\x91\x71\x93\x8c\x8e\x73\x96\x6b\x91\x4f\x91\x71",
        ),
        (2, 45, b"\x93\x8c"),
    ];
    for (seen, (position, payload, bytes)) in all.iter().zip(rows.iter()) {
        assert!(rt; seen.header == Some((*position, 2, 0)) && seen.designator.is_none());
        assert_eq!(rt; (seen.shape.number, seen.payload), (1, *payload));
        assert_eq!(rt; seen.bytes.as_slice(), *bytes);
    }
}

/// Each part has the designator that it needs, and each has one: `Grüße` takes 20 + 12 + 4 + 8 + 5 * 8
/// bits by that of part 1 of ISO/IEC 8859, the ASCII characters as many by any that there is, and
/// `Привет`, by that of part 5, 20 + 12 + 4 + 8 + 6 * 8. The exclusive or of the bytes of the text
/// in UTF-8 is 75 (hex).
#[test]
fn writes_each_part_by_itself(rt: HostRuntime) {
    let text = "Grüße aus Köln und Привет";
    let all = seen_of(rt.alloc(), text, &[7, 12, 22]).expect(&rt, "not read");
    let rows: [(u8, Option<u8>, usize, &[u8]); 4] = [
        (1, Some(3), 84, b"Gr\xFC\xDFe"),
        (2, None, 84, b" aus "),
        (3, Some(3), 116, b"K\xF6ln und "),
        (4, Some(7), 92, b"\xBF\xE0\xD8\xD2\xD5\xE2"),
    ];
    assert_eq!(rt; all.len(), 4);
    for (seen, (position, designator, payload, bytes)) in all.iter().zip(rows.iter()) {
        assert!(rt; seen.header == Some((*position, 4, 0x75)));
        assert!(rt; seen.designator.is_some() && seen.payload == *payload);
        assert!(rt; designator.is_none() || seen.designator == *designator);
        assert_eq!(rt; seen.bytes.as_slice(), *bytes);
    }
}

/// Returns the error of a sequence of sixteen letters, which take 12 + 16 * 8 bits.
fn refused(alloc: Global, cuts: &[usize], limit: i16) -> Option<QrError> {
    let text = "aaaaaaaaaaaaaaaa";
    if !are_text_cuts(cuts, text) {
        return None;
    }
    smallest_text_sequence(alloc, text, cuts, EcLevel::L, limit).err()
}

#[test]
fn refuses_sequences(rt: HostRuntime) {
    let one = refused(rt.alloc(), &[], 1);
    assert!(rt; one == Some(QrError::InvalidStructuredAppend { value: 1 }));
    let many = refused(rt.alloc(), &[0; 16], 1);
    assert!(rt; many == Some(QrError::InvalidStructuredAppend { value: 17 }));
    assert!(rt; refused(rt.alloc(), &[16], 1) == Some(QrError::DataTooLong));
    assert!(rt; refused(rt.alloc(), &[], 41) == Some(QrError::InvalidResourceLimits));
}
