//! Tests of `character_sets`: characters of each part of ISO/IEC 8859, of Shift JIS and of JIS X
//! 0208, and all parts by a sum.
use character_sets::{byte_of, char_of_byte, is_part, pair_of, part_bytes};

/// A designator, a byte and its character: of each part, the parts 1 to 9, 11, 13, 15 and 16.
static PARTS: [(u32, u8, char); 28] = [
    (3, 0xa0, '\u{a0}'),
    (3, 0xe9, 'é'),
    (3, 0xff, 'ÿ'),
    (4, 0xb3, 'ł'),
    (4, 0xf5, 'ő'),
    (5, 0xb1, 'ħ'),
    (5, 0xf8, 'ĝ'),
    (6, 0xba, 'ē'),
    (6, 0xbf, 'ŋ'),
    (7, 0xb6, 'Ж'),
    (7, 0xef, 'я'),
    (7, 0xf0, '№'),
    (8, 0xc7, 'ا'),
    (8, 0xe5, 'م'),
    (9, 0xd9, 'Ω'),
    (9, 0xe1, 'α'),
    (10, 0xe0, 'א'),
    (10, 0xfa, 'ת'),
    (11, 0xdd, 'İ'),
    (11, 0xf0, 'ğ'),
    (13, 0xa1, 'ก'),
    (13, 0xf9, '๙'),
    (15, 0xa5, '„'),
    (15, 0xfe, 'ž'),
    (17, 0xa4, '€'),
    (17, 0xbd, 'œ'),
    (18, 0xa4, '€'),
    (18, 0xba, 'ș'),
];

#[test]
fn has_characters_of_parts(rt: HostRuntime) {
    for (designator, byte, c) in PARTS {
        assert!(rt; is_part(designator));
        assert!(rt; char_of_byte(byte, Some(designator)) == Some(c));
        assert!(rt; byte_of(c, Some(designator)) == Some(byte));
        assert!(rt; char_of_byte(b'A', Some(designator)) == Some('A'));
        assert!(rt; char_of_byte(byte, None).is_none() && byte_of(c, None).is_none());
    }
}

#[test]
fn has_bytes_in_all_parts(rt: HostRuntime) {
    for (designator, byte, c) in PARTS {
        assert!(rt; c >= '\u{80}');
        let bytes = part_bytes(c);
        for column in 0..16 {
            let number = column as u32 + 3;
            assert!(rt; bytes[column] == byte_of(c, Some(number)).unwrap_or(0));
            assert!(rt; number != designator || bytes[column] == byte);
        }
    }
    assert!(rt; part_bytes('東') == [0; 16]);
}

/// Bytes with no character: controls, gaps of the parts 3, 6, 7, 8 and 11, those of the parts 7 and 8
/// of which editions differ, and of part 11 the no-break space, for which a reader shows none.
static GAPS: [(u32, u8); 20] = [
    (3, 0x80),
    (18, 0x9f),
    (5, 0xa5),
    (5, 0xf0),
    (8, 0xa1),
    (8, 0xdb),
    (9, 0xa1),
    (9, 0xa2),
    (9, 0xa4),
    (9, 0xa5),
    (9, 0xaa),
    (9, 0xd2),
    (9, 0xff),
    (10, 0xa1),
    (10, 0xaf),
    (10, 0xfd),
    (10, 0xfe),
    (13, 0xa0),
    (13, 0xdb),
    (13, 0xff),
];

/// Designators of other sets, 12 and 16 of the parts 10 and 14, which not every reader knows, and
/// numbers that are no designator.
static OTHERS: [u32; 11] = [0, 2, 12, 14, 16, 19, 21, 25, 27, 899, u32::MAX];

#[test]
fn has_gaps(rt: HostRuntime) {
    for (designator, byte) in GAPS {
        assert!(rt; char_of_byte(byte, Some(designator)).is_none());
    }
    for designator in OTHERS {
        assert!(rt; !is_part(designator));
        assert!(rt; char_of_byte(b'A', Some(designator)).is_none());
        assert!(rt; byte_of('A', Some(designator)).is_none());
    }
}

/// JIS X 0201: the first and last katakana, and the two bytes that are no ASCII there.
#[test]
fn has_shift_jis(rt: HostRuntime) {
    assert!(rt; char_of_byte(0xa1, Some(20)) == Some('｡'));
    assert!(rt; byte_of('ｱ', Some(20)) == Some(0xb1));
    assert!(rt; byte_of('ﾟ', Some(20)) == Some(0xdf));
    assert!(rt; byte_of('A', Some(20)) == Some(0x41));
    for byte in [0x5c, 0x7e, 0x80, 0x81, 0xa0, 0xe0, 0xff] {
        assert!(rt; char_of_byte(byte, Some(20)).is_none());
    }
    for c in ['\\', '~', '¥', '‾', '亜', 'é', '😀'] {
        assert!(rt; byte_of(c, Some(20)).is_none());
    }
}

/// The examples of ISO/IEC 18004:2006, "Kanji mode", and characters that the mode has not.
#[test]
fn has_pairs(rt: HostRuntime) {
    assert!(rt; pair_of('点') == Some((0x93, 0x5f)));
    assert!(rt; pair_of('茗') == Some((0xe4, 0xaa)));
    for c in ['A', 'ｱ', '～', '〜', '丂', '😀'] {
        assert!(rt; pair_of(c).is_none());
    }
}

/// ASCII is what a byte is without a designator, and what a single byte is in UTF-8.
#[test]
fn has_ascii(rt: HostRuntime) {
    for designator in [None, Some(26)] {
        for byte in 0..128u8 {
            let c = char::from(byte);
            assert!(rt; char_of_byte(byte, designator) == Some(c));
            assert!(rt; byte_of(c, designator) == Some(byte));
        }
        assert!(rt; char_of_byte(0x80, designator).is_none());
        assert!(rt; byte_of('é', designator).is_none());
    }
}

/// How many characters all parts have, and a sum over them in their order, by iconv and by Python.
const COUNT: u32 = 1140;

const DIGEST: u32 = 2_909_230_820;

#[test]
fn has_all_characters(rt: HostRuntime) {
    let mut count = 0u32;
    let mut digest = 0u32;
    let mut place = 0u32;
    for designator in 3..19u32 {
        for byte in 0xa0..=0xffu8 {
            if let Some(c) = char_of_byte(byte, Some(designator)) {
                count = count.wrapping_add(1);
                let both = (place << 16).wrapping_add(c as u32);
                digest = digest.wrapping_mul(65599).wrapping_add(both);
            }
            place = place.wrapping_add(1);
        }
    }
    assert_eq!(rt; count, COUNT);
    assert_eq!(rt; digest, DIGEST);
}
