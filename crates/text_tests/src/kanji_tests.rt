//! Tests of `character_sets`: characters of the standards, the ends of their rows, and the whole table by
//! a sum.
use character_sets::{char_of, kanji_of, shift_jis_of};

/// Numbers, bytes in Shift JIS and characters. The first two rows are the examples of
/// ISO/IEC 18004:2006, "Kanji mode"; the others are the first and the last characters of ranges in
/// JIS X 0208, and of its rows 1, 16, 17, 47, 48 and 84.
static CHARACTERS: [(u16, (u8, u8), char); 34] = [
    (0xd9f, (0x93, 0x5f), '点'),
    (0x1aaa, (0xe4, 0xaa), '茗'),
    (0x0, (0x81, 0x40), '\u{3000}'),
    (0xbc, (0x81, 0xfc), '◯'),
    (0xcf, (0x82, 0x4f), '０'),
    (0xd8, (0x82, 0x58), '９'),
    (0xe0, (0x82, 0x60), 'Ａ'),
    (0xf9, (0x82, 0x79), 'Ｚ'),
    (0x101, (0x82, 0x81), 'ａ'),
    (0x11a, (0x82, 0x9a), 'ｚ'),
    (0x11f, (0x82, 0x9f), 'ぁ'),
    (0x171, (0x82, 0xf1), 'ん'),
    (0x180, (0x83, 0x40), 'ァ'),
    (0x1be, (0x83, 0x7e), 'ミ'),
    (0x1c0, (0x83, 0x80), 'ム'),
    (0x1d6, (0x83, 0x96), 'ヶ'),
    (0x1df, (0x83, 0x9f), 'Α'),
    (0x1f6, (0x83, 0xb6), 'Ω'),
    (0x1ff, (0x83, 0xbf), 'α'),
    (0x216, (0x83, 0xd6), 'ω'),
    (0x240, (0x84, 0x40), 'А'),
    (0x260, (0x84, 0x60), 'Я'),
    (0x270, (0x84, 0x70), 'а'),
    (0x27e, (0x84, 0x7e), 'н'),
    (0x280, (0x84, 0x80), 'о'),
    (0x291, (0x84, 0x91), 'я'),
    (0x29f, (0x84, 0x9f), '─'),
    (0x2be, (0x84, 0xbe), '╂'),
    (0x59f, (0x88, 0x9f), '亜'),
    (0x5fc, (0x88, 0xfc), '蔭'),
    (0x600, (0x89, 0x40), '院'),
    (0x1172, (0x98, 0x72), '腕'),
    (0x119f, (0x98, 0x9f), '弌'),
    (0x1f24, (0xea, 0xa4), '熙'),
];

#[test]
fn has_characters(rt: HostRuntime) {
    for (number, bytes, c) in CHARACTERS {
        assert!(rt; char_of(number) == Some(c));
        assert!(rt; kanji_of(c) == Some(number));
        if char_of(number).is_some() {
            assert!(rt; shift_jis_of(number) == bytes);
        }
    }
}

/// Numbers that have no character: 7F, FD and FF of the first 192, after the signs, around
/// digits, letters, kana and lines, of the rows 9 to 15, after the first and the second level, and
/// the last of 13 bits and of 16.
static GAPS: [u16; 24] = [
    0x3f, 0xbd, 0xbf, 0x6d, 0xce, 0xd9, 0xdf, 0xfa, 0x11e, 0x172, 0x1bf, 0x1d7, 0x217, 0x27f,
    0x292, 0x2bf, 0x300, 0x59e, 0x1173, 0x119e, 0x1f25, 0x1f7f, 0x1fff, 0xffff,
];

/// What stands there in the tables of some vendors and not in those of others.
static LEFT_OUT: [(u16, char, char); 8] = [
    (0x1c, '―', '—'),
    (0x1f, '＼', '\\'),
    (0x20, '〜', '～'),
    (0x21, '‖', '∥'),
    (0x3c, '−', '－'),
    (0x51, '¢', '￠'),
    (0x52, '£', '￡'),
    (0x8a, '¬', '￢'),
];

#[test]
fn has_gaps(rt: HostRuntime) {
    for number in GAPS {
        assert!(rt; char_of(number).is_none());
    }
    for (number, here, there) in LEFT_OUT {
        assert!(rt; char_of(number).is_none());
        assert!(rt; kanji_of(here).is_none() && kanji_of(there).is_none());
    }
}

/// Characters of other sets: ASCII, ISO 8859, katakana of half width, a Kanji of JIS X 0212, an
/// emoji, and the first and last of Unicode.
#[test]
fn refuses_others(rt: HostRuntime) {
    for c in [
        '\0',
        ' ',
        'A',
        '¥',
        'é',
        '€',
        'ｱ',
        '丂',
        '\u{ffff}',
        '😀',
        '\u{10ffff}',
    ] {
        assert!(rt; kanji_of(c).is_none());
    }
}

/// How many characters there are, and a sum over all in their order, by iconv and by Python.
const COUNT: u32 = 6871;

const DIGEST: u32 = 1_197_561_442;

#[test]
fn has_all_characters(rt: HostRuntime) {
    let mut count = 0u32;
    let mut digest = 0u32;
    for number in 0..8192u16 {
        if let Some(c) = char_of(number) {
            count = count.wrapping_add(1);
            let both = (u32::from(number) << 16).wrapping_add(c as u32);
            digest = digest.wrapping_mul(65599).wrapping_add(both);
        }
    }
    assert_eq!(rt; count, COUNT);
    assert_eq!(rt; digest, DIGEST);
}
