//! Worked rows, by the tables of ISO/IEC 18004:2006: mode indicators of four bits; counts of 10, 9,
//! 8 and 8 bits in the versions 1 to 9; a designator of 12 bits. At level M the versions 1, 2 and 3
//! hold 128, 224 and 352 bits.

/// A text with the version at level M, the payload, the designator if one part of ISO/IEC 8859
/// alone has the characters, and the bytes.
pub(crate) type Row = (&'static str, usize, usize, Option<u8>, &'static [u8]);

/// Texts after at most one designator.
pub(crate) static ROWS: [Row; 14] = [
    // Kanji: 4 + 8 + 5 * 13.
    (
        "市北前倉東",
        1,
        77,
        None,
        b"\x8e\x73\x96\x6b\x91\x4f\x91\x71\x93\x8c",
    ),
    // Kanji: 4 + 8 + 7 * 13, and Alphanumeric: 4 + 9 + 2 * 11 + 6.
    (
        "東京都千代田区1-2-3",
        2,
        144,
        None,
        b"\x93\x8c\x8b\x9e\x93\x73\x90\xe7\x91\xe3\x93\x63\x8b\xe61-2-3",
    ),
    // Cyrillic: 12 + 4 + 8 + 27 * 8.
    (
        "Съешь ещё этих мягких булок",
        3,
        240,
        Some(7),
        b"\xc1\xea\xd5\xe8\xec \xd5\xe9\xf1 \xed\xe2\xd8\xe5 \xdc\xef\xd3\xda\xd8\xe5 \xd1\xe3\xdb\xde\xda",
    ),
    // Greek: 12 + 4 + 8 + 23 * 8.
    (
        "Ξεσκεπάζω την ψυχοφθόρα",
        2,
        208,
        Some(9),
        b"\xce\xe5\xf3\xea\xe5\xf0\xdc\xe6\xf9 \xf4\xe7\xed \xf8\xf5\xf7\xef\xf6\xe8\xfc\xf1\xe1",
    ),
    // Arabic: 12 + 4 + 8 + 5 * 8.
    ("مرحبا", 1, 64, Some(8), b"\xe5\xd1\xcd\xc8\xc7"),
    // Hebrew: 12 + 4 + 8 + 9 * 8.
    (
        "שלום עולם",
        1,
        96,
        Some(10),
        b"\xf9\xec\xe5\xed \xf2\xe5\xec\xed",
    ),
    // Thai: 12 + 4 + 8 + 6 * 8.
    ("สวัสดี", 1, 72, Some(13), b"\xca\xc7\xd1\xca\xb4\xd5"),
    // UTF-8: 12 + 4 + 8 + 12 * 8.
    (
        "\u{1f600} OK \u{1f600}",
        1,
        120,
        Some(26),
        b"\xf0\x9f\x98\x80 OK \xf0\x9f\x98\x80",
    ),
    // Of ISO/IEC 8859 only part 14, whose designator not every reader knows, has the second letter.
    // UTF-8: 12 + 4 + 8 + 4 * 8.
    ("Dŵr", 1, 56, Some(26), b"D\xc5\xb5r"),
    // A Thai letter, and a space without a break, which not every reader shows after the designator
    // of part 11. UTF-8: 12 + 4 + 8 + 5 * 8.
    ("ก\u{a0}", 1, 64, Some(26), b"\xe0\xb8\x81\xc2\xa0"),
    // Shift JIS: 12 + 4 + 8 + 13 * 8, which a Kanji segment would not make less.
    (
        "ﾊﾝｶｸ 全角 ABC",
        1,
        128,
        Some(20),
        b"\xca\xdd\xb6\xb8 \x91\x53\x8a\x70 ABC",
    ),
    // Bytes: 4 + 8 + 13 * 8.
    ("Hello, world!", 1, 116, None, b"Hello, world!"),
    // Numeric: 4 + 10 + 3 * 10 + 4.
    ("0123456789", 1, 48, None, b"0123456789"),
    // Alphanumeric: 4 + 9 + 6.
    ("A", 1, 19, None, b"A"),
];

/// Texts with the version at level M and the payload, of which more than one part of ISO/IEC 8859
/// has the characters, or whose data have no segment at all.
pub(crate) static PARTS: [(&str, usize, usize); 4] = [
    // 12 + 4 + 8 + 14 * 8.
    ("Grüße aus Köln", 2, 136),
    // 12 + 4 + 8 + 25 * 8, and Numeric: 4 + 10 + 3 * 10 + 4.
    ("Straße 12, 10115 Berlin: 0123456789", 3, 272),
    // 12 + 4 + 8 + 17 * 8.
    ("Zażółć gęślą jaźń", 2, 160),
    ("", 1, 0),
];

/// Texts with the version at level M that take two designators.
pub(crate) static CHANGES: [(&str, usize); 4] = [
    // UTF-8: 12 + 4 + 8 + 11 * 8, and a part of 8859: 12 + 4 + 8 + 11 * 8, which is 224.
    ("Œuvre d’été à Nîmes", 2),
    // UTF-8: 12 + 4 + 8 + 3 * 8, and Shift JIS with Kanji: 12 + 4 + 8 + 4 * 13, which is 124.
    ("你好，世界", 1),
    // Shift JIS: 12 + 4 + 8 + 9 * 8, and ASCII after another designator: 12 + 4 + 8 + 8, which is
    // 128.
    ("ﾊﾝｶｸ ｶﾀｶﾅ~", 1),
    // Two parts of 8859: 12 + 4 + 8 + 10 * 8, and 12 + 4 + 8 + 5 * 8, which is 168.
    ("Türkçe şığ ГОСТ", 2),
];
