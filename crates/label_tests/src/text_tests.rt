//! Tests of texts beyond ASCII, which are written in the fewest bits.
use crate::part_tests::has_details;
use crate::served::{draw_alike, ran, reports};
use qrcode_core::types::QrError;
use std::alloc::Global;

/// "ありがとう" at level L: the modules that the Rust crate `qrcode-core` 2.2.0 draws for one Kanji
/// segment in version 1. zbar reads them.
const THANKS: &str = "\
█▀▀▀▀▀█ ▄█ █▀ █▀▀▀▀▀█
█ ███ █ ▀█ ▄▀ █ ███ █
█ ▀▀▀ █ █  ▄█ █ ▀▀▀ █
▀▀▀▀▀▀▀ █▄█▄█ ▀▀▀▀▀▀▀
██ █▄ ▀▀▄▀█  ▄▀▀▀▄▀█ 
▄▀▄▀▄▀▀▄▀▀▀▄▀█▄▄▀▄▀▀█
     ▀▀ ▄  ▄▀ ▀▄▀██  
█▀▀▀▀▀█ ▀██▄▄▄ █▀█   
█ ███ █ ▄█▄█ ▀▀▀  ▀▄█
█ ▀▀▀ █ ▄█▄ ▀▄▄▄█   ▀
▀▀▀▀▀▀▀ ▀ ▀▀▀  ▀▀ ▀ ▀
";

/// The same for the ECI designator 26 and one Byte segment.
const THANKS_IN_UTF8: &str = "\
█▀▀▀▀▀█ ▄▄▄█▀ █▀▀▀▀▀█
█ ███ █ ▀████ █ ███ █
█ ▀▀▀ █ █▄ ▀  █ ▀▀▀ █
▀▀▀▀▀▀▀ █▄█▄█ ▀▀▀▀▀▀▀
█▀ ▀ ▄▀▀▄▄▀▄  ███ █▀▄
█▄   ▄▀█ █  ▄█▄▄▀  ▄▄
▀▀▀  ▀▀ ▄▀▀  ▀▄▄ █▄ ▀
█▀▀▀▀▀█ ▀▀██▀▄ ▄▀█▀█▄
█ ███ █ ▄▄▄▄▄▄▀ █▀█▀▄
█ ▀▀▀ █ ▄  ▄█▄█▄▀▄▀▄█
▀▀▀▀▀▀▀ ▀ ▀    ▀ ▀ ▀ 
";

/// Text that is not ASCII is in the segments that take the fewest bits, and as `text` in a Byte
/// segment, with the ECI designator of UTF-8.
#[test]
fn draws_text(rt: HostRuntime) {
    let (alloc, text) = (rt.alloc(), "ありがとう".as_bytes());
    let plain = ran(alloc, &["-f", "terminal", "-l", "L", "-q", "0"], text);
    assert!(rt; plain.has_written(THANKS.as_bytes()));
    let asked = ["-f", "terminal", "-l", "L", "-q", "0", "-c", "text"];
    assert!(rt; ran(alloc, &asked, text).has_written(THANKS_IN_UTF8.as_bytes()));
}

/// Returns the character in which light and dark modules are exchanged.
fn inverted(character: char) -> char {
    match character {
        '█' => ' ',
        ' ' => '█',
        '▀' => '▄',
        '▄' => '▀',
        other => other,
    }
}

/// Only text for a terminal can be inverted: the other formats reject the option
/// (`names_what_is_wrong`).
#[test]
fn inverts_text(rt: HostRuntime) {
    let words = ["-f", "terminal", "-l", "L", "--inverted", "-q", "0"];
    let answer = ran(rt.alloc(), &words, "ありがとう".as_bytes());
    assert!(rt; answer.status == 0);
    let text = str::from_utf8(&answer.label).unwrap_or("");
    assert!(rt; text.chars().eq(THANKS.chars().map(inverted)));
}

/// Texts at level M, with the number of bytes of their bitmaps, and of those in UTF-8. The least
/// numbers of bits are counted by hand from ISO/IEC 18004:2006, "Data encodation": five Kanji take
/// 77 of the 128 of version 1; 24 letters of ISO/IEC 8859-1 216 of the 224 of version 2, and 14 of
/// ISO/IEC 8859-5 136; 9 of ISO/IEC 8859-7 and four digits 124.
static BITMAPS: [(&str, usize, usize); 4] = [
    ("市北前倉東", 9 + 3 * 21, 9 + 4 * 25),
    ("déjà vu à l'hôtel Élysée", 9 + 4 * 25, 9 + 4 * 29),
    ("Москва, Россия", 9 + 4 * 25, 9 + 4 * 29),
    ("Ελληνικά 2026", 9 + 3 * 21, 9 + 4 * 25),
];

/// Whether the bitmaps of a text have these lengths.
fn has_lengths(alloc: Global, text: &str, length: usize, in_utf8: usize) -> bool {
    let words = ["-f", "pbm", "-s", "1", "-q", "0"];
    let asked = ["-f", "pbm", "-s", "1", "-q", "0", "-c", "text"];
    ran(alloc, &words, text.as_bytes()).has_length(length)
        && ran(alloc, &asked, text.as_bytes()).has_length(in_utf8)
}

#[test]
fn draws_the_smallest(rt: HostRuntime) {
    for (text, length, in_utf8) in BITMAPS.iter() {
        assert!(rt; has_lengths(rt.alloc(), text, *length, *in_utf8), "{text}");
    }
}

/// The details of texts. Versions and segments are computed by hand as in `part_tests`; the masks
/// are those that the Rust crate `qrcode-core` 2.2.0 chooses for these segments.
static SEGMENTS: [(&[&str], &str, &str); 4] = [
    (
        &[],
        "市北前倉東",
        "version 1, level M, mask 0, segments kanji 5, 21 modules",
    ),
    (
        &[],
        "Ελληνικά 2026",
        "version 1, level M, mask 1, segments eci 9 byte 9 numeric 4, 21 modules",
    ),
    (
        &[],
        "Москва, Россия",
        "version 2, level M, mask 0, segments eci 7 byte 14, 25 modules",
    ),
    (
        &["-c", "micro", "-l", "L"],
        "品番A1",
        "version M3, level L, mask 1, segments kanji 2 alphanumeric 2, 15 modules",
    ),
];

#[test]
fn details_of_texts(rt: HostRuntime) -> Result<(), QrError> {
    for (words, text, line) in SEGMENTS.iter() {
        assert!(rt;
            has_details(rt.alloc(), words, text.as_bytes(), line)?,
            "{line}"
        );
    }
    Ok(())
}

/// Each row has words, a character, how many of it are too many, and what is said. A Kanji takes 13
/// bits after 16, of a Micro symbol after 7, and up to version 9 after 12; a Greek or a Thai letter,
/// which has three bytes in UTF-8, takes 8 after 32, of which 12 are the designator's. How much there
/// is room for is in table 7 of ISO/IEC 18004:2006.
static LENGTHS: [(&[&str], &str, usize, &str); 6] = [
    (
        &["-l", "H"],
        "倉",
        785,
        "10221 bits, and level H up to version 40 has room for 10208 bits; it fits level Q; see --split",
    ),
    (
        &["-l", "L"],
        "倉",
        1818,
        "23650 bits, and level L up to version 40 has room for 23648 bits; see --split",
    ),
    (
        &["-l", "M", "--max-version", "9"],
        "倉",
        112,
        "1468 bits, and level M up to version 9 has room for 1456 bits; it fits level L; see --split",
    ),
    (
        &["-l", "L"],
        "α",
        2953,
        "23656 bits, and level L up to version 40 has room for 23648 bits; see --split",
    ),
    (
        &["-l", "L"],
        "ก",
        2953,
        "23656 bits, and level L up to version 40 has room for 23648 bits; see --split",
    ),
    (
        &["-l", "L", "-c", "micro"],
        "倉",
        10,
        "137 bits, and level L up to version M4 has room for 128 bits",
    ),
];

/// Returns whether a text of `count` times a character is too long, with this message, and a text
/// with one less is not.
fn is_too_long_by_one(
    alloc: Global,
    words: &[&str],
    character: &str,
    count: usize,
    said: &str,
) -> Result<bool, QrError> {
    let line = format!(in alloc; "data too long: {said}")?;
    let mut text: Vec<u8> = Vec::new(alloc);
    for _ in 1..count {
        text.extend_from_slice(character.as_bytes())?;
    }
    let fits = ran(alloc, words, &text).status == 0;
    text.extend_from_slice(character.as_bytes())?;
    Ok(fits && reports(alloc, words, &text, &line))
}

#[test]
fn says_how_many_bits(rt: HostRuntime) -> Result<(), QrError> {
    for (words, character, count, said) in LENGTHS.iter() {
        assert!(rt;
            is_too_long_by_one(rt.alloc(), words, character, *count, said)?,
            "{said}"
        );
    }
    Ok(())
}

/// At level L version 1 has 21 modules a side and room for 152 bits, of which nine pairs take
/// 12 + 117 in the Kanji mode, and 12 + 144 as bytes.
#[test]
fn draws_bytes_without_kanji(rt: HostRuntime) {
    let words = ["-f", "pbm", "-l", "L", "-s", "1", "-q", "0", "-c", "bytes"];
    let pairs = b"\x93_\x93_\x93_\x93_\x93_\x93_\x93_\x93_\x93_";
    assert!(rt; ran(rt.alloc(), &words, pairs).has_length(9 + 3 * 21));
    let without = ["-fpbm", "-lL", "-s1", "-q0", "-cbytes", "--no-kanji"];
    assert!(rt; ran(rt.alloc(), &without, pairs).has_length(9 + 4 * 25));
    assert!(rt; ran(rt.alloc(), &without, &pairs[1..]).has_length(9 + 3 * 21));
    assert!(rt; draw_alike(rt.alloc(), &words, b"\xFF9A1", &without, b"\xFF9A1"));
}
